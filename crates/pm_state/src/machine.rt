//! Everything that the machine remembers, and what each line of its table does to it.

ghost use Rattle.std.specs.Prelude.{◌≡◌, ◌+◌, ◌<◌, ◌≤◌, ◌++◌, length};
ghost use Rattle.pm_modes.specs.Strength.{is_immediate};
ghost use Rattle.pm_state.specs.{Exits.{crash_rule, startup_exited, checkpointer_exited, exited_by, less_one, redo_ended, unless_normal}, Machine.{IsCounted, IsNotGrown}, Requests.{asked_with, ticked_at}};

use crate::action::{Action, Actions, Line};
use pm_admit::PmState;
use pm_exit::{Class, Kind, Status, class};
use pm_modes::Mode;
use pm_supervisor::{Ending, Limits, Reason};

/// How long children have once they are told to end at once, in milliseconds.
const PATIENCE_MS: u64 = 5_000;

/// How far the startup child is.
#[derive(Clone, Copy, Debug, PartialEq, Eq)]
pub(crate) enum StartupStatus {
    /// There is none.
    NotRunning,
    /// It is there.
    Running,
    /// It is there and was told to end at once.
    Signalled,
}

/// Everything that the machine remembers.
#[derive(Clone, Copy, Debug, PartialEq, Eq)]
pub(crate) struct Machine {
    pub(crate) limits: Limits,
    pub(crate) state: PmState,
    /// The shutdown request that stands.
    pub(crate) shutdown: Option<Mode>,
    /// A crash was noted, and the server hasn't recovered since.
    pub(crate) fatal: bool,
    /// Connections are allowed.
    pub(crate) conns: bool,
    pub(crate) startup: StartupStatus,
    /// How many backends and workers are there.
    pub(crate) children: u32,
    /// How many children are there that refuse a connection.
    pub(crate) dead_ends: u32,
    pub(crate) checkpointer: bool,
    pub(crate) writer: bool,
    /// When every child was told to end at once, in milliseconds: what is left after five seconds is killed.
    pub(crate) abort_at: Option<u64>,
    /// The end was given.
    pub(crate) ended: bool,
    /// A start was given and isn't reported yet.
    pub(crate) startup_due: bool,
    pub(crate) checkpointer_due: bool,
    pub(crate) writer_due: bool,
}

/// The end of a child.
#[derive(Clone, Copy, Debug, PartialEq, Eq)]
pub(crate) struct Exit {
    pub(crate) pid: u32,
    pub(crate) kind: Kind,
    pub(crate) status: Status,
    /// The moment at which it was found, in milliseconds.
    pub(crate) now: u64,
}

impl Machine {
    /// What a crash does.
    #[tactic(auto, unfolding(crate::specs::Exits::crash_rule))]
    fn crash(&mut self, exit: Exit) -> Actions
        ensures machine { self.new ≡ (crash_rule self.old exit).after }
        ensures counts { IsNotGrown self.old self.new }
        ensures acts { result ≡ (crash_rule self.old exit).acts }
    {
        let mut acts = Actions::none();
        let is_immediate = self.is_immediate();
        if !self.fatal && !is_immediate {
            acts.push(Action::Say(exit.line()));
            acts.push(Action::Say(Line::TerminatingOthers));
            acts.push(Action::Quit(Reason::Crash));
            self.startup = self.startup.signalled();
        }
        if !is_immediate {
            self.fatal = true;
        }
        if matches!(
            self.state,
            PmState::Run | PmState::StopBackends | PmState::Shutdown
        ) {
            self.state = PmState::WaitBackends;
        }
        if self.abort_at.is_none() {
            self.abort_at = Some(exit.now);
        }
        acts
    }

    /// The data are up to date: connections are served.
    fn redo_ended(&mut self) -> Actions
        ensures machine { self.new ≡ (redo_ended self.old).after }
        ensures counts { IsNotGrown self.old self.new }
        ensures acts { result ≡ (redo_ended self.old).acts }
    {
        self.startup = StartupStatus::NotRunning;
        self.state = PmState::Run;
        self.fatal = false;
        self.abort_at = None;
        self.conns = true;
        self.checkpointer_due = true;
        self.writer_due = true;
        let mut acts = Actions::none();
        acts.push(Action::Ready);
        acts.push(Action::Start(Kind::Checkpointer));
        acts.push(Action::Start(Kind::Writer));
        acts.push(Action::Say(Line::Ready));
        acts
    }

    /// The end of the startup child.
    #[tactic(auto, unfolding(crate::specs::Exits::startup_exited))]
    fn startup_exited(&mut self, exit: Exit) -> Actions
        ensures machine { self.new ≡ (startup_exited self.old exit).after }
        ensures counts { IsNotGrown self.old self.new }
        ensures acts { result ≡ (startup_exited self.old exit).acts }
    {
        let was_running = matches!(self.startup, StartupStatus::Running);
        self.startup = StartupStatus::NotRunning;
        match exit.status {
            Status::Code(0 | 1) if self.shutdown.is_some() => {
                if !matches!(self.state, PmState::StopBackends) {
                    self.state = PmState::WaitBackends;
                }
                Actions::none()
            }
            Status::Code(0) => self.redo_ended(),
            _ if was_running && matches!(self.state, PmState::Startup) => {
                self.ended = true;
                let mut acts = Actions::none();
                acts.push(Action::Say(exit.line()));
                acts.push(Action::Say(Line::AbortingStartup));
                acts.push(Action::End(Ending::StartupFailed));
                acts
            }
            _ => {
                if matches!(self.state, PmState::Startup) {
                    self.state = PmState::WaitBackends;
                }
                self.crash(exit)
            }
        }
    }

    /// The end of the checkpointer.
    fn checkpointer_exited(&mut self, exit: Exit, class: Class) -> Actions
        ensures machine { self.new ≡ (checkpointer_exited class self.old exit).after }
        ensures counts { IsNotGrown self.old self.new }
        ensures acts { result ≡ (checkpointer_exited class self.old exit).acts }
    {
        match class {
            Class::Normal => {
                self.state = PmState::WaitDeadEnd;
                Actions::none()
            }
            _ => self.crash(exit),
        }
    }

    /// The end of a child after which the machine only has to look for a crash.
    fn unless_normal(&mut self, exit: Exit, class: Class) -> Actions
        ensures machine { self.new ≡ (unless_normal class self.old exit).after }
        ensures counts { IsNotGrown self.old self.new }
        ensures acts { result ≡ (unless_normal class self.old exit).acts }
    {
        match class {
            Class::Normal => Actions::none(),
            _ => self.crash(exit),
        }
    }

    /// The end of a child.
    pub(crate) fn exited(&mut self, exit: Exit, was_active: bool) -> Actions
        requires { IsCounted self.old exit.kind }
        ensures machine { self.new ≡ (exited_by exit.kind self.old exit was_active).after }
        ensures counts { IsNotGrown self.old self.new }
        ensures acts { result ≡ (exited_by exit.kind self.old exit was_active).acts }
    {
        let in_shutdown = matches!(self.state, PmState::Shutdown);
        let found = class(exit.kind, in_shutdown, was_active, exit.status);
        match exit.kind {
            Kind::Startup => self.startup_exited(exit),
            Kind::Checkpointer => {
                self.remove(exit.kind);
                self.checkpointer_exited(exit, found)
            }
            _ => {
                self.remove(exit.kind);
                self.unless_normal(exit, found)
            }
        }
    }

    /// A child of this kind is there no more.
    fn remove(&mut self, kind: Kind)
        requires { IsCounted self.old kind }
        ensures machine { self.new ≡ less_one kind self.old }
        ensures counts { IsNotGrown self.old self.new }
    {
        match kind {
            Kind::Startup => self.startup = StartupStatus::NotRunning,
            Kind::Checkpointer => self.checkpointer = false,
            Kind::Writer => self.writer = false,
            Kind::Worker | Kind::Backend => self.children -= 1,
            Kind::DeadEnd => self.dead_ends -= 1,
        }
    }

    /// A shutdown request that is stronger than what stood.
    pub(crate) fn asked(&mut self, mode: Mode, now: u64) -> Actions
        ensures machine { self.new ≡ (asked_with (Some mode) self.old now).after }
        ensures counts { IsNotGrown self.old self.new }
        ensures acts { result ≡ (asked_with (Some mode) self.old now).acts }
    {
        self.shutdown = Some(mode);
        let mut acts = Actions::none();
        match (mode, self.state) {
            (Mode::Smart, state) => {
                acts.push(Action::Say(Line::Smart));
                match state {
                    PmState::Run => self.conns = false,
                    PmState::Startup => self.state = PmState::StopBackends,
                    _ => {}
                }
            }
            (Mode::Fast, state) => {
                acts.push(Action::Say(Line::Fast));
                match state {
                    PmState::Startup => self.state = PmState::StopBackends,
                    PmState::Run => {
                        acts.push(Action::Say(Line::AbortingTransactions));
                        self.state = PmState::StopBackends;
                    }
                    _ => {}
                }
            }
            (Mode::Immediate, _) => {
                acts.push(Action::Say(Line::Immediate));
                acts.push(Action::Quit(Reason::Stop));
                self.state = PmState::WaitBackends;
                self.abort_at = Some(now);
                self.startup = self.startup.signalled();
            }
        }
        acts
    }

    /// Time has passed.
    pub(crate) fn ticked(&mut self, now: u64) -> Actions
        ensures machine { self.new ≡ (ticked_at self.old.abort_at self.old now).after }
        ensures counts { IsNotGrown self.old self.new }
        ensures acts { result ≡ (ticked_at self.old.abort_at self.old now).acts }
    {
        let mut acts = Actions::none();
        let is_late = match self.abort_at {
            Some(since) => since <= now && now - since >= PATIENCE_MS,
            None => false,
        };
        if is_late && (self.fatal || self.is_immediate()) {
            acts.push(Action::KillAll);
            self.abort_at = None;
        }
        acts
    }

    /// Whether an immediate shutdown was asked for.
    pub(crate) fn is_immediate(&self) -> bool
        ensures { result ≡ is_immediate self.now.shutdown }
    {
        matches!(self.shutdown, Some(Mode::Immediate))
    }
}

impl StartupStatus {
    ghost use Rattle.pm_state.specs.Exits.{signalled_of};

    /// What it is after it was told to end at once.
    fn signalled(self) -> Self
        ensures { result ≡ signalled_of self }
    {
        match self {
            StartupStatus::Running => StartupStatus::Signalled,
            other => other,
        }
    }
}

impl Exit {
    ghost use Rattle.pm_state.specs.Exits.{exit_line};

    /// The line of the log that tells of it.
    fn line(self) -> Line
        ensures { result ≡ exit_line self }
    {
        Line::ChildExit {
            pid: self.pid,
            kind: self.kind,
            status: self.status,
        }
    }
}
