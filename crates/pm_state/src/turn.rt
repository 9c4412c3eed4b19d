//! The rules of a turn: what the machine does by itself once it is in a state. Each runs once a turn, in order.

ghost use Rattle.std.specs.Prelude.{◌≡◌, ◌+◌, ◌≤◌, ◌++◌, [], length};
ghost use Rattle.pm_state.specs.{Machine.IsNotGrown, TurnRules.{start_recovery, restart_writer, end_smart, stop_backends, backends_gone, dead_ends_gone, children_gone, are_backends_gone, startup_starts, turned_of}};

use crate::action::{Action, Actions, Line};
use crate::machine::{Machine, StartupStatus};
use pm_admit::PmState;
use pm_exit::Kind;
use pm_supervisor::Ending;

impl Machine {
    /// The rules of a turn.
    #[tactic(auto, unfolding(crate::specs::TurnRules::turned_of))]
    pub(crate) fn turn(&mut self) -> Actions
        ensures machine { self.new ≡ (turned_of self.old).after }
        ensures counts { IsNotGrown self.old self.new }
        ensures acts { result ≡ (turned_of self.old).acts }
    {
        let mut acts = Actions::none();
        self.start_recovery(&mut acts);
        self.restart_writer(&mut acts);
        self.end_smart();
        self.stop_backends(&mut acts);
        self.backends_gone(&mut acts);
        self.dead_ends_gone();
        self.children_gone(&mut acts);
        acts
    }

    /// The first turn starts the startup child.
    #[tactic(auto, unfolding(crate::specs::TurnRules::start_recovery))]
    fn start_recovery(&mut self, acts: &mut Actions)
        requires { length acts.old ≤ 7 }
        ensures machine { self.new ≡ (start_recovery self.old).after }
        ensures counts { IsNotGrown self.old self.new }
        ensures acts { acts.new ≡ acts.old ++ (start_recovery self.old).acts }
        ensures room { length acts.new ≤ length acts.old + 1 }
    {
        if matches!(self.state, PmState::Init) {
            acts.push(Action::Start(Kind::Startup));
            self.start_startup();
        }
    }

    /// A startup child is to be started.
    fn start_startup(&mut self)
        ensures { self.new ≡ startup_starts self.old }
    {
        self.startup = StartupStatus::Running;
        self.startup_due = true;
        self.state = PmState::Startup;
    }

    /// A writer that has ended is started again while connections are allowed.
    #[tactic(auto, unfolding(crate::specs::TurnRules::restart_writer))]
    fn restart_writer(&mut self, acts: &mut Actions)
        requires { length acts.old ≤ 7 }
        ensures machine { self.new ≡ (restart_writer self.old).after }
        ensures counts { IsNotGrown self.old self.new }
        ensures acts { acts.new ≡ acts.old ++ (restart_writer self.old).acts }
        ensures room { length acts.new ≤ length acts.old + 1 }
    {
        if matches!(self.state, PmState::Run) && self.conns && !self.writer {
            acts.push(Action::Start(Kind::Writer));
            self.writer_due = true;
        }
    }

    /// A smart shutdown goes on once the last session has ended.
    #[tactic(auto, unfolding(crate::specs::TurnRules::end_smart))]
    fn end_smart(&mut self)
        ensures machine { self.new ≡ (end_smart self.old).after }
        ensures counts { IsNotGrown self.old self.new }
        ensures silent { (end_smart self.old).acts ≡ [] }
    {
        if matches!(self.state, PmState::Run) && !self.conns && self.children == 0 {
            self.state = PmState::StopBackends;
        }
    }

    /// Sessions and background children are told to end.
    #[tactic(auto, unfolding(crate::specs::TurnRules::stop_backends))]
    fn stop_backends(&mut self, acts: &mut Actions)
        requires { length acts.old ≤ 7 }
        ensures machine { self.new ≡ (stop_backends self.old).after }
        ensures counts { IsNotGrown self.old self.new }
        ensures acts { acts.new ≡ acts.old ++ (stop_backends self.old).acts }
        ensures room { length acts.new ≤ length acts.old + 1 }
    {
        if matches!(self.state, PmState::StopBackends) {
            acts.push(Action::Terminate);
            self.state = PmState::WaitBackends;
        }
    }

    /// Whether no child is left that could change anything, but for the checkpointer.
    fn are_backends_gone(&self) -> bool
        ensures { result ≡ are_backends_gone self.now }
    {
        self.children == 0 && matches!(self.startup, StartupStatus::NotRunning) && !self.writer
    }

    /// Once they have ended, the last checkpoint is written, unless shared state may be half changed.
    #[tactic(auto, unfolding(crate::specs::TurnRules::backends_gone))]
    fn backends_gone(&mut self, acts: &mut Actions)
        requires { length acts.old ≤ 6 }
        ensures machine { self.new ≡ (backends_gone self.old).after }
        ensures counts { IsNotGrown self.old self.new }
        ensures acts { acts.new ≡ acts.old ++ (backends_gone self.old).acts }
        ensures room { length acts.new ≤ length acts.old + 2 }
    {
        if !matches!(self.state, PmState::WaitBackends) || !self.are_backends_gone() {
            return;
        }
        if self.fatal || self.is_immediate() {
            if !self.checkpointer {
                self.state = PmState::WaitDeadEnd;
            }
            return;
        }
        if !self.checkpointer {
            acts.push(Action::Start(Kind::Checkpointer));
            self.checkpointer_due = true;
        }
        acts.push(Action::AskCheckpoint);
        self.state = PmState::Shutdown;
    }

    /// Once the last child has ended, none is left.
    #[tactic(auto, unfolding(crate::specs::TurnRules::dead_ends_gone))]
    fn dead_ends_gone(&mut self)
        ensures machine { self.new ≡ (dead_ends_gone self.old).after }
        ensures counts { IsNotGrown self.old self.new }
        ensures silent { (dead_ends_gone self.old).acts ≡ [] }
    {
        let no_child = self.are_backends_gone() && !self.checkpointer && self.dead_ends == 0;
        if matches!(self.state, PmState::WaitDeadEnd) && no_child {
            self.state = PmState::NoChildren;
        }
    }

    /// With no child left the server ends, or begins its next generation.
    #[tactic(auto, unfolding(crate::specs::TurnRules::children_gone))]
    fn children_gone(&mut self, acts: &mut Actions)
        requires { length acts.old ≤ 5 }
        ensures machine { self.new ≡ (children_gone self.old).after }
        ensures counts { IsNotGrown self.old self.new }
        ensures acts { acts.new ≡ acts.old ++ (children_gone self.old).acts }
        ensures room { length acts.new ≤ length acts.old + 3 }
    {
        if !matches!(self.state, PmState::NoChildren) {
            return;
        }
        let (line, ending) = match self.shutdown {
            Some(_) if self.fatal => (Line::Abnormal, Ending::AfterCrash),
            Some(_) => (Line::Down, Ending::Clean),
            None if !self.limits.restart_after_crash => (Line::RestartOff, Ending::RestartOff),
            None => {
                acts.push(Action::Say(Line::Reinitializing));
                acts.push(Action::Reset);
                acts.push(Action::Start(Kind::Startup));
                self.start_startup();
                self.abort_at = None;
                return;
            }
        };
        acts.push(Action::Say(line));
        acts.push(Action::End(ending));
        self.ended = true;
    }
}
