//! The server at work.

ghost use Rattle.std.specs.Prelude.{◌≡◌, List, false, None, option_map};
ghost use Rattle.pm_once_acts.specs.pm_supervisor_chain.Steps.{Step};
ghost use Rattle.pm_once.specs.Service.{is_signal};
ghost use Rattle.pm_once_children.specs.declared.outcome.Outcome.{Outcome};

use crate::admitted::Admitted;
use crate::laws::laws;
use crate::session::{Served, next_link, serve_link};
use pm_disk::Disk;
use pm_exit::{Kind, Status};
use pm_modes::Mode;
use pm_once_acts::{Acting, act_all};
use pm_once_children::{Auxiliaries, Closed, Duty, Outcome, read_log, write_last};
use pm_outside::{Chronicle, Clock, Port, Sink};
use pm_query::BookEntry;
use pm_segment::Sole;
use pm_server::{ServerEnd, StartWhy, Why};
use pm_server_lines::Log;
use pm_session::{Means, SessionConf};
use pm_state::PmEvent;
use pm_supervisor::Ending;
use pm_supervisor_journal::{Act, ChildExit, GenerationsSpent, Supervision, Taken};
use std::alloc::{AllocError, Global};
use std::sync::Wait;

/// A server at work: its supervisor, its store and its log, and what it remembers for them.
#[derive(Drop)]
pub(crate) struct Server<J: Chronicle<PmEvent>, O: Sink, D: Disk, B: Chronicle<BookEntry>> {
    pub(crate) supervision: Supervision<J>,
    pub(crate) store: Sole<D, B>,
    pub(crate) log: Log<O>,
    // The children that ended inside the store in this generation.
    pub(crate) lost: Vec<u32>,
    pub(crate) auxiliaries: Auxiliaries,
    // What the last auxiliary child came to that used the store, where nobody has used it since.
    pub(crate) outcome: Option<Outcome>,
    // Links are asked for: the port's end hasn't come, and the last pid wasn't drawn.
    pub(crate) listens: bool,
}

impl<J: Chronicle<PmEvent>, O: Sink, D: Disk, B: Chronicle<BookEntry>> Server<J, O, D, B> {
    ghost use Rattle.std.specs.Prelude.{◌+◌, ℕ, IsOk};
    ghost use Rattle.pm_supervisor_journal.specs.{Supervision.standing, declared.act.Act.TheVariants.{Reset, Say}, Due.AreSays};
    ghost use Rattle.pm_state.specs.declared.action.Line.{Line};
    ghost use Rattle.pm_once.specs.{Calls.{Acts, Performs, RenewsStore, end_by}, Goes.IsRunning, View.view_of};

    // How the server ends where its machine does: by what the last auxiliary child came to, or since its log is broken.
    // After such an end there is nothing else but want of memory.
    fn end_of(&self, ending: Ending) -> ServerEnd
        ensures { result ≡ end_by ending (view_of self.now) }
    {
        match (ending, self.outcome) {
            (Ending::Clean, Some(Outcome::Closed(Closed::Made))) => ServerEnd::Clean,
            (Ending::AfterCrash, Some(Outcome::Closed(Closed::Full))) => {
                ServerEnd::Abnormal(Why::AfterCrash)
            }
            (Ending::AfterCrash, _) if self.store.is_broken() => {
                ServerEnd::Abnormal(Why::AfterCrash)
            }
            (Ending::StartupFailed, Some(Outcome::Refused(why))) => {
                ServerEnd::Abnormal(Why::StartupFailed(why))
            }
            (Ending::RestartOff, _) => ServerEnd::Abnormal(Why::RestartOff),
            _ => ServerEnd::NoMemory,
        }
    }

    // The store begins its next generation.
    fn renew(&mut self, generation: u32) -> Result<(), AllocError>
        requires { generation ≡ (view_of self.old).store.generation + 1 }
        ensures renews { RenewsStore generation result (view_of self.old) (view_of self.new) }
        ensures supervision { self.new.supervision ≡ self.old.supervision }
    {
        self.outcome = None;
        self.store.renew(generation, &self.lost)?;
        self.lost.clear();
        Ok(())
    }

    // Does an act, whose entry was noted.
    fn perform(&mut self, act: Act) -> Result<(), ServerEnd>
        requires { (generation : ℕ) → act ≡ Reset generation
            → generation ≡ (view_of self.old).store.generation + 1 }
        ensures performs { Performs act result (view_of self.old) (view_of self.new) }
        ensures supervision { self.new.supervision ≡ self.old.supervision }
        ensures said { (line : Line) → act ≡ Say line → self.new.store ≡ self.old.store }
    {
        match act {
            Act::Start { pid, kind } => self.auxiliaries.start(pid, kind),
            Act::Quit(_) => self.auxiliaries.is_quit = true,
            Act::Terminate => self.auxiliaries.is_terminated = true,
            Act::AskCheckpoint => self.auxiliaries.is_asked = true,
            Act::Say(line) => self.log.say(line),
            Act::Reset { generation } => self.renew(generation)?,
            Act::End(ending) => return Err(self.end_of(ending)),
            Act::Ready { .. } | Act::KillAll => {}
        }
        Ok(())
    }

    // Does all acts that are due, in their order.
    pub(crate) fn act_all(&mut self) -> Result<(), ServerEnd>
        requires { IsRunning (view_of self.old) }
        ensures does { (steps : List Step) × Acts result steps (view_of self.old)
            (view_of self.new) }
        ensures said { AreSays (standing self.old.supervision).due → IsOk result
            × (self.new.store ≡ self.old.store) }
    {
        act_all(self)
    }
}

impl<J: Chronicle<PmEvent>, O: Sink, D: Disk, B: Chronicle<BookEntry>> Acting
    for Server<J, O, D, B> {
    ghost use Rattle.std.specs.Prelude.{length};
    ghost use Rattle.pm_supervisor_journal.specs.Supervision.{standing};
    ghost use Rattle.pm_once.specs.{Calls.DoesOne, Goes.IsRunning, View.view_of};

    ghost may = { λ server. IsRunning (view_of server) };

    ghost due = { λ server. length (standing server.supervision).due };

    ghost does = { DoesOne view_of (λ server. server.store) };

    fn do_next(&mut self) -> Result<bool, ServerEnd> {
        laws();
        match self.supervision.next() {
            Ok(Some(act)) => match self.perform(act) {
                Ok(()) => Ok(true),
                Err(end) => Err(end),
            },
            Ok(None) => Ok(false),
            Err(GenerationsSpent) => Err(ServerEnd::Abnormal(Why::GenerationsSpent)),
        }
    }
}

impl<J: Chronicle<PmEvent>, O: Sink, D: Disk, B: Chronicle<BookEntry>> Server<J, O, D, B> {
    ghost use Rattle.std.specs.Prelude.{◌⊎◌, ◌≢◌, ℕ, Some, IfNone, IfSome, IsSome, OnErr, OnOk, true, false};
    ghost use Rattle.pm_state.specs.pm_exit.declared.child.Kind.TheVariants.{Checkpointer, Startup};
    ghost use Rattle.pm_once_acts.specs.{pm_supervisor_chain.Steps.ChildRun, Steps.exit_of};
    ghost use Rattle.pm_supervisor_journal.specs.{Roll.kind_in, Standing.{IsAtRest, ends_redo}, Stands.HasPast, Supervision.{at_work, standing}, Due.IsIdle};
    ghost use Rattle.pm_once.specs.{Calls.{Asks, Finishes, HasAuxiliaryRun, NotesExit, NotesNoExit}, Goes.IsRunning, View.view_of};

    // Asks for a smart shutdown, and does the acts of that. No further link is asked for.
    pub(crate) fn ask_smart<C: Clock>(&mut self, clock: &C) -> Result<(), ServerEnd>
        requires running { IsRunning (view_of self.old) }
        requires rests { IsAtRest (standing self.old.supervision) }
        requires due { (self.old.listens ≡ true) ⊎ ((standing
            self.old.supervision).owes_smart ≡ true) }
        ensures asks { (steps : List Step) × Asks (C.gives clock.now) result steps
            (view_of self.old) (view_of self.new) }
        ensures store { self.new.store ≡ self.old.store }
    {
        laws();
        self.listens = false;
        match self.supervision.ask(Mode::Smart, clock.now()) {
            Ok(()) => self.act_all(),
            Err(_) => Err(ServerEnd::NoMemory),
        }
    }

    // Does all acts that are due, and asks for the shutdown that is owed after the last pid.
    fn finish<C: Clock>(&mut self, clock: &C) -> Result<(), ServerEnd>
        requires running { IsRunning (view_of self.old) }
        requires goes_on { (standing self.old.supervision).ended ≡ false }
        ensures { (steps : List Step) × Finishes (C.gives clock.now) result steps (view_of self.old)
            (view_of self.new) }
    {
        match self.act_all() {
            Ok(()) => {}
            Err(end) => return Err(end),
        }
        if self.supervision.owes_smart() {
            return self.ask_smart(clock);
        }
        Ok(())
    }

    // Notes that a child has ended.
    fn note_exit<C: Clock>(&mut self, clock: &C, exit: ChildExit) -> Result<(), AllocError>
        requires stands { HasPast (at_work self.old.supervision) }
        requires idle { IsIdle (standing self.old.supervision) }
        requires there { kind_in exit.pid (standing self.old.supervision).children ≡ Some
            exit.kind }
        requires kept { ends_redo exit ≡ true → IsSome exit.kept }
        ensures noted { OnOk result ((at : ℕ) × NotesExit (C.gives clock.now) exit at
            (view_of self.old) (view_of self.new)) }
        ensures refused { OnErr result (NotesNoExit (view_of self.old) (view_of self.new)) }
    {
        self.lost.reserve(1)?;
        self.supervision.exited(exit, clock.now())?;
        if exit.was_active {
            self.lost.push(exit.pid).unwrap();
        }
        Ok(())
    }

    // The startup child reads the log.
    fn read(&mut self, pid: u32) -> ChildExit
        requires running { IsRunning (view_of self.old) }
        requires there { kind_in pid (standing self.old.supervision).children ≡ Some Startup }
        requires off { self.old.auxiliaries.startup ≡ None }
        ensures { (run : ChildRun) × (result ≡ exit_of run)
            × HasAuxiliaryRun run (view_of self.old) (view_of self.new) }
    {
        self.outcome = None;
        match read_log(&mut self.store, pid) {
            Ok(kept) => exit(pid, Kind::Startup, Status::Code(0), Some(kept)),
            Err(why) => {
                self.outcome = refused(why);
                exit(pid, Kind::Startup, Status::Code(1), None)
            }
        }
    }

    // The checkpointer writes the last checkpoint.
    fn close<R: Wait, C: Clock>(&mut self, rt: &R, clock: &C, pid: u32) -> ChildExit
        requires running { IsRunning (view_of self.old) }
        requires there { kind_in pid (standing self.old.supervision).children ≡ Some Checkpointer }
        requires off { self.old.auxiliaries.checkpointer ≡ None }
        requires calm { self.old.auxiliaries.is_quit ≡ false }
        requires asked { self.old.auxiliaries.is_asked ≡ true }
        ensures run { (run : ChildRun) × (result ≡ exit_of run)
            × HasAuxiliaryRun run (view_of self.old) (view_of self.new) }
        ensures kind { result.kind ≡ Checkpointer }
    {
        let closed = write_last(rt, &mut self.store, clock, pid);
        self.outcome = Some(Outcome::Closed(closed));
        ChildExit {
            pid,
            kind: Kind::Checkpointer,
            status: closed.status(),
            was_active: closed.is_crashed(),
            kept: None,
        }
    }

    // Lets the next child run that has something to do, if there is one.
    fn run_next<R: Wait, C: Clock>(&mut self, rt: &R, clock: &C) -> Option<ChildExit>
        requires { IsRunning (view_of self.old) }
        ensures runs { IfSome result (λ exit. (run : ChildRun) × (exit ≡ exit_of run)
            × HasAuxiliaryRun run (view_of self.old) (view_of self.new)) }
        ensures had { IfSome result (λ exit. exit.kind ≡ Startup
            → self.old.auxiliaries.startup ≢ None) }
        ensures none { IfNone result (self.new ≡ self.old) }
    {
        match self.auxiliaries.next() {
            None => None,
            Some(Duty::Redo { pid }) => Some(self.read(pid)),
            Some(Duty::Checkpoint { pid }) => Some(self.close(rt, clock, pid)),
            Some(Duty::Quit { pid, kind }) => Some(exit(pid, kind, Status::Code(2), None)),
            Some(Duty::Terminate { pid }) => Some(exit(pid, Kind::Writer, Status::Code(0), None)),
        }
    }

    // Lets the next child run that has something to do, if there is one, and does what is due after its end.
    pub(crate) fn run_one<R: Wait, C: Clock>(
        &mut self,
        rt: &R,
        clock: &C,
    ) -> Option<Result<(), ServerEnd>>
        requires running { IsRunning (view_of self.old) }
        requires idle { IsIdle (standing self.old.supervision) }
        ensures runs { IfSome result (λ end. (steps : List Step)
            × Finishes (C.gives clock.now) end steps (view_of self.old) (view_of self.new)) }
        ensures none { IfNone result (self.new ≡ self.old) }
    {
        laws();
        match self.run_next(rt, clock) {
            None => None,
            Some(exit) => match self.note_exit(clock, exit) {
                Ok(()) => Some(self.finish(clock)),
                Err(_) => Some(Err(ServerEnd::NoMemory)),
            },
        }
    }
}

impl<J: Chronicle<PmEvent>, O: Sink, D: Disk, B: Chronicle<BookEntry>> Server<J, O, D, B> {
    ghost use Rattle.std.specs.Prelude.{Bool, IfNone, IfSome, length, option_map, true, ◌<◌};
    ghost use Rattle.pm_once_acts.specs.pm_supervisor_chain.Steps.{ChildRun};
    ghost use Rattle.pm_state.specs.pm_admit.declared.Cac.{Cac};
    ghost use Rattle.pm_supervisor_journal.specs.{Standing.{MayTake, decision_on}, Stands.IsSettled, Supervision.{HasRoom, standing}, Due.IsIdle};
    ghost use Rattle.pm_once.specs.{Calls.Admits, Goes.IsRunning, Serves.{HasServed, Serves}, Service.Connection, View.view_of};

    // Takes the next connection, and asks for the shutdown that is owed where its pid is the last.
    fn admit<C: Clock>(&mut self, clock: &C) -> Admitted
        requires running { IsRunning (view_of self.old) }
        requires idle { IsIdle (standing self.old.supervision) }
        requires settled { IsSettled (standing self.old.supervision) }
        requires may { MayTake (standing self.old.supervision) }
        requires served { decision_on (standing self.old.supervision) ≡ Cac.Ok }
        requires room { HasRoom 1 self.old.supervision }
        ensures admits { (steps : List Step) × Admits (C.gives clock.now) result steps
            (view_of self.old) (view_of self.new) }
        ensures store { self.new.store ≡ self.old.store }
    {
        laws();
        let Taken { pid, .. } = self.supervision.take();
        if self.supervision.owes_smart() {
            let settled = self.ask_smart(clock);
            return Admitted { pid, settled };
        }
        Admitted {
            pid,
            settled: Ok(()),
        }
    }

    // Serves the port's next link, and does what is due after the end of its session; or asks for a shutdown at the port's end.
    pub(crate) fn serve_next<R: Wait, P: Port, C: Clock>(
        self,
        rt: &R,
        alloc: Global,
        port: &mut P,
        clock: &C,
        seed: &[u8; 32],
        conf: &SessionConf,
    ) -> (Server<J, O, D, B>, Result<(), ServerEnd>)
        requires running { IsRunning (view_of self) }
        requires idle { IsIdle (standing self.supervision) }
        requires settled { IsSettled (standing self.supervision) }
        requires may { MayTake (standing self.supervision) }
        requires served { decision_on (standing self.supervision) ≡ Cac.Ok }
        requires listens { self.listens ≡ true }
        ensures { (steps : List Step) × (connections : List Connection) × (ended : Bool)
            × Serves (C.gives clock.now) result.1 connections ended steps (view_of self)
            (view_of result.0)
            × HasServed seed.now conf.now.authentication_ms (C.gives clock.now) connections ended
            steps (P.visits port.old) (P.visits port.new) }
    {
        laws();
        let mut server = self;
        match server.supervision.make_room() {
            Ok(()) => {}
            Err(_) => return (server, Err(ServerEnd::NoMemory)),
        }
        let Some(link) = next_link(rt, port) else {
            let asked = server.ask_smart(clock);
            return (server, asked);
        };
        let admitted = server.admit(clock);
        server.outcome = None;
        let means = Means { rt, alloc, clock };
        let pid = admitted.pid;
        let Served {
            status,
            link,
            store,
        } = serve_link(&means, link, pid, seed, conf, server.store);
        server.store = store;
        port.done(link);
        match admitted.settled {
            Ok(()) => {}
            Err(_) => return (server, Err(ServerEnd::NoMemory)),
        }
        match server.note_exit(clock, session_exit(pid, status)) {
            Ok(()) => {
                let finished = server.finish(clock);
                (server, finished)
            }
            Err(_) => (server, Err(ServerEnd::NoMemory)),
        }
    }
}

// What a startup child came to that couldn't read the log, unless memory was short.
fn refused(why: Option<StartWhy>) -> Option<Outcome>
    ensures { result ≡ option_map Outcome.Refused why }
{
    Some(Outcome::Refused(why?))
}

// The end of a session's child: it is inside the store exactly where it was ended by a signal.
fn session_exit(pid: u32, status: Status) -> ChildExit
    ensures { result ≡ record {
      pid = pid;
      kind = Kind.Backend;
      status = status;
      was_active = is_signal status;
      kept = None;
    } }
{
    ChildExit {
        pid,
        kind: Kind::Backend,
        status,
        was_active: matches!(status, Status::Signal(_)),
        kept: None,
    }
}

// The end of a child that left the store, or never was inside.
fn exit(pid: u32, kind: Kind, status: Status, kept: Option<u64>) -> ChildExit
    ensures { result ≡ record {
      pid = pid;
      kind = kind;
      status = status;
      was_active = false;
      kept = kept;
    } }
{
    ChildExit {
        pid,
        kind,
        status,
        was_active: false,
        kept,
    }
}
