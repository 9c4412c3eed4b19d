//! The acts of the machine.
ghost use Rattle.std.specs.Prelude.{◌≡◌, ◌+◌, ℕ, [], false, true, Ok, OnOk};
ghost use Rattle.pm_board_acts.specs.{pm_supervisor_journal.{Due.IsIdle, Standing.IsAtRest, Stands.IsSettled, declared.act.Act.TheVariants.Reset}, Sitting.AreReaped};
ghost use Rattle.pm_postmaster.specs.{Acting.{Performs, after_crash, end_by, failed_by}, Serving.{Goes, IsAlive}, View.view_of};

use crate::calls::call;
use crate::came::{Came, LastCame};
use crate::laws::laws;
use crate::server::Server;
use pm_board_acts::Audience;
use pm_disk::Disk;
use pm_exit::Status;
use pm_modes::Mode;
use pm_outside::{Chronicle, Clock, Console, Link, Port, Sink};
use pm_query::{BookEntry, StoreNo};
use pm_record::RedoFault;
use pm_server::{ServerEnd, StartWhy, Why};
use pm_state::PmEvent;
use pm_supervisor::Ending;
use pm_supervisor_journal::{Act, GenerationsSpent};
use std::sync::Wait;

// How a server ends where its machine does, by how its last startup child and its last checkpointer came out.
fn end_of(ending: Ending, came: LastCame) -> ServerEnd
    ensures { result ≡ end_by ending came }
{
    match ending {
        Ending::Clean => ServerEnd::Clean,
        Ending::AfterCrash => crash_end(came.checkpointer),
        Ending::RestartOff => ServerEnd::Abnormal(Why::RestartOff),
        Ending::StartupFailed => match came.startup {
            Some(came) => failed_start(came),
            None => ServerEnd::NoMemory,
        },
    }
}

// How a server ends after a crash whose last checkpointer came out so. A shutdown whose last checkpoint was short of memory is no
// crash.
fn crash_end(came: Option<Came>) -> ServerEnd
    ensures { result ≡ after_crash came }
{
    match came {
        Some(came) => match came.fault {
            Some(StoreNo::NoMemory) => ServerEnd::NoMemory,
            _ => ServerEnd::Abnormal(Why::AfterCrash),
        },
        None => ServerEnd::Abnormal(Why::AfterCrash),
    }
}

// How a server ends whose startup child came out so.
fn failed_start(came: Came) -> ServerEnd
    ensures { result ≡ failed_by came }
{
    if matches!(came.status, Status::Signal(9)) {
        return ServerEnd::Abnormal(Why::StartupFailed(StartWhy::Killed));
    }
    match came.fault {
        Some(StoreNo::Redo(RedoFault::NoMemory)) => ServerEnd::NoMemory,
        Some(StoreNo::Redo(fault)) => ServerEnd::Abnormal(Why::StartupFailed(StartWhy::Redo(
            fault,
        ))),
        _ => ServerEnd::NoMemory,
    }
}

impl<
    L: Link + Drop,
    P: Port<Link = L>,
    K: Console,
    O: Sink,
    D: Disk + Drop,
    C: Clock,
    J: Chronicle<PmEvent>,
    B: Chronicle<BookEntry> + Drop,
> Server<L, P, K, O, D, C, J, B> {
    // The store begins its next generation, after the children that were lost.
    fn renew<R: Wait>(&mut self, rt: &R, generation: u32) -> Result<(), ServerEnd>
        requires { generation ≡ self.old.shared.generation + 1 }
        ensures performs { Performs (Reset generation) result (view_of self.old) (view_of self.new) }
        ensures desk { self.new.desk ≡ self.old.desk }
    {
        match self.shared.renew(rt, generation, &self.lost) {
            Ok(()) => {
                self.lost.clear();
                Ok(())
            }
            Err(_) => Err(ServerEnd::NoMemory),
        }
    }

    // Calls the children that were told something by this act.
    fn call_for(&self, act: Act) {
        if let Some(who) = Audience::told_by(act) {
            call(&self.clock, self.desk.roster(), who);
        }
    }

    // Does an act that was noted and done at the board.
    fn perform<R: Wait>(&mut self, rt: &R, act: Act) -> Result<(), ServerEnd>
        requires { (generation : ℕ) → act ≡ Reset generation
            → generation ≡ self.old.shared.generation + 1 }
        ensures performs { Performs act result (view_of self.old) (view_of self.new) }
        ensures desk { self.new.desk ≡ self.old.desk }
    {
        match act {
            Act::Say(line) => self.log.say(line),
            Act::Reset { generation } => return self.renew(rt, generation),
            Act::End(ending) => return Err(end_of(ending, self.came)),
            Act::Quit(_) | Act::Terminate | Act::KillAll | Act::AskCheckpoint => self.call_for(act),
            Act::Start { .. } | Act::Ready { .. } => {}
        }
        Ok(())
    }

    // Does the next act that is due, if there is one.
    fn do_next<R: Wait>(&mut self, rt: &R) -> Result<bool, ServerEnd>
        requires alive { IsAlive C.gives (view_of self.old) }
        ensures goes { Goes C.gives result (view_of self.old) (view_of self.new) }
        ensures none_due { result ≡ Ok false → (view_of self.new).work.standing.due ≡ [] }
        ensures ended { OnOk result ((view_of self.new).work.standing.ended
            ≡ (view_of self.old).work.standing.ended) }
        ensures settled { IsSettled (view_of self.old).work.standing
            → IsSettled (view_of self.new).work.standing }
        ensures reaped { (n : ℕ) → AreReaped n (view_of self.old).board
            → AreReaped n (view_of self.new).board }
        ensures listens { self.new.listens ≡ self.old.listens }
    {
        laws::<L>();
        let next = self.desk.do_next();
        match next {
            Ok(given) => match given {
                Some(act) => match self.perform(rt, act) {
                    Ok(()) => Ok(true),
                    Err(end) => Err(end),
                },
                None => Ok(false),
            },
            Err(GenerationsSpent) => Err(ServerEnd::Abnormal(Why::GenerationsSpent)),
        }
    }

    // Asks for the smart shutdown that is owed after the last pid.
    fn ask_owed(&mut self) -> Result<(), ServerEnd>
        requires alive { IsAlive C.gives (view_of self.old) }
        requires rests { IsAtRest (view_of self.old).work.standing }
        requires owed { (view_of self.old).work.standing.owes_smart ≡ true }
        ensures goes { Goes C.gives result (view_of self.old) (view_of self.new) }
        ensures ended { OnOk result ((view_of self.new).work.standing.ended ≡ false) }
        ensures reaped { (n : ℕ) → AreReaped n (view_of self.old).board
            → AreReaped n (view_of self.new).board }
        ensures deaf { self.new.listens ≡ false }
    {
        laws::<L>();
        self.listens = false;
        match self.desk.ask(Mode::Smart, self.clock.now()) {
            Ok(()) => Ok(()),
            Err(_) => Err(ServerEnd::NoMemory),
        }
    }

    /// Does all acts that are due, and asks for the shutdown that is owed after the last pid. It tells whether there was any.
    pub(crate) fn settle<R: Wait>(&mut self, rt: &R) -> Result<bool, ServerEnd>
        requires alive { IsAlive C.gives (view_of self.old) }
        requires goes_on { (view_of self.old).work.standing.ended ≡ false }
        ensures goes { Goes C.gives result (view_of self.old) (view_of self.new) }
        ensures idle { OnOk result (IsIdle (view_of self.new).work.standing) }
        ensures settled { OnOk result (IsSettled (view_of self.old).work.standing
            → self.new.listens ≡ true → IsSettled (view_of self.new).work.standing) }
        ensures reaped { (n : ℕ) → AreReaped n (view_of self.old).board
            → AreReaped n (view_of self.new).board }
    {
        let mut any = false;
        'acts: for _ in rt.forever() {
            match self.do_next(rt) {
                Ok(true) => {}
                Ok(false) => {
                    if !self.desk.supervision().owes_smart() {
                        return Ok(any);
                    }
                    match self.ask_owed() {
                        Ok(()) => {}
                        Err(end) => return Err(end),
                    }
                }
                Err(end) => return Err(end),
            }
            any = true;
        }
        unreachable!()
    }
}
