//! The turns of a server.
ghost use Rattle.std.specs.Prelude.{◌≡◌, ◌+◌, ℕ, false, true, OnOk, length, option_map};
ghost use Rattle.pm_board_acts.specs.{pm_supervisor_journal.{Due.IsIdle, Stands.IsSettled}, Sitting.AreReaped};
ghost use Rattle.pm_postmaster.specs.{Serving.{Goes, IsAlive, Stops}, View.view_of};

use crate::laws::laws;
use crate::server::Server;
use pm_disk::Disk;
use pm_outside::{Chronicle, Clock, Console, Link, Port, Sink};
use pm_query::BookEntry;
use pm_server::ServerEnd;
use pm_state::PmEvent;
use std::sync::Wait;

impl<
    L: Link + Drop,
    P: Port<Link = L>,
    K: Console,
    O: Sink,
    D: Disk + Drop,
    C: Clock,
    J: Chronicle<PmEvent>,
    B: Chronicle<BookEntry> + Drop,
> Server<L, P, K, O, D, C, J, B> {
    // Tells the machine the time.
    fn tick(&mut self) -> Result<(), ServerEnd>
        requires alive { IsAlive C.gives (view_of self.old) }
        requires idle { IsIdle (view_of self.old).work.standing }
        ensures goes { Goes C.gives result (view_of self.old) (view_of self.new) }
        ensures ended { OnOk result ((view_of self.new).work.standing.ended ≡ false) }
        ensures reaped { (n : ℕ) → AreReaped n (view_of self.old).board
            → AreReaped n (view_of self.new).board }
    {
        laws::<L>();
        match self.desk.tick(self.clock.now()) {
            Ok(()) => Ok(()),
            Err(_) => Err(ServerEnd::NoMemory),
        }
    }

    // Lets the machine do what it does by itself.
    fn step(&mut self) -> Result<(), ServerEnd>
        requires alive { IsAlive C.gives (view_of self.old) }
        requires idle { IsIdle (view_of self.old).work.standing }
        ensures goes { Goes C.gives result (view_of self.old) (view_of self.new) }
        ensures ended { OnOk result ((view_of self.new).work.standing.ended ≡ false) }
        ensures settled { OnOk result (IsSettled (view_of self.new).work.standing) }
        ensures reaped { (n : ℕ) → AreReaped n (view_of self.old).board
            → AreReaped n (view_of self.new).board }
    {
        laws::<L>();
        match self.desk.turn() {
            Ok(()) => Ok(()),
            Err(_) => Err(ServerEnd::NoMemory),
        }
    }

    // The machine is told the time, and does what it does by itself; then a connection may be accepted. It tells whether an act was
    // done.
    fn go_on<R: Wait>(&mut self, rt: &R) -> Result<bool, ServerEnd>
        requires alive { IsAlive C.gives (view_of self.old) }
        requires idle { IsIdle (view_of self.old).work.standing }
        ensures goes { Goes C.gives result (view_of self.old) (view_of self.new) }
        ensures idle { OnOk result (IsIdle (view_of self.new).work.standing) }
        ensures settled { OnOk result (self.new.listens ≡ true
            → IsSettled (view_of self.new).work.standing) }
        ensures reaped { (n : ℕ) → AreReaped n (view_of self.old).board
            → AreReaped n (view_of self.new).board }
    {
        self.tick()?;
        let killed = self.settle(rt)?;
        self.step()?;
        let done = self.settle(rt)?;
        Ok(killed || done)
    }

    // One turn. It tells whether anything happened.
    fn turn<R: Wait>(&mut self, rt: &R) -> Result<bool, ServerEnd>
        requires alive { IsAlive C.gives (view_of self.old) }
        requires idle { IsIdle (view_of self.old).work.standing }
        ensures goes { Goes C.gives result (view_of self.old) (view_of self.new) }
        ensures idle { OnOk result (IsIdle (view_of self.new).work.standing) }
    {
        let ended = self.look_all(rt)?;
        let read = self.read_line(rt)?;
        let acted = self.go_on(rt)?;
        let accepted = self.accept(rt)?;
        Ok(ended || read || acted || accepted)
    }

    /// Goes on turn by turn until the server ends. It pauses after a turn in which nothing happened.
    pub(crate) fn run<R: Wait>(&mut self, rt: &R) -> ServerEnd
        requires alive { IsAlive C.gives (view_of self.old) }
        requires idle { IsIdle (view_of self.old).work.standing }
        ensures { Stops C.gives result (view_of self.old) (view_of self.new) }
    {
        'turns: for _ in rt.forever() {
            match self.turn(rt) {
                Ok(true) => {}
                Ok(false) => self.clock.pause(),
                Err(end) => return end,
            }
        }
        unreachable!()
    }
}
