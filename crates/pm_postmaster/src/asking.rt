//! What the operator asks for.
ghost use Rattle.std.specs.Prelude.{◌≡◌, ◌+◌, ◌≤◌, ℕ, List, false, IfOk, OnOk, take, option_map};
ghost use Rattle.pm_board_acts.specs.{pm_supervisor_journal.Due.IsIdle, Seating.Kill, Sitting.AreReaped};
ghost use Rattle.pm_serve_requests.specs.Requests.{meant};
ghost use Rattle.pm_postmaster.specs.{Asking.{HasRead, Heeds}, Serving.{Goes, IsAlive}, View.view_of};

use crate::calls::call;
use crate::laws::laws;
use crate::server::Server;
use pm_board_acts::Audience;
use pm_disk::Disk;
use pm_outside::{Asked, Chronicle, Clock, Console, Link, Port, Sink};
use pm_query::BookEntry;
use pm_serve_requests::{Request, read_request};
use pm_server::ServerEnd;
use pm_state::PmEvent;
use std::sync::Wait;

impl<
    L: Link + Drop,
    P: Port<Link = L>,
    K: Console,
    O: Sink,
    D: Disk + Drop,
    C: Clock,
    J: Chronicle<PmEvent>,
    B: Chronicle<BookEntry> + Drop,
> Server<L, P, K, O, D, C, J, B> {
    // Kills a child, where it is there.
    fn kill(&mut self, pid: u32) -> Result<(), ServerEnd>
        requires read { HasRead C.gives (Kill pid) (view_of self.old) }
        requires idle { IsIdle (view_of self.old).work.standing }
        ensures heeds { Heeds C.gives (Kill pid) result (view_of self.old) (view_of self.new) }
        ensures ended { OnOk result ((view_of self.new).work.standing.ended ≡ false) }
        ensures reaped { (n : ℕ) → AreReaped n (view_of self.old).board
            → AreReaped n (view_of self.new).board }
    {
        laws::<L>();
        match self.desk.kill(pid) {
            Ok(()) => {
                call(&self.clock, self.desk.roster(), Audience::One(pid));
                Ok(())
            }
            Err(_) => Err(ServerEnd::NoMemory),
        }
    }

    // Does what a line asks for: a shutdown is asked for, or a child is killed, where it is there.
    fn heed(&mut self, request: Request) -> Result<(), ServerEnd>
        requires read { HasRead C.gives (meant request) (view_of self.old) }
        requires idle { IsIdle (view_of self.old).work.standing }
        ensures heeds { Heeds C.gives (meant request) result (view_of self.old) (view_of self.new) }
        ensures ended { OnOk result ((view_of self.new).work.standing.ended ≡ false) }
        ensures reaped { (n : ℕ) → AreReaped n (view_of self.old).board
            → AreReaped n (view_of self.new).board }
    {
        laws::<L>();
        match request {
            Request::Nothing => Ok(()),
            Request::Stop(mode) => match self.desk.ask(mode, self.clock.now()) {
                Ok(()) => Ok(()),
                Err(_) => Err(ServerEnd::NoMemory),
            },
            Request::Kill(pid) => match u32::try_from(pid) {
                Ok(pid) => self.kill(pid),
                Err(_) => Ok(()),
            },
        }
    }

    // Reads the next line, if there is one, and does what it asks for.
    fn hear(&mut self) -> Result<bool, ServerEnd>
        requires alive { IsAlive C.gives (view_of self.old) }
        requires idle { IsIdle (view_of self.old).work.standing }
        ensures goes { Goes C.gives result (view_of self.old) (view_of self.new) }
        ensures ended { OnOk result ((view_of self.new).work.standing.ended ≡ false) }
        ensures idle { IfOk result (λ read. read ≡ false
            → IsIdle (view_of self.new).work.standing) }
        ensures reaped { (n : ℕ) → AreReaped n (view_of self.old).board
            → AreReaped n (view_of self.new).board }
    {
        let mut line = [0; 64];
        match self.console.next(&mut line) {
            Asked::Line(count) => {
                self.heed(read_request(&line[..count]))?;
                Ok(true)
            }
            Asked::End => {
                self.hears = false;
                Ok(false)
            }
            Asked::NotYet | Asked::Failed => Ok(false),
        }
    }

    /// Reads at most one line of the console, and does what is due after it. It tells whether there was one.
    pub(crate) fn read_line<R: Wait>(&mut self, rt: &R) -> Result<bool, ServerEnd>
        requires alive { IsAlive C.gives (view_of self.old) }
        requires idle { IsIdle (view_of self.old).work.standing }
        ensures goes { Goes C.gives result (view_of self.old) (view_of self.new) }
        ensures idle { OnOk result (IsIdle (view_of self.new).work.standing) }
        ensures reaped { (n : ℕ) → AreReaped n (view_of self.old).board
            → AreReaped n (view_of self.new).board }
    {
        if !self.hears {
            return Ok(false);
        }
        if !self.hear()? {
            return Ok(false);
        }
        self.settle(rt)?;
        Ok(true)
    }
}
