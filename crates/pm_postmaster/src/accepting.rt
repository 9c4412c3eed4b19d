//! Connections.
ghost use Rattle.std.specs.Prelude.{◌≡◌, ◌<◌, ◌≤◌, None, false, true, IfOk, IfSome, OnOk, length};
ghost use Rattle.pm_board_acts.specs.{pm_supervisor_journal.{Due.IsIdle, Standing.{MayTake, decision_on}, Stands.IsSettled, Supervision.HasRoom}, pm_board.Places.AllReaped, Board.{seat_at, seats_of}};
ghost use Rattle.pm_postmaster.specs.{Accepting.IsFreeFor, Serving.{Goes, IsAlive}, View.view_of};

use crate::laws::laws;
use crate::server::Server;
use pm_admit::Cac;
use pm_board::Roster;
use pm_board_acts::seated;
use pm_disk::Disk;
use pm_modes::Mode;
use pm_outside::{Accepted, Chronicle, Clock, Console, Link, Port, Sink};
use pm_query::BookEntry;
use pm_serve_pool::AUXILIARY_SLOTS;
use pm_server::ServerEnd;
use pm_state::PmEvent;
use pm_worker::{Mail, NewLink};
use std::sync::Wait;

/// How many slots after the others are for children that refuse a connection alone.
const DEAD_END_SLOTS: u32 = 4;

// The first slot of these that nobody has. It looks at each at most.
fn first_free<L: Link + Drop>(roster: &Roster<Mail<L>>, from: u32, to: u32) -> Option<u32>
    requires { to ≤ length roster.now.knows.slots }
    ensures { IfSome result (λ slot. (from ≤ slot) × (slot < to)
        × (seat_at slot (seats_of roster.now.knows) ≡ None)) }
{
    for slot in from..to {
        if seated(roster, slot).is_none() {
            return Some(slot);
        }
    }
    None
}

impl<
    L: Link + Drop,
    P: Port<Link = L>,
    K: Console,
    O: Sink,
    D: Disk + Drop,
    C: Clock,
    J: Chronicle<PmEvent>,
    B: Chronicle<BookEntry> + Drop,
> Server<L, P, K, O, D, C, J, B> {
    // The first slot for a child of a connection so decided that nobody has.
    fn free_slot(&self, decision: Cac) -> Option<u32>
        requires { 7 < length (seats_of self.now.desk.roster.knows) }
        ensures { IfSome result (λ slot. IsFreeFor decision slot
            (seats_of self.now.desk.roster.knows)) }
    {
        let roster = self.desk.roster();
        let behind = roster.slots() - DEAD_END_SLOTS;
        match decision {
            Cac::Ok => first_free(roster, AUXILIARY_SLOTS, behind),
            Cac::Startup | Cac::Recovery | Cac::Shutdown | Cac::TooMany => {
                first_free(roster, behind, roster.slots())
            }
        }
    }

    // Asks the port for a link, where there is room for a connection and a slot for its child. It tells whether there was one, or
    // the port's end.
    fn ask_port(&mut self, slot: u32, decision: Cac) -> Result<bool, ServerEnd>
        requires alive { IsAlive C.gives (view_of self.old) }
        requires idle { IsIdle (view_of self.old).work.standing }
        requires settled { IsSettled (view_of self.old).work.standing }
        requires listens { self.old.listens ≡ true }
        requires may { MayTake (view_of self.old).work.standing }
        requires room { HasRoom 1 self.old.desk.supervision }
        requires decision { decision ≡ decision_on (view_of self.old).work.standing }
        requires free { IsFreeFor decision slot (seats_of (view_of self.old).board) }
        requires reaped { AllReaped (view_of self.old).board }
        ensures goes { Goes C.gives result (view_of self.old) (view_of self.new) }
        ensures ended { OnOk result ((view_of self.new).work.standing.ended ≡ false) }
        ensures idle { IfOk result (λ taken. taken ≡ false
            → IsIdle (view_of self.new).work.standing) }
    {
        laws::<L>();
        match self.port.accept(slot) {
            Accepted::Link(link) => {
                let link = NewLink::new(link);
                self.desk.admit(slot, Mail::Serve { link, decision });
                Ok(true)
            }
            Accepted::End => {
                self.listens = false;
                match self.desk.ask(Mode::Smart, self.clock.now()) {
                    Ok(()) => Ok(true),
                    Err(_) => Err(ServerEnd::NoMemory),
                }
            }
            Accepted::NotYet | Accepted::Failed => Ok(false),
        }
    }

    /// Takes the next connection, if there is one, right after a turn of the machine. It tells whether there was one, or the
    /// port's end.
    pub(crate) fn accept<R: Wait>(&mut self, rt: &R) -> Result<bool, ServerEnd>
        requires alive { IsAlive C.gives (view_of self.old) }
        requires idle { IsIdle (view_of self.old).work.standing }
        requires settled { self.old.listens ≡ true → IsSettled (view_of self.old).work.standing }
        requires reaped { AllReaped (view_of self.old).board }
        ensures goes { Goes C.gives result (view_of self.old) (view_of self.new) }
        ensures idle { OnOk result (IsIdle (view_of self.new).work.standing) }
    {
        laws::<L>();
        if !self.listens || !self.desk.supervision().may_accept() {
            return Ok(false);
        }
        let decision = self.desk.supervision().decision();
        let Some(slot) = self.free_slot(decision) else {
            return Ok(false);
        };
        if self.desk.make_room().is_err() {
            return Err(ServerEnd::NoMemory);
        }
        match self.ask_port(slot, decision) {
            Ok(false) => Ok(false),
            Ok(true) => {
                self.settle(rt)?;
                Ok(true)
            }
            Err(end) => Err(end),
        }
    }
}
