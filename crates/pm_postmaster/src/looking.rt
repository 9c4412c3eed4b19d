//! A look at every slot.
ghost use Rattle.std.specs.Prelude.{◌≡◌, ◌+◌, ◌<◌, ℕ, false, true, OnOk, IfOk, IfSome, length, option_map};
ghost use Rattle.pm_board_acts.specs.{pm_supervisor_journal.Due.IsIdle, Board.seats_of, Sitting.AreReaped, pm_worker.Mails.mail_told};
ghost use Rattle.pm_postmaster.specs.{Looking.{IsOpened, MayComeBack, TakesIn, fault_in}, Serving.{Goes, IsAlive}, View.view_of};

use crate::came::Came;
use crate::laws::laws;
use crate::server::Server;
use pm_board::Released;
use pm_board_acts::Looked;
use pm_disk::Disk;
use pm_outside::{Chronicle, Clock, Console, Link, Port, Sink};
use pm_query::{BookEntry, StoreNo};
use pm_server::ServerEnd;
use pm_state::PmEvent;
use pm_worker::Mail;
use std::sync::Wait;

/// Hands the link of a mail that came back to its port, and tells the refusal of the store that the mail tells, if it does.
pub(crate) fn open_mail<L: Link + Drop, P: Port<Link = L>>(
    port: &mut P,
    mail: Mail<L>,
) -> Option<StoreNo>
    requires { MayComeBack (mail_told L.Link mail) (P.visits port.old) }
    ensures visits { IsOpened (mail_told L.Link mail) (P.visits port.old) (P.visits port.new) }
    ensures fault { result ≡ fault_in (mail_told L.Link mail) }
{
    match mail {
        Mail::Served { link } => {
            port.done(link);
            None
        }
        Mail::Aux { fault, kept: _ } => fault,
        _ => None,
    }
}

impl<
    L: Link + Drop,
    P: Port<Link = L>,
    K: Console,
    O: Sink,
    D: Disk + Drop,
    C: Clock,
    J: Chronicle<PmEvent>,
    B: Chronicle<BookEntry> + Drop,
> Server<L, P, K, O, D, C, J, B> {
    // Takes in what a child leaves that was released. There is room for one that is lost.
    fn take_in(&mut self, released: Released<Mail<L>>)
        requires back { MayComeBack (mail_told L.Link released.job) (P.visits self.old.port) }
        requires room { length self.old.lost.items < self.old.lost.cap }
        ensures takes { TakesIn (mail_told L.Link released.job) released.pid released.kind released.status
            released.was_active (view_of self.old) (view_of self.new) }
        ensures desk { self.new.desk ≡ self.old.desk }
    {
        if released.was_active {
            self.lost.push_reserved(released.pid);
        }
        let fault = open_mail(&mut self.port, released.job);
        let came = Came {
            status: released.status,
            fault,
        };
        self.came = self.came.with(released.kind, came);
    }

    // Looks at a slot. Where its child has ended that is noted, and what it leaves is taken in.
    fn reap(&mut self, slot: u32) -> Result<bool, ServerEnd>
        requires alive { IsAlive C.gives (view_of self.old) }
        requires idle { IsIdle (view_of self.old).work.standing }
        requires slot { slot < length (seats_of (view_of self.old).board) }
        ensures goes { Goes C.gives result (view_of self.old) (view_of self.new) }
        ensures ended { OnOk result ((view_of self.new).work.standing.ended ≡ false) }
        ensures idle { IfOk result (λ ended. ended ≡ false
            → IsIdle (view_of self.new).work.standing) }
        ensures reaped { OnOk result (AreReaped slot (view_of self.old).board
            → AreReaped (slot + 1) (view_of self.new).board) }
    {
        laws::<L>();
        if self.lost.reserve(1).is_err() {
            return Err(ServerEnd::NoMemory);
        }
        match self.desk.look_at(slot, self.clock.now()) {
            Looked::Nothing => Ok(false),
            Looked::Ended(released) => {
                self.take_in(released);
                Ok(true)
            }
            Looked::ShortOfMemory(released) => {
                self.take_in(released);
                Err(ServerEnd::NoMemory)
            }
        }
    }

    // Looks at a slot, and does what is due after the end of its child.
    fn look<R: Wait>(&mut self, rt: &R, slot: u32) -> Result<bool, ServerEnd>
        requires alive { IsAlive C.gives (view_of self.old) }
        requires idle { IsIdle (view_of self.old).work.standing }
        requires slot { slot < length (seats_of (view_of self.old).board) }
        ensures goes { Goes C.gives result (view_of self.old) (view_of self.new) }
        ensures idle { OnOk result (IsIdle (view_of self.new).work.standing) }
        ensures reaped { OnOk result (AreReaped slot (view_of self.old).board
            → AreReaped (slot + 1) (view_of self.new).board) }
    {
        if !self.reap(slot)? {
            return Ok(false);
        }
        self.settle(rt)?;
        Ok(true)
    }

    /// Looks at every slot, and tells whether a child has ended.
    pub(crate) fn look_all<R: Wait>(&mut self, rt: &R) -> Result<bool, ServerEnd>
        requires alive { IsAlive C.gives (view_of self.old) }
        requires idle { IsIdle (view_of self.old).work.standing }
        ensures goes { Goes C.gives result (view_of self.old) (view_of self.new) }
        ensures idle { OnOk result (IsIdle (view_of self.new).work.standing) }
        ensures reaped { OnOk result (AreReaped (length (seats_of (view_of self.old).board))
            (view_of self.new).board) }
    {
        let mut ended = false;
        for slot in 0..self.desk.roster().slots() {
            match self.look(rt, slot) {
                Ok(one) => ended |= one,
                Err(end) => return Err(end),
            }
        }
        Ok(ended)
    }
}
