//! Reading from the client and sending to it. Before each read and each write the child takes its signals.
ghost use Rattle.std.specs.Prelude.{◌≡◌, ◌<◌, ◌≤◌, ℕ, Bool, false, None, Some, IsTrue, length, option_map};
ghost use Rattle.pm_child_life.specs.{Life.{HasNoCancel, IsUntried, asked_cancel, let_go}, Attention.{Hears, IsAttentive}};
ghost use Rattle.pm_session_exchange.specs.{Attention.EndsIn, Exchange.{link_view, Holds, HoldsLooking, Looks, Sends, seen, ReceivesOrNot}, Moments.{GoesOrBreaks, GoesOrShows, GoesOrStops, Comes}, Line.MeetsGate, Room.buffer_bytes};

use crate::ear::Ear;
use crate::ending::Cause;
use crate::inbox::Inbox;
use crate::means::Means;
use pm_child_life::{GateNo, Life};
use pm_outside::{Clock, Got, Link, Put};
use std::marker::Model;
use std::sync::Wait;

/// The link to the client, and the child's work with what it hears.
pub struct Line<L: Link, W: Life> {
    pub(crate) link: L,
    pub(crate) ear: Ear<W>,
}

impl<L: Link, W: Life> Model for Line<L, W> {
    ghost use Rattle.pm_session_exchange.specs.{Exchange.link_view, Line.LineView};

    ghost Value = { LineView W };

    ghost view = { λ l. record { link = link_view (L.traffic l.link) (L.number l.link) (L.faults l.link); work = l.ear.work; child = l.ear.child } };
}

impl<L: Link, W: Life> Line<L, W> {
    pub fn new(link: L, ear: Ear<W>) -> Line<L, W>
        ensures link { result.link ≡ seen L.Link link }
        ensures work { result.work ≡ ear.work }
        ensures child { result.child ≡ ear.child }
    {
        Line { link, ear }
    }

    /// Sends all the bytes. A Kill breaks it off; any other signal stands until later. Once one stands that ends the session, the
    /// client has a second more.
    pub fn send(&mut self, bytes: &[u8]) -> Result<(), Cause>
        ensures sends { Sends result bytes.now self.old.link self.new.link }
        ensures hears { Hears 0 self.old.child self.new.child }
        ensures cause { GoesOrBreaks result self.old.link self.new.link self.new.child }
        ensures kill { result ≡ Err Cause.Killed → IsTrue self.new.child.standing.kill }
        ensures holds { (ended : Bool) → Holds ended result self.old.link self.new.link }
        ensures rests { W.rests self.old.work self.new.work }
    {
        let mut rest = bytes;
        while !rest.is_empty() {
            self.ear.listen();
            if self.ear.is_killed() {
                return Err(Cause::Killed);
            }
            let is_ending = self.ear.ends().is_some();
            hurry_where(&mut self.link, is_ending);
            match self.link.write(rest) {
                Put::Count(count) => rest = &rest[count..],
                Put::NotYet => {}
                Put::Failed => return Err(Cause::LinkFailed),
            }
        }
        Ok(())
    }

    /// Asks the link once, takes the bytes that came, and tells whether any did. A signal that ends the session is heeded
    /// before.
    pub fn look(&mut self, inbox: &mut Inbox) -> Result<bool, Cause>
        requires room { length inbox.old < buffer_bytes }
        ensures came { Looks result inbox.old inbox.new self.old.link self.new.link }
        ensures hears { Hears 1 self.old.child self.new.child }
        ensures cause { GoesOrBreaks result self.old.link self.new.link self.new.child }
        ensures holds { HoldsLooking result self.old.link self.new.link }
        ensures rests { W.rests self.old.work self.new.work }
    {
        self.ear.listen();
        if let Some(cause) = self.ear.ends() {
            return Err(cause);
        }
        match inbox.read_from(&mut self.link) {
            Got::Bytes(_) => Ok(true),
            Got::NotYet => Ok(false),
            Got::End => Err(Cause::LinkEnded),
            Got::Failed => Err(Cause::LinkFailed),
        }
    }

    /// Waits for bytes, and takes those that came, one or more. A signal that ends the session is heeded before each read.
    pub fn receive<R: Wait, C: Clock>(
        &mut self,
        means: &Means<'_, R, C>,
        inbox: &mut Inbox,
    ) -> Result<(), Cause>
        requires room { length inbox.old < buffer_bytes }
        ensures came { ReceivesOrNot result inbox.old inbox.new self.old.link self.new.link }
        ensures hears { Hears 1 self.old.child self.new.child }
        ensures cause { GoesOrBreaks result self.old.link self.new.link self.new.child }
        ensures holds { Holds false result self.old.link self.new.link }
        ensures rests { W.rests self.old.work self.new.work }
    {
        for _ in means.rt.forever() {
            match self.look(inbox) {
                Ok(true) => return Ok(()),
                Ok(false) => means.clock.pause(),
                Err(cause) => return Err(cause),
            }
        }
        unreachable!()
    }

    /// Waits until so many bytes are there. Where that is broken off, those that are there are passed over.
    pub fn await_bytes<R: Wait, C: Clock>(
        &mut self,
        means: &Means<'_, R, C>,
        inbox: &mut Inbox,
        wanted: usize,
    ) -> Result<(), Cause>
        requires room { wanted ≤ buffer_bytes }
        ensures comes { Comes wanted result inbox.old inbox.new self.old.link self.new.link }
        ensures hears { Hears 0 self.old.child self.new.child }
        ensures cause { GoesOrShows result self.old.link self.new.link self.new.child }
        ensures holds { Holds false result self.old.link self.new.link }
        ensures rests { W.rests self.old.work self.new.work }
    {
        while inbox.unread().len() < wanted {
            if let Err(cause) = self.receive(means, inbox) {
                let count = inbox.unread().len();
                inbox.pass(count);
                return Err(cause);
            }
        }
        Ok(())
    }
}

// Tells the link whether the child that serves it is to end.
fn hurry_where<L: Link>(link: &mut L, is_ending: bool)
    ensures traffic { L.traffic link.new ≡ L.traffic link.old }
    ensures number { L.number link.new ≡ L.number link.old }
    ensures faults { L.faults link.new ≡ L.faults link.old }
    ensures patience { L.patience link.new ≤ L.patience link.old }
{
    if is_ending {
        link.hurry();
    }
}

// What the child hears, with no word on the link.
impl<L: Link, W: Life> Line<L, W> {
    /// As [`Ear::pid`].
    pub fn pid(&self) -> u32
        ensures { result ≡ self.now.child.child.pid }
    {
        self.ear.pid()
    }

    /// As [`Ear::heed`].
    pub fn heed(&mut self) -> Result<(), Cause>
        ensures link { self.new.link ≡ self.old.link }
        ensures hears { Hears 1 self.old.child self.new.child }
        ensures attentive { IsAttentive self.new.child }
        ensures ends { EndsIn result self.new.child.standing }
        ensures stops { GoesOrStops result self.new.child }
        ensures rests { W.rests self.old.work self.new.work }
    {
        self.ear.heed()
    }

    /// As [`Ear::attach`].
    pub fn attach(&mut self, is_ordinary: bool) -> Result<u32, GateNo>
        requires free { self.old.child.child.attached ≡ None }
        requires may { ¬ (IsTrue self.old.child.child.is_dead_end) }
        requires once { IsUntried self.old.child.told }
        ensures link { self.new.link ≡ self.old.link }
        ensures meets { MeetsGate is_ordinary result self.old.child self.new.child }
        ensures rests { W.rests self.old.work self.new.work }
    {
        self.ear.attach(is_ordinary)
    }

    /// As [`Ear::cancel`].
    pub fn cancel(&mut self, pid: u32, key: u32)
        requires { HasNoCancel self.old.child.told }
        ensures link { self.new.link ≡ self.old.link }
        ensures told { self.new.child.told ≡ option_map (asked_cancel pid key) self.old.child.told }
        ensures child { self.new.child.child ≡ self.old.child.child }
        ensures standing { self.new.child.standing ≡ self.old.child.standing }
        ensures rests { W.rests self.old.work self.new.work }
    {
        self.ear.cancel(pid, key);
    }

    /// As [`Ear::detach`].
    pub fn detach(&mut self)
        requires { (generation : ℕ) × (self.old.child.child.attached ≡ Some generation) }
        ensures link { self.new.link ≡ self.old.link }
        ensures child { self.new.child.child ≡ let_go self.old.child.child }
        ensures told { self.new.child.told ≡ self.old.child.told }
        ensures rests { W.rests self.old.work self.new.work }
    {
        self.ear.detach();
    }
}
