//! One connection from its first byte to its end.
ghost use Rattle.std.specs.Prelude.{◌≡◌, ◌≤◌, ◌+◌, ◌++◌, false, [], length, None, Some, Ok, OnOk, IfOk, IfSome, IsTrue};
ghost use Rattle.pm_session_exchange.specs.{pm_query.pm_facts.Zeros.HasNoZero, pm_outside.Traffic.IsFresh, pm_child_life.{Life.{IsUntried, answer_met}, Attention.{HasAsked, Hears}}, Exchange.{Holds, Sends}, Moments.{GoesOrBreaks, IsUntold}, Sent.{bytes_of, greeting}, Room.buffer_bytes, Answers.{KeepsUser, IsOvertakenBy}};
ghost use Rattle.pm_wire.specs.Backend.{spelling, Param};
ghost use Rattle.pm_session.specs.{Session.{HasServed, Heeds}, Entry.{Admitted, Connected, Entered, Inside, CanRefuseEntry, refusal_cause}, Turns.at_desk};

use crate::close::close_short_of_memory;
use crate::desk::Desk;
use crate::startup::startup;
use pm_admit::Cac;
use pm_child_life::Life;
use pm_outside::{Clock, Link};
use pm_query::{Store, StoreNo};
use pm_session_exchange::{BUFFER_BYTES, Cause, Done, Ear, Inbox, Line, Means, Stage};
use pm_wire::{Back, Outbox, back_messages_have_a_longest};
use std::alloc::{AllocError, Global};
use std::sync::Wait;

/// The settings that a client is told at the start, in this order.
const SETTINGS: [(&str, &str); 6] = [
    ("server_version", "16.0"),
    ("server_encoding", "UTF8"),
    ("client_encoding", "UTF8"),
    ("DateStyle", "ISO, MDY"),
    ("integer_datetimes", "on"),
    ("standard_conforming_strings", "on"),
];

/// What a session goes by.
#[derive(Clone, Copy, Debug, PartialEq, Eq)]
pub struct SessionConf {
    /// How long a client may take up to the whole of its startup packet, in milliseconds since the session began.
    pub authentication_ms: u64,
}

/// What the supervisor has decided of a connection, and the key by which its queries can be cancelled.
#[derive(Clone, Copy, Debug, PartialEq, Eq)]
pub struct Admission {
    pub decision: Cac,
    pub key: u32,
}

/// Serves one connection to its end.
pub fn serve<R: Wait, L: Link, W: Store + Life, C: Clock>(
    means: &Means<'_, R, C>,
    link: L,
    work: W,
    admission: Admission,
    conf: &SessionConf,
) -> Done<L, W>
    requires fresh { IsFresh (L.traffic link) }
    requires free { (W.child work).attached ≡ None }
    requires may { admission.decision ≡ Cac.Ok → ¬ (IsTrue (W.child work).is_dead_end) }
    requires untold { IsUntold (W.told work) }
    // What came in, what went out and what this child noted are those of one session; its ending has its causes and its
    // status.
    ensures session { HasServed W.Store.own W.Seat L.Link admission conf.now
        (C.gives means.now.clock.now) link work result }
    // What it was given it has heeded.
    ensures heeds { Heeds result.status (W.told result.work) }
    ensures number { L.number result.link ≡ L.number link }
    ensures link_faults { L.faults link ≤ L.faults result.link }
{
    let began = means.clock.now();
    let mut line = Line::new(link, Ear::new(work));
    let Ok((mut inbox, outbox)) = buffers(means.alloc) else {
        let exit = close_short_of_memory(&mut line, admission.decision);
        return line.done(exit);
    };
    let mut desk = Desk::new(line, outbox);
    let limit = conf.authentication_ms;
    let exit = desk.session(means, &mut inbox, admission, began, limit);
    desk.into_line().done(exit)
}

// Room for what comes in and for what is said.
fn buffers(alloc: Global) -> Result<(Inbox, Outbox), AllocError>
    ensures { IfOk result (λ both. (both.0 ≡ []) × (both.1.bytes ≡ []) × (buffer_bytes ≤ both.1.capacity)) }
{
    let inbox = Inbox::new(alloc)?;
    let outbox = Outbox::with_capacity(alloc, BUFFER_BYTES)?;
    Ok((inbox, outbox))
}

impl<L: Link, W: Store + Life> Desk<L, W> {
    // From its first byte on, by what the child exits.
    fn session<R: Wait, C: Clock>(
        &mut self,
        means: &Means<'_, R, C>,
        inbox: &mut Inbox,
        admission: Admission,
        began: u64,
        limit: u64,
    ) -> Cause
        requires fresh { IsFresh self.old.link.traffic }
        requires free { self.old.child.child.attached ≡ None }
        requires may { admission.decision ≡ Cac.Ok → ¬ (IsTrue self.old.child.child.is_dead_end) }
        requires untold { IsUntold self.old.child.told }
        requires unread { inbox.old ≡ [] }
        requires began { C.gives means.now.clock.now began }
        requires empty { self.old.outbox.bytes ≡ [] }
        ensures session { Connected W.Store.own admission
            (C.gives means.now.clock.now) limit result (at_desk self.old inbox.old)
            (at_desk self.new inbox.new) }
        ensures number { self.new.link.number ≡ self.old.link.number }
        ensures link_faults { self.old.link.faults ≤ self.new.link.faults }
    {
        match startup(&mut self.line, means, inbox, began, limit) {
            Ok(is_ordinary) => self.admit(means, inbox, admission, is_ordinary),
            Err(cause) => self.close(admission.decision, Stage::Outside, cause),
        }
    }

    // After the startup packet: the decision, and the gate, where the reserved places are kept from an ordinary user.
    fn admit<R: Wait, C: Clock>(
        &mut self,
        means: &Means<'_, R, C>,
        inbox: &mut Inbox,
        admission: Admission,
        is_ordinary: bool,
    ) -> Cause
        requires free { self.old.child.child.attached ≡ None }
        requires may { admission.decision ≡ Cac.Ok → ¬ (IsTrue self.old.child.child.is_dead_end) }
        requires untried { IsUntried self.old.child.told }
        requires empty { self.old.outbox.bytes ≡ [] }
        ensures serves { Admitted W.Store.own admission is_ordinary
            (C.gives means.now.clock.now) result (at_desk self.old inbox.old)
            (at_desk self.new inbox.new) }
    {
        let Cac::Ok = admission.decision else {
            return self.close(admission.decision, Stage::Outside, Cause::DecisionRefused);
        };
        if let Err(cause) = self.line.heed() {
            return self.close(Cac::Ok, Stage::Outside, cause);
        }
        match self.line.attach(is_ordinary) {
            Ok(generation) => {
                let exit = self.attached(means, inbox, admission.key, generation);
                if exit.lets_go() {
                    self.line.detach();
                }
                exit
            }
            Err(refusal) => self.close(Cac::Ok, Stage::Outside, Cause::GateRefused(refusal)),
        }
    }

    // Through the gate: the store.
    fn attached<R: Wait, C: Clock>(
        &mut self,
        means: &Means<'_, R, C>,
        inbox: &mut Inbox,
        key: u32,
        generation: u32,
    ) -> Cause
        requires met { IfSome self.old.child.told (λ t. answer_met t ≡ Some (Ok generation)) }
        requires empty { self.old.outbox.bytes ≡ [] }
        ensures serves { Entered W.Store.own key generation
            (C.gives means.now.clock.now) result (at_desk self.old inbox.old)
            (at_desk self.new inbox.new) }
        ensures child { self.new.child.child ≡ self.old.child.child }
        ensures gate { HasAsked 0 self.old.child.told self.new.child.told }
        ensures overtaken { IsOvertakenBy (W.met self.new.work) generation result }
    {
        if let Err(cause) = self.line.heed() {
            return self.close(Cac::Ok, Stage::Entering, cause);
        }
        let pid = self.line.pid();
        let mut pass = match self.line.enter(pid, generation) {
            Ok(pass) => pass,
            Err(no) => {
                return self.close(Cac::Ok, Stage::Entering, refusal_cause(no));
            }
        };
        let exit = self.entered(means, inbox, key, &mut pass);
        if exit.lets_go() {
            self.line.leave(pass);
        }
        exit
    }

    // In the store: the greeting, the queries, and the last words.
    fn entered<R: Wait, C: Clock>(
        &mut self,
        means: &Means<'_, R, C>,
        inbox: &mut Inbox,
        key: u32,
        pass: &mut W::Pass,
    ) -> Cause
        requires admits { W.admits self.old.work pass.old }
        requires pid { self.old.child.child.pid ≡ (W.view pass.old).pid }
        requires met { IfSome self.old.child.told (λ t. answer_met t ≡ Some
            (Ok (W.view pass.old).generation)) }
        requires empty { self.old.outbox.bytes ≡ [] }
        ensures serves { Inside W.Store.own pass.old key
            (C.gives means.now.clock.now) result (at_desk self.old inbox.old)
            (at_desk self.new inbox.new) }
        ensures child { self.new.child.child ≡ self.old.child.child }
        ensures gate { HasAsked 0 self.old.child.told self.new.child.told }
        ensures admits { W.admits self.new.work pass.new }
        ensures user { KeepsUser W.Store.own self.old.work pass.old self.new.work pass.new }
        ensures overtaken { IsOvertakenBy (W.met self.new.work) (W.view pass.old).generation result }
    {
        let cause = match self.greet(key) {
            Ok(()) => self.converse(means, inbox, pass),
            Err(cause) => cause,
        };
        self.close(Cac::Ok, Stage::Greeted, cause)
    }

    // Sends the greeting.
    fn greet(&mut self, key: u32) -> Result<(), Cause>
        requires empty { self.old.outbox.bytes ≡ [] }
        ensures sends { Sends result (bytes_of (greeting self.old.child.child.pid key))
            self.old.link self.new.link }
        ensures hears { Hears 0 self.old.child self.new.child }
        ensures cause { GoesOrBreaks result self.old.link self.new.link self.new.child }
        ensures holds { Holds false result self.old.link self.new.link }
        ensures empty { OnOk result (self.new.outbox.bytes ≡ []) }
        ensures rests { W.rests self.old.work self.new.work }
    {
        put_greeting(&mut self.outbox, self.line.pid(), key);
        self.line.send(self.outbox.as_slice())?;
        self.outbox.clear();
        Ok(())
    }
}

// By what a session ends that the store doesn't let in.
fn refusal_cause(no: StoreNo) -> Cause
    requires { CanRefuseEntry no }
    ensures { result ≡ refusal_cause no }
{
    match no {
        StoreNo::Stale { .. } => Cause::Overtaken,
        StoreNo::NoMemory => Cause::ShortOfMemory,
        StoreNo::Disk | StoreNo::Broken { .. } | StoreNo::Full { .. } | StoreNo::Redo(_) => {
            unreachable!()
        }
    }
}

// Puts the greeting into the outbox: AuthenticationOk, the settings, the cancel key and ReadyForQuery.
fn put_greeting(outbox: &mut Outbox, pid: u32, key: u32)
    requires empty { outbox.old.bytes ≡ [] }
    requires room { buffer_bytes ≤ outbox.old.capacity }
    ensures bytes { outbox.new.bytes ≡ bytes_of (greeting pid key) }
    ensures room { buffer_bytes ≤ outbox.new.capacity }
{
    back_messages_have_a_longest();
    Back::Auth.put(outbox);
    for (name, value) in SETTINGS {
        put_setting(outbox, name, value);
    }
    Back::Key { pid, key }.put(outbox);
    Back::Ready.put(outbox);
}

// Puts a setting into the outbox, after what stands there.
fn put_setting(outbox: &mut Outbox, name: &str, value: &str)
    requires words { HasNoZero name.now × HasNoZero value.now }
    requires short { length name.now + length value.now ≤ 60 }
    requires room { length outbox.old.bytes + 100 ≤ outbox.old.capacity }
    ensures bytes { outbox.new.bytes ≡ outbox.old.bytes ++ spelling (Param name.now value.now) }
    ensures short { length outbox.new.bytes ≤ length outbox.old.bytes + 100 }
    ensures capacity { outbox.old.capacity ≤ outbox.new.capacity }
{
    back_messages_have_a_longest();
    Back::Param { name, value }.put(outbox);
}
