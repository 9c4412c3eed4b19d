//! A greeted client's queries, in order, up to the session's end.
ghost use Rattle.std.specs.Prelude.{◌≡◌, false, [], length, OnOk};
ghost use Rattle.pm_wire.specs.Frontend.{front_message};
ghost use Rattle.pm_session_exchange.specs.{Exchange.{Holds, IsLeftFor, IsSound}, Moments.{ShowsCause, GoesOrShows}, Room.IsQueryString, Answers.{KeepsUser, IsOvertakenBy, OvertakesBy}};
ghost use Rattle.pm_session.specs.Turns.{Talked, Talks, Takes, Replies, HasQueryText, at_desk};

use crate::desk::Desk;
use pm_child_life::Life;
use pm_outside::{Clock, Link};
use pm_query::Store;
use pm_session_exchange::{Cause, Inbox, Means, MessageFault, wanted_bytes_fit};
use pm_wire::{Front, Take, WireFault};
use std::sync::Wait;

/// The bytes of a message's type and length.
const HEADER: usize = 5;

impl<L: Link, W: Store + Life> Desk<L, W> {
    /// Answers the client's queries up to its session's end, and tells by what it ended.
    pub(crate) fn converse<R: Wait, C: Clock>(
        &mut self,
        means: &Means<'_, R, C>,
        inbox: &mut Inbox,
        pass: &mut W::Pass,
    ) -> Cause
        requires admits { W.admits self.old.work pass.old }
        requires empty { self.old.outbox.bytes ≡ [] }
        ensures talks { Talked W.Store.own (C.gives means.now.clock.now) pass.old result
            (at_desk self.old inbox.old) (at_desk self.new inbox.new) }
        ensures cause { ShowsCause result self.old.link self.new.link self.new.child }
        ensures holds { IsSound false self.old.link.traffic → IsLeftFor result self.new.link.traffic }
        ensures admits { W.admits self.new.work pass.new }
        ensures user { KeepsUser W.Store.own self.old.work pass.old self.new.work pass.new }
        ensures overtaken { IsOvertakenBy (W.met self.new.work) (W.view pass.old).generation result }
    {
        for _ in means.rt.forever() {
            if let Err(cause) = self.step(means, inbox, pass) {
                return cause;
            }
        }
        unreachable!()
    }

    // Takes one message; or waits for more of it, where not all of it is there.
    fn step<R: Wait, C: Clock>(
        &mut self,
        means: &Means<'_, R, C>,
        inbox: &mut Inbox,
        pass: &mut W::Pass,
    ) -> Result<(), Cause>
        requires admits { W.admits self.old.work pass.old }
        requires empty { self.old.outbox.bytes ≡ [] }
        ensures talks { Talks W.Store.own (C.gives means.now.clock.now) pass.old result
            (at_desk self.old inbox.old) (at_desk self.new inbox.new) }
        ensures cause { GoesOrShows result self.old.link self.new.link self.new.child }
        ensures holds { Holds false result self.old.link self.new.link }
        ensures admits { W.admits self.new.work pass.new }
        ensures user { KeepsUser W.Store.own self.old.work pass.old self.new.work pass.new }
        ensures overtaken { OvertakesBy (W.met self.new.work) (W.view pass.old).generation result }
        ensures empty { OnOk result (self.new.outbox.bytes ≡ []) }
    {
        self.line.heed()?;
        match Front::read(inbox.unread()) {
            Take::Short { wanted } => {
                wanted_bytes_fit();
                self.line.await_bytes(means, inbox, wanted)
            }
            Take::Bad(WireFault::BadForm { .. }) => unreachable!(),
            Take::Bad(WireFault::BadLength { seen }) => {
                inbox.pass(HEADER);
                Err(Cause::MessageRefused(MessageFault::BadLength { seen }))
            }
            Take::Whole { value, used } => {
                let goes = self.take_message(means, pass, value);
                inbox.pass(used);
                goes
            }
        }
    }

    // Answers a query. Any other message ends the session.
    fn take_message<R: Wait, C: Clock>(
        &mut self,
        means: &Means<'_, R, C>,
        pass: &mut W::Pass,
        message: Front<'_>,
    ) -> Result<(), Cause>
        requires admits { W.admits self.old.work pass.old }
        requires empty { self.old.outbox.bytes ≡ [] }
        requires text { HasQueryText (front_message message) }
        ensures goes { Takes W.Store.own (C.gives means.now.clock.now) pass.old
            (front_message message.entry) result (at_desk self.old [])
            (at_desk self.new []) }
        ensures cause { GoesOrShows result self.old.link self.new.link self.new.child }
        ensures holds { Holds false result self.old.link self.new.link }
        ensures admits { W.admits self.new.work pass.new }
        ensures user { KeepsUser W.Store.own self.old.work pass.old self.new.work pass.new }
        ensures overtaken { OvertakesBy (W.met self.new.work) (W.view pass.old).generation result }
        ensures empty { OnOk result (self.new.outbox.bytes ≡ []) }
    {
        match message {
            Front::Query(text) => self.reply_to(means, pass, text),
            Front::Terminate => Err(Cause::Terminated),
            Front::BadQuery => Err(Cause::MessageRefused(MessageFault::BadForm)),
            Front::LongQuery { seen } => {
                Err(Cause::MessageRefused(MessageFault::LongQuery { seen }))
            }
            Front::Extended(kind) => Err(Cause::MessageRefused(MessageFault::Extended(kind))),
            Front::Other(kind) => Err(Cause::MessageRefused(MessageFault::UnknownType(kind))),
        }
    }

    // Answers a query, and sends the answer.
    fn reply_to<R: Wait, C: Clock>(
        &mut self,
        means: &Means<'_, R, C>,
        pass: &mut W::Pass,
        text: &[u8],
    ) -> Result<(), Cause>
        requires admits { W.admits self.old.work pass.old }
        requires empty { self.old.outbox.bytes ≡ [] }
        requires text { IsQueryString text.now }
        ensures goes { Replies W.Store.own (C.gives means.now.clock.now) pass.old text.now
            result (at_desk self.old []) (at_desk self.new []) }
        ensures cause { GoesOrShows result self.old.link self.new.link self.new.child }
        ensures holds { Holds false result self.old.link self.new.link }
        ensures admits { W.admits self.new.work pass.new }
        ensures user { KeepsUser W.Store.own self.old.work pass.old self.new.work pass.new }
        ensures overtaken { OvertakesBy (W.met self.new.work) (W.view pass.old).generation result }
        ensures empty { OnOk result (self.new.outbox.bytes ≡ []) }
    {
        let answer = self.line.answer_to(means, pass, text)?;
        self.say_answer(&answer)
    }
}
