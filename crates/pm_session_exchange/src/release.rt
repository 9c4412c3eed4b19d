//! What answers a query, and when a reply may be sent.
ghost use Rattle.std.specs.Prelude.{◌≡◌, List};
ghost use Rattle.pm_query.specs.Calls.{HasReached};
ghost use Rattle.pm_child_life.specs.Attention.{Hears};
ghost use Rattle.pm_session_exchange.specs.{Answers.{no_release, CanEndWait, WaitNotes, ReleaseNotes, Notes, KeepsUser, OvertakesBy}, Moments.AnswersOrHeeds};

use crate::ear::Ear;
use crate::ending::Cause;
use crate::means::Means;
use pm_child_life::Life;
use pm_outside::Clock;
use pm_query::{Reply, Seen, Staged, Store, StoreNo};
use pm_rows::Text;
use pm_sql::SqlFault;
use std::marker::Model;
use std::sync::Wait;

/// A reply that may be sent: the log is flushed up to its front. Only [`Ear::release`] makes one. Contracts see it as the
/// reply.
#[derive(Drop)]
pub struct Released {
    reply: Reply,
}

impl Model for Released {
    ghost use Rattle.std.specs.Prelude.{List};
    ghost use Rattle.pm_query.specs.declared.item.Item.{Item};

    ghost Value = { List Item };

    ghost view = { λ released. released.reply };
}

impl Released {
    /// The reply.
    pub fn reply(&self) -> &Reply
        ensures { result.now ≡ self.now }
    {
        &self.reply
    }
}

/// The answer to a query.
#[derive(Drop)]
pub enum Answer {
    Ran(Released),
    /// Its text is no script, as the message says.
    Faulted { fault: SqlFault, message: Text },
    NotUtf8,
    Cancelled,
    LogIsFull,
    Memory,
}

/// What waiting for the log came to.
#[derive(Clone, Copy)]
pub(crate) enum Awaited {
    /// The log is flushed up to the front.
    Flushed,
    NoMemory,
}

impl<W: Store + Life> Ear<W> {
    /// Waits until the log is flushed up to what was staged. The child takes its signals before it asks first, and again
    /// each time before it flushes the log itself. A Kill or a Quit ends the wait; other signals stand until later.
    pub(crate) fn release<R: Wait, C: Clock>(
        &mut self,
        means: &Means<'_, R, C>,
        pass: &mut W::Pass,
        staged: Staged,
    ) -> Result<Answer, Cause>
        requires admits { W.admits self.old.work pass.old }
        requires reached { HasReached (W.view pass.old) staged.front }
        ensures notes { Notes W.Store.own pass.old (λ user. ReleaseNotes user staged result)
            self.old.work self.new.work }
        ensures admits { W.admits self.new.work pass.new }
        ensures user { KeepsUser W.Store.own self.old.work pass.old self.new.work pass.new }
        ensures overtaken { OvertakesBy (W.met self.new.work) (W.view pass.old).generation result }
        ensures hears { Hears 1 self.old.child self.new.child }
        ensures heeded { AnswersOrHeeds result self.new.child }
    {
        match self.await_flush(means, pass, staged.front)? {
            Awaited::Flushed => {
                let reply = staged.reply;
                Ok(Answer::Ran(Released { reply }))
            }
            Awaited::NoMemory => Ok(Answer::Memory),
        }
    }

    // Waits until the log is flushed up to a front.
    fn await_flush<R: Wait, C: Clock>(
        &mut self,
        means: &Means<'_, R, C>,
        pass: &mut W::Pass,
        front: u64,
    ) -> Result<Awaited, Cause>
        requires admits { W.admits self.old.work pass.old }
        requires reached { HasReached (W.view pass.old) front }
        ensures notes { Notes W.Store.own pass.old (λ user. WaitNotes user front result)
            self.old.work self.new.work }
        ensures admits { W.admits self.new.work pass.new }
        ensures user { KeepsUser W.Store.own self.old.work pass.old self.new.work pass.new }
        ensures overtaken { OvertakesBy (W.met self.new.work) (W.view pass.old).generation result }
        ensures hears { Hears 1 self.old.child self.new.child }
        ensures heeded { AnswersOrHeeds result self.new.child }
    {
        for _ in means.rt.forever() {
            self.heed_waiting()?;
            match self.ask_seen(pass, front) {
                Ok(Seen::Released) => return Ok(Awaited::Flushed),
                Ok(Seen::NotFlushed { .. }) => {}
                Err(no) => return no_release(no),
            }
            self.heed_waiting()?;
            if let Err(refusal) = self.ask_flush(pass) {
                return no_release(refusal);
            }
        }
        unreachable!()
    }
}

// What a refusal to release or to flush comes to.
fn no_release(no: StoreNo) -> Result<Awaited, Cause>
    requires { CanEndWait no }
    ensures { result ≡ no_release no }
{
    match no {
        StoreNo::NoMemory => Ok(Awaited::NoMemory),
        StoreNo::Stale { .. } => Err(Cause::Overtaken),
        StoreNo::Disk | StoreNo::Broken { .. } => Err(Cause::Panicked),
        StoreNo::Full { .. } | StoreNo::Redo(_) => unreachable!(),
    }
}
