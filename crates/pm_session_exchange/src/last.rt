//! What a child does last on its line, and as what it exits.
ghost use Rattle.std.specs.Prelude.{◌≡◌, [], cond};
ghost use Rattle.pm_child_life.specs.Attention.{Hears, IsAttentive};
ghost use Rattle.pm_session_exchange.specs.{Exchange.seen, Ends.status_by, Moments.outside, Last.{SaysLast, IsLastCause}};

use crate::ending::Cause;
use crate::line::Line;
use pm_child_life::Life;
use pm_exit::Status;
use pm_outside::Link;

/// How a connection's child exits, and its link and its work, given back.
#[derive(Debug)]
pub struct Done<L, W> {
    pub status: Status,
    pub link: L,
    pub work: W,
}

impl<L: Link, W: Life> Line<L, W> {
    /// Takes the child's signals, and tells by what the session ends: a signal counts where the child would exit as if
    /// nothing had happened.
    pub fn last_cause(&mut self, cause: Cause) -> Cause
        ensures link { self.new.link ≡ self.old.link }
        ensures hears { Hears 1 self.old.child self.new.child }
        ensures attentive { IsAttentive self.new.child }
        ensures last { IsLastCause self.new.child.standing cause result }
        ensures rests { W.rests self.old.work self.new.work }
    {
        self.ear.listen();
        match (cause.status(), self.ear.ends()) {
            (Status::Code(0), Some(told)) => told,
            _ => cause,
        }
    }

    /// Says the last words. A Kill breaks them off, a fault of the link is passed over, and after them the child takes
    /// its signals once more.
    pub fn say_last(&mut self, words: &[u8])
        ensures says { SaysLast words.now (outside self.old.link [] self.old.child)
            (outside self.new.link [] self.new.child) }
        ensures rests { W.rests self.old.work self.new.work }
    {
        if words.is_empty() || self.ear.is_killed() {
            return;
        }
        let _ = self.send(words);
        self.ear.listen();
    }

    /// By what the child exits where the session ended by this cause.
    pub fn exit_by(&self, cause: Cause) -> Cause
        ensures { result ≡ cond self.now.child.standing.kill Cause.Killed cause }
    {
        if self.ear.is_killed() {
            Cause::Killed
        } else {
            cause
        }
    }

    /// The link and the work, given back, and how the child exits.
    pub fn done(self, exit: Cause) -> Done<L, W>
        ensures status { result.status ≡ status_by exit }
        ensures link { self.link ≡ seen L.Link result.link }
        ensures work { result.work ≡ self.work }
        ensures told { W.told result.work ≡ self.child.told }
        ensures child { W.child result.work ≡ self.child.child }
    {
        let Line { link, ear } = self;
        Done {
            status: exit.status(),
            link,
            work: ear.into_work(),
        }
    }
}
