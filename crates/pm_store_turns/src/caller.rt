//! Calls the writer and the checkpointer where there is something for them.
//!
//! Both sleep until they are called. A session flushes what it waits for itself, so the writer has something to do only where
//! a child leaves commits that nobody has flushed, and the checkpointer where the log is due. That a call is made is promised
//! nowhere: one that is lost costs a late flush that nobody waits for, or a late checkpoint.
use pm_outside::Clock;
use pm_query::StoreNo;

/// What calls the writer and the checkpointer for the children that one worker runs, one after the other.
#[derive(Drop)]
pub struct Caller<C> {
    clock: C,
    writer: u32,
    checkpointer: u32,
    // Up to where the log is flushed, as its present child was told.
    flushed: u64,
}

impl<C> Caller<C> {
    /// Calls by this clock the children in the slots of the writer and the checkpointer.
    pub fn new(clock: C, writer: u32, checkpointer: u32) -> Caller<C> {
        Caller {
            clock,
            writer,
            checkpointer,
            flushed: 0,
        }
    }

    /// A child comes in, who was told nothing yet.
    pub fn begin(&mut self) {
        self.flushed = 0;
    }
}

impl<C: Clock> Caller<C> {
    /// Notes up to where the log is flushed, as a child was told that has seen so many commits. Without memory it waits for
    /// them no longer.
    pub fn hear(&mut self, front: Option<u64>, answer: Result<u64, StoreNo>) {
        match answer {
            Ok(flushed) => self.flushed = self.flushed.max(flushed),
            Err(StoreNo::NoMemory) => self.leave(front),
            Err(_) => {}
        }
    }

    /// Calls the writer, where a child that has seen so many commits leaves some that may not be flushed.
    pub fn leave(&self, front: Option<u64>) {
        if let Some(front) = front
            && self.flushed < front
        {
            self.clock.call(self.writer);
        }
    }

    /// Calls the checkpointer.
    pub fn call_checkpointer(&self) {
        self.clock.call(self.checkpointer);
    }
}
