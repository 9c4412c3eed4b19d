//! Who has the disk, and one flush for all that wait.
//!
//! Of those who would call the disk one leads, and has it until it ends. A token that would flush meanwhile waits for that end: it goes
//! on where the flush has reached what it waits for, and else leads the next. So whoever commits while a batch is written is in
//! the next one, and a batch grows with the number of those who commit. Nothing of this is promised.
ghost use Rattle.std.specs.Prelude.{IsSome, IsTrue};

use std::sync::{Condvar, Mutex, MutexGuard, Wait};

#[derive(Drop)]
struct Counts {
    // Whether one leads.
    leading: bool,
    // Those who wait for its end.
    following: u64,
    // How often one has led and ended, and up to where the log is flushed.
    ended: u64,
    flushed: u64,
}

/// Who calls the disk.
#[derive(Drop)]
pub struct Joining {
    counts: Mutex<Counts>,
    // One who led has ended.
    done: Condvar,
}

impl Joining {
    pub fn new() -> Joining {
        Joining {
            counts: Mutex::new(Counts {
                leading: false,
                following: 0,
                ended: 0,
                flushed: 0,
            }),
            done: Condvar::new(),
        }
    }

    /// Leads, once nobody else does.
    pub fn lead<R: Wait>(&self, rt: &R) {
        self.turn(rt, None);
    }

    /// Whether another's flush has reached this front. Where none has, the caller leads, and then ends. Who has no front leads.
    pub fn turn<R: Wait>(&self, rt: &R, front: Option<u64>) -> bool
        ensures { IsTrue result → IsSome front }
    {
        for _ in rt.forever() {
            let mut counts = self.counts.lock(rt);
            if !counts.leading {
                counts.leading = true;
                return false;
            }
            let flushed = self.follow(rt, counts);
            if let Some(reached) = front
                && reached <= flushed
            {
                return true;
            }
        }
        unreachable!()
    }

    // Waits until the one who leads has ended, and answers up to where the log is flushed then.
    fn follow<R: Wait>(&self, rt: &R, counts: MutexGuard<'_, Counts>) -> u64 {
        let mut counts = counts;
        let ended = counts.ended;
        counts.following = counts.following.wrapping_add(1);
        let mut counts = self
            .done
            .wait_while(rt, counts, |counts| counts.ended == ended);
        counts.following = counts.following.wrapping_sub(1);
        counts.flushed
    }

    /// Leads no longer. The log is flushed up to here, where that is told.
    pub fn end<R: Wait>(&self, rt: &R, flushed: Option<u64>) {
        if self.note_end(rt, flushed) {
            self.done.notify_all();
        }
    }

    // Notes the end, and says whether somebody waits for it. Who comes later finds that nobody leads.
    fn note_end<R: Wait>(&self, rt: &R, flushed: Option<u64>) -> bool {
        let mut counts = self.counts.lock(rt);
        if let Some(flushed) = flushed {
            counts.flushed = counts.flushed.max(flushed);
        }
        counts.leading = false;
        counts.ended = counts.ended.wrapping_add(1);
        counts.following != 0
    }
}
