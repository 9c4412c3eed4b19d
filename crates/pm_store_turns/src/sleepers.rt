//! Who sleeps for the store.
//!
//! Who is going to sleep counts itself before it looks at the word for the last time, and who gives the store back looks at the
//! count when the word has changed. So either the count tells of the sleeper, or its last look tells of the change: no wake is
//! lost, and nobody is woken where nobody sleeps. Nothing of this is promised.
use std::sync::atomic::{AtomicU64, Ordering};

/// How many sleep for the store, or are about to.
#[derive(Drop)]
pub struct Sleepers {
    count: AtomicU64,
}

impl Sleepers {
    pub fn new() -> Sleepers {
        Sleepers {
            count: AtomicU64::new(0),
        }
    }

    /// Counts somebody who is going to sleep.
    pub fn come(&self) {
        self.count.fetch_add(1, Ordering::SeqCst);
    }

    /// Counts that somebody who came sleeps no longer.
    pub fn go(&self) {
        self.count.fetch_sub(1, Ordering::SeqCst);
    }

    pub fn is_empty(&self) -> bool {
        self.count.load(Ordering::SeqCst) == 0
    }
}
