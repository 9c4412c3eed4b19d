//! Whether the log is due for a checkpoint, and whether somebody was told.
//!
//! Who flushes notes it while it has the store. The first who asks from then on is told, and nobody else until a flush has found
//! the log not to be due again. Nothing of this is promised.
use std::sync::atomic::{AtomicU64, Ordering};

const NOT_DUE: u64 = 0;

const DUE: u64 = 1;

/// It is due, and somebody was told.
const TOLD: u64 = 2;

/// Whether a checkpoint is due.
#[derive(Drop)]
pub struct Due {
    state: AtomicU64,
}

impl Due {
    pub fn new() -> Due {
        Due {
            state: AtomicU64::new(NOT_DUE),
        }
    }

    /// Notes whether the log is due, after a flush.
    pub fn note(&self, is_due: bool) {
        if is_due {
            self.go(NOT_DUE, DUE);
        } else {
            self.state.store(NOT_DUE, Ordering::SeqCst);
        }
    }

    /// Whether it is due and nobody was told before.
    pub fn tell(&self) -> bool {
        self.go(DUE, TOLD)
    }

    // From one state to another, where it is the first.
    fn go(&self, from: u64, to: u64) -> bool {
        self.state
            .compare_exchange(from, to, Ordering::SeqCst, Ordering::SeqCst)
            .is_ok()
    }
}
