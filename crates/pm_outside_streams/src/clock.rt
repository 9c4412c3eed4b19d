//! The clock of the system.

ghost use Rattle.std.specs.Prelude.{⊤};

use pm_outside::Clock;
use std::alloc::AllocError;
use std::sync::Wait;
use std::time::{self, Duration, Instant};
use std::{io, thread};

/// How long a pause is, in milliseconds.
const PAUSE_MS: u64 = 1;

/// The time since a start, in milliseconds, by a clock that never goes back.
#[derive(Drop)]
pub struct SystemClock<R> {
    start: Instant,
    rt: R,
}

impl<R: time::Clock + Drop> SystemClock<R> {
    /// A clock that starts now.
    pub fn new(rt: R) -> io::Result<Self> {
        let start = Instant::now(&rt)?;
        Ok(SystemClock { start, rt })
    }
}

impl<R: Wait + time::Clock + Copy + Drop> Clock for SystemClock<R> {
    type Runtime = R;

    // It may give any moment.
    ghost gives = { λ _ _. ⊤ };

    fn now(&self) -> u64 {
        match self.start.elapsed(&self.rt) {
            Ok(passed) => u64::try_from(passed.as_millis()).unwrap_or(u64::MAX),
            Err(_) => 0,
        }
    }

    fn pause(&self) {
        thread::sleep(&self.rt, Duration::from_millis(PAUSE_MS));
    }

    // Nobody else pauses while `once` serves its link.
    fn ring(&self) {}

    fn call(&self, _slot: u32) {}

    fn another(&self, _slot: u32) -> Result<Self, AllocError> {
        Ok(SystemClock {
            start: self.start,
            rt: self.rt,
        })
    }
}
