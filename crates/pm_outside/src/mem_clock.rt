// A clock that counts its own pauses.
use crate::clock::Clock;
use std::alloc::{AllocError, Global};
use std::sync::atomic::{AtomicU64, Ordering};
use std::sync::{Arc, Wait};
use std::thread;
use std::time::{self, Duration};

/// Goes on by a millisecond with each pause, of it or of a clock made from it, or of it alone, up to 2^64 - 1. Or it
/// stands still. A pause sleeps for a tenth of a millisecond.
#[derive(Drop)]
pub struct MemClock<R> {
    start: u64,
    passed: Option<Arc<AtomicU64, Global>>,
    pauses: Pauses,
    rt: R,
}

// Which pauses let time pass.
#[derive(Clone, Copy)]
enum Pauses {
    /// Those of this clock and of the clocks made from it.
    OfAll,
    /// Those of this clock alone.
    OfThisOne,
    /// None of these.
    OfNone,
}

impl<R: Drop> MemClock<R> {
    ghost use Rattle.std.specs.Prelude.{◌≡◌, ◌+◌, ◌^◌, ◌<◌, ◌≤◌, ℕ, IfOk};
    ghost use Rattle.pm_outside.specs.MemClock.{IsMoment};

    /// A clock that begins at this moment and goes on with each pause.
    pub fn new(alloc: Global, start: u64, rt: R) -> Result<Self, AllocError>
        ensures { IfOk result (λ clock. (moment : ℕ) → start ≤ moment → moment < 2 ^ 64
            → IsMoment clock moment) }
    {
        Ok(MemClock {
            start,
            passed: Some(Arc::new(alloc, AtomicU64::new(0))?),
            pauses: Pauses::OfAll,
            rt,
        })
    }

    /// The same, where the clocks made from it show its time and let none pass: so time doesn't run where many threads
    /// pause.
    pub fn leading(alloc: Global, start: u64, rt: R) -> Result<Self, AllocError>
        ensures { IfOk result (λ clock. (moment : ℕ) → start ≤ moment → moment < 2 ^ 64
            → IsMoment clock moment) }
    {
        Ok(MemClock {
            start,
            passed: Some(Arc::new(alloc, AtomicU64::new(0))?),
            pauses: Pauses::OfThisOne,
            rt,
        })
    }

    /// A clock that stands still at this moment.
    pub fn still(start: u64, rt: R) -> Self
        ensures { (moment : ℕ) → IsMoment result moment → moment ≡ start }
    {
        MemClock {
            start,
            passed: None,
            pauses: Pauses::OfNone,
            rt,
        }
    }
}

impl<R: Wait + time::Clock + Copy + Drop> Clock for MemClock<R> {
    ghost use Rattle.std.specs.Prelude.{◌≡◌};
    ghost use Rattle.pm_outside.specs.MemClock.{IsMoment};

    type Runtime = R;

    ghost gives = { IsMoment };

    fn now(&self) -> u64 {
        match &self.passed {
            Some(passed) => self.start.saturating_add(passed.load(Ordering::SeqCst)),
            None => self.start,
        }
    }

    fn pause(&self) {
        thread::sleep(&self.rt, Duration::from_micros(100));
        if let (Some(passed), Pauses::OfAll | Pauses::OfThisOne) = (&self.passed, self.pauses) {
            let _ = passed.fetch_update(Ordering::SeqCst, Ordering::SeqCst, |ms| ms.checked_add(1));
        }
    }

    // A pause is short, so that none has to be ended.
    fn ring(&self) {}

    fn call(&self, _slot: u32) {}

    fn another(&self, _slot: u32) -> Result<Self, AllocError> {
        let passed = match &self.passed {
            Some(passed) => Some(Arc::try_clone(passed)?),
            None => None,
        };
        let pauses = match self.pauses {
            Pauses::OfAll => Pauses::OfAll,
            Pauses::OfThisOne | Pauses::OfNone => Pauses::OfNone,
        };
        Ok(MemClock {
            start: self.start,
            passed,
            pauses,
            rt: self.rt,
        })
    }
}
