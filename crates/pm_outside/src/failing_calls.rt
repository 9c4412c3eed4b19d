// Which calls of an object in memory fail. The objects share it, so that each fails by the same rule.
ghost use Rattle.std.specs.Prelude.{◌≡◌};
ghost use Rattle.pm_disk.specs.Cause.{IsCounted};
ghost use Rattle.pm_outside.specs.Calls.{no_calls, one_more, is_next_listed};

use std::marker::Model;

/// The numbers of the calls that fail, and counts of the calls and of the failures, each up to 2^64 - 1.
#[derive(Drop)]
pub struct FailingCalls {
    numbers: Vec<u64>,
    made: u64,
    failed: u64,
}

impl Model for FailingCalls {
    ghost use Rattle.pm_outside.specs.Calls.{Calls};

    ghost Value = { Calls };

    ghost view = { λ c. record { failing = c.numbers.items; made = c.made; failed = c.failed } };
}

impl FailingCalls {
    /// The calls with these numbers fail. They count from 1, and may stand in any order.
    pub fn new(numbers: Vec<u64>) -> Self
        ensures { result ≡ no_calls numbers.items }
    {
        FailingCalls {
            numbers,
            made: 0,
            failed: 0,
        }
    }

    /// Counts a call, and answers whether it is one of those that fail.
    pub fn begin(&mut self) -> bool
        ensures listed { result ≡ is_next_listed self.old }
        ensures counted { self.new ≡ record self.old { made = one_more self.old.made } }
    {
        self.made = self.made.saturating_add(1);
        self.numbers.contains(&self.made)
    }

    /// Counts a failure, of a listed call or for want of memory.
    pub fn fail(&mut self)
        ensures counted { self.new ≡ record self.old { failed = one_more self.old.failed } }
        ensures rises { IsCounted self.old.failed self.new.failed (Unit {0}) }
    {
        self.failed = self.failed.saturating_add(1);
    }

    /// How many calls have failed.
    pub fn failed(&self) -> u64
        ensures { result ≡ self.now.failed }
    {
        self.failed
    }
}
