// The leave to start threads.
ghost use Rattle.std.specs.Prelude.{ℕ, ◌≡◌, IsNone};
ghost use Rattle.pm_disk.specs.Cause.{IsCounted};

use std::sync::Wait;
use std::thread;

/// Gives the leave to start threads, one at a time, and counts those that weren't made.
pub trait Spawner {
    /// What starts the threads, lets them wait and joins them.
    type Runtime: thread::Threads + Wait;

    /// How often a thread wasn't made, up to 2^64 - 1. It never falls.
    ghost faults: { Self → ℕ };

    /// The leave for one thread more. None refuses it, which is counted.
    fn leave(&mut self) -> Option<Self::Runtime>
        ensures cause { IsCounted (faults self.old) (faults self.new) (IsNone result) };

    /// Counts a thread that had the leave and wasn't made.
    fn count(&mut self)
        ensures { IsCounted (faults self.old) (faults self.new) (Unit {0}) };

    /// How often a thread wasn't made, up to 2^64 - 1.
    fn faults(&self) -> u64
        ensures { result ≡ faults self.now };
}
