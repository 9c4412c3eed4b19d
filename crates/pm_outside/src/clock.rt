// The time.
ghost use Rattle.std.specs.Prelude.{◌↔◌, ℕ, IfOk};

use std::alloc::AllocError;
use std::sync::Wait;

/// Tells the time in milliseconds, which never falls.
pub trait Clock {
    /// What lets `pause` wait.
    type Runtime: Wait;

    /// Which moments this clock, and those made from it, can give. One that stands still gives one alone.
    ghost gives: { Self → ℕ → Type 0 };

    /// The present moment.
    fn now(&self) -> u64
        ensures { gives self.now result };

    /// Lets some time pass. It may end at once where there was a ring or a call since the pause before.
    fn pause(&self);

    /// Lets a short time pass, no longer than a pause, so that others get what the caller has let go of.
    fn pause_briefly(&self) {
        self.pause()
    }

    /// Ends the pause of the clock that this one was made from.
    fn ring(&self);

    /// Calls the child of this slot: the pause of the clock that was made for it ends, and the waits of its link.
    fn call(&self, slot: u32);

    /// A clock for another thread, that of the child of this slot, which gives the same moments.
    fn another(&self, slot: u32) -> Result<Self, AllocError>
        ensures { IfOk result (λ clock. (moment : ℕ) → gives clock moment ↔ gives self.now moment) };
}
