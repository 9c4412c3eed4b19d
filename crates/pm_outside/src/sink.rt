// Where log lines and printed answers go.
ghost use Rattle.std.specs.Prelude.{◌≡◌, ◌<◌, ℕ, List, Option, option_map, length};
ghost use Rattle.pm_disk.specs.Cause.{IsCounted};
ghost use Rattle.pm_outside.specs.Traffic.{IsPutDone, PutWithin, put_behind};

use crate::link::Put;

pub trait Sink {
    /// The bytes written so far. A sink that doesn't tell them has none.
    ghost written: { Self → Option (List ℕ) };

    /// How often it has failed, up to 2^64 - 1. It never falls.
    ghost faults: { Self → ℕ };

    /// Writes bytes, one or more from the front. A write that fails writes none.
    fn write(&mut self, from: &[u8]) -> Put
        requires { 0 < length from.now }
        ensures within { PutWithin result (length from.now) }
        ensures done { IsPutDone result }
        ensures written { written self.new ≡ option_map (λ w. put_behind w result from.now)
            (written self.old) }
        ensures cause { IsCounted (faults self.old) (faults self.new) (result ≡ Put.Failed) };

    /// How often it has failed, up to 2^64 - 1.
    fn faults(&self) -> u64
        ensures { result ≡ faults self.now };
}
