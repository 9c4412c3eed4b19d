// One connection, as bytes that come in and bytes that go out.
ghost use Rattle.std.specs.Prelude.{◌≡◌, ◌<◌, ◌≤◌, ◌+◌, ℕ, Option, option_map, length};
ghost use Rattle.pm_disk.specs.Cause.{IsCounted};
ghost use Rattle.pm_outside.specs.Traffic.{Traffic, after_read, after_write, asks_again, GotWithin, PutWithin};

/// What a read of a link gave.
#[derive(Clone, Copy, Debug, PartialEq, Eq)]
pub enum Got {
    /// So many bytes, at the front of the slice.
    Bytes(usize),
    /// Nothing stands there yet.
    NotYet,
    /// The other side has closed the link.
    End,
    Failed,
}

/// What a write took.
#[derive(Clone, Copy, Debug, PartialEq, Eq)]
pub enum Put {
    /// So many bytes, from the front of the slice.
    Count(usize),
    /// None yet: who writes was called while the other side took nothing.
    NotYet,
    Failed,
}

pub trait Link {
    /// What has passed on the link so far. A link that doesn't tell it has none, and then no clause speaks of bytes.
    ghost traffic: { Self → Option Traffic };

    /// Which of its port's links this is: the first is number 1. No call changes it.
    ghost number: { Self → ℕ };

    /// How often it has failed, up to 2^64 - 1. It never falls.
    ghost faults: { Self → ℕ };

    /// How many writes may still answer that nothing was taken yet. It never rises over a write.
    ghost patience: { Self → ℕ };

    /// Takes bytes that came in, one or more.
    fn read(&mut self, into: &mut [u8]) -> Got
        requires { 0 < length into.old }
        ensures within { GotWithin result (length into.old) }
        ensures traffic { traffic self.new ≡ option_map (λ t. after_read t result into.new)
            (traffic self.old) }
        ensures number { number self.new ≡ number self.old }
        ensures cause { IsCounted (faults self.old) (faults self.new) (result ≡ Got.Failed) };

    /// Sends bytes, one or more from the front. It waits until the other side takes some, or until the child of the link's slot is
    /// called. A write that fails sends none.
    fn write(&mut self, from: &[u8]) -> Put
        requires { 0 < length from.now }
        ensures within { PutWithin result (length from.now) }
        ensures traffic { traffic self.new ≡ option_map (λ t. after_write t result from.now)
            (traffic self.old) }
        ensures number { number self.new ≡ number self.old }
        ensures cause { IsCounted (faults self.old) (faults self.new) (result ≡ Put.Failed) }
        ensures patience { patience self.new + asks_again result ≤ patience self.old };

    /// Tells that the child which serves the link is to end: from the first such call on its writes wait for a second in all,
    /// and then fail.
    fn hurry(&mut self)
        ensures traffic { traffic self.new ≡ traffic self.old }
        ensures number { number self.new ≡ number self.old }
        ensures faults { faults self.new ≡ faults self.old }
        ensures patience { patience self.new ≤ patience self.old };

    /// How often it has failed, up to 2^64 - 1.
    fn faults(&self) -> u64
        ensures { result ≡ faults self.now };
}
