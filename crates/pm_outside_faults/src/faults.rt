//! A count of faults with the first of them.

ghost use Rattle.std.specs.Prelude.{◌↔◌, ◌<◌, ◌^◌, IsTrue, is_some};

/// The faults of one part of the outside: how many there were, up to 2^64 - 1, and the first. The first one is mostly the
/// cause of those after it.
#[derive(Debug, Drop)]
pub struct Faults<F> {
    first: Option<F>,
    count: u64,
    ghost counted: { count < 2 ^ 64 },
    ghost kept: { IsTrue (is_some first) ↔ (0 < count) },
}

impl<F: Copy> Faults<F> {
    ghost use Rattle.std.specs.Prelude.{◌≡◌, ◌+◌, ◌-◌, min, IsSome, None, Some, unwrap_or};
    ghost use Rattle.pm_outside_faults.specs.Faults.{count_of, first_of};

    /// Nothing has failed yet.
    pub fn new() -> Self
        ensures { count_of result ≡ 0 }
    {
        Faults {
            first: None,
            count: 0,
        }
    }

    /// Counts a fault, and keeps it where it is the first.
    pub fn note(&mut self, fault: F)
        ensures count { count_of self.new ≡ min (count_of self.old + 1) (2 ^ 64 - 1) }
        ensures first { first_of self.new ≡ Some (unwrap_or (first_of self.old) fault) }
    {
        self.first = Some(self.first.unwrap_or(fault));
        self.count = self.count.saturating_add(1);
    }

    /// How many there were.
    pub fn count(&self) -> u64
        ensures { result ≡ count_of self.now }
    {
        self.count
    }

    /// The first one.
    pub fn first(&self) -> Option<F>
        ensures first { result ≡ first_of self.now }
        ensures some { IsSome result ↔ (0 < count_of self.now) }
    {
        self.first
    }
}
