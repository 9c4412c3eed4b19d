// Where the operator's lines come from.
ghost use Rattle.std.specs.Prelude.{◌≡◌, ℕ, List, Option, option_map};
ghost use Rattle.pm_disk.specs.Cause.{IsCounted};
ghost use Rattle.pm_outside.specs.Lines.{AskedWithin, after_next};

/// What a console answered.
#[derive(Clone, Copy, Debug, PartialEq, Eq)]
pub enum Asked {
    /// A line, cut at 64 bytes. So many bytes at the front of the array are its own.
    Line(usize),
    /// No line stands there yet.
    NotYet,
    /// No line will come any more.
    End,
    Failed,
}

pub trait Console {
    /// The lines given so far. A console that doesn't tell them has none.
    ghost lines: { Self → Option (List (List ℕ)) };

    /// How often it has failed, up to 2^64 - 1. It never falls.
    ghost faults: { Self → ℕ };

    /// The next line, without its line feed.
    fn next(&mut self, into: &mut [u8; 64]) -> Asked
        ensures within { AskedWithin result }
        ensures lines { lines self.new ≡ option_map (λ ls. after_next ls result into.new)
            (lines self.old) }
        ensures cause { IsCounted (faults self.old) (faults self.new) (result ≡ Asked.Failed) };

    /// How often it has failed, up to 2^64 - 1.
    fn faults(&self) -> u64
        ensures { result ≡ faults self.now };
}
