// How a link in memory behaves.
ghost use Rattle.std.specs.Prelude.{◌<◌};

use crate::holds::Hold;

/// The bytes that come in on a link, how they are cut, and which calls fail.
#[derive(Drop)]
pub struct LinkScript {
    /// All bytes that come in.
    pub incoming: Vec<u8>,
    /// The most bytes that one read gives, and one write takes.
    pub per_call: usize,
    /// The numbers of the reads that fail, counted from 1.
    pub failing_reads: Vec<u64>,
    /// The numbers of the writes that fail, counted from 1.
    pub failing_writes: Vec<u64>,
    /// Where its bytes wait for what others see, in the order of their places.
    pub holds: Vec<Hold>,
    ghost gives_some: { 0 < per_call },
}
