//! The outside as a program has it: readers and writers as links, a port and a sink, and the clock of the system.
#![tactic(auto)]

mod clock;
mod descriptors;
mod streams;

pub use clock::SystemClock;
pub use descriptors::fill_standard_streams;
pub use streams::{SinkFault, StandardLink, StandardPort, StandardSink};
