//! Tests of the board's public calls: one slot, driven from a roster and from a worker's thread, and a board of as many slots as
//! there may be; of its gate, and of its latches; and of a table of two parts.
#![tactic(auto)]

#[cfg(test)]
mod gate;
#[cfg(test)]
mod latch;
#[cfg(test)]
mod notes;
#[cfg(test)]
mod one_slot;
mod second;
#[cfg(test)]
mod two_parts;
