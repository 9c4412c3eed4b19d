//! Tests of the public calls of rows, statements and their answers, and for them a store in memory, a child that asks it and one that tends it.
#![tactic(auto)]

mod asking;
mod mem_store;
mod tending;

pub use asking::ask;
pub use mem_store::{Fault, GENERATION, MemPass, MemStore};
pub use tending::{Tended, tend};

#[cfg(test)]
mod answers;
#[cfg(test)]
mod listing;
#[cfg(test)]
mod rows;
#[cfg(test)]
mod sql;
#[cfg(test)]
mod stores;
