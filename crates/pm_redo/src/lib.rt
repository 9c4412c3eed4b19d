//! Recovery: what the two files of the log stand for, read after a barrier.
#![tactic(auto)]

mod pair;
mod redo;

pub use redo::{examine, recover};
