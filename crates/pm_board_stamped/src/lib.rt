//! A value at a board's home that tells nothing but its generation. It shows that what a home owes its board can be had.
#![tactic(auto)]

mod stamped;

pub use stamped::{Known, Stamped};
