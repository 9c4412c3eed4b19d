//! What is left of a store: its disk and its book at the end, by all that was noted since it was opened.
//!
//! `specs/Remains` says it of whatever run of a server over a shared store, however many children noted the entries.
#![tactic(auto)]

mod parts;

pub use parts::part;
