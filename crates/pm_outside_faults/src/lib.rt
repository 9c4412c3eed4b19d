//! How often a part of the outside has failed, and what failed first.
#![tactic(auto)]

mod faults;

pub use faults::Faults;
