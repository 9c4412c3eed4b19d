//! The server of one connection at a time with what a user counts on: each run of `once` keeps the five promises.
#![tactic(auto)]

mod promised;

pub use pm_once::Ended;
pub use promised::once_as_promised;
