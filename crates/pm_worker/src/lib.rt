//! The worker of one slot of the board: it runs the children that the supervisor assigns to its slot, one after the other.
//!
//! A mail says what a child is to do, and each child gives one back (`mail`). A run of a child is one function from the child's start
//! to its exit (`runs`). A worker's whole work (`child`) is the list of its runs: `specs/Runs` says what each of them is, and that they
//! are the children of its post, one for one, and that its store's own calls have noted what they noted, in order, and have learned why
//! a startup child couldn't read the log.
#![tactic(auto)]

mod child;
mod mail;
mod runs;
mod tools;

pub use child::Child;
pub use mail::{LinkTold, Mail, MailTold, NewLink, Passed};
pub use tools::Tools;
