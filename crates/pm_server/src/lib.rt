//! What servers share: what they go by and work on, how they end and say it, and what a run of one leaves in its journal, its
//! book and its files.
#![tactic(auto)]

mod conf;
mod end;
mod outside;
mod say;

pub use conf::Conf;
pub use end::{ServerEnd, StartWhy, Why};
pub use outside::Outside;
pub use say::say_end;
