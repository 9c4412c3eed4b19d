//! A client of the server: it sends queries one after another, and shows the answers as text.
//!
//! [`play`] works over any [`Link`](pm_outside::Link) and any [`Sink`](pm_outside::Sink). What it has sent, read and shown when
//! it ends, and why it ended, is the definition `HasPlayed` of `specs/Talk`.
#![tactic(auto)]

mod exchange;
mod hearing;
mod inbox;
mod line;
mod means;
mod played;
mod talk;

pub use means::Means;
pub use played::Played;
pub use talk::play;
