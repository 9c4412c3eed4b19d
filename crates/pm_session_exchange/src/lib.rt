//! A child's line to its client: what comes in and what is sent on it, the signals that the child hears meanwhile, and
//! what answers a query.
//!
//! An [`Ear`] is the child's work, its life and its store in one value, with the signals that it has taken. A [`Line`] is the link
//! with the ear: it reads into an [`Inbox`], sends, and answers a query over any [`Store`](pm_query::Store) with no word on the link. What is said to a
//! client, and in which order, is the session's above.
#![tactic(auto)]

mod asking;
mod ear;
mod ending;
mod inbox;
mod last;
mod laws;
mod line;
mod means;
mod query;
mod release;

pub use ear::Ear;
pub use ending::{Cause, MessageFault, Stage};
pub use inbox::{BUFFER_BYTES, Inbox};
pub use last::Done;
pub use laws::wanted_bytes_fit;
pub use line::Line;
pub use means::Means;
pub use release::{Answer, Released};
