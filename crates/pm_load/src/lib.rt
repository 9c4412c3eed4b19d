//! A load that checks itself: the queries of a workload, and what one client alone is answered to them.
//!
//! The queries put rows at keys that come again, and count the rows in between. [`replay_queries`] runs them one after another on rows of
//! its own, as their meaning says, and spells what a server sends for that; `specs/Replay` has the definition.
#![tactic(auto)]

mod answers;
mod greeting;
mod queries;
mod refusal;
mod replay;
mod say;
mod summary;

pub use queries::{USER, load_bytes};
pub use refusal::ReplayNo;
pub use replay::{Replay, replay_queries};
pub use summary::{Summary, summary_of, summary_text};
