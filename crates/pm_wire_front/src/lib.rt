//! Messages of PostgreSQL's frontend/backend protocol 3.0, as a client needs them: what a client sends, written.
#![tactic(auto)]

mod laws;
mod writing;

pub use laws::requests_are_read;
pub use writing::{can_say, put_query, put_start, terminate};
