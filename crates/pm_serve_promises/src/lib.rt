//! A server of many connections with what a user counts on: the five promises, over what a whole run leaves.
#![tactic(auto)]

mod served;

pub use served::serve_as_promised;
