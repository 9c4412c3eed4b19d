//! A child's life over its post: what a child is told at the board's latch and gate, as its [`Life`](pm_child_life::Life).
//!
//! A [`PostLife`] is made of a post on which a child was started, and gives it back. What the child was told is what its post noted
//! of it since then: each answer of signals with the number of its ask, what it met at the gate, and the cancel that it asked for.
#![tactic(auto)]

mod post_life;

pub use post_life::{Begun, PostLife};
