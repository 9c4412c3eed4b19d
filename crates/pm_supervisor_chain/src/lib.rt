//! The chain of the supervisor's journal and the store's book: what each says of the other's children, redos and generations.
//!
//! These are definitions (`specs`) and laws, for every server that keeps both. One that writes them step after step chains them
//! (`steps_are_chained`). Three small servers show what the definitions let through, and what they don't.
#![tactic(auto)]

mod laws;

pub use laws::{broken_chains, steps_are_chained, steps_go_on, worked_chains, worked_steps};
