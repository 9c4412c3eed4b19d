//! How a server ends that nobody outside disturbs: by its journal, without a crash and after a first one. The functions do
//! nothing: each stands for the law in its contract.
#![tactic(auto)]

mod laws;

pub use laws::{ends_for_cause, worked_ends};
