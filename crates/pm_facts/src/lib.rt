//! Facts on truth values, numbers and lists that the standard library lacks and several crates use in their proofs.
#![tactic(auto)]
