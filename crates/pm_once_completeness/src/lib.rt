//! Which runs of `once` complete: what crashes the journal of a run notes whose disk doesn't fail. The functions do nothing: each
//! stands for the law in its contract, and `specs/CrashLaws` takes it to a run.
#![tactic(auto)]

mod laws;

pub use laws::{completes_its_runs, worked_crashes};
