//! The children that serve no connection: the startup child reads the log, the writer flushes commits, and the checkpointer
//! writes checkpoints. Each asks any store, and heeds the signals of any life.
#![tactic(auto)]

mod aux_done;
mod cause;
mod checkpoints;
mod flushes;
mod leaving;
mod rest;
mod signals;
mod startup_child;
mod tending;

pub use aux_done::AuxDone;
pub use cause::AuxiliaryEnd;
pub use startup_child::startup;
pub use tending::{checkpointer, writer};
