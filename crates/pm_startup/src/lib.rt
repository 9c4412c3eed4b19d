//! Startup packets: what a frontend sends before its session begins (PostgreSQL manual,
//! Frontend/Backend Protocol: Start-up). Nothing here takes memory: what is read borrows from the bytes.
#![tactic(auto)]

mod packet;
mod parameters;
mod phase;
mod reading;

pub use packet::{Packet, Read, StartFault};
pub use phase::{Phase, Step, next};
pub use reading::{prefix_free, read};
