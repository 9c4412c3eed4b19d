//! Text for a sink, and a server's log: the lines that its journal tells of, and none after a fault of the sink.
#![tactic(auto)]

mod log;
mod printing;
mod say;

pub use log::Log;
pub use printing::{SinkFailed, file_letter, print, print_redo, print_with};
