//! The commit log's two files on the file system.
#![tactic(auto)]

mod fault;
mod log_file;
mod log_files;

pub use fault::{FileFault, Step};
pub use log_files::LogFiles;
