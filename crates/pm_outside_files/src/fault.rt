//! What failed of a file.
use std::io;
use thiserror::Error;

/// A step of a call on a file.
#[derive(Clone, Copy, Debug, PartialEq, Eq, Error)]
pub enum Step {
    /// The file is opened, or made.
    #[error("open")]
    Open,
    #[error("lock")]
    Lock,
    /// What the file holds when it is opened, and its name, are made durable.
    #[error("settle")]
    Settle,
    #[error("length")]
    Length,
    #[error("read")]
    Read,
    #[error("write")]
    Write,
    #[error("sync")]
    Sync,
}

/// A step that failed, of this file, with the system's reason.
#[derive(Clone, Copy, Debug, Error)]
#[error("{file}: {step}: {reason}")]
pub struct FileFault {
    pub file: &'static str,
    pub step: Step,
    pub reason: io::Error,
}
