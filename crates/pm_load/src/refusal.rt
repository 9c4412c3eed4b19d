//! Why queries aren't replayed.
use std::alloc::AllocError;
use thiserror::Error;

/// Why queries aren't replayed.
#[derive(Clone, Copy, Debug, PartialEq, Eq, Error)]
pub enum ReplayNo {
    /// A query has an answer that none of a workload has.
    #[error("no query of a workload is answered so")]
    OtherAnswer,
    #[error("out of memory")]
    NoMemory,
}

impl From<AllocError> for ReplayNo {
    fn from(_error: AllocError) -> ReplayNo {
        ReplayNo::NoMemory
    }
}
