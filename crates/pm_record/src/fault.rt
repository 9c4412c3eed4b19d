//! Why reading stops.

ghost use Rattle.std.specs.Prelude.{◌≡◌};
ghost use Rattle.pm_record.specs.declared.fault.Unread.TheVariants.{NoMemory};
ghost use Rattle.pm_record.specs.declared.fault.RedoFault.TheVariants as redo;

use pm_disk::{DiskFault, Which};
use std::alloc::{AllocError, AllocFailed};
use thiserror::Error;

/// Why a log file stands for nothing that can be told.
#[derive(Clone, Copy, Debug, PartialEq, Eq, Error)]
pub enum FileFault {
    /// The file is damaged, and its first wrong byte is at this place.
    #[error("damaged file at {at}")]
    Bad { at: u64 },
    #[error("out of memory")]
    NoMemory,
}

/// Why the two files of a log give nothing to go on with.
#[derive(Clone, Copy, Debug, PartialEq, Eq, Error)]
pub enum RedoFault {
    #[error("disk fault")]
    Disk,
    /// Both files are empty or closed.
    #[error("no readable cluster")]
    NoCluster,
    /// The file is damaged, and its first wrong byte is at this place.
    #[error("damaged file {file:?} at {at}")]
    BadFile { file: Which, at: u64 },
    /// Both files are open, with one epoch.
    #[error("two files of epoch {epoch}")]
    SameEpoch { epoch: u64 },
    #[error("out of memory")]
    NoMemory,
}

impl From<AllocError> for RedoFault {
    ghost from_gives = { λ _ e. e ≡ redo.NoMemory };

    fn from(_: AllocError) -> RedoFault {
        RedoFault::NoMemory
    }
}

impl From<DiskFault> for RedoFault {
    ghost from_gives = { λ _ e. e ≡ redo.Disk };

    fn from(_: DiskFault) -> RedoFault {
        RedoFault::Disk
    }
}

/// Why reading a part stops: so many bytes are left from the one that is wrong.
#[derive(Clone, Copy, Debug, PartialEq, Eq)]
pub enum Unread {
    Bad { left: usize },
    NoMemory,
}

impl From<AllocError> for Unread {
    ghost from_gives = { λ _ e. e ≡ NoMemory };

    fn from(_: AllocError) -> Unread {
        Unread::NoMemory
    }
}

impl<T: Drop> From<AllocFailed<T>> for Unread {
    ghost from_gives = { λ _ e. e ≡ NoMemory };

    fn from(_: AllocFailed<T>) -> Unread {
        Unread::NoMemory
    }
}
