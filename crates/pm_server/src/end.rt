//! How a server ends.

use pm_record::RedoFault;
use pm_supervisor_journal::GenerationsSpent;
use std::alloc::AllocError;

/// How a server ended.
#[derive(Clone, Copy, Debug, PartialEq, Eq)]
pub enum ServerEnd {
    /// It was asked to shut down, and left the log clean.
    Clean,
    Abnormal(Why),
    /// There was no thread for a worker.
    NoThread,
    NoMemory,
}

/// Why a server ended abnormally.
#[derive(Clone, Copy, Debug, PartialEq, Eq)]
pub enum Why {
    /// A child crashed, and a shutdown was asked for.
    AfterCrash,
    StartupFailed(StartWhy),
    /// A child crashed, and the server isn't to restart after a crash.
    RestartOff,
    /// A child crashed in the last generation, 4,294,967,295.
    GenerationsSpent,
}

/// Why a server didn't start.
#[derive(Clone, Copy, Debug, PartialEq, Eq)]
pub enum StartWhy {
    Redo(RedoFault),
    /// The startup child was killed.
    Killed,
}

impl From<AllocError> for ServerEnd {
    ghost use Rattle.std.specs.Prelude.{◌≡◌};
    ghost use Rattle.pm_server.specs.declared.end.ServerEnd.TheVariants.{NoMemory};

    ghost from_gives = { λ _ e. e ≡ NoMemory };

    fn from(_: AllocError) -> ServerEnd {
        ServerEnd::NoMemory
    }
}

impl From<GenerationsSpent> for ServerEnd {
    ghost use Rattle.std.specs.Prelude.{◌≡◌};
    ghost use Rattle.pm_server.specs.declared.end.{ServerEnd.TheVariants.Abnormal, Why.TheVariants.GenerationsSpent as Spent};

    ghost from_gives = { λ _ e. e ≡ Abnormal Spent };

    fn from(_: GenerationsSpent) -> ServerEnd {
        ServerEnd::Abnormal(Why::GenerationsSpent)
    }
}
