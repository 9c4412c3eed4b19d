//! Why a text is no script, while it is read.
ghost use Rattle.std.specs.Prelude.{◌≡◌};
ghost use Rattle.pm_sql.specs.declared.fault.Stop.TheVariants.{NoMemory};

use std::alloc::{AllocError, AllocFailed};

/// What is wrong.
#[derive(Clone, Copy, Debug, PartialEq, Eq)]
pub(crate) enum Kind {
    Syntax,
    Table,
    Range,
    TooLong,
    TooMany,
}

/// A fault, and how many bytes of the text are left where it stands.
#[derive(Clone, Copy, Debug, PartialEq, Eq)]
pub(crate) struct Fault {
    pub(crate) kind: Kind,
    pub(crate) left: usize,
}

/// Why reading ends early.
#[derive(Debug, Drop)]
pub(crate) enum Stop {
    Fault(Fault),
    NoMemory,
}

impl Stop {
    ghost use Rattle.pm_sql.specs.declared.fault.Stop.TheVariants as stops;
    ghost use Rattle.pm_sql.specs.Reading.{fault_at};

    /// A fault of this kind where `here` begins.
    pub(crate) fn at(kind: Kind, here: &str) -> Stop
        ensures { result ≡ stops.Fault (fault_at kind here.now) }
    {
        Stop::Fault(Fault {
            kind,
            left: here.len(),
        })
    }
}

impl From<AllocError> for Stop {
    ghost from_gives = { λ _ e. e ≡ NoMemory };

    fn from(_error: AllocError) -> Stop {
        Stop::NoMemory
    }
}

impl<T: Drop> From<AllocFailed<T>> for Stop {
    ghost from_gives = { λ _ e. e ≡ NoMemory };

    fn from(_error: AllocFailed<T>) -> Stop {
        Stop::NoMemory
    }
}
