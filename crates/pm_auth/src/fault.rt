//! Why words are no rules and secrets.

ghost use Rattle.std.specs.Prelude.{◌≡◌};

use std::alloc::{AllocError, AllocFailed};
use thiserror::Error;

/// Why words are refused. A place counts the words of its kind, from 0. No text has a byte of a word.
#[derive(Clone, Copy, Debug, PartialEq, Eq, Error)]
pub enum AuthNo {
    #[error("more than 64 rules")]
    ManyRules,
    #[error("more than 64 secrets")]
    ManySecrets,
    /// The first rule that isn't one.
    #[error("a rule is DATABASE USER METHOD")]
    NoRule { index: usize },
    /// The first secret that isn't one.
    #[error("a secret is USER=SCRAM-SHA-256$4096:SALT$STORED:SERVER")]
    NoSecret { index: usize },
    /// The first secret of a user who has one.
    #[error("a second secret of its user")]
    SecondSecret { index: usize },
    #[error("out of memory")]
    NoMemory,
}

/// Why one word is refused.
#[derive(Clone, Copy)]
pub enum WordNo {
    Form,
    NoMemory,
}

impl From<AllocError> for AuthNo {
    ghost use Rattle.pm_auth.specs.declared.fault.AuthNo.TheVariants.{NoMemory};

    ghost from_gives = { λ _ no. no ≡ NoMemory };

    fn from(_error: AllocError) -> AuthNo {
        AuthNo::NoMemory
    }
}

impl<T: Drop> From<AllocFailed<T>> for AuthNo {
    ghost use Rattle.pm_auth.specs.declared.fault.AuthNo.TheVariants.{NoMemory};

    ghost from_gives = { λ _ no. no ≡ NoMemory };

    fn from(_error: AllocFailed<T>) -> AuthNo {
        AuthNo::NoMemory
    }
}

impl From<AllocError> for WordNo {
    ghost use Rattle.pm_auth.specs.declared.fault.WordNo.TheVariants.{NoMemory};

    ghost from_gives = { λ _ no. no ≡ NoMemory };

    fn from(_error: AllocError) -> WordNo {
        WordNo::NoMemory
    }
}
