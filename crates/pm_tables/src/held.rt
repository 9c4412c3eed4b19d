//! A table that a commit touches, while its rows stand outside the tables.
ghost use Rattle.std.specs.Prelude.{◌≡◌};
ghost use Rattle.pm_tables.specs.Held.{before_of, after_of};

use pm_rows::{Prepared, Rows};

/// The rows that a table has without the commit, and those that it has with it, for which all memory is taken.
#[derive(Debug, Drop)]
pub(crate) enum Held {
    /// The table stays, and its rows are changed.
    Changed(Prepared),
    /// The table is made, or goes, or both.
    Replaced {
        before: Option<Rows>,
        after: Option<Rows>,
    },
}

impl Held {
    /// The rows without the commit, where there is a table then. It takes no memory.
    pub(crate) fn before(self) -> Option<Rows>
        ensures { result ≡ before_of self }
    {
        match self {
            Held::Changed(prepared) => Some(prepared.cancel()),
            Held::Replaced { before, .. } => before,
        }
    }

    /// The rows with the commit, where there is a table then. It takes no memory.
    pub(crate) fn after(self) -> Option<Rows>
        ensures { result ≡ after_of self }
    {
        match self {
            Held::Changed(prepared) => Some(prepared.apply()),
            Held::Replaced { after, .. } => after,
        }
    }
}

/// A table that a commit touches.
#[derive(Debug, Drop)]
pub(crate) struct Touched {
    pub(crate) name: String,
    pub(crate) held: Held,
}
