//! What becomes of a table by a commit.
ghost use Rattle.std.specs.Prelude.{◌≡◌, OnOk};
ghost use Rattle.pm_tables.specs.Fates.{NotesChange, with_change};

use crate::change::TableChange;
use pm_rows::{Change as RowChange, Commit as RowCommit};
use std::alloc::{AllocError, Global};

/// What becomes of a table by the changes that name it. The last of them that makes or drops it decides which it is.
#[derive(Debug, Drop)]
pub(crate) enum Fate {
    /// It stays, and these are the changes of its rows.
    Changed(RowCommit),
    /// It is made, and these are the changes of its rows since then, of which there are none at first.
    Made(RowCommit),
    /// There is none.
    Gone,
}

impl Fate {
    /// Notes one change more. Where memory is short nothing is said of what stands here.
    pub(crate) fn note(&mut self, alloc: Global, change: &TableChange) -> Result<(), AllocError>
        ensures { OnOk result (NotesChange self.old change.now self.new) }
    {
        match change {
            TableChange::Put { key, value, .. } => self.push(RowChange::Put {
                key: *key,
                value: value.copy()?,
            }),
            TableChange::Del { key, .. } => self.push(RowChange::Del { key: *key }),
            TableChange::Create { .. } => {
                if let Fate::Gone = self {
                    *self = Fate::Made(RowCommit::new(alloc));
                }
                Ok(())
            }
            TableChange::Drop { .. } => {
                *self = Fate::Gone;
                Ok(())
            }
        }
    }

    // One change more of the rows, where there is a table.
    fn push(&mut self, change: RowChange) -> Result<(), AllocError>
        ensures { OnOk result (self.new ≡ with_change self.old change) }
    {
        match self {
            Fate::Changed(changes) => changes.push(change),
            Fate::Made(changes) => changes.push(change),
            Fate::Gone => Ok(()),
        }
    }
}
