//! The changes that a transaction makes, as it commits them.
ghost use Rattle.std.specs.Prelude.{◌≡◌, [], ◌∷◌, ◌++◌, All, IfOk, OnOk, OnErr};
ghost use Rattle.pm_tables.specs.Typed.{IsTypedChange};

use crate::change::TableChange;
use std::alloc::{AllocError, Global};
use std::marker::Model;

/// A list of changes, in the order in which they are made. Contracts see it as that list.
#[derive(Debug, Drop)]
pub struct TableCommit {
    changes: Vec<TableChange>,
}

impl Model for TableCommit {
    ghost use Rattle.std.specs.Prelude.{List, All};
    ghost use Rattle.pm_tables.specs.{declared.change.TableChange.TableChange, Typed.IsTypedChange};

    ghost Value = { List TableChange };

    ghost view = { λ commit. commit.changes.items };

    ghost invariant = { λ commit. All IsTypedChange commit.changes.items };
}

impl TableCommit {
    /// A commit with no change. It takes no memory.
    pub fn new(alloc: Global) -> TableCommit
        ensures { result ≡ [] }
    {
        TableCommit {
            changes: Vec::new(alloc),
        }
    }

    /// Adds a change after the others. Where memory is short the commit stays as it was.
    pub fn push(&mut self, change: TableChange) -> Result<(), AllocError>
        ensures ok { OnOk result (self.new ≡ self.old ++ change ∷ []) }
        ensures err { OnErr result (self.new ≡ self.old) }
    {
        change.is_typed();
        self.changes.push(change)?;
        Ok(())
    }

    /// The changes, in order. Each has a name and a value that are UTF-8, and a key that fits 64 bits.
    pub fn changes(&self) -> &[TableChange]
        ensures list { result.now ≡ self.now }
        ensures typed { All IsTypedChange self.now }
    {
        &self.changes
    }

    /// An equal commit. It fails only where memory is short.
    pub fn copy(&self) -> Result<TableCommit, AllocError>
        ensures { IfOk result (λ commit. commit ≡ self.now) }
    {
        let mut copied = Vec::with_capacity(*self.changes.allocator(), self.changes.len())?;
        for change in &self.changes {
            copied.push(change.copy()?)?;
        }
        Ok(TableCommit { changes: copied })
    }
}
