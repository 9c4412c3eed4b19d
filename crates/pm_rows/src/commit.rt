//! The changes that a transaction makes, as it commits them.
ghost use Rattle.std.specs.Prelude.{◌≡◌, [], ◌∷◌, ◌++◌, All, IfOk, OnOk, OnErr};
ghost use Rattle.pm_rows.specs.Typed.{IsTypedChange};

use crate::text::Text;
use std::alloc::{AllocError, Global};
use std::marker::Model;

/// What happens to the row of one key.
#[derive(Debug, Drop)]
pub enum Change {
    /// The key has this value afterwards, whether or not it had one before.
    Put { key: i64, value: Text },
    /// The key has no row afterwards.
    Del { key: i64 },
}

impl Change {
    /// An equal change. It fails only where memory is short.
    pub fn copy(&self) -> Result<Change, AllocError>
        ensures { IfOk result (λ change. change ≡ self.now) }
    {
        match self {
            Change::Put { key, value } => Ok(Change::Put {
                key: *key,
                value: value.copy()?,
            }),
            Change::Del { key } => Ok(Change::Del { key: *key }),
        }
    }

    /// The law that the key of a change fits 64 bits and that its value is UTF-8.
    pub fn is_typed(&self)
        ensures { IsTypedChange self.now }
    {
        match self {
            Change::Put { key, value } => {
                let _key = *key;
                let _text = value.as_str();
            }
            Change::Del { key } => {
                let _key = *key;
            }
        }
    }
}

/// A list of changes, in the order in which they are made. Contracts see it as that list.
#[derive(Debug, Drop)]
pub struct Commit {
    changes: Vec<Change>,
}

impl Model for Commit {
    ghost use Rattle.std.specs.Prelude.{List};
    ghost use Rattle.pm_rows.specs.declared.commit.Change.{Change};

    ghost Value = { List Change };

    ghost view = { λ commit. commit.changes.items };

    ghost use Rattle.std.specs.Prelude.{All};
    ghost use Rattle.pm_rows.specs.Typed.{IsTypedChange};

    ghost invariant = { λ commit. All IsTypedChange commit.changes.items };
}

impl Commit {
    /// A commit with no change. It takes no memory.
    pub fn new(alloc: Global) -> Commit
        ensures { result ≡ [] }
    {
        Commit {
            changes: Vec::new(alloc),
        }
    }

    /// Adds a change after the others. Where memory is short the commit stays as it was.
    pub fn push(&mut self, change: Change) -> Result<(), AllocError>
        ensures ok { OnOk result (self.new ≡ self.old ++ change ∷ []) }
        ensures err { OnErr result (self.new ≡ self.old) }
    {
        change.is_typed();
        self.changes.push(change)?;
        Ok(())
    }

    /// The changes, in order. Each has a key that fits 64 bits, and a value that is UTF-8.
    pub fn changes(&self) -> &[Change]
        ensures list { result.now ≡ self.now }
        ensures typed { All IsTypedChange self.now }
    {
        &self.changes
    }

    /// An equal commit. It fails only where memory is short.
    pub fn copy(&self) -> Result<Commit, AllocError>
        ensures { IfOk result (λ commit. commit ≡ self.now) }
    {
        let mut copied = Vec::with_capacity(*self.changes.allocator(), self.changes.len())?;
        for change in &self.changes {
            copied.push(change.copy()?)?;
        }
        Ok(Commit { changes: copied })
    }
}
