//! What one statement answers.
ghost use Rattle.std.specs.Prelude.{◌≡◌, IfOk};

use crate::pairs::Pairs;
use std::alloc::AllocError;

/// What one statement answers.
#[derive(Debug, Drop)]
pub enum Item {
    /// There was no statement.
    Empty,
    /// The row was added.
    Insert,
    /// This many rows have a new value: 0 or 1.
    Update(u64),
    /// This many rows are gone: 0 or 1.
    Delete(u64),
    /// The rows that match, by rising key.
    Rows(Pairs),
    /// The number of rows.
    Count(u64),
    /// The pause was made.
    Slept,
    /// Error: the key has a row already.
    Duplicate { key: i64 },
    /// Error: there are as many rows as there may be.
    TableFull,
    /// Error: the rows would take more bytes than they may.
    RowsTooLarge,
}

impl Item {
    ghost use Rattle.pm_query.specs.Answer.{is_error};

    /// Whether this is an error. It is then the last item of its reply, and nothing is committed.
    pub fn is_error(&self) -> bool
        ensures { result ≡ is_error self.now }
    {
        match self {
            Item::Duplicate { .. } | Item::TableFull | Item::RowsTooLarge => true,
            _ => false,
        }
    }

    /// An equal item. It fails only where memory is short.
    pub fn copy(&self) -> Result<Item, AllocError>
        ensures { IfOk result (λ item. item ≡ self.now) }
    {
        match self {
            Item::Empty => Ok(Item::Empty),
            Item::Insert => Ok(Item::Insert),
            Item::Update(count) => Ok(Item::Update(*count)),
            Item::Delete(count) => Ok(Item::Delete(*count)),
            Item::Rows(pairs) => Ok(Item::Rows(pairs.copy()?)),
            Item::Count(count) => Ok(Item::Count(*count)),
            Item::Slept => Ok(Item::Slept),
            Item::Duplicate { key } => Ok(Item::Duplicate { key: *key }),
            Item::TableFull => Ok(Item::TableFull),
            Item::RowsTooLarge => Ok(Item::RowsTooLarge),
        }
    }
}
