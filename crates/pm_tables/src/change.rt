//! A change of a database.
ghost use Rattle.std.specs.Prelude.{◌≡◌, IfOk};
ghost use Rattle.pm_tables.specs.{Tables.name_of, Typed.IsTypedChange};

use pm_rows::Text;
use std::alloc::AllocError;

/// What happens to a table, or to the row of one key of it.
#[derive(Debug, Drop)]
pub enum TableChange {
    /// The key has this value afterwards, whether or not it had one before.
    Put { table: Text, key: i64, value: Text },
    /// The key has no row afterwards.
    Del { table: Text, key: i64 },
    /// There is a table of this name afterwards, without rows where there was none.
    Create { table: Text },
    /// There is no table of this name afterwards.
    Drop { table: Text },
}

impl TableChange {
    /// The name of the table that the change is about.
    pub fn table(&self) -> &Text
        ensures { result.now ≡ name_of self.now }
    {
        match self {
            TableChange::Put { table, .. } => table,
            TableChange::Del { table, .. } => table,
            TableChange::Create { table } => table,
            TableChange::Drop { table } => table,
        }
    }

    /// An equal change. It fails only where memory is short.
    pub fn copy(&self) -> Result<TableChange, AllocError>
        ensures { IfOk result (λ change. change ≡ self.now) }
    {
        let table = self.table().copy()?;
        match self {
            TableChange::Put { key, value, .. } => Ok(TableChange::Put {
                table,
                key: *key,
                value: value.copy()?,
            }),
            TableChange::Del { key, .. } => Ok(TableChange::Del { table, key: *key }),
            TableChange::Create { .. } => Ok(TableChange::Create { table }),
            TableChange::Drop { .. } => Ok(TableChange::Drop { table }),
        }
    }

    /// The law that the name and the value of a change are UTF-8, and that its key fits 64 bits.
    pub fn is_typed(&self)
        ensures { IsTypedChange self.now }
    {
        let _name = self.table().as_str();
        match self {
            TableChange::Put { key, value, .. } => {
                let _key = *key;
                let _text = value.as_str();
            }
            TableChange::Del { key, .. } => {
                let _key = *key;
            }
            TableChange::Create { .. } => {}
            TableChange::Drop { .. } => {}
        }
    }
}
