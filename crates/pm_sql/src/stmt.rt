//! One statement.
ghost use Rattle.std.specs.Prelude.{◌≡◌, IfOk};

use pm_rows::Text;
use std::alloc::AllocError;

/// A statement over the table `kv (k bigint primary key, v text)`.
#[derive(Debug, Drop)]
pub enum Stmt {
    /// `INSERT`: a row with this key and value.
    Insert { key: i64, value: Text },
    /// `UPDATE`: this value for the row of this key.
    Update { key: i64, value: Text },
    /// `DELETE`: the row of this key goes.
    Delete { key: i64 },
    /// `SELECT k, v`: the row of this key, or all rows.
    Select { key: Option<i64> },
    /// `SELECT count(*)`: the number of rows.
    Count,
    /// `SELECT pg_sleep(..)`: a pause of this many seconds.
    Sleep { seconds: u32 },
}

impl Stmt {
    ghost use Rattle.pm_sql.specs.Limits.{is_writing, seconds_of};

    /// Whether the statement writes: an `INSERT`, an `UPDATE` or a `DELETE`.
    pub fn is_writing(&self) -> bool
        ensures { result ≡ is_writing self.now }
    {
        match self {
            Stmt::Insert { .. } | Stmt::Update { .. } | Stmt::Delete { .. } => true,
            Stmt::Select { .. } | Stmt::Count | Stmt::Sleep { .. } => false,
        }
    }

    // The seconds that the statement sleeps.
    pub(crate) fn sleep_seconds(&self) -> u64
        ensures { result ≡ seconds_of self.now }
    {
        match self {
            Stmt::Sleep { seconds } => u64::from(*seconds),
            _ => 0,
        }
    }

    /// An equal statement. It fails only where memory is short.
    pub fn copy(&self) -> Result<Stmt, AllocError>
        ensures { IfOk result (λ stmt. stmt ≡ self.now) }
    {
        match self {
            Stmt::Insert { key, value } => Ok(Stmt::Insert {
                key: *key,
                value: value.copy()?,
            }),
            Stmt::Update { key, value } => Ok(Stmt::Update {
                key: *key,
                value: value.copy()?,
            }),
            Stmt::Delete { key } => Ok(Stmt::Delete { key: *key }),
            Stmt::Select { key } => Ok(Stmt::Select { key: *key }),
            Stmt::Count => Ok(Stmt::Count),
            Stmt::Sleep { seconds } => Ok(Stmt::Sleep { seconds: *seconds }),
        }
    }
}
