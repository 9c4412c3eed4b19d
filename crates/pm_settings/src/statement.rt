//! Session statements.
use pm_rows::Text;

/// A statement that a session answers by what it knows itself: of its settings, or a value that no row has.
#[derive(Debug, Drop)]
pub enum Statement {
    /// `SET name = value`, `SET TIME ZONE` and `SET NAMES`. Without a value the setting has its own again, as `DEFAULT` says.
    Set { name: Text, value: Option<Text> },
    /// `SET TRANSACTION` and `SET SESSION CHARACTERISTICS`, and whether one of the modes is `READ ONLY`.
    Transaction { is_read_only: bool },
    /// `RESET name`.
    Reset { name: Text },
    /// `RESET ALL`.
    ResetAll,
    /// `SHOW name`, `SHOW TIME ZONE` and `SHOW TRANSACTION ISOLATION LEVEL`.
    Show { name: Text },
    /// `DISCARD ALL`.
    DiscardAll,
    /// `CLOSE ALL`.
    CloseAll,
    /// `UNLISTEN *`.
    UnlistenAll,
    /// `SELECT pg_advisory_unlock_all()`.
    UnlockAll,
    /// `SELECT version()`.
    Version,
    /// `SELECT` of a number.
    Number { value: u32 },
}
