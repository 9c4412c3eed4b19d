//! What a client is told when something is refused, fails or ends: the table of texts and codes.

ghost use Rattle.std.specs.Prelude.{◌≡◌};
ghost use Rattle.pm_wire.specs.Conditions.{state_of};

use crate::state::SqlState;

/// An error or a notice of the table.
#[derive(Clone, Copy, Debug, PartialEq, Eq)]
pub enum Condition<'a> {
    /// One whose text is always the same.
    Fixed(Fixed),
    /// A startup packet asks for a version of the protocol other than 3.0.
    Version {
        major: u16,
        minor: u16,
    },
    /// A message of a type that no client's message has.
    UnknownType {
        kind: u8,
    },
    /// A row with the key is there already.
    Duplicate {
        key: i64,
    },
    /// The text of a query is no script; `text` says so, as its parser has it.
    Statement {
        fault: StatementFault,
        text: &'a str,
    },
}

/// A condition whose text is always the same.
#[derive(Clone, Copy, Debug, PartialEq, Eq)]
pub enum Fixed {
    /// Redo has not ended since the start.
    StartingUp,
    /// No session is let in any more.
    ShuttingDown,
    /// Redo has not ended since a crash.
    InRecovery,
    /// As many sessions are there as may be.
    TooManyClients,
    /// As many ordinary sessions are there as may be: the places that are left are reserved for user `postgres`.
    ReservedConnections,
    /// A startup packet asks for an option of the protocol.
    ProtocolOption,
    /// A startup packet asks for replication.
    Replication,
    /// A startup packet is no list of pairs.
    PacketLayout,
    /// A startup packet names no user.
    NoUser,
    /// A message has a length that no message of its type has.
    MessageLength,
    /// A query's body is no string that fills it.
    MessageFormat,
    /// A message of the extended query protocol.
    ExtendedQuery,
    /// A query has more bytes than one may have.
    LongQuery,
    /// A query isn't UTF-8.
    NotUtf8,
    /// The table has as many rows as it may.
    TableFull,
    /// The rows have as many bytes as they may.
    RowsTooLarge,
    /// The commit log has no room for the commit.
    LogFull,
    /// A request to cancel the query was heeded.
    Canceled,
    /// The session was told to end.
    Terminated,
    /// Another process crashed.
    CrashQuit,
    /// The server shuts down at once.
    StopQuit,
    /// A query found no memory.
    ErrorMemory,
    /// The session found no memory.
    FatalMemory,
    /// The commit log can't be written.
    CouldNotWrite,
}

/// Why the text of a query is no script.
#[derive(Clone, Copy, Debug, PartialEq, Eq)]
pub enum StatementFault {
    /// No statement goes on so.
    Syntax,
    /// No table has the name.
    NoTable,
    /// A number is outside of its range.
    NumberRange,
    /// A value is longer than one may be.
    LongValue,
    /// More statements write than may in one query.
    ManyStatements,
}

impl StatementFault {
    /// The code that a client is sent with the text.
    pub fn state(self) -> SqlState
        ensures { result ≡ state_of self }
    {
        match self {
            StatementFault::Syntax => SqlState::SyntaxError,
            StatementFault::NoTable => SqlState::UndefinedTable,
            StatementFault::NumberRange => SqlState::NumberOutOfRange,
            StatementFault::LongValue => SqlState::StringTooLong,
            StatementFault::ManyStatements => SqlState::LimitExceeded,
        }
    }
}
