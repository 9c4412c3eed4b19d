//! SQLSTATE codes.

ghost use Rattle.std.specs.Prelude.{◌≡◌};
ghost use Rattle.pm_wire.specs.Conditions.{sqlstate};

/// The codes that this server uses, by the names of their conditions (PostgreSQL Error Codes).
#[derive(Clone, Copy, Debug, PartialEq, Eq)]
pub enum SqlState {
    ProtocolViolation,
    FeatureNotSupported,
    StringTooLong,
    NumberOutOfRange,
    NotInRepertoire,
    UniqueViolation,
    InvalidAuthorization,
    SyntaxError,
    UndefinedTable,
    OutOfMemory,
    TooManyConnections,
    LimitExceeded,
    QueryCanceled,
    AdminShutdown,
    CrashShutdown,
    CannotConnectNow,
    IoError,
}

impl SqlState {
    /// The five characters that a client is sent.
    pub fn code(self) -> [u8; 5]
        ensures { result ≡ sqlstate self }
    {
        match self {
            SqlState::ProtocolViolation => *b"08P01",
            SqlState::FeatureNotSupported => *b"0A000",
            SqlState::StringTooLong => *b"22001",
            SqlState::NumberOutOfRange => *b"22003",
            SqlState::NotInRepertoire => *b"22021",
            SqlState::UniqueViolation => *b"23505",
            SqlState::InvalidAuthorization => *b"28000",
            SqlState::SyntaxError => *b"42601",
            SqlState::UndefinedTable => *b"42P01",
            SqlState::OutOfMemory => *b"53200",
            SqlState::TooManyConnections => *b"53300",
            SqlState::LimitExceeded => *b"54000",
            SqlState::QueryCanceled => *b"57014",
            SqlState::AdminShutdown => *b"57P01",
            SqlState::CrashShutdown => *b"57P02",
            SqlState::CannotConnectNow => *b"57P03",
            SqlState::IoError => *b"58030",
        }
    }
}
