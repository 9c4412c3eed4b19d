//! Why not all was asked and answered.
use std::alloc::AllocError;
use std::io;
use thiserror::Error;

/// Why not all was asked and answered.
#[derive(Debug, Drop, Error)]
pub enum Fault {
    /// The words are no command line.
    #[error("usage: pgtalk --port N --user NAME")]
    Usage,
    #[error("could not start: {0}")]
    Start(io::Error),
    #[error("standard input can't be read: {0}")]
    Input(io::Error),
    /// A line, counted from 1, has a zero byte or is too long.
    #[error("line {0} can't be sent")]
    Line(usize),
    #[error("127.0.0.1:{port}: {reason}")]
    Refused { port: u16, reason: io::Error },
    #[error("the server ended the connection")]
    LinkEnded,
    #[error("the connection failed")]
    Link,
    #[error("standard output can't be written")]
    Out,
    #[error("the server sent what is no message")]
    Reply,
    #[error("out of memory")]
    NoMemory,
}

impl Fault {
    ghost use Rattle.std.specs.Prelude.{◌≡◌};
    ghost use Rattle.pm_talk.specs.Code.{exit_code};

    /// The exit code of the program.
    pub fn code(&self) -> u8
        ensures { result ≡ exit_code self.now }
    {
        match self {
            Fault::Usage => 2,
            Fault::NoMemory => 3,
            Fault::Start(_)
            | Fault::Input(_)
            | Fault::Line(_)
            | Fault::Refused { .. }
            | Fault::LinkEnded
            | Fault::Link
            | Fault::Out
            | Fault::Reply => 1,
        }
    }
}

impl From<AllocError> for Fault {
    fn from(_error: AllocError) -> Fault {
        Fault::NoMemory
    }
}
