//! How a command ends.

ghost use Rattle.std.specs.Prelude.{◌≡◌};
ghost use Rattle.pm_top.specs.Ends.{exit_code};

use pm_record::RedoFault;
use pm_server::{ServerEnd, Why};

/// How a command ended.
#[derive(Clone, Copy, Debug, PartialEq, Eq)]
pub enum Top {
    Done,
    /// A server ended abnormally.
    Abnormal(Why),
    /// The sink failed.
    OutFault,
    /// The disk failed.
    DiskFault,
    /// There was a cluster already.
    Exists,
    /// The files stand for nothing.
    Unreadable(RedoFault),
    /// The words are no command line.
    Usage,
    NoMemory,
    /// A server of many connections had no thread for one of its children.
    NoThread,
}

impl Top {
    /// The exit code of the program.
    pub fn code(self) -> u8
        ensures { result ≡ exit_code self }
    {
        match self {
            Top::Done => 0,
            Top::Abnormal(_) | Top::OutFault | Top::DiskFault | Top::Exists | Top::Unreadable(_) =>
                1,
            Top::Usage => 2,
            Top::NoMemory => 3,
            Top::NoThread => 4,
        }
    }
}

impl From<ServerEnd> for Top {
    ghost use Rattle.std.specs.Prelude.{◌≡◌};
    ghost use Rattle.pm_top.specs.Ends.{status_of};

    ghost from_gives = { λ end status. status ≡ status_of end };

    fn from(end: ServerEnd) -> Top {
        match end {
            ServerEnd::Clean => Top::Done,
            ServerEnd::Abnormal(why) => Top::Abnormal(why),
            ServerEnd::NoThread => Top::NoThread,
            ServerEnd::NoMemory => Top::NoMemory,
        }
    }
}
