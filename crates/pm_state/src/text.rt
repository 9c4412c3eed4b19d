//! The texts of the log's lines.

ghost use Rattle.std.specs.Prelude.{◌≡◌};
ghost use Rattle.pm_state.specs.Text.{kind_text};

use crate::action::Line;
use pm_exit::{Kind, Status};
use std::fmt;

/// The word for a kind of child.
fn kind_word(kind: Kind) -> &'static str
    ensures { result.now ≡ kind_text kind }
{
    match kind {
        Kind::Startup => "startup",
        Kind::Checkpointer => "checkpointer",
        Kind::Writer => "writer",
        Kind::Worker => "worker",
        Kind::Backend => "backend",
        Kind::DeadEnd => "dead-end",
    }
}

impl fmt::Display for Line {
    ghost use Rattle.std.specs.Prelude.{Some};
    ghost use Rattle.pm_state.specs.Text.{text_of};

    ghost output = { λ line. Some (text_of line) };

    fn fmt<W: fmt::Write>(&self, f: &mut fmt::Formatter<W>) -> fmt::Result {
        match *self {
            Line::Ready => f.write_str("database system is ready to accept connections"),
            Line::ChildExit { pid, kind, status } => {
                let kind = kind_word(kind);
                match status {
                    Status::Code(code) => {
                        write!(f, "child {pid} ({kind}) exited with exit code {code}")
                    }
                    Status::Signal(number) => {
                        write!(f, "child {pid} ({kind}) was terminated by signal {number}")
                    }
                }
            }
            Line::TerminatingOthers => f.write_str("terminating any other active server processes"),
            Line::AbortingStartup => {
                f.write_str("aborting startup due to startup process failure")
            }
            Line::Smart => f.write_str("received smart shutdown request"),
            Line::Fast => f.write_str("received fast shutdown request"),
            Line::Immediate => f.write_str("received immediate shutdown request"),
            Line::AbortingTransactions => f.write_str("aborting any active transactions"),
            Line::Abnormal => f.write_str("abnormal database system shutdown"),
            Line::Down => f.write_str("database system is shut down"),
            Line::RestartOff => f.write_str("shutting down because restart_after_crash is off"),
            Line::Reinitializing => {
                f.write_str("all server processes terminated; reinitializing")
            }
        }
    }
}
