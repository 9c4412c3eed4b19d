//! The lines of a server's log, as they are written.

ghost use Rattle.std.specs.Prelude.{◌≡◌, IsErr};
ghost use Rattle.pm_disk.specs.Cause.{IsCounted};
ghost use Rattle.pm_state.specs.{Text.{kind_text, status_text}, declared.action.Line.TheVariants.ChildExit};
ghost use Rattle.pm_server_lines.specs.{Log.log_line, Print.IsPrinted};

use crate::printing::{SinkFailed, print, print_number};
use pm_exit::{Kind, Status};
use pm_outside::Sink;
use pm_state::Line;

/// Writes a line, or a front of it until the sink fails.
pub fn say_line<O: Sink>(sink: &mut O, line: Line) -> Result<(), SinkFailed>
    ensures said { IsPrinted (log_line line) (IsErr result) (O.written sink.old)
        (O.written sink.new) }
    ensures cause { IsCounted (O.faults sink.old) (O.faults sink.new) (IsErr result) }
{
    match line {
        Line::ChildExit { pid, kind, status } => say_exit(sink, pid, kind, status),
        Line::Ready => print(
            sink,
            b"LOG:  database system is ready to accept connections\n",
        ),
        Line::TerminatingOthers => print(
            sink,
            b"LOG:  terminating any other active server processes\n",
        ),
        Line::AbortingStartup => print(
            sink,
            b"LOG:  aborting startup due to startup process failure\n",
        ),
        Line::Smart => print(sink, b"LOG:  received smart shutdown request\n"),
        Line::Fast => print(sink, b"LOG:  received fast shutdown request\n"),
        Line::Immediate => print(sink, b"LOG:  received immediate shutdown request\n"),
        Line::AbortingTransactions => print(sink, b"LOG:  aborting any active transactions\n"),
        Line::Abnormal => print(sink, b"LOG:  abnormal database system shutdown\n"),
        Line::Down => print(sink, b"LOG:  database system is shut down\n"),
        Line::RestartOff => print(
            sink,
            b"LOG:  shutting down because restart_after_crash is off\n",
        ),
        Line::Reinitializing => print(
            sink,
            b"LOG:  all server processes terminated; reinitializing\n",
        ),
    }
}

// Writes the line of a child that crashed.
fn say_exit<O: Sink>(sink: &mut O, pid: u32, kind: Kind, status: Status) -> Result<(), SinkFailed>
    ensures said { IsPrinted (log_line (ChildExit pid kind status)) (IsErr result)
        (O.written sink.old) (O.written sink.new) }
    ensures cause { IsCounted (O.faults sink.old) (O.faults sink.new) (IsErr result) }
{
    print(sink, b"LOG:  child ")?;
    print_number(sink, u64::from(pid))?;
    print(sink, b" (")?;
    print(sink, kind_word(kind))?;
    say_status(sink, status)?;
    print(sink, b"\n")
}

// Writes how a child ended.
fn say_status<O: Sink>(sink: &mut O, status: Status) -> Result<(), SinkFailed>
    ensures said { IsPrinted (status_text status) (IsErr result) (O.written sink.old)
        (O.written sink.new) }
    ensures cause { IsCounted (O.faults sink.old) (O.faults sink.new) (IsErr result) }
{
    match status {
        Status::Code(code) => {
            print(sink, b") exited with exit code ")?;
            print_number(sink, u64::from(code))
        }
        Status::Signal(number) => {
            print(sink, b") was terminated by signal ")?;
            print_number(sink, u64::from(number))
        }
    }
}

// The word for a kind of child.
fn kind_word(kind: Kind) -> &'static [u8]
    ensures { result.now ≡ kind_text kind }
{
    match kind {
        Kind::Startup => b"startup",
        Kind::Checkpointer => b"checkpointer",
        Kind::Writer => b"writer",
        Kind::Worker => b"worker",
        Kind::Backend => b"backend",
        Kind::DeadEnd => b"dead-end",
    }
}
