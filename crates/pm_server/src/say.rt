//! The line of a server's end.

ghost use Rattle.pm_server_lines.specs.Log.{Says, view_of};
ghost use Rattle.pm_server.specs.Ends.{end_line};

use crate::end::{ServerEnd, StartWhy, Why};
use pm_outside::Sink;
use pm_server_lines::Log;

/// Writes the line of an end that has one after those of the journal, unless the sink has failed.
pub fn say_end<O: Sink>(log: &mut Log<O>, end: ServerEnd)
    ensures { Says (end_line end) (view_of log.old) (view_of log.new) }
{
    match end {
        ServerEnd::Clean | ServerEnd::Abnormal(Why::AfterCrash | Why::RestartOff) => {}
        ServerEnd::Abnormal(Why::StartupFailed(StartWhy::Redo(fault))) => log.say_redo(fault),
        ServerEnd::Abnormal(Why::StartupFailed(StartWhy::Killed)) => {
            log.say_text(b"startup was killed\n");
        }
        ServerEnd::Abnormal(Why::GenerationsSpent) => log.say_text(b"no generation is left\n"),
        ServerEnd::NoThread => log.say_text(b"no thread\n"),
        ServerEnd::NoMemory => log.say_text(b"out of memory\n"),
    }
}
