//! The lines of the log that a journal tells of, as they are printed.

use crate::runs::journal_of;
use pm_exit::{Kind, Status};
use pm_state::{Line, PmEvent};
use std::test::Fail;

/// A session is killed, and the server shuts down behind the restart.
const RUN: &str = "
0 time
1 exit 1 code 0
2 connect
3 exit 4 signal 9 active
4 exit 3 code 2
5 exit 2 code 2
6 exit 5 code 0
7 smart
8 fast
9 immediate
10 exit 7 code 2
11 exit 6 code 2";

const LINES: &str = "
database system is ready to accept connections
child 4 (backend) was terminated by signal 9
terminating any other active server processes
all server processes terminated; reinitializing
database system is ready to accept connections
received smart shutdown request
received fast shutdown request
received immediate shutdown request
database system is shut down";

#[test]
fn a_run_tells_of_what_it_does(rt: HostRuntime) -> Result<(), Fail> {
    let alloc = rt.alloc();
    let journal = journal_of(alloc, true, RUN)?;
    let mut text = String::new(alloc);
    for entry in journal.entries() {
        if let PmEvent::Said(line) = entry {
            text.push_str(format!(in alloc; "\n{line}")?.as_str())?;
        }
    }
    assert_eq!(rt; text.as_str(), LINES);
    Ok(())
}

#[test]
fn every_other_line_has_its_text(rt: HostRuntime) -> Result<(), Fail> {
    let ended = Line::ChildExit {
        pid: 12,
        kind: Kind::DeadEnd,
        status: Status::Code(2),
    };
    let table = [
        (ended, "child 12 (dead-end) exited with exit code 2"),
        (
            Line::AbortingStartup,
            "aborting startup due to startup process failure",
        ),
        (
            Line::AbortingTransactions,
            "aborting any active transactions",
        ),
        (Line::Abnormal, "abnormal database system shutdown"),
        (
            Line::RestartOff,
            "shutting down because restart_after_crash is off",
        ),
    ];
    for (line, text) in table {
        let written = format!(in rt.alloc(); "{line}")?;
        assert_eq!(rt; written.as_str(), text);
    }
    Ok(())
}
