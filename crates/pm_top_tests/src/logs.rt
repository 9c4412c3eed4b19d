//! How commands may end, and what they say then.
use crate::runs::Left;
use std::alloc::Global;
use std::test::Fail;

/// How commands end whose disk may fail, by docs/OPERATING.md: a status, its code, and the lines.
const ENDS: &str = "\
Done 0, initialized
Exists 1, a cluster exists
DiskFault 1, disk fault
Done 0, ready, received smart shutdown request, database system is shut down
Abnormal(AfterCrash) 1, ready, received smart shutdown request, crash, others, abnormal database system shutdown
Abnormal(AfterCrash) 1, ready, crash, others, received smart shutdown request, abnormal database system shutdown
Abnormal(AfterCrash) 1, ready, crash, others, next, received smart shutdown request, abnormal database system shutdown
Abnormal(StartupFailed(Redo(Disk))) 1, exit, aborting startup due to startup process failure, disk fault
Abnormal(StartupFailed(Redo(Disk))) 1, ready, crash, others, next, exit, aborting startup due to startup process failure, disk fault";

/// The lines of a crash, after which the server is ready again. They may stand after each `ready`.
const CYCLE: &str = ", crash, others, next, ready";

// A line as the table has it, whichever child it names.
fn short(line: &str) -> &str {
    let line = line.trim_start_matches("LOG:  ");
    match line {
        "database system is ready to accept connections" => return "ready",
        "terminating any other active server processes" => return "others",
        "all server processes terminated; reinitializing" => return "next",
        _ => {}
    }
    match line.split_once(") ") {
        Some((_, "exited with exit code 1")) => "exit",
        Some((_, "was terminated by signal 6" | "was terminated by signal 9")) => "crash",
        _ => line,
    }
}

/// Whether a run has ended by one of these, each a status and its code. Where there is none, by one of the table and with its lines.
pub fn ends_so(alloc: Global, left: &Left, wanted: &str) -> Result<bool, Fail> {
    let mut row = format!(in alloc; "{:?} {}", left.status, left.status.code())?;
    if !wanted.is_empty() {
        return Ok(wanted.split(" | ").any(|one| one == row.as_str()));
    }
    let said = str::from_utf8(left.sink.bytes()).ok().ok_or("a text")?;
    for line in said.lines() {
        row.push_str(", ")?;
        row.push_str(short(line))?;
    }
    let row = row.as_str().replace(alloc, CYCLE, "")?;
    Ok(ENDS.lines().any(|one| one == row.as_str()))
}
