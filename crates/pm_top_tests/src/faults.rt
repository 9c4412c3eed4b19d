//! Each call of the disk, of the links and of the sink failing in turn.
use crate::names::spelled;
use crate::play::{play, play_row};
use std::alloc::Global;
use std::process::Abort;
use std::sync::Wait;
use std::test::Fail;
use std::thread::Threads;
use std::time::Clock;

/// A server with two sessions, of which the second is killed at last, and one more in the next generation.
const SERVED: &str = r"
# call {0} of `serve` fails
files NEW | CLOSED
fail disk {0}
link @log>READY : PACKET INSERT_SEVEN @never
link @1>GREETING,KEY_OF_4,INSERTED : PACKET INSERT_EIGHT @log>READY,FAILED_3,NEXT TERMINATE
link @log>READY,FAILED_3,NEXT : PACKET INSERT_NINE TERMINATE
end @3>GREETING,KEY_OF_9,INSERTED
line @2>GREETING,KEY_OF_5,INSERTED : kill 5
$ serve --data=folder --port=5432 --max-connections=2
ends
keeps
# each call of `serve` fails from call {0} on
files NEW | CLOSED
fail from {0}
link @log>READY : PACKET INSERT_SEVEN @never
link @1>GREETING,KEY_OF_4,INSERTED : PACKET INSERT_EIGHT @log>READY,FAILED_3,NEXT TERMINATE
link @log>READY,FAILED_3,NEXT : PACKET INSERT_NINE TERMINATE
end @3>GREETING,KEY_OF_9,INSERTED
line @2>GREETING,KEY_OF_5,INSERTED : kill 5
$ serve --data=folder --port=5432 --max-connections=2
ends
keeps";

#[test]
fn each_call_of_a_served_disk_may_fail(rt: HostRuntime) -> Result<(), Fail> {
    play(rt, rt.alloc(), SERVED)
}

/// The call that fails, and what is answered, noted and left.
const SCENES: &str = r"
# call {0} fails of `initdb`, of the next one, and of `once` with three commits and a client after them
files ..0 | ..0
fail disk {0}
$ initdb --data folder
ends
a ..0 | CLOSED HEADER CLOSED | NEW
b ..0 | CLOSED
$ initdb --data folder
ends
$ once --data=folder < PACKET INSERT_SEVEN INSERT_EIGHT INSERT_NINE TERMINATE & PACKET PSQL_SELECT TERMINATE
ends
keeps 2
# each call fails from call {0} on of `initdb` and `once`
files ..0 | ..0
fail from {0}
$ initdb --data folder
ends
$ once --data=folder < PACKET INSERT_SEVEN INSERT_EIGHT INSERT_NINE TERMINATE
ends
keeps
# call {0} of `controldata` fails
files NEW | CLOSED
$ once --data=folder < PACKET INSERT_SEVEN TERMINATE
fail disk {0}
$ controldata --data=folder
ends DiskFault 1
says DISK_FAULT
book
a ONE_ROW_CLOSED
b BASE_OF_ONE
keeps
# a call that reads a log of one row
files ONE_ROW | CLOSED
fail disk 3
$ once --data=folder < PACKET SELECT_SEVEN
ends Abnormal(StartupFailed(Redo(Disk))) 1
says STARTUP_FAILED ABORTING DISK_FAULT
links 0
book OPENED REDO_ATTACHED BROKE_1_AT_7 REDO_DETACHED
a ONE_ROW
b CLOSED
$ once --data=folder < PACKET SELECT_SEVEN SELECT_EIGHT
ends Done 0
sends 1 GREETING KEY_OF_4 COLUMNS SEVEN FOUND COLUMNS ABSENT
# a call of the last checkpoint, behind ten for the start and one row
files NEW | CLOSED
fail disk 14
$ once --data=folder < PACKET INSERT_SEVEN TERMINATE
ends Abnormal(AfterCrash) 1
says READY SMART FAILED_2 TERMINATING ABNORMAL
sends 1 GREETING KEY_OF_4 INSERTED
book STARTED ATTACHED PUTS_SEVEN RELEASED_AT_14 DETACHED CLOSE_ATTACHED BROKE_2_AT_18
# a read fails: of the packet, the insert and the front of the select, and of the rest. A call moves at most 64 bytes
row 1 | 0 | BASE_OF_NONE
row 2 | 213 | BASE_OF_ONE
files NEW | CLOSED
fail read {0}
$ once --data=folder < PACKET INSERT_SEVEN SELECT_SEVEN TERMINATE
ends Done 0
says PLAIN
sends 1 GREETING KEY_OF_4 INSERTED COLUMNS SEVEN FOUND ..{1}
b {2}
# a write fails: three of the greeting, one of the answer to the insert, which is in the log by then, and two of that to the select
row 1 | 0 | BASE_OF_NONE
row 2 | 64 | BASE_OF_NONE
row 3 | 128 | BASE_OF_NONE
row 4 | 191 | BASE_OF_ONE
row 5 | 213 | BASE_OF_ONE
row 6 | 277 | BASE_OF_ONE
files NEW | CLOSED
fail write {0}
$ once --data=folder < PACKET INSERT_SEVEN SELECT_SEVEN TERMINATE
ends Done 0
says PLAIN
sends 1 GREETING KEY_OF_4 INSERTED COLUMNS SEVEN FOUND ..{1}
b {2}
# a fault of the port is passed over
files NEW | CLOSED
fail accept 1
$ once --data=folder < PACKET INSERT_SEVEN SELECT_SEVEN TERMINATE
ends Done 0
says PLAIN
sends 1 GREETING KEY_OF_4 INSERTED COLUMNS SEVEN FOUND ..301
b BASE_OF_ONE
# a line of `initdb` fails: a write takes at most five bytes
row 1 | ..0
row 2 | initi
row 3 | initialize
files ..0 | ..0
fail line {0}
$ initdb --data folder
ends OutFault 1
says {1}
a NEW
b CLOSED
# a line of `once` over two empty files: the startup child's, the next one, and why
row 1 | 0
row 2 | 5
row 15 | 48
row 25 | 98
row 26 | 102
row 27 | 107
row 29 | 117
files ..0 | ..0
fail line {0}
$ once --data=folder < PACKET
ends Abnormal(StartupFailed(Redo(NoCluster))) 1
says STARTUP_FAILED ABORTING NO_CLUSTER ..{1}
# a line of `controldata`: the file, the epoch, clean; the commits, the rows, the batches
row 1 | 0
row 2 | 5
row 3 | 8
row 4 | 13
row 5 | 15
row 6 | 16
row 7 | 17
row 8 | 22
row 9 | 27
row 10 | 32
row 11 | 36
row 12 | 37
row 13 | 38
row 14 | 43
row 15 | 44
row 16 | 45
row 17 | 46
row 18 | 51
row 19 | 55
row 20 | 56
files ONE_ROW | CLOSED
fail line {0}
$ controldata --data=folder
ends OutFault 1
says OF_ONE_ROW ..{1}";

#[test]
fn each_fault_is_answered(rt: HostRuntime) -> Result<(), Fail> {
    play(rt, rt.alloc(), SCENES)
}

/// A run with a crash and a next generation, which go on as ever where that write of the sink fails.
const WRITTEN: &str = "write {0}
files NEW | CLOSED
fail disk 7
fail line {0}
$ once --data=folder < PACKET INSERT_SEVEN & PACKET INSERT_SEVEN
ends Done 0
sends 1 GREETING KEY_OF_4 PANIC
sends 2 GREETING KEY_OF_8 INSERTED";

// How much the sink has then.
fn written<R: Threads + Wait + Clock + Copy + Drop + Send + Abort + 'static>(
    rt: R,
    alloc: Global,
    line: u64,
) -> Result<usize, Fail> {
    let row = format!(in alloc; "{line}")?;
    let stage = play_row(rt, alloc, WRITTEN, row.as_str())?;
    let bytes = stage.left.sink.bytes();
    assert!(rt;
        spelled(alloc, "CRASH_CYCLE")?.starts_with(bytes),
        "write {line}"
    );
    Ok(bytes.len())
}

// The lines take 74 writes: each takes at most five bytes of one part of a line.
#[test]
fn a_sink_that_fails_gets_no_more_and_changes_nothing(rt: HostRuntime) -> Result<(), Fail> {
    let alloc = rt.alloc();
    let mut before = None;
    for line in 1..=75 {
        let count = written(rt, alloc, line)?;
        assert!(rt; before < Some(count), "write {line}");
        before = Some(count);
    }
    assert_eq!(rt; before, Some(spelled(alloc, "CRASH_CYCLE")?.len()));
    Ok(())
}
