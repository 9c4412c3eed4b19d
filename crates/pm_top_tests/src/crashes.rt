//! A disk that fails in a commit, or stops in a run: the log tells what stands.
use crate::play::play;
use std::test::Fail;

/// Sessions that insert rows, after the six calls that read the log.
const SCENES: &str = r"
# the sync of a body: the commit in doubt doesn't stand
files NEW | CLOSED
fail disk 8
$ once --data=folder --restart-after-crash off < PACKET INSERT_SEVEN INSERT_EIGHT TERMINATE & PACKET SELECT_SEVEN
ends Abnormal(RestartOff) 1
says READY FAILED_4 TERMINATING RESTART_OFF
sends 1 GREETING KEY_OF_4 PANIC
links 1
book STARTED ATTACHED PUTS_SEVEN BROKE_4_AT_12
a OPEN HEADER CLOSED PUT_SEVEN CLOSED
b CLOSED
$ once --data=folder < PACKET SELECT_SEVEN SELECT_EIGHT SELECT_SEVEN SELECT_EIGHT TERMINATE
ends Done 0
says PLAIN
sends 1 GREETING KEY_OF_4 COLUMNS ABSENT COLUMNS ABSENT COLUMNS ABSENT COLUMNS ABSENT
# that of a gate: it reads as open, so the commit in doubt stands
files NEW | CLOSED
fail disk 14
$ once --data=folder --restart-after-crash off < PACKET INSERT_SEVEN INSERT_EIGHT TERMINATE & PACKET SELECT_SEVEN
ends Abnormal(RestartOff) 1
says READY FAILED_4 TERMINATING RESTART_OFF
sends 1 GREETING KEY_OF_4 INSERTED PANIC
links 1
book STARTED ATTACHED PUTS_SEVEN RELEASED_AT_14 PUTS_EIGHT BROKE_4_AT_18
a OPEN HEADER OPEN PUT_SEVEN OPEN PUT_EIGHT CLOSED
b CLOSED
files NEW | CLOSED
fail disk 14
$ once --data=folder < PACKET INSERT_SEVEN INSERT_EIGHT TERMINATE & PACKET SELECT_SEVEN SELECT_EIGHT SELECT_SEVEN SELECT_EIGHT TERMINATE
ends Done 0
says CRASH_CYCLE
sends 1 GREETING KEY_OF_4 INSERTED PANIC
sends 2 GREETING KEY_OF_8 COLUMNS SEVEN FOUND COLUMNS EIGHT FOUND COLUMNS SEVEN FOUND COLUMNS EIGHT FOUND
links 2
notes RedoEnded { generation: 1, kept: 0 } ; Reset { generation: 2 } ; RedoEnded { generation: 2, kept: 2 }
# the book of both generations
files NEW | CLOSED
fail disk 10
$ once --data=folder < PACKET INSERT_SEVEN TERMINATE & PACKET SELECT_SEVEN TERMINATE
ends Done 0
says CRASH_CYCLE
sends 1 GREETING KEY_OF_4 PANIC
sends 2 GREETING KEY_OF_8 COLUMNS SEVEN FOUND
book STARTED ATTACHED PUTS_SEVEN BROKE_4_AT_14 NEXT_GENERATION
# a stop in `once` with three commits
files ..0 | ..0
$ initdb --data folder
$ once --data=folder < PACKET INSERT_SEVEN INSERT_EIGHT INSERT_NINE TERMINATE
ends Done 0
stops \0
stops \xff
stops ..0
keeps
# a stop in `serve` with two sessions, of which the second is killed at last, and one more in the next generation
files NEW | CLOSED
link @log>READY : PACKET INSERT_SEVEN @never
link @1>GREETING,KEY_OF_4,INSERTED : PACKET INSERT_EIGHT @never
link @log>READY,KILLED_4,NEXT : PACKET INSERT_NINE TERMINATE
line @2>GREETING,KEY_OF_5,INSERTED : kill 5
$ serve --data=folder --port=5432 --max-connections=2
ends Done 0
stops \0
stops \xff
stops ..0
keeps";

#[test]
fn a_commit_in_doubt_stands_or_not(rt: HostRuntime) -> Result<(), Fail> {
    play(rt, rt.alloc(), SCENES)
}
