//! Children that crash: the others are told, and the next generation redoes the log.
use crate::play::play;
use std::test::Fail;

/// The first of two sessions is killed. A row says where, what comes in on its link, what the kill and the disk's first write wait for, and
/// what it has sent by then. The third client finds all places taken, or the server in recovery: it shows that the kill was read.
const KILLED: &str = r"
# a session is killed {0}
row before its packet | @never PACKET | @2>GREETING,KEY_OF_5 | @lines>0 | ..0
row after its greeting | PACKET @never | @1>GREETING,KEY_OF_4 | @lines>0 | GREETING KEY_OF_4
row in a pg_sleep | PACKET INSERT_SEVEN SLEEP | @1>GREETING,KEY_OF_4,INSERTED | @lines>0 | GREETING KEY_OF_4 INSERTED
row between staging and release | PACKET INSERT_SEVEN @never | @writes>1 | @3>TOO_MANY | GREETING KEY_OF_4
row after its answer | PACKET INSERT_SEVEN @never | @1>GREETING,KEY_OF_4,INSERTED | @lines>0 | GREETING KEY_OF_4 INSERTED
files NEW | CLOSED
write {3}
link @log>READY : @2>GREETING,KEY_OF_5 {1}
link : PACKET @never
link @lines>1 : PACKET
link @log>READY,KILLED_4,NEXT : PACKET PSQL_SELECT TERMINATE
line {2} : kill 4
$ serve --data=folder --port=5432 --max-connections=2
ends Done 0
says READY KILLED_4 NEXT SMART DOWN
links 4
sends 1 {4}
sends 2 GREETING KEY_OF_5 CRASHED
notes Started { pid: 1, kind: Startup } ; RedoEnded { generation: 1, kept: 0 } ; Ready { generation: 1 } ; Started { pid: 2, kind: Checkpointer } ; Started { pid: 3, kind: Writer } ; Said(Ready) ; Accepted { pid: 4, decision: Ok } ; Accepted { pid: 5, decision: Ok } ; KillAsked { pid: 4 } ; Exited { pid: 4, kind: Backend, status: Signal(9) ; QuitSent(Crash) ; Reset { generation: 2 } ; RedoEnded { generation: 2 ; Ready { generation: 2 } ; Said(Ready) ; Accepted { pid: 10, decision: Ok } ; Asked { mode: Smart, at: 0 } ; Said(Down) ; Ended(Clean)
keeps 4";

#[test]
fn a_killed_session_leaves_what_was_told(rt: HostRuntime) -> Result<(), Fail> {
    play(rt, rt.alloc(), KILLED)
}

const SCENES: &str = r"
# a child that refuses a connection is killed, while the startup child reads the disk
files NEW | CLOSED
read @log>KILLED_2,TERMINATING
link : @never PACKET
link : @reads>1 PACKET
link @log>KILLED_2,TERMINATING,READY : PACKET SELECT_SEVEN TERMINATE
line @2>STARTING : kill 2
$ serve --data=folder --port=5432 --max-connections=2
ends Done 0
says KILLED_2 TERMINATING READY SMART DOWN
links 3
sends 1
sends 2 STARTING
sends 3 GREETING KEY_OF_6 COLUMNS ABSENT
notes Accepted { pid: 2, decision: Startup } ; Accepted { pid: 3, decision: Startup } ; KillAsked { pid: 2 } ; Exited { pid: 2, kind: DeadEnd, status: Signal(9), was_active: false, at: 0 } ; QuitSent(Crash) ; RedoEnded { generation: 1, kept: 0 } ; Ready { generation: 1 }
# the checkpointer is killed
files NEW | CLOSED
link @log>READY : PACKET INSERT_SEVEN @never
link @log>READY,CHECKPOINTER_KILLED,NEXT : PACKET SELECT_SEVEN TERMINATE
line @1>GREETING,KEY_OF_4,INSERTED : kill 2
$ serve --data=folder --port=5432 --max-connections=2
ends Done 0
says READY CHECKPOINTER_KILLED NEXT SMART DOWN
links 2
sends 1 GREETING KEY_OF_4 INSERTED CRASHED
sends 2 GREETING KEY_OF_8 COLUMNS SEVEN FOUND
# a session is in a write of the disk when another one is killed: it is told after that write, and its row stands. Who comes meanwhile is refused
files NEW | CLOSED
time runs
write @3>RECOVERING
link @log>READY : PACKET @never
link @1>GREETING,KEY_OF_4 : PACKET INSERT_SEVEN @never
link @log>READY,KILLED_4,TERMINATING : PACKET
link @log>READY,KILLED_4,NEXT : PACKET SELECT_SEVEN TERMINATE
line @writes>1 : kill 4
$ serve --data=folder --port=5432 --max-connections=2
ends Done 0
says READY KILLED_4 NEXT SMART DOWN
links 4
sends 1 GREETING KEY_OF_4
sends 2 GREETING KEY_OF_5 CRASHED | GREETING KEY_OF_5 INSERTED CRASHED
sends 3 RECOVERING
sends 4 GREETING KEY_OF_10 COLUMNS SEVEN FOUND
notes QuitSent(Crash) ; Accepted { pid: 6, decision: Recovery } ; Reset { generation: 2 } ; RedoEnded { generation: 2, kept: 1 }
# five seconds after the crash it is killed, still in its write, or the writer in its place, and so are four who came meanwhile and said nothing: then the next is refused
files NEW | CLOSED
time races
write @7>RECOVERING
link @log>READY : PACKET @never
link @1>GREETING,KEY_OF_4 : PACKET INSERT_SEVEN @never
link @log>READY,KILLED_4,TERMINATING : @never PACKET
link : @never PACKET
link : @never PACKET
link : @never PACKET
link : PACKET
link @log>READY,KILLED_4,NEXT : PACKET SELECT_SEVEN TERMINATE
line @writes>1 : kill 4
$ serve --data=folder --port=5432 --max-connections=2
ends Done 0
says READY KILLED_4 NEXT SMART DOWN
links 8
sends 1 GREETING KEY_OF_4
sends 2 GREETING KEY_OF_5 | GREETING KEY_OF_5 CRASHED
sends 3
sends 4
sends 5
sends 6
sends 7 RECOVERING
sends 8 GREETING KEY_OF_14 COLUMNS SEVEN FOUND
notes QuitSent(Crash) ; Accepted { pid: 9, decision: Recovery } ; KillSent ; Accepted { pid: 10, decision: Recovery } ; Reset { generation: 2 } ; RedoEnded { generation: 2, kept: 1 }
# a server that isn't to restart
files NEW | CLOSED
link @log>READY : PACKET INSERT_SEVEN @never
end @never
line @1>GREETING,KEY_OF_4,INSERTED : kill 4
$ serve --data=folder --port=5432 --max-connections=2 --restart-after-crash=off
ends Abnormal(RestartOff) 1
says READY KILLED_4 TERMINATING RESTART_OFF
links 1
sends 1 GREETING KEY_OF_4 INSERTED
a ONE_ROW
b CLOSED
link @log>READY : PACKET SELECT_SEVEN TERMINATE
$ once --data=folder
ends Done 0
sends 1 GREETING KEY_OF_4 COLUMNS SEVEN FOUND
# the sync of a commit's body fails: none of three is answered, and none stands. Whoever meets it first crashes
files NEW | CLOSED
fail disk 8
link @log>READY : PACKET @3>GREETING,KEY_OF_6 INSERT_SEVEN @never
link @1>GREETING,KEY_OF_4 : PACKET @3>GREETING,KEY_OF_6 INSERT_EIGHT @never
link @2>GREETING,KEY_OF_5 : PACKET INSERT_NINE @never
link @log>READY,FAILED_3,NEXT : PACKET COUNT TERMINATE
$ serve --data=folder --port=5432 --max-connections=3
ends Done 0
says READY FAILED_2 NEXT SMART DOWN | READY FAILED_3 NEXT SMART DOWN | READY FAILED_4 NEXT SMART DOWN | READY FAILED_5 NEXT SMART DOWN | READY FAILED_6 NEXT SMART DOWN
links 4
sends 1 GREETING KEY_OF_4 PANIC | GREETING KEY_OF_4 CRASHED
sends 2 GREETING KEY_OF_5 PANIC | GREETING KEY_OF_5 CRASHED
sends 3 GREETING KEY_OF_6 PANIC | GREETING KEY_OF_6 CRASHED
sends 4 GREETING KEY_OF_10 NO_ROWS
notes QuitSent(Crash) ; Reset { generation: 2 } ; RedoEnded { generation: 2, kept: 0 }
# a session is killed in a shutdown
files NEW | CLOSED
link @log>READY : PACKET INSERT_SEVEN @never
end @never
line @1>GREETING,KEY_OF_4,INSERTED : smart
line @lines>1 : kill 4
$ serve --data=folder --port=5432 --max-connections=2
ends Abnormal(AfterCrash) 1
says READY SMART KILLED_4 TERMINATING ABNORMAL
sends 1 GREETING KEY_OF_4 INSERTED
a ONE_ROW
b CLOSED";

#[test]
fn a_crash_ends_a_generation(rt: HostRuntime) -> Result<(), Fail> {
    play(rt, rt.alloc(), SCENES)
}
