//! Servers that don't start, and what the operator asks for.
use crate::play::play;
use std::test::Fail;

const UNSTARTED: &str = r"
# fewer threads than slots
files NEW | CLOSED
threads 46
link : PACKET
$ serve --data=folder --port=5432 --max-connections=20
ends NoThread 4
says NO_THREAD
links 0
entries 0
calls 4
a NEW
b CLOSED
threads 3
$ serve --data=folder --port=5432 --max-connections=1
ends NoThread 4
says NO_THREAD
entries 0
calls 4
# no cluster, while a client waits that has said nothing
files CLOSED | CLOSED
link : @never PACKET
end @never
$ serve --data=folder --port=5432 --max-connections=2
ends Abnormal(StartupFailed(Redo(NoCluster))) 1
says STARTUP_FAILED ABORTING NO_CLUSTER
links 1
sends 1
notes Started { pid: 1, kind: Startup } ; Accepted { pid: 2, decision: Startup } ; Exited { pid: 1, kind: Startup, status: Code(1), was_active: false, at: 0 } ; Ended(StartupFailed)
a CLOSED
b CLOSED
# the startup child is killed, where that comes before its redo
files NEW | CLOSED
end @log>READY
line @lines>0 : one turn
line @lines>0 : kill 1
$ serve --data=folder --port=5432 --max-connections=2
ends Abnormal(StartupFailed(Killed)) 1 | Done 0
says STARTUP_KILLED ABORTING WAS_KILLED | READY SMART DOWN";

#[test]
fn a_server_that_does_not_start_says_why(rt: HostRuntime) -> Result<(), Fail> {
    play(rt, rt.alloc(), UNSTARTED)
}

const ASKED: &str = r"
# a smart request lets a session go on and no other begin, a fast one ends it, and one behind that is none
files NEW | CLOSED
link @log>READY : PACKET @never
link @lines>1 : PACKET
end @never
line @1>GREETING,KEY_OF_4 : smart
line @2>STOPPING : fast
line @lines>2 : smart
$ serve --data=folder --port=5432 --max-connections=2
ends Done 0
says READY SMART FAST ABORTING_SESSIONS DOWN
links 2
sends 1 GREETING KEY_OF_4 TERMINATED
sends 2 STOPPING
notes Asked { mode: Smart, at: 0 } ; Accepted { pid: 5, decision: Shutdown } ; Asked { mode: Fast, at: 0 } ; TerminateSent ; CheckpointAsked ; Said(Down) ; Ended(Clean)
a CLOSED HEADER CLOSED
b BASE_OF_NONE
# an immediate one ends two sessions, and makes no checkpoint
files NEW | CLOSED
link @log>READY : PACKET INSERT_SEVEN @never
link @1>GREETING,KEY_OF_4,INSERTED : PACKET INSERT_EIGHT @never
end @never
line @2>GREETING,KEY_OF_5,INSERTED : immediate
$ serve --data=folder --port=5432 --max-connections=2
ends Done 0
says READY IMMEDIATE DOWN
links 2
sends 1 GREETING KEY_OF_4 INSERTED STOPPED
sends 2 GREETING KEY_OF_5 INSERTED STOPPED
notes Asked { mode: Immediate, at: 0 } ; QuitSent(Stop) ; Said(Down) ; Ended(Clean)
a OPEN HEADER OPEN PUT_SEVEN OPEN PUT_EIGHT CLOSED
b CLOSED
link @log>READY : PACKET SELECT_SEVEN SELECT_EIGHT TERMINATE
$ once --data=folder
ends Done 0
sends 1 GREETING KEY_OF_4 COLUMNS SEVEN FOUND COLUMNS EIGHT FOUND
# a fast one in front of the startup child, and one while it reads the disk
files ONE_ROW | CLOSED
read @lines>1
end @never
line @lines>0 : fast
$ serve --data=folder --port=5432 --max-connections=2
ends Done 0
says FAST DOWN
a ONE_ROW_CLOSED
b BASE_OF_ONE
files ONE_ROW | CLOSED
read @lines>1
end @never
line @reads>1 : fast
$ serve --data=folder --port=5432 --max-connections=2
ends Done 0
says FAST DOWN
a ONE_ROW_CLOSED
b BASE_OF_ONE
link @log>READY : PACKET SELECT_SEVEN TERMINATE
$ once --data=folder
ends Done 0
sends 1 GREETING KEY_OF_4 COLUMNS SEVEN FOUND
# an immediate one while it does
files ONE_ROW | CLOSED
read @lines>1
end @never
line @reads>1 : immediate
$ serve --data=folder --port=5432 --max-connections=2
ends Done 0
says IMMEDIATE DOWN
a ONE_ROW
b CLOSED
# the port's end in front of the redo
files ONE_ROW | CLOSED
$ serve --data=folder --port=5432 --max-connections=2
ends Done 0
says SMART DOWN
link @log>READY : PACKET SELECT_SEVEN TERMINATE
$ serve --data=folder --port=5432 --max-connections=2
ends Done 0
sends 1 GREETING KEY_OF_4 COLUMNS SEVEN FOUND
# lines that ask for nothing: pids of nobody, and other words
files NEW | CLOSED
link @log>READY : PACKET @lines>12 INSERT_SEVEN TERMINATE
line @1>GREETING,KEY_OF_4 : kill 99
line @lines>0 : kill 1
line @lines>0 : kill 0
line @lines>0 : kill 4294967300
line @lines>0 : kill 00000000004
line @lines>0 : kill +4
line @lines>0 : kill 4 4
line @lines>0 : kill
line @lines>0 : Kill 4
line @lines>0 :  fast
line @lines>0 : FAST
line @lines>0 : 
$ serve --data=folder --port=5432 --max-connections=2
ends Done 0
says READY SMART DOWN
links 1
sends 1 GREETING KEY_OF_4 INSERTED";

#[test]
fn a_server_does_what_it_is_asked_for(rt: HostRuntime) -> Result<(), Fail> {
    play(rt, rt.alloc(), ASKED)
}
