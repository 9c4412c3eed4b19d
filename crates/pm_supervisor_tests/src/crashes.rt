//! Crashes of one child, and the restart after them.

pub const SCENES: &str = "
KILL_AFTER_CRASH
1001 connect
1002 exit 5 code 0
5999 time
6000 time
11000 time
    Accepted { pid: 5, decision: Recovery }
    Exited { pid: 5, kind: DeadEnd, status: Code(0), was_active: false, at: 1002 }
    KillSent { at: 6000 }

ARMED_AGAIN
12000 exit 3 signal 9 active
16999 time
17000 time
17100 exit 2 signal 9 active
    Exited { pid: 3, kind: Writer, status: Signal(9), was_active: true, at: 12000 }
    KillSent { at: 17000 }
    Exited { pid: 2, kind: Checkpointer, status: Signal(9), was_active: true, at: 17100 }
    Said(Reinitializing)
    Reset { generation: 2 }
    Started { pid: 6, kind: Startup }

NEXT_GENERATION
17200 exit 6 code 0
17300 connect
    Exited { pid: 6, kind: Startup, status: Code(0), was_active: false, at: 17200 }
    RedoEnded { generation: 2, kept: 0 }
    Ready { generation: 2 }
    Started { pid: 7, kind: Checkpointer }
    Started { pid: 8, kind: Writer }
    Said(Ready)
    Accepted { pid: 9, decision: Ok }

FROM_THE_FIRST_MOMENT: the checkpointer is killed at the first moment of all, and the writer stays
0 exit 1 code 0
0 exit 2 signal 9 active
4999 time
5000 time
10000 time
    Exited { pid: 1, kind: Startup, status: Code(0), was_active: false, at: 0 }
    RedoEnded { generation: 1, kept: 0 }
    Ready { generation: 1 }
    Started { pid: 2, kind: Checkpointer }
    Started { pid: 3, kind: Writer }
    Said(Ready)
    Exited { pid: 2, kind: Checkpointer, status: Signal(9), was_active: true, at: 0 }
    Said(ChildExit { pid: 2, kind: Checkpointer, status: Signal(9) })
    Said(TerminatingOthers)
    QuitSent(Crash)
    KillSent { at: 5000 }

WRITER_AGAIN
3 exit 3 code 0
    Exited { pid: 3, kind: Writer, status: Code(0), was_active: false, at: 3 }
    Started { pid: 5, kind: Writer }

EARLY_CHECKPOINTER: a checkpointer that ends before the last checkpoint is asked for has crashed
3 exit 2 code 0
    Exited { pid: 2, kind: Checkpointer, status: Code(0), was_active: false, at: 3 }
    Said(ChildExit { pid: 2, kind: Checkpointer, status: Code(0) })
    Said(TerminatingOthers)
    QuitSent(Crash)

KILLED_ALONE: only a child that is there is killed, or has ended
3 kill 4
4 kill 99
5 exit 99 code 0
    KillAsked { pid: 4 }";

pub const RUNS: &str = "
what is left is killed once, at 5,000 | on | START FROM_THE_FIRST_MOMENT
what is left is killed, and a later crash arms it again | on | START REDO_ENDS ONE_SESSION SESSION_CRASHES KILL_AFTER_CRASH ARMED_AGAIN NEXT_GENERATION
a server that isn't to restart ends | off | START REDO_ENDS ONE_SESSION SESSION_CRASHES OTHERS_QUIT RESTART_OFF
a writer that ends is started again | on | START REDO_ENDS ONE_SESSION WRITER_AGAIN
a checkpointer that ends early | on | START REDO_ENDS EARLY_CHECKPOINTER
one child is killed | on | START REDO_ENDS ONE_SESSION KILLED_ALONE";
