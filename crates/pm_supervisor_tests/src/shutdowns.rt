//! Shutdowns in every mode, from every state that a request may meet.

pub const SCENES: &str = "
ABORTING
    Said(AbortingTransactions)

SESSION_ENDS
1310 exit 4 code 1
    Exited { pid: 4, kind: Backend, status: Code(1), was_active: false, at: 1310 }

WRITER_ENDS
1320 exit 3 code 0
1325 connect
    Exited { pid: 3, kind: Writer, status: Code(0), was_active: false, at: 1320 }
    CheckpointAsked
    Accepted { pid: 5, decision: Shutdown }

CHECKPOINT_ENDS
1330 exit 2 code 0
    Exited { pid: 2, kind: Checkpointer, status: Code(0), was_active: false, at: 1330 }

REFUSED_ENDS
1340 exit 5 code 0
    Exited { pid: 5, kind: DeadEnd, status: Code(0), was_active: false, at: 1340 }

WEAKER
1200 smart
    Asked { mode: Smart, at: 1200 }

KILLED_AFTER_IMMEDIATE
6099 time
6100 time
6200 exit 4 signal 9 active
6210 exit 3 code 2
6220 exit 2 code 2
    KillSent { at: 6100 }
    Exited { pid: 4, kind: Backend, status: Signal(9), was_active: true, at: 6200 }
    Exited { pid: 3, kind: Writer, status: Code(2), was_active: false, at: 6210 }
    Exited { pid: 2, kind: Checkpointer, status: Code(2), was_active: false, at: 6220 }

LATE: nothing follows the end
1 immediate
9000 connect
9000 exit 2 code 0
9000 immediate

STRONGER
1110 fast
1120 immediate
1130 exit 4 code 2
1140 exit 3 code 2
1150 exit 2 code 2
    Asked { mode: Fast, at: 1110 }
    Said(Fast)
    Said(AbortingTransactions)
    TerminateSent
    Asked { mode: Immediate, at: 1120 }
    Said(Immediate)
    QuitSent(Stop)
    Exited { pid: 4, kind: Backend, status: Code(2), was_active: false, at: 1130 }
    Exited { pid: 3, kind: Writer, status: Code(2), was_active: false, at: 1140 }
    Exited { pid: 2, kind: Checkpointer, status: Code(2), was_active: false, at: 1150 }";

pub const RUNS: &str = "
a smart shutdown waits for the last session | on | START REDO_ENDS ONE_SESSION SMART WEAKER SESSION_ENDS TERMINATE WRITER_ENDS CHECKPOINT_ENDS REFUSED_ENDS DOWN LATE
a fast shutdown ends sessions and writes a checkpoint | on | START REDO_ENDS ONE_SESSION FAST ABORTING TERMINATE WEAKER SESSION_ENDS WRITER_ENDS CHECKPOINT_ENDS REFUSED_ENDS DOWN
an immediate shutdown kills after five seconds | on | START REDO_ENDS ONE_SESSION IMMEDIATE WEAKER KILLED_AFTER_IMMEDIATE DOWN
a stronger request takes over | on | START REDO_ENDS ONE_SESSION SMART STRONGER DOWN
a smart shutdown after a crash | on | START REDO_ENDS ONE_SESSION SESSION_CRASHES SMART OTHERS_QUIT ABNORMAL
a fast shutdown after a crash | on | START REDO_ENDS ONE_SESSION SESSION_CRASHES FAST OTHERS_QUIT ABNORMAL
an immediate shutdown after a crash | on | START REDO_ENDS ONE_SESSION SESSION_CRASHES IMMEDIATE OTHERS_QUIT ABNORMAL";
