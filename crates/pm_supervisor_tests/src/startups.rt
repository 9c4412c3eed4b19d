//! The end of the startup child, by its status and by what it meets.

pub const SCENES: &str = "
ENDS_0
1300 exit 1 code 0
    Exited { pid: 1, kind: Startup, status: Code(0), was_active: false, at: 1300 }
    RedoEnded { generation: 1, kept: 0 }

ENDS_1
1300 exit 1 code 1
    Exited { pid: 1, kind: Startup, status: Code(1), was_active: false, at: 1300 }

LAST_CHECKPOINT
1330 exit 2 code 0
    Started { pid: 2, kind: Checkpointer }
    CheckpointAsked
    Exited { pid: 2, kind: Checkpointer, status: Code(0), was_active: false, at: 1330 }

ENDS_2
1300 exit 1 code 2
    Exited { pid: 1, kind: Startup, status: Code(2), was_active: false, at: 1300 }

FAILS
1300 exit 1 code 1
    Exited { pid: 1, kind: Startup, status: Code(1), was_active: false, at: 1300 }
    Said(ChildExit { pid: 1, kind: Startup, status: Code(1) })
    Said(AbortingStartup)
    Ended(StartupFailed)

CRASHES
1300 exit 1 signal 9 active
    Exited { pid: 1, kind: Startup, status: Signal(9), was_active: true, at: 1300 }
    Said(ChildExit { pid: 1, kind: Startup, status: Signal(9) })
    Said(TerminatingOthers)
    QuitSent(Crash)

REFUSED_CRASHES
2 connect
10 exit 2 signal 9
11 connect
12 exit 3 code 0
    Accepted { pid: 2, decision: Startup }
    Exited { pid: 2, kind: DeadEnd, status: Signal(9), was_active: false, at: 10 }
    Said(ChildExit { pid: 2, kind: DeadEnd, status: Signal(9) })
    Said(TerminatingOthers)
    QuitSent(Crash)
    Accepted { pid: 3, decision: Recovery }
    Exited { pid: 3, kind: DeadEnd, status: Code(0), was_active: false, at: 12 }

RESTART
    Said(Reinitializing)
    Reset { generation: 2 }
    Started { pid: 4, kind: Startup }

REFUSED_STAYS: a child that refuses a connection and stays is killed five seconds after the crash
2 connect
3 fast
1000 exit 1 signal 9 active
5999 time
6000 time
6001 exit 2 signal 9 active
    Accepted { pid: 2, decision: Startup }
    Asked { mode: Fast, at: 3 }
    Said(Fast)
    TerminateSent
    Exited { pid: 1, kind: Startup, status: Signal(9), was_active: true, at: 1000 }
    Said(ChildExit { pid: 1, kind: Startup, status: Signal(9) })
    Said(TerminatingOthers)
    QuitSent(Crash)
    KillSent { at: 6000 }
    Exited { pid: 2, kind: DeadEnd, status: Signal(9), was_active: true, at: 6001 }";

pub const RUNS: &str = "
smart, redo ends | on | START SMART TERMINATE ENDS_0 LAST_CHECKPOINT DOWN
smart, redo gives up | on | START SMART TERMINATE ENDS_1 LAST_CHECKPOINT DOWN
fast, redo ends | on | START FAST TERMINATE ENDS_0 LAST_CHECKPOINT DOWN
fast, redo gives up | on | START FAST TERMINATE ENDS_1 LAST_CHECKPOINT DOWN
immediate, redo is told to quit | on | START IMMEDIATE ENDS_2 DOWN
a startup child that fails by itself ends the server | on | START FAILS
a startup child that crashes in a shutdown | on | START FAST TERMINATE CRASHES ABNORMAL
what is left behind its crash is killed | on | START REFUSED_STAYS ABNORMAL
told to quit, 1 | on | START REFUSED_CRASHES ENDS_1 RESTART
told to quit, 2 | on | START REFUSED_CRASHES ENDS_2 RESTART";
