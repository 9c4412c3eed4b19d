//! The scenes that several runs have.

/// A scene: its name, what happens, and the entries that the journal has for it.
pub const SCENES: &str = "
START
0 time
    Started { pid: 1, kind: Startup }

REDO_ENDS
1 exit 1 code 0
    Exited { pid: 1, kind: Startup, status: Code(0), was_active: false, at: 1 }
    RedoEnded { generation: 1, kept: 0 }
    Ready { generation: 1 }
    Started { pid: 2, kind: Checkpointer }
    Started { pid: 3, kind: Writer }
    Said(Ready)

ONE_SESSION
2 connect
    Accepted { pid: 4, decision: Ok }

SESSION_CRASHES
1000 exit 4 signal 9 active
    Exited { pid: 4, kind: Backend, status: Signal(9), was_active: true, at: 1000 }
    Said(ChildExit { pid: 4, kind: Backend, status: Signal(9) })
    Said(TerminatingOthers)
    QuitSent(Crash)

OTHERS_QUIT
5210 exit 3 code 2
5220 exit 2 code 2
    Exited { pid: 3, kind: Writer, status: Code(2), was_active: false, at: 5210 }
    Exited { pid: 2, kind: Checkpointer, status: Code(2), was_active: false, at: 5220 }

SMART
1100 smart
    Asked { mode: Smart, at: 1100 }
    Said(Smart)

FAST
1100 fast
    Asked { mode: Fast, at: 1100 }
    Said(Fast)

IMMEDIATE
1100 immediate
    Asked { mode: Immediate, at: 1100 }
    Said(Immediate)
    QuitSent(Stop)

TERMINATE
    TerminateSent

DOWN
    Said(Down)
    Ended(Clean)

ABNORMAL
    Said(Abnormal)
    Ended(AfterCrash)

RESTART_OFF
    Said(RestartOff)
    Ended(RestartOff)";
