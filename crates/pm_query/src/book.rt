//! The book: what happened to the store, in the order in which it happened.

use crate::reply::Reply;
use pm_rows::Commit;
use pm_sql::Script;

/// One event of the store.
#[derive(Debug, Drop)]
pub enum BookEntry {
    /// The store begins a generation, with nobody attached.
    Opened {
        generation: u32,
    },
    /// A child may use the store.
    Attached {
        pid: u32,
        generation: u32,
    },
    /// The log was read again, and so many commits stand.
    Redone {
        pid: u32,
        generation: u32,
        kept: u64,
    },
    /// A script was run. `front` is the number of commits after it, and `tick` the disk's count of calls before its
    /// commit was written.
    Answered {
        pid: u32,
        script: Script,
        reply: Reply,
        commit: Commit,
        front: u64,
        tick: u64,
    },
    /// The answers up to this front may be sent. `tick` is the disk's count of calls at this moment.
    Released {
        pid: u32,
        front: u64,
        tick: u64,
    },
    /// A child no longer uses the store.
    Detached {
        pid: u32,
    },
    /// A child is gone without having left. Only the next generation, and more of the kind before it, come after this.
    Gone {
        pid: u32,
    },
    /// A checkpoint came to its end. It was made, or it was left out since redo hasn't ended.
    CheckpointEnded {
        pid: u32,
        done: bool,
        clean: bool,
    },
    /// The disk failed under this child, at tick `since`, and its count of faults is `faults` from then on. A call that
    /// finds the log broken tells the same fault again.
    Broke {
        pid: u32,
        since: u64,
        faults: u64,
    },
    /// A commit of `need` bytes was refused, since the log has room for `room`.
    LogFull {
        pid: u32,
        script: Script,
        need: u64,
        room: u64,
    },
}
