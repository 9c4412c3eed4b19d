//! The clients of the tests.

use crate::bytes::joined;
use pm_outside::{Cue, Hold, LinkScript, MemLink};
use pm_worker::NewLink;
use std::alloc::{AllocError, Global};

/// What a client does.
#[derive(Clone, Copy)]
pub(crate) enum Manner {
    /// It starts, reads a row and ends.
    Reads,
    /// It starts, and then waits until its session is ended.
    Waits,
}

/// The link of this number, of a client of this manner. At a hold nothing comes any more.
pub(crate) fn link_of(
    alloc: Global,
    number: u64,
    manner: Manner,
) -> Result<NewLink<MemLink>, AllocError> {
    let mut incoming = joined(alloc, "PACKET")?;
    let mut holds = Vec::new(alloc);
    match manner {
        Manner::Reads => {}
        Manner::Waits => holds.push(Hold {
            at: incoming.len(),
            cue: Cue::Sent { link: 0, bytes: 1 },
        })?,
    }
    incoming.extend_from_slice(&joined(alloc, "SELECT_SEVEN TERMINATE")?)?;
    let script = LinkScript {
        incoming,
        per_call: 4096,
        failing_reads: Vec::new(alloc),
        failing_writes: Vec::new(alloc),
        holds,
    };
    Ok(NewLink::new(MemLink::new(alloc, number, script, None)))
}
