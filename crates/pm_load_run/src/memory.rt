//! A server's outside in memory.
ghost use Rattle.std.specs.Prelude.{◌≤◌};

use crate::checking::SEED;
use pm_disk::MemDisk;
use pm_load::load_bytes;
use pm_outside::{Forgotten, LinkScript, MemClock, MemPort, MemSink};
use pm_server::Outside;
use std::alloc::{AllocError, Global};
use std::sync::Wait;
use std::time::Clock;

/// The most bytes that one read gives, and one write takes.
const BYTES_PER_CALL: usize = 65_536;

/// What the server of a workload works on.
pub(crate) type Memory<R> = Outside<MemPort, MemSink, MemDisk, MemClock<R>, Forgotten, Forgotten>;

/// A port with one link, on which these queries come in, and an empty disk. Its clock stands still.
pub(crate) fn memory<R: Wait + Clock + Copy + Drop>(
    rt: &R,
    alloc: Global,
    number: u32,
) -> Result<Memory<R>, AllocError>
    requires { number ≤ 100000 }
{
    let script = LinkScript {
        incoming: load_bytes(alloc, number)?,
        per_call: BYTES_PER_CALL,
        failing_reads: Vec::new(alloc),
        failing_writes: Vec::new(alloc),
        holds: Vec::new(alloc),
    };
    let mut scripts = Vec::new(alloc);
    scripts.push(script)?;
    Ok(Outside {
        port: MemPort::new(alloc, scripts, Vec::new(alloc)),
        sink: MemSink::new(alloc, usize::MAX, Vec::new(alloc)),
        disk: MemDisk::new(alloc),
        clock: MemClock::still(0, *rt),
        journal: Forgotten::new(),
        book: Forgotten::new(),
        seed: SEED,
    })
}
