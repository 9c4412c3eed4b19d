//! What a workload has to come to.
ghost use Rattle.std.specs.Prelude.{◌≡◌, ◌≤◌, ◌↔◌, IfOk, IfSome, IsTrue};
ghost use Rattle.pm_load_run.specs.Worked.{IsLeft, IsWorked};

use pm_disk::{Disk, MemDisk};
use pm_keys::key;
use pm_load::{Replay, Summary, replay_queries, summary_of};
use pm_outside::MemPort;
use pm_redo::recover;
use std::alloc::{AllocError, Global};

/// The seed of the keys.
pub(crate) const SEED: [u8; 32] = [0; 32];

/// The pid of the session. Those before it are the server's children that serve no connection.
const SESSION_PID: u32 = 4;

/// The summary of the rows that a redo finds on the disk, where the port's link was sent the answers of so many queries, and the rows
/// are those of the queries. Where it is otherwise, a query found no memory.
pub fn checked(
    alloc: Global,
    number: u32,
    port: &MemPort,
    disk: &mut MemDisk,
) -> Result<Summary, AllocError>
    requires { number ≤ 100000 }
    ensures { IfOk result (λ summary. IfSome (⟦<MemDisk as Disk>⟧.seen disk.old) (λ files. IsWorked
        number port.now files summary)) }
{
    let Ok(meant) = replay_queries(alloc, number, SESSION_PID, key(&SEED, SESSION_PID)) else {
        return Err(AllocError);
    };
    let [link] = port.links() else {
        return Err(AllocError);
    };
    if are_same(link.sent(), meant.sent()) {
        left_as_meant(alloc, &meant, disk)
    } else {
        Err(AllocError)
    }
}

fn are_same(sent: &[u8], meant: &[u8]) -> bool
    ensures { IsTrue result ↔ (sent.now ≡ meant.now) }
{
    sent == meant
}

// The summary of the rows that a redo finds, where it is that of the rows that are meant.
fn left_as_meant(alloc: Global, meant: &Replay, disk: &mut MemDisk) -> Result<Summary, AllocError>
    ensures { IfOk result (λ summary. IfSome (⟦<MemDisk as Disk>⟧.seen disk.old) (λ files. IsLeft
        meant.now.standing files summary)) }
{
    let Ok(found) = recover(alloc, disk) else {
        return Err(AllocError);
    };
    let Some(left) = summary_of(found.count, &found.rows) else {
        return Err(AllocError);
    };
    let Some(meant_left) = summary_of(meant.commits(), meant.rows()) else {
        return Err(AllocError);
    };
    if left.is_that(&meant_left) {
        Ok(left)
    } else {
        Err(AllocError)
    }
}
