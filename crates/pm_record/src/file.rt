//! A log file, read whole.

ghost use Rattle.std.specs.Prelude.{◌≡◌, ◌∷◌, ◌<◌, ℕ, length, IfOk, IfErr};
ghost use Rattle.pm_record.specs.{Reading.Gives, File.{found_at, small_base_at}, Found.{Damages, Holds, IsOf}, StandsFor.{Content, StandsFor}};

use crate::base::{Base, read_base};
use crate::batch::{Progress, batches_into, is_within};
use crate::fault::{FileFault, Unread};
use crate::found::{Contents, Found};
use crate::number::first_of;
use pm_disk::Which;
use std::alloc::Global;

// The base of a file, whose rows are few and small enough.
fn small_base(alloc: Global, bytes: &[u8]) -> Result<(Base, &[u8]), Unread>
    ensures { Gives (λ x. (x.0, x.1.now)) result (small_base_at bytes.now) }
{
    let (base, rest) = read_base(alloc, bytes)?;
    if !is_within(&base.rows) {
        return Err(Unread::Bad {
            left: rest.len() + 1,
        });
    }
    Ok((base, rest))
}

// What stands behind the open gate of a file, which is its first byte.
fn behind_gate(alloc: Global, file: Which, bytes: &[u8]) -> Result<Found, Unread>
    ensures { Gives (λ x. x) result (found_at file bytes.now) }
{
    let (base, rest) = small_base(alloc, bytes)?;
    let base_end = 1 + bytes.len().saturating_sub(rest.len()) as u64;
    let start = Progress {
        rows: base.rows,
        count: base.count,
        batches: 0,
    };
    let (progress, free) = batches_into(alloc, start, rest)?;
    Ok(Found {
        file,
        epoch: base.epoch,
        base_end,
        end: bytes.len().saturating_sub(free.len()) as u64,
        rows: progress.rows,
        base_count: base.count,
        count: progress.count,
        batches: progress.batches,
        clean: base.clean && progress.batches == 0,
    })
}

/// Reads a file whole, in time linear in its length, and with the logarithm of the rows for each change. It takes memory
/// of the order of the file's length.
pub fn read_file(alloc: Global, file: Which, bytes: &[u8]) -> Result<Contents, FileFault>
    ensures found { IfOk result (λ contents. Holds file contents bytes.now) }
    // Whatever the file stands for was found.
    ensures meaning { (content : Content) → (end : ℕ) → StandsFor bytes.now content end
        → IfOk result (IsOf content end) }
    // Otherwise it is open and stands for nothing, and the place is that of its first wrong byte.
    ensures damaged { IfErr result (Damages bytes.now) }
{
    let Some((gate, behind)) = first_of(bytes) else {
        return Ok(Contents::Closed);
    };
    if gate == 0 {
        return Ok(Contents::Closed);
    }
    match behind_gate(alloc, file, behind) {
        Ok(found) => Ok(Contents::Standing(found)),
        Err(Unread::Bad { left }) => Err(FileFault::Bad {
            at: bytes.len().saturating_sub(left) as u64,
        }),
        Err(Unread::NoMemory) => Err(FileFault::NoMemory),
    }
}
