//! Recovery over a disk.

ghost use Rattle.std.specs.Prelude.{◌≡◌, ◌≢◌, ◌⊎◌, ◌+◌, ◌≤◌, ℕ, All, List, IfOk, IfSome, IsErr, OnOk};
ghost use Rattle.std.specs.FinMap as map;
ghost use Rattle.pm_record.specs.{pm_disk.{Cause.IsCounted, Disk.TellsStill, Files.file_of}, OnDisk.{FollowsWithin, GoesOn, Rests, Throughout}, Pair.MeansWhat, Found.IsFound, StandsFor.{Content, IsRow, StandsFor}, pm_rows.Limits.IsWithinRowLimits};
ghost use Rattle.pm_redo.specs.{Found.{Finds, FindsOnly, FindsPair, IsReason, MeansOnly}, Redo.{GoesOnTelling, IsQuiet, IsOnly, Same}};

use crate::pair::pair_in;
use pm_disk::{Disk, DiskFault, Which};
use pm_record::{CLOSED, Found, RedoFault, write_durably};
use std::alloc::Global;

/// What the two files stand for. It makes both durable first, so that what is read stays, and shuts the file that
/// doesn't count where both are open. It takes memory and time of the order of the files' lengths, and frees the files
/// before it answers.
///
/// At every tick of the call whatever a stop leaves means what it could mean at the start, and from the end of the two
/// syncs on it means what is answered. Whatever a disk tells of its files, what is answered stands in the bytes of a file,
/// and its rows keep the limits. `Disk` comes only where the disk's count of faults rose; any other refusal leaves both
/// files as they read.
pub fn recover<D: Disk>(alloc: Global, disk: &mut D) -> Result<Found, RedoFault>
    ensures found { IfOk result (λ found. TellsStill
        (λ files now. FindsPair found files
        (λ content. Rests found.file content found.end now (D.images disk.new (D.ticks disk.new))))
        (D.seen disk.old) (D.seen disk.new)) }
    ensures exact { IfOk result (λ found. IfSome (D.seen disk.old) (MeansOnly found)) }
    ensures content { IfOk result (λ found. (bytes : List ℕ) × (content : Content)
        × IsFound found content × StandsFor bytes content found.end) }
    ensures rows { IfOk result (λ found. All IsRow (map.entries found.rows)) }
    ensures limits { IfOk result (λ found. IsWithinRowLimits found.rows) }
    ensures reason { (fault : RedoFault) → result ≡ Err fault
        → IfSome (D.seen disk.old) (λ files. IsReason fault files) }
    ensures kept { (fault : RedoFault) → result ≡ Err fault → fault ≢ RedoFault.Disk
        → D.seen disk.new ≡ D.seen disk.old }
    ensures tells { GoesOnTelling (D.seen disk.old) (D.seen disk.new) }
    ensures stops { IfSome (D.seen disk.old) (λ files. FollowsWithin MeansWhat (D.ticks disk.old)
        (D.ticks disk.new) (D.images disk.old) (D.images disk.new)) }
    ensures barrier { OnOk result (IfSome (D.seen disk.old)
        (λ files. Throughout (D.ticks disk.old + 2) (D.ticks disk.new) (D.images disk.new)
        (MeansWhat files))) }
    ensures time { GoesOn (D.ticks disk.old) (D.ticks disk.new) (D.images disk.old)
        (D.images disk.new) }
    ensures cause { IsCounted (D.faults disk.old) (D.faults disk.new)
        (result ≡ Err RedoFault.Disk) }
{
    let (found, both) = read_pair(alloc, disk)?;
    if !both {
        return Ok(found);
    }
    write_durably(disk, found.file.other(), 0, &[CLOSED])?;
    Ok(found)
}

/// What the two files stand for, as `recover` finds it, with no byte written: a file that doesn't count stays open. It
/// makes both durable first, so that what is told holds after a stop as well. Memory and time are those of `recover`.
///
/// What is answered is all that the files stand for, and a stop at the end of the call leaves these files alone. Both
/// files read as before, whatever is answered, and at every tick of the call a stop leaves only what it could leave at
/// the start. `Disk` comes only where the disk's count of faults rose.
pub fn examine<D: Disk>(alloc: Global, disk: &mut D) -> Result<Found, RedoFault>
    ensures found { IfOk result (λ found. IfSome (D.seen disk.old) (λ files. FindsPair found files
        (λ content. IsOnly files (D.images disk.new (D.ticks disk.new))))) }
    ensures exact { IfOk result (λ found. IfSome (D.seen disk.old) (FindsOnly found)) }
    ensures rows { IfOk result (λ found. All IsRow (map.entries found.rows)) }
    ensures limits { IfOk result (λ found. IsWithinRowLimits found.rows) }
    ensures reason { (fault : RedoFault) → result ≡ Err fault
        → IfSome (D.seen disk.old) (λ files. IsReason fault files) }
    ensures quiet { IsQuiet (D.seen disk.old) (D.seen disk.new) (D.ticks disk.old)
        (D.ticks disk.new) (D.images disk.old) (D.images disk.new) }
    ensures cause { IsCounted (D.faults disk.old) (D.faults disk.new)
        (result ≡ Err RedoFault.Disk) }
{
    let (found, _) = read_pair(alloc, disk)?;
    Ok(found)
}

// What the pair of files stands for, and whether both are open. It makes them durable, and changes neither.
fn read_pair<D: Disk>(alloc: Global, disk: &mut D) -> Result<(Found, bool), RedoFault>
    ensures found { IfOk result (λ x. IfSome (D.seen disk.old) (Finds x.0 x.1)) }
    ensures exact { IfOk result (λ x. IfSome (D.seen disk.old) (FindsOnly x.0)) }
    ensures content { IfOk result (λ x. (bytes : List ℕ) × (content : Content) × IsFound x.0 content
        × StandsFor bytes content x.0.end) }
    ensures rows { IfOk result (λ x. All IsRow (map.entries x.0.rows)) }
    ensures limits { IfOk result (λ x. IsWithinRowLimits x.0.rows) }
    ensures reason { (fault : RedoFault) → result ≡ Err fault
        → IfSome (D.seen disk.old) (λ files. IsReason fault files) }
    ensures quiet { IsQuiet (D.seen disk.old) (D.seen disk.new) (D.ticks disk.old)
        (D.ticks disk.new) (D.images disk.old) (D.images disk.new) }
    ensures barrier { OnOk result (IfSome (D.seen disk.old)
        (λ files. Throughout (D.ticks disk.old + 2) (D.ticks disk.new) (D.images disk.new)
        (Same files))) }
    ensures synced { OnOk result (D.ticks disk.old + 2 ≤ D.ticks disk.new) }
    ensures cause { IsCounted (D.faults disk.old) (D.faults disk.new)
        (result ≡ Err RedoFault.Disk) }
{
    settle(disk)?;
    let a = read_whole(alloc, disk, Which::A)?;
    let b = read_whole(alloc, disk, Which::B)?;
    pair_in(alloc, &a, &b)
}

// Makes both files durable.
fn settle<D: Disk>(disk: &mut D) -> Result<(), DiskFault>
    ensures quiet { IsQuiet (D.seen disk.old) (D.seen disk.new) (D.ticks disk.old)
        (D.ticks disk.new) (D.images disk.old) (D.images disk.new) }
    ensures only { OnOk result (IfSome (D.seen disk.old)
        (λ files. IsOnly files (D.images disk.new (D.ticks disk.new)))) }
    ensures ticks { OnOk result (D.ticks disk.new ≡ D.ticks disk.old + 2) }
    ensures cause { IsCounted (D.faults disk.old) (D.faults disk.new) (IsErr result) }
{
    disk.sync(Which::A)?;
    disk.sync(Which::B)?;
    Ok(())
}

// A file from its beginning to its end.
fn read_whole<D: Disk>(alloc: Global, disk: &mut D, file: Which) -> Result<Vec<u8>, RedoFault>
    ensures bytes { IfOk result (λ bytes. IfSome (D.seen disk.old)
        (λ files. bytes.items ≡ file_of files file)) }
    ensures quiet { IsQuiet (D.seen disk.old) (D.seen disk.new) (D.ticks disk.old)
        (D.ticks disk.new) (D.images disk.old) (D.images disk.new) }
    ensures faults { (fault : RedoFault) → result ≡ Err fault → (fault ≡ RedoFault.Disk)
        ⊎ (fault ≡ RedoFault.NoMemory) }
    ensures cause { IsCounted (D.faults disk.old) (D.faults disk.new)
        (result ≡ Err RedoFault.Disk) }
{
    let length = disk.len(file)?;
    let mut bytes = vec![in alloc; 0; length as usize]?;
    disk.read(file, 0, &mut bytes)?;
    Ok(bytes)
}
