//! The log's calls over disks in memory.
ghost use Rattle.std.specs.Prelude.{All, IfOk};
ghost use Rattle.std.specs.FinMap as map;
ghost use Rattle.pm_record.specs.{StandsFor.IsRow, pm_rows.Limits.IsWithinRowLimits};
ghost use Rattle.pm_log.specs.{Half.Half, Making.IsUnderWay};

use pm_disk::{Disk, FailingDisk, MemDisk, Which};
use pm_log::{Log, LogFault, may_append};
use pm_record::Found;
use pm_redo::recover;
use pm_rows::{Change, Commit, Rows, Text};
use std::alloc::Global;
use std::process::Abort;
use std::test::Fail;

/// A disk in memory, some of whose calls fail.
pub type Failing = FailingDisk<MemDisk>;

/// A disk in memory that reads so.
pub fn disk_of(alloc: Global, a: &[u8], b: &[u8]) -> Result<MemDisk, Fail> {
    let mut disk = MemDisk::new(alloc);
    disk.write(Which::A, 0, a)?;
    disk.write(Which::B, 0, b)?;
    Ok(disk)
}

pub fn commit_of(alloc: Global, key: i64, value: &str) -> Result<Commit, Fail> {
    let mut commit = Commit::new(alloc);
    let value = Text::of(alloc, value)?;
    commit.push(Change::Put { key, value })?;
    Ok(commit)
}

/// What appending commits came to, where the log's gate stands in its file.
pub fn append(
    rt: &impl Abort,
    alloc: Global,
    disk: &mut Failing,
    log: &mut Log,
    batch: &[Commit],
) -> Result<String, Fail>
    ensures { (half : Half) → IsUnderWay log.old half → IsUnderWay log.new half }
{
    if !may_append(batch) {
        return Ok(String::from_str(alloc, "not to be appended")?);
    }
    assert!(rt; log.count < 1_000_000);
    assert!(rt; (log.end as usize) < disk.inner().file(log.file).len());
    match log.append(alloc, disk, batch) {
        Ok(receipt) => Ok(format!(in alloc; "commit {} at call {}", receipt.count, receipt.tick)?),
        Err(fault) => Ok(format!(in alloc; "{fault}")?),
    }
}

// Writes rows that were found as the base of the other file.
pub fn checkpoint(
    rt: &impl Abort,
    alloc: Global,
    disk: &mut Failing,
    log: &mut Log,
    rows: &Rows,
) -> Result<u64, LogFault>
    requires rows { All IsRow (map.entries rows.now) }
    requires limits { IsWithinRowLimits rows.now }
{
    assert!(rt; 1 <= disk.inner().file(log.file.other()).len());
    assert!(rt; log.making.is_none());
    log.checkpoint(alloc, disk, rows, true)
}

// What a disk holds that nothing is written to.
pub fn found_in(alloc: Global, disk: &Failing) -> Result<Found, Fail>
    ensures rows { IfOk result (λ found. All IsRow (map.entries found.rows)) }
    ensures limits { IfOk result (λ found. IsWithinRowLimits found.rows) }
{
    let within = disk.inner();
    let mut copy = within.after_stop(within.ticks(), &[], u64::MAX)?;
    Ok(recover(alloc, &mut copy)?)
}

/// A batch of so many commits, the first of which has so many changes.
pub fn large_batch(alloc: Global, commits: i64, changes: i64) -> Result<Vec<Commit>, Fail> {
    let mut batch = Vec::new(alloc);
    for key in 0..commits {
        if key == 0 {
            batch.push(first_of(alloc, changes)?)?;
        } else {
            batch.push(commit_of(alloc, key, "v")?)?;
        }
    }
    Ok(batch)
}

// A commit of so many changes.
fn first_of(alloc: Global, changes: i64) -> Result<Commit, Fail> {
    let mut commit = Commit::new(alloc);
    for key in 0..changes {
        let value = Text::of(alloc, "")?;
        commit.push(Change::Put { key, value })?;
    }
    Ok(commit)
}
