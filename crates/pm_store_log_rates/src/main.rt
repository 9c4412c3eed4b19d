//! Times calls of the commit log over the files of a folder, in which it makes a new cluster: `bench/log_rates` runs it.
#![tactic(auto)]

use anyhow::{Result, bail};
use pm_disk::Disk;
use pm_log::{Log, init, may_append};
use pm_outside_files::LogFiles;
use pm_redo::recover;
use pm_rows::{Change, Commit, MAX_FILE_BYTES, Text};
use std::alloc::Global;
use std::env;
use std::time::Instant;

/// The value of each row.
const VALUE: &str = "sixteen bytes ..";

/// How many rows a commit puts where a table is filled.
const ROWS_A_COMMIT: usize = 1_000;

fn main(rt: HostRuntime) -> Result<()> {
    let mut words = Vec::new(rt.alloc());
    for word in env::args(&rt)?.skip(1) {
        words.push(word)?;
    }
    match words.as_slice() {
        [folder, batches, commits] => {
            let batches = batches.as_str().parse::<u64>()?;
            let commits = commits.as_str().parse::<u64>()?;
            time_appends(rt, folder.as_str(), batches, commits)
        }
        [folder, rows] => time_rows(rt, folder.as_str(), rows.as_str().parse::<u64>()?),
        _ => bail!(
            "usage: pm_store_log_rates FOLDER BATCHES COMMITS, or pm_store_log_rates FOLDER ROWS"
        ),
    }
}

// Appends so many batches of so many commits of one row, and prints how many nanoseconds that took.
fn time_appends(rt: HostRuntime, folder: &str, batches: u64, commits: u64) -> Result<()> {
    let alloc = rt.alloc();
    let mut disk = LogFiles::of(rt, alloc, folder)?;
    let mut log = new_log(alloc, &mut disk)?;
    let mut batch = Vec::new(alloc);
    for key in 0..commits {
        batch.push(commit_of(alloc, key, 1)?)?;
    }
    let start = Instant::now(&rt)?;
    for _ in 0..batches {
        append(alloc, &mut disk, &mut log, &batch)?;
    }
    let took = start.elapsed(&rt)?;
    println!(rt; "{}", took.as_nanos())?;
    Ok(())
}

// Fills the table with so many rows, and prints how many nanoseconds a recovery takes from the batches, a checkpoint,
// and a recovery from the base.
fn time_rows(rt: HostRuntime, folder: &str, rows: u64) -> Result<()> {
    let alloc = rt.alloc();
    let mut disk = LogFiles::of(rt, alloc, folder)?;
    let mut log = new_log(alloc, &mut disk)?;
    for first in (0..rows).step_by(ROWS_A_COMMIT) {
        let count = rows.saturating_sub(first).min(ROWS_A_COMMIT as u64);
        append(
            alloc,
            &mut disk,
            &mut log,
            &[commit_of(alloc, first, count)?],
        )?;
    }
    let start = Instant::now(&rt)?;
    let found = recover(alloc, &mut disk)?;
    let from_batches = start.elapsed(&rt)?;
    let mut log = Log::resume(&found, MAX_FILE_BYTES);
    let start = Instant::now(&rt)?;
    let _epoch = log.checkpoint(alloc, &mut disk, &found.rows, true)?;
    let checkpoint = start.elapsed(&rt)?;
    let start = Instant::now(&rt)?;
    let found = recover(alloc, &mut disk)?;
    let from_base = start.elapsed(&rt)?;
    if found.rows.len() as u64 != rows {
        bail!("rows are missing");
    }
    println!(rt;
        "{} {} {}",
        from_batches.as_nanos(),
        checkpoint.as_nanos(),
        from_base.as_nanos()
    )?;
    Ok(())
}

// The log of a new cluster.
fn new_log(alloc: Global, disk: &mut LogFiles) -> Result<Log> {
    init(disk)?;
    let found = recover(alloc, disk)?;
    Ok(Log::resume(&found, MAX_FILE_BYTES))
}

// A commit that puts so many rows, from this key on.
fn commit_of(alloc: Global, first: u64, rows: u64) -> Result<Commit> {
    let mut commit = Commit::new(alloc);
    for i in 0..rows {
        let key = i64::try_from(first.saturating_add(i))?;
        let value = Text::of(alloc, VALUE)?;
        commit.push(Change::Put { key, value })?;
    }
    Ok(commit)
}

fn append(alloc: Global, disk: &mut LogFiles, log: &mut Log, batch: &[Commit]) -> Result<()> {
    if !may_append(batch) || log.count > u64::MAX / 2 {
        bail!("no batch");
    }
    let _receipt = log.append(alloc, disk, batch)?;
    Ok(())
}
