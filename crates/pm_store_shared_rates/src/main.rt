//! Times inserts of several threads, through tokens of one store over the files of a folder, in which it makes a new
//! cluster: `bench/shared_rates` runs it.
#![tactic(auto)]

use anyhow::{Result, bail};
use pm_log::init;
use pm_outside::Forgotten;
use pm_outside_files::LogFiles;
use pm_sql::{Script, parse};
use pm_store_shared::{Shared, Token};
use std::alloc::Global;
use std::env;
use std::sync::Wait;
use std::thread::{self, Threads};
use std::time::{self, Duration, Instant};

/// A thread's token, and the number of the thread.
#[derive(Drop)]
struct Worker {
    token: Token<LogFiles, Forgotten>,
    number: u32,
}

fn main(rt: HostRuntime) -> Result<()> {
    let mut words = Vec::new(rt.alloc());
    for word in env::args(&rt)?.skip(1) {
        words.push(word)?;
    }
    let [folder, threads, rows] = words.as_slice() else {
        bail!("usage: pm_store_shared_rates FOLDER THREADS ROWS");
    };
    let threads = threads.as_str().parse::<u32>()?;
    let rows = rows.as_str().parse::<u32>()?;
    let disk = LogFiles::of(rt, rt.alloc(), folder.as_str())?;
    let took = time_inserts(&rt, rt.alloc(), disk, threads, rows)?;
    println!(rt; "{}", took.as_nanos())?;
    Ok(())
}

// So many threads insert so many rows each, a commit a row. It answers how long that took.
fn time_inserts<R: Threads + Wait + time::Clock + Sync>(
    rt: &R,
    alloc: Global,
    disk: LogFiles,
    threads: u32,
    rows: u32,
) -> Result<Duration> {
    let mut disk = disk;
    init(&mut disk)?;
    let Ok((_shared, mut tokens)) = Shared::new(alloc, disk, Forgotten::new(), threads) else {
        bail!("out of memory");
    };
    let mut workers = Vec::new(alloc);
    for number in 0..threads {
        let Some(token) = tokens.take() else {
            bail!("a token is missing");
        };
        workers.push(Worker { token, number })?;
    }
    let start = Instant::now(rt)?;
    let inserted = thread::map_vec(
        rt,
        workers,
        &|worker: Worker| insert_rows(rt, alloc, worker, rows),
    )?;
    let took = start.elapsed(rt)?;
    if inserted.iter().any(|count| *count != rows) {
        bail!("rows are missing");
    }
    Ok(took)
}

// Lets a child in, which inserts its rows, and lets it go. It answers how many it inserted.
fn insert_rows<R: Wait>(rt: &R, alloc: Global, worker: Worker, rows: u32) -> u32 {
    let Worker { mut token, number } = worker;
    let Ok(mut pass) = token.enter(rt, number, 1) else {
        return 0;
    };
    if token.redo(rt, &mut pass).is_err() {
        return 0;
    }
    let mut inserted = 0u32;
    for row in 0..rows {
        let Some(script) = insert(alloc, u64::from(number) * u64::from(rows) + u64::from(row))
        else {
            break;
        };
        if token.run(rt, &mut pass, &script).is_ok() {
            inserted = inserted.wrapping_add(1);
        }
    }
    token.leave(rt, pass);
    inserted
}

// The script that inserts the row of a key.
fn insert(alloc: Global, key: u64) -> Option<Script> {
    let text = format!(in alloc; "INSERT INTO kv VALUES ({key}, 'sixteen bytes ..')").ok()?;
    parse(alloc, text.as_str()).ok()
}
