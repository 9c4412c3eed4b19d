//! What others are answered while a batch is written.

use crate::shared::world::{Book, cluster, insert};
use pm_disk::{Disk, DiskFault, MemDisk, Which};
use pm_outside::Kept;
use pm_query::Seen;
use pm_sql::parse;
use pm_store_shared::{Shared, Token};
use std::alloc::Global;
use std::sync::atomic::{AtomicU64, Ordering};
use std::sync::{Arc, Wait};
use std::test::Fail;
use std::thread::{self, Threads};
use std::time::{self, Duration};

/// What has come so far: 1, and 0 before that.
#[derive(Drop)]
struct Signals {
    // A write of the batch has begun.
    begun: AtomicU64,
    // The child that asks is done, and has had its answers while the batch was written.
    asked: AtomicU64,
    beside: AtomicU64,
    // The flush has ended.
    flushed: AtomicU64,
}

// Waits for a signal for a second at most.
fn wait_for<R: time::Clock>(rt: &R, signal: &AtomicU64) {
    for _ in 0..10_000 {
        if signal.load(Ordering::SeqCst) != 0 {
            return;
        }
        thread::sleep(rt, Duration::from_micros(100));
    }
}

/// A disk over another one, whose calls are its own. Its first write isn't made before the child that asks is done.
#[derive(Drop)]
struct SlowDisk<D, R> {
    disk: D,
    signals: Arc<Signals, Global>,
    rt: R,
}

impl<D: Disk, R: time::Clock + Drop> Disk for SlowDisk<D, R> {
    ghost seen = { λ slow. D.seen slow.disk };

    ghost ticks = { λ slow. D.ticks slow.disk };

    ghost images = { λ slow. D.images slow.disk };

    ghost faults = { λ slow. D.faults slow.disk };

    ghost reads_as_left = { λ slow. D.reads_as_left slow.disk };

    ghost counted = { λ slow. D.counted slow.disk };

    fn len(&mut self, file: Which) -> Result<u64, DiskFault> {
        self.disk.len(file)
    }

    fn read(&mut self, file: Which, at: u64, into: &mut [u8]) -> Result<(), DiskFault> {
        self.disk.read(file, at, into)
    }

    fn write(&mut self, file: Which, at: u64, bytes: &[u8]) -> Result<(), DiskFault> {
        if self.signals.begun.swap(1, Ordering::SeqCst) == 0 {
            wait_for(&self.rt, &self.signals.asked);
        }
        self.disk.write(file, at, bytes)
    }

    fn sync(&mut self, file: Which) -> Result<(), DiskFault> {
        self.disk.sync(file)
    }

    fn ticks(&self) -> u64 {
        self.disk.ticks()
    }

    fn faults(&self) -> u64 {
        self.disk.faults()
    }
}

type Child<R> = Token<SlowDisk<MemDisk, R>, Book>;

// A child reads the log, stages a row and flushes it. Whether it could.
fn flush_row<R: Wait + time::Clock + Drop>(
    rt: &R,
    alloc: Global,
    child: &mut Child<R>,
) -> Option<()> {
    let mut pass = child.enter(rt, 4, 1).ok()?;
    let _read = child.redo(rt, &mut pass);
    let row = insert(alloc, 4)?;
    child.run(rt, &mut pass, &row).ok()?;
    child.flush(rt, &mut pass).ok()?;
    Some(())
}

// A child asks for a row that nobody has staged, and stages one. Whether the answer to the first may be sent, and that to the other
// waits.
fn ask<R: Wait + time::Clock + Drop>(rt: &R, alloc: Global, child: &mut Child<R>) -> Option<bool> {
    let mut pass = child.enter(rt, 5, 1).ok()?;
    let select = parse(alloc, "SELECT k, v FROM kv WHERE k = 9").ok()?;
    let shown = child.run(rt, &mut pass, &select).ok()?;
    let released = child.seen(rt, &mut pass, shown.front).ok()?;
    let row = insert(alloc, 5)?;
    let staged = child.run(rt, &mut pass, &row).ok()?;
    let waits = child.seen(rt, &mut pass, staged.front).ok()?;
    Some(released == Seen::Released && waits == Seen::NotFlushed { flushed: 0 })
}

// What the child of this place does.
fn play<R: Wait + time::Clock + Drop>(
    rt: &R,
    alloc: Global,
    place: usize,
    child: &mut Child<R>,
    signals: &Signals,
) {
    if place == 0 {
        let flushed = flush_row(rt, alloc, child).is_some();
        signals.flushed.store(u64::from(flushed), Ordering::SeqCst);
        return;
    }
    wait_for(rt, &signals.begun);
    let answered = ask(rt, alloc, child) == Some(true);
    let beside = answered && signals.flushed.load(Ordering::SeqCst) == 0;
    signals.beside.store(u64::from(beside), Ordering::SeqCst);
    signals.asked.store(1, Ordering::SeqCst);
}

// Two children in threads, of which one flushes on a slow disk.
fn play_both<R: Threads + Wait + time::Clock + Copy + Drop + Send + Sync>(
    rt: &R,
    alloc: Global,
    signals: &Arc<Signals, Global>,
) -> Result<(), Fail> {
    let disk = SlowDisk {
        disk: cluster(alloc)?,
        signals: Arc::try_clone(signals)?,
        rt: *rt,
    };
    let (_shared, mut tokens) = Shared::new(alloc, disk, Kept::new(alloc), 2)
        .ok()
        .ok_or("there is memory")?;
    let mut children = Vec::new(alloc);
    for _ in 0..2 {
        children.push(tokens.take().ok_or("a token")?)?;
    }
    let shown: &Signals = signals;
    thread::for_each_mut(
        rt,
        children.as_mut_slice(),
        8,
        &|place, child| play(rt, alloc, place, child, shown),
    );
    Ok(())
}

#[test]
fn a_script_runs_while_a_batch_is_written(rt: HostRuntime) -> Result<(), Fail> {
    let alloc = rt.alloc();
    let signals = Arc::new(
        alloc,
        Signals {
            begun: AtomicU64::new(0),
            asked: AtomicU64::new(0),
            beside: AtomicU64::new(0),
            flushed: AtomicU64::new(0),
        },
    )?;
    play_both(&rt, alloc, &signals)?;
    assert_eq!(rt; signals.beside.load(Ordering::SeqCst), 1);
    assert_eq!(rt; signals.flushed.load(Ordering::SeqCst), 1);
    Ok(())
}
