//! One run over memory of a child that serves no connection, and what it came to.

use crate::lives::{gate_of, script_of};
use crate::short_book::ShortBook;
use pm_aux::{checkpointer, startup, writer};
use pm_child_life::{Cancelled, ScriptedLife};
use pm_outside::{Clock, Kept, MemClock};
use pm_query::{BookEntry, CHECKPOINT_BYTES, Work};
use pm_rows_tests::{Fault, GENERATION, MemStore};
use std::alloc::Global;
use std::sync::Wait;
use std::test::Fail;
use std::time;

pub const PID: u32 = 2;

// An entry of this child by a letter, and another's as a question mark.
fn letter(entry: &BookEntry) -> char {
    match entry {
        BookEntry::Attached { pid: PID, .. } => 'A',
        BookEntry::Redone { pid: PID, .. } => 'R',
        BookEntry::CheckpointEnded {
            pid: PID,
            done,
            clean,
        } => match (*done, *clean) {
            (true, false) => 'C',
            (false, false) => 'c',
            (true, true) => 'L',
            (false, true) => 'l',
        },
        BookEntry::Broke {
            pid: PID,
            since: 12,
            ..
        } => 'B',
        BookEntry::Detached { pid: PID } => 'D',
        _ => '?',
    }
}

/// What a run came to.
#[derive(Drop)]
pub struct Met {
    /// The child's status, the letters of what it noted, the refusal that it ended by, how many commits its redo kept, and where it
    /// is attached then.
    pub end: String,
    /// How many calls of the store it made, and how many pauses passed.
    pub calls: u64,
    pub pauses: u64,
}

// The calls of the store and the entries of the startup child that read the log before.
const READING_CALLS: u64 = 2;

const READING_NOTES: usize = 3;

// The store as the child finds it: unread, read, due for a checkpoint, or with a log that broke at tick 12.
fn store_of(alloc: Global, found: &str, short: &str) -> Result<MemStore<ShortBook>, Fail> {
    let is_read = found != "unread";
    let before = if is_read { READING_CALLS } else { 0 };
    let mut failing = Vec::new(alloc);
    for call in short.split_whitespace() {
        let call = call.parse::<u64>().ok().ok_or("a number")?;
        failing.push(call.saturating_add(before))?;
    }
    let mut store = MemStore::new(alloc, ShortBook::new(Kept::new(alloc), failing));
    if is_read {
        let life = ScriptedLife::quiet(alloc, 1, GENERATION);
        let mut work = Work { life, store };
        startup(&mut work);
        store = work.store;
    }
    match found {
        "due" => store.grow(CHECKPOINT_BYTES),
        "broken" => store.fail(Fault {
            since: 12,
            faults: 1,
        }),
        _ => {}
    }
    Ok(store)
}

/// Runs a child, as `startup unread`, `writer` or `checkpointer due`, which is given these signals. Behind `short` stand the store's
/// calls, from its entering on, for which there is no memory, and behind `gate` what the gate answers.
pub fn run<R: Wait + time::Clock + Copy + Drop>(
    rt: &R,
    alloc: Global,
    child: &str,
    signals: &str,
) -> Result<Met, Fail> {
    let (child, gate) = child.split_once(" gate ").unwrap_or((child, ""));
    let (child, short) = child.split_once(" short ").unwrap_or((child, ""));
    let (kind, found) = child.split_once(' ').unwrap_or((child, "read"));
    let store = store_of(alloc, found, short)?;
    let script = script_of(alloc, signals)?;
    let life = ScriptedLife::new(PID, false, script, gate_of(gate), Cancelled::NoSuchPid);
    let clock = MemClock::new(alloc, 0, *rt)?;
    let mut work = Work { life, store };
    let done = match kind {
        "startup" => startup(&mut work),
        "writer" => writer(rt, &mut work, &clock),
        _ => checkpointer(rt, &mut work, &clock),
    };
    let Work { life, store } = work;
    let book = store.into_book();
    let is_read = found != "unread";
    let others = if is_read { READING_NOTES } else { 0 };
    let before = if is_read { READING_CALLS } else { 0 };
    let mut noted = String::new(alloc);
    for entry in book.entries().iter().skip(others) {
        noted.push(letter(entry))?;
    }
    let end = format!(in alloc;
        "{:?} [{}] {:?} {:?} {:?}",
        done.status,
        noted.as_str(),
        done.fault,
        done.kept,
        life.attached()
    )?;
    Ok(Met {
        end,
        calls: book.asked().saturating_sub(before),
        pauses: clock.now(),
    })
}
