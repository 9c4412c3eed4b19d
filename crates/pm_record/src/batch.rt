//! The batches of a file, made in its rows as they are read.

ghost use Rattle.std.specs.Prelude.{◌≡◌, ◌-◌, ◌==◌, ◌||◌, ◌≤◌, ◌<◌, ◌^◌, nat_lt, IfOk};
ghost use Rattle.pm_rows.specs.Limits.{max_commits};
ghost use Rattle.pm_record.specs.{Reading.{Gives, byte_at}, Bodies.{body_ranges, commits_ranges}, File.{told, batch_step, batches_at, commit_step, is_within, room_for, rows_behind, top_for}};

use crate::commit::{count_ranges, read_commit};
use crate::fault::Unread;
use crate::number::{Ranges, first_of, read_number};
use crate::puts::with_commit;
use pm_rows::{MAX_COMMIT_BYTES, MAX_COMMITS, MAX_ROWS, MAX_ROWS_BYTES, Rows};
use std::alloc::Global;

/// What a file stands for so far: its rows, the number of commits since `initdb`, and that of its batches.
#[derive(Drop)]
pub struct Progress {
    pub rows: Rows,
    pub count: u64,
    pub batches: u64,
}

/// Whether the rows are few and small enough.
pub fn is_within(rows: &Rows) -> bool
    ensures { result ≡ is_within rows.now }
{
    rows.len() <= MAX_ROWS && rows.size() <= MAX_ROWS_BYTES
}

// A commit, made in the rows: how many bytes are left after it, the rows, and the bytes after it.
fn commit_into(
    alloc: Global,
    c: u64,
    left: u64,
    rows: Rows,
    bytes: &[u8],
) -> Result<(u64, Rows, &[u8]), Unread>
    requires { (c ≤ max_commits) × (left < 2 ^ 32) }
    ensures read { Gives (λ x. ((x.0, x.1), x.2.now)) result
        (commit_step c (left, rows) bytes.now) }
    ensures less { IfOk result (λ x. x.0 ≤ left) }
{
    let (commit, left, rest) = read_commit(alloc, c, left, bytes)?;
    let rows = with_commit(rows, &commit)?;
    if !is_within(&rows) {
        return Err(Unread::Bad {
            left: rest.len() + 1,
        });
    }
    Ok((left, rows, rest))
}

// So many commits, made in the rows.
fn commits_into(
    alloc: Global,
    count: u64,
    start: u64,
    rows: Rows,
    bytes: &[u8],
) -> Result<(Rows, &[u8]), Unread>
    requires { (count ≤ max_commits) × (start < 2 ^ 32) }
    ensures { Gives (λ x. (x.0, x.1.now)) result (rows_behind count (start, rows) bytes.now) }
{
    let mut rows = rows;
    let mut left = start;
    let mut rest = bytes;
    for i in 0..count {
        let (less, more, after) = commit_into(alloc, count - 1 - i, left, rows, rest)?;
        left = less;
        rows = more;
        rest = after;
    }
    Ok((rows, rest))
}

// How many commits a batch after so many commits may have.
fn top_for(count: u64) -> u64
    ensures { result ≡ top_for count }
{
    (u64::MAX - count).min(MAX_COMMITS as u64)
}

fn body_ranges(top: u64) -> Ranges
    requires { top ≤ max_commits }
    ensures { result ≡ body_ranges top }
{
    Ranges {
        low: 15,
        high: 15,
        low2: 19,
        high2: 4 + MAX_COMMIT_BYTES * top,
    }
}

fn commits_ranges(top: u64, long: u64) -> Ranges
    requires { long < 2 ^ 32 }
    ensures { result ≡ commits_ranges top long }
{
    count_ranges(11, MAX_COMMIT_BYTES, 0, 0, top, long)
}

// A batch behind its gate.
fn batch_into(alloc: Global, progress: Progress, bytes: &[u8]) -> Result<(Progress, &[u8]), Unread>
    requires { (progress.batches ≤ progress.count) × (progress.count < 2 ^ 64 - 1) }
    ensures read { Gives (λ x. (told x.0, x.1.now)) result (batch_step (told progress) bytes.now) }
    ensures rises { IfOk result (λ x. (room_for x.0.count < room_for progress.count)
        × (x.0.batches ≤ x.0.count)) }
{
    let top = top_for(progress.count);
    let (long, rest) = read_number(bytes, 4, &body_ranges(top))?;
    let left = long.saturating_sub(4);
    let (commits, rest) = read_number(rest, 4, &commits_ranges(top, left))?;
    let (rows, rest) = commits_into(alloc, commits, left, progress.rows, rest)?;
    let behind = Progress {
        rows,
        count: progress.count + commits,
        batches: progress.batches + 1,
    };
    Ok((behind, rest))
}

// A gate after so many commits, which is closed where there is no room for more.
fn read_gate(count: u64, bytes: &[u8]) -> Result<(u8, &[u8]), Unread>
    ensures { Gives (λ x. (x.0, x.1.now)) result
        (byte_at (λ gate. gate == 0 || nat_lt 0 (room_for count)) bytes.now) }
{
    let Some((gate, rest)) = first_of(bytes) else {
        return Err(Unread::Bad { left: 0 });
    };
    if gate != 0 && count == u64::MAX {
        return Err(Unread::Bad { left: bytes.len() });
    }
    Ok((gate, rest))
}

/// The batches after a base, up to the closed gate, and the bytes after that.
pub fn batches_into(
    alloc: Global,
    start: Progress,
    bytes: &[u8],
) -> Result<(Progress, &[u8]), Unread>
    requires { start.batches ≤ start.count }
    ensures { Gives (λ x. (told x.0, x.1.now)) result (batches_at (told start) bytes.now) }
{
    let mut progress = start;
    let mut rest = bytes;
    'gates: loop {
        let (gate, behind) = read_gate(progress.count, rest)?;
        if gate == 0 {
            return Ok((progress, behind));
        }
        let (next, after) = batch_into(alloc, progress, behind)?;
        progress = next;
        rest = after;
    }
}
