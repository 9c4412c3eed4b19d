//! The changes of a commit, where so many commits come after it in a body.

ghost use Rattle.std.specs.Prelude.{◌≡◌, ◌≤◌, ◌<◌, ◌^◌, IfOk, fold};
ghost use Rattle.pm_rows.specs.Limits.{max_changes, max_commits};
ghost use Rattle.pm_record.specs.{Reading.Gives, Changes.change_at, Repeated.items_at, Bodies.{change_left, changes_ranges, commit_at, commit_left, count_ranges}};

use crate::change::{read_change, size};
use crate::fault::Unread;
use crate::number::{Ranges, read_number};
use pm_rows::{Change, Commit, MAX_CHANGE_BYTES, MAX_CHANGES, MAX_COMMIT_BYTES};
use std::alloc::Global;

/// Numbers of items, at most `top`, that can take exactly `long` bytes with what comes after them. Each takes from
/// `low` to `high` bytes, and what is after them from `least` to `most`.
pub fn count_ranges(low: u64, high: u64, least: u64, most: u64, top: u64, long: u64) -> Ranges
    requires some { (0 < low) × (0 < high) }
    requires small { (low < 2 ^ 32) × (high < 2 ^ 32) × (least < 2 ^ 32) × (long < 2 ^ 32) }
    ensures { result ≡ count_ranges low high least most top long }
{
    Ranges {
        low: ((long.saturating_sub(most) + (high - 1)) / high).max(1),
        high: (long.saturating_sub(least + 4) / low).min(top),
        low2: ((long.saturating_sub(least) + (low - 1)) / low).max(1),
        high2: (long.saturating_sub(least) / low).min(top),
    }
}

fn changes_ranges(c: u64, long: u64) -> Ranges
    requires { (c ≤ max_commits) × (long < 2 ^ 32) }
    ensures { result ≡ changes_ranges c long }
{
    let most = MAX_COMMIT_BYTES * c;
    count_ranges(9, MAX_CHANGE_BYTES, 11 * c, most, MAX_CHANGES as u64, long)
}

// How many bytes are left after a change.
fn less(left: u64, change: &Change) -> u64
    ensures { result ≡ change_left left change.now }
{
    left.saturating_sub(size(change))
}

// So many changes, and how many bytes are left after them.
fn read_changes(
    alloc: Global,
    count: u64,
    c: u64,
    start: u64,
    bytes: &[u8],
) -> Result<(Commit, u64, &[u8]), Unread>
    requires { (count ≤ max_changes) × (c ≤ max_commits) }
    ensures read { Gives (λ x. (x.0, x.2.now)) result
        (items_at (λ n. change_at n c) change_left count start bytes.now) }
    ensures left { IfOk result (λ x. x.1 ≡ fold change_left start x.0) }
{
    let mut commit = Commit::new(alloc);
    let mut left = start;
    let mut rest = bytes;
    for i in 0..count {
        let (change, after) = read_change(alloc, count - 1 - i, c, left, rest)?;
        left = less(left, &change);
        commit.push(change)?;
        rest = after;
    }
    Ok((commit, left, rest))
}

/// A commit with so many commits after it, and how many bytes are left after it.
#[tactic(auto, unfolding(crate::specs::Bodies::commit_at))]
pub fn read_commit(
    alloc: Global,
    c: u64,
    left: u64,
    bytes: &[u8],
) -> Result<(Commit, u64, &[u8]), Unread>
    requires { (c ≤ max_commits) × (left < 2 ^ 32) }
    ensures read { Gives (λ x. (x.0, x.2.now)) result (commit_at c left bytes.now) }
    ensures left { IfOk result (λ x. x.1 ≡ commit_left left x.0) }
{
    let left = left.saturating_sub(2);
    let (count, rest) = read_number(bytes, 2, &changes_ranges(c, left))?;
    let (commit, left, rest) = read_changes(alloc, count, c, left, rest)?;
    Ok((commit, left, rest))
}
