//! A change, where so many changes and commits come after it in a body.

ghost use Rattle.std.specs.Prelude.{◌≡◌, ◌≤◌, length};
ghost use Rattle.pm_rows.specs.Limits.{max_changes, max_commits};
ghost use Rattle.pm_record.specs.{Spelling.change_bytes, Reading.Gives, Changes.{change_at, fills, least, may_tag, most, value_ranges}};

use crate::fault::Unread;
use crate::number::{Ranges, first_of};
use crate::text::{read_key, read_string};
use pm_rows::{Change, MAX_CHANGE_BYTES, MAX_COMMIT_BYTES, MAX_VALUE_BYTES};
use std::alloc::Global;

fn value_ranges(n: u64, c: u64, left: u64) -> Ranges
    requires { (n ≤ max_changes) × (c ≤ max_commits) }
    ensures { result ≡ value_ranges n c left }
{
    let least = 9 * n + 11 * c;
    let most = MAX_CHANGE_BYTES * n + MAX_COMMIT_BYTES * c;
    let lacks = if left < 17 + least { 1 } else { 0 };
    Ranges {
        low: left.saturating_sub(13 + least),
        high: left.saturating_sub(13 + least).min(MAX_VALUE_BYTES as u64),
        low2: left.saturating_sub(13 + most).max(lacks),
        high2: left.saturating_sub(17 + least).min(MAX_VALUE_BYTES as u64),
    }
}

fn fills(n: u64, c: u64, left: u64) -> bool
    requires { (n ≤ max_changes) × (c ≤ max_commits) }
    ensures { result ≡ fills n c left }
{
    let least = 9 * n + 11 * c;
    left == least || least + 4 <= left && left <= MAX_CHANGE_BYTES * n + MAX_COMMIT_BYTES * c
}

fn may_tag(n: u64, c: u64, left: u64, tag: u8) -> bool
    requires { (n ≤ max_changes) × (c ≤ max_commits) }
    ensures { result ≡ may_tag n c left tag }
{
    let least = 9 * n + 11 * c;
    let most = MAX_CHANGE_BYTES * n + MAX_COMMIT_BYTES * c;
    tag == 1 && (13 + least <= left && left <= MAX_CHANGE_BYTES + most)
        || tag == 2 && (9 <= left && fills(n, c, left - 9))
}

/// The bytes of a change.
pub fn size(change: &Change) -> u64
    ensures { result ≡ length (change_bytes change.now) }
{
    match change {
        Change::Put { value, .. } => 13 + value.as_str().len() as u64,
        Change::Del { .. } => 9,
    }
}

/// A change.
#[tactic(auto, unfolding(crate::specs::Changes::change_at))]
pub fn read_change(
    alloc: Global,
    n: u64,
    c: u64,
    left: u64,
    bytes: &[u8],
) -> Result<(Change, &[u8]), Unread>
    requires { (n ≤ max_changes) × (c ≤ max_commits) }
    ensures { Gives (λ x. (x.0, x.1.now)) result (change_at n c left bytes.now) }
{
    let Some((tag, rest)) = first_of(bytes) else {
        return Err(Unread::Bad { left: 0 });
    };
    if !may_tag(n, c, left, tag) {
        return Err(Unread::Bad { left: bytes.len() });
    }
    let (key, rest) = read_key(rest)?;
    if tag == 2 {
        return Ok((Change::Del { key }, rest));
    }
    let (value, rest) = read_string(alloc, &value_ranges(n, c, left), rest)?;
    Ok((Change::Put { key, value }, rest))
}
