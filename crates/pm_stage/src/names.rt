//! How many changes name a key: a table that is kept change by change.

ghost use Rattle.std.specs.{Prelude.{◌≡◌, ◌+◌, ◌-◌, ◌^◌, ◌<◌, ℤ, cond, length, FitsSigned, OnOk, OnErr}, Int.w64, Ordering.int_eq};
ghost use Rattle.pm_rows.specs.Fold.{key_of};
ghost use Rattle.pm_stage.specs.Naming.{Counts, times_at, times_in, times_named};

use pm_rows::{Change, Commit};
use std::alloc::AllocError;
use std::collections::BTreeMap;

/// How many changes name each key that is named. The numbers fit: there are fewer than 2^64 commits, each of at most
/// 1,000 changes.
pub(crate) type Names = BTreeMap<i64, u128>;

// Counts each of these changes at its key. Where memory is short all numbers stay as they were.
pub(crate) fn count_all(names: &mut Names, changes: &[Change]) -> Result<(), AllocError>
    requires tally { Counts names.old (times_at names.old) }
    requires room { (key : ℤ) → times_at names.old key + length changes.now < 2 ^ 128 }
    ensures ok { OnOk result (Counts names.new
        (λ key. times_at names.old key + times_in key changes.now)) }
    ensures err { OnErr result (Counts names.new (times_at names.old)) }
{
    for at in 0..changes.len() {
        if let Err(error) = count(names, key_of(&changes[at])) {
            discount_all(names, &changes[..at]);
            return Err(error);
        }
    }
    Ok(())
}

// Takes each of these changes off the number of its key. It takes no memory.
pub(crate) fn discount_all(names: &mut Names, changes: &[Change])
    requires tally { Counts names.old (times_at names.old) }
    ensures { Counts names.new (λ key. times_at names.old key - times_in key changes.now) }
{
    for at in 0..changes.len() {
        discount(names, key_of(&changes[at]));
    }
}

// The same for all changes of these commits.
pub(crate) fn discount_commits(names: &mut Names, commits: &[Commit])
    requires tally { Counts names.old (times_at names.old) }
    ensures { Counts names.new (λ key. times_at names.old key - times_named key commits.now) }
{
    for at in 0..commits.len() {
        discount_all(names, commits[at].changes());
    }
}

// One more for this key.
fn count(names: &mut Names, key: i64) -> Result<(), AllocError>
    requires tally { Counts names.old (times_at names.old) }
    requires room { times_at names.old key + 1 < 2 ^ 128 }
    ensures ok { OnOk result (Counts names.new
        (λ other. times_at names.old other + cond (int_eq key other) 1 0)) }
    ensures err { OnErr result (Counts names.new (times_at names.old)) }
{
    let times = names.get(&key).copied().unwrap_or(0);
    names.insert(key, times + 1)?;
    Ok(())
}

// One less for this key, where it has any. It takes no memory.
fn discount(names: &mut Names, key: i64)
    requires tally { Counts names.old (times_at names.old) }
    ensures { Counts names.new (λ other. times_at names.old other - cond (int_eq key other) 1 0) }
{
    let times = names.get(&key).copied().unwrap_or(0);
    if times > 1 {
        let _ = names.insert(key, times - 1);
    } else {
        names.remove(&key);
    }
}

// The key that a change is about.
fn key_of(change: &Change) -> i64
    ensures key { result ≡ key_of change.now }
    ensures range { FitsSigned w64 result }
{
    match change {
        Change::Put { key, .. } | Change::Del { key } => *key,
    }
}
