//! A commit, made in rows that are let go where memory is short. So a put needs no look at its key first, and nothing
//! that takes it back.

ghost use Rattle.std.specs.Prelude.{◌≡◌, All, IfOk, IsSome, IsTrue};
ghost use Rattle.pm_rows.specs.Fold.{committed, value_left};

use pm_rows::{Change, Commit, Rows};
use std::alloc::AllocError;

// Whether each change is a put.
fn is_puts(commit: &Commit) -> bool
    ensures { IsTrue result → All (λ change. IsSome (value_left change)) commit.now }
{
    for change in commit.changes() {
        if let Change::Del { .. } = change {
            return false;
        }
    }
    true
}

// The rows with a commit of puts.
fn put_all(mut rows: Rows, commit: &Commit) -> Result<Rows, AllocError>
    requires { All (λ change. IsSome (value_left change)) commit.now }
    ensures { IfOk result (λ after. after ≡ committed rows commit.now) }
{
    for change in commit.changes() {
        let Change::Put { key, value } = change else {
            unreachable!()
        };
        rows.put(*key, value.copy()?)?;
    }
    Ok(rows)
}

/// The rows with a commit.
pub fn with_commit(mut rows: Rows, commit: &Commit) -> Result<Rows, AllocError>
    ensures { IfOk result (λ after. after ≡ committed rows commit.now) }
{
    if is_puts(commit) {
        return put_all(rows, commit);
    }
    rows.apply(commit)?;
    Ok(rows)
}
