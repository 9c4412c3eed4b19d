//! How many bytes a batch takes in a file, counted without writing it.

ghost use Rattle.std.specs.Prelude.{◌≡◌, ◌+◌, ◌*◌, ◌≤◌, ◌<◌, ◌^◌, ℕ, List, length};
ghost use Rattle.pm_rows.specs.{declared.commit.Change.Change, LogSize.{change_length, commit_length, body_length, need_of}, Longest.{max_body_bytes, max_commit_bytes}, Batch.{IsBatch, IsCommit}};
ghost use Rattle.pm_record.specs.Spelling.{change_bytes, commit_bytes, body_bytes, batch_bytes};

use crate::change::size;
use pm_rows::Commit;

fn commit_length(commit: &Commit) -> u64
    requires { IsCommit commit.now }
    ensures length { result ≡ commit_length commit.now }
    ensures small { result ≤ max_commit_bytes }
{
    let mut length: u64 = 2;
    for change in commit.changes() {
        length += size(change);
    }
    length
}

/// How many bytes the body of a batch takes.
pub fn body_length(batch: &[Commit]) -> u64
    requires { IsBatch batch.now }
    ensures length { result ≡ body_length batch.now }
    ensures small { result ≤ max_body_bytes }
{
    let mut length: u64 = 4;
    for commit in batch {
        length += commit_length(commit);
    }
    length
}

/// The law that what is spelled is as long as the crate of the rows says. The function does nothing.
pub fn lengths_are_the_numbers()
    ensures changes { (change : Change) → length (change_bytes change) ≡ change_length change }
    ensures commits { (commit : List Change) → length (commit_bytes commit) ≡ commit_length commit }
    ensures bodies { (batch : List (List Change)) → length (body_bytes batch) ≡ body_length batch }
    ensures needs { (batch : List (List Change)) → 1 + length (batch_bytes batch) ≡ need_of batch }
{}
