//! Laws of answers and of books, for the layers above. Their bodies are empty.
ghost use Rattle.std.specs.Prelude.{◌≡◌};
ghost use Rattle.pm_query.specs.{Book.{IsLegal, needs_of}, Calls.due_bytes, BookLaws.{AckedIsWithin, AckedNeverFalls, AcknowledgedStays, CommitsAddTheirBytes, RepeatChangesNothing, RowsAreWithinNeeds}, Laws.{CommitLeavesRows, OnlyWritesCommit}, TickLaws.{PastStays, PresentIsWhole}, WorkedBooks.{answered, forgotten, nothing, unanswered}};

use crate::store::CHECKPOINT_BYTES;

/// Where no error is answered, the rows after a script are the table with the script's commit made.
pub fn commit_leaves_rows()
    ensures { CommitLeavesRows }
{}

/// Only a script that writes leaves something to commit.
pub fn only_writes_commit()
    ensures { OnlyWritesCommit }
{}

/// In a legal book no more commits are acknowledged than there are.
pub fn acked_is_within()
    ensures { AckedIsWithin }
{}

/// Whatever follows in a book, no commit that was acknowledged is so no longer.
pub fn acked_never_falls()
    ensures { AckedNeverFalls }
{}

/// Whatever follows in a legal book, a redo among it, each number up to the acknowledged one stays what it is.
pub fn acknowledged_stays()
    ensures { AcknowledgedStays }
{}

/// A redo that repeats one of its generation changes nothing.
pub fn repeat_changes_nothing()
    ensures { RepeatChangesNothing }
{}

/// Commits add to the rows no more bytes than they take in the log. So the rows of each number of a history are at most
/// as large as those of the base and all answered commits.
pub fn rows_are_within_needs()
    ensures commits { CommitsAddTheirBytes }
    ensures numbers { RowsAreWithinNeeds }
{}

/// An answer or a release whose tick is still to come changes nothing of the history at a tick.
pub fn past_stays()
    ensures { PastStays }
{}

/// One that is made by that tick brings the whole history up to it.
pub fn present_is_whole()
    ensures { PresentIsWhole }
{}

/// The bytes after a base with which a checkpoint is due are the number of the definition.
pub fn checkpoint_bytes_are_the_number()
    ensures { CHECKPOINT_BYTES ≡ due_bytes }
{}

/// A book of one inserted row is legal. It is no longer where the next redo forgets that row, or where an answer is
/// released that wasn't given.
pub fn worked_books()
    ensures answered { IsLegal nothing answered }
    ensures forgotten { ¬ (IsLegal nothing forgotten) }
    ensures unanswered { ¬ (IsLegal nothing unanswered) }
    ensures length { needs_of answered ≡ 29 }
{}
