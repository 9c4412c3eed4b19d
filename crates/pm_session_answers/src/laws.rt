//! The laws of replies. Their contracts are the laws.

ghost use Rattle.pm_session_answers.specs.Laws.{OwnEntriesStand, RepliesAreRight};

use pm_query::{acked_is_within, acked_never_falls, acknowledged_stays};

/// A session whose entries stand in a legal book, none of its child between them, was sent right replies alone.
pub fn replies_are_right()
    ensures { RepliesAreRight }
{
    acknowledged_stays();
    acked_never_falls();
    acked_is_within();
}

/// All entries of a child stand in the book, none of it between them.
pub fn own_entries_stand()
    ensures { OwnEntriesStand }
{}
