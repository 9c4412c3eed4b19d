//! A child that asks a store one thing.
ghost use Rattle.std.specs.Prelude.{◌≡◌, List, IfOk};
ghost use Rattle.pm_query.specs.{declared.book.BookEntry.BookEntry, Calls.{newcomer, user_of}};
ghost use Rattle.pm_rows_tests.specs.Asking.{ReplyNotes, VisitNotes};

use pm_query::{Reply, Seen, Staged, Store, StoreNo};
use pm_sql::Script;

/// The child enters, runs the script, and leaves. It has the reply where that was released.
pub fn ask<S: Store>(
    store: &mut S,
    pid: u32,
    generation: u32,
    script: &Script,
) -> Result<Option<Reply>, StoreNo>
    ensures { (entries : List BookEntry) × S.notes entries store.old store.new
        × VisitNotes (newcomer (S.stamp store.old) pid generation) script.now result entries }
{
    let mut pass = store.enter(pid, generation)?;
    let answer = released(store, &mut pass, script);
    store.leave(pass);
    answer
}

// The reply of a script, where it may be sent.
fn released<S: Store>(
    store: &mut S,
    pass: &mut S::Pass,
    script: &Script,
) -> Result<Option<Reply>, StoreNo>
    requires { S.admits store.old pass.old }
    ensures notes { (entries : List BookEntry) × S.notes entries store.old store.new
        × ReplyNotes (user_of (S.stamp store.old) (S.view pass.old)) script.now result entries }
    ensures admits { S.admits store.new pass.new }
    ensures user { user_of (S.stamp store.new) (S.view pass.new) ≡ user_of (S.stamp store.old)
        (S.view pass.old) }
{
    let Staged {
        reply,
        front,
        wrote: _,
    } = store.run(pass, script)?;
    let seen = match store.seen(pass, front) {
        Ok(seen) => seen,
        Err(refusal) => return Err(refusal),
    };
    match seen {
        Seen::Released => Ok(Some(reply)),
        Seen::NotFlushed { .. } => Ok(None),
    }
}
