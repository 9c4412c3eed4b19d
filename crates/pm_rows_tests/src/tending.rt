//! A child that tends a store's log.
ghost use Rattle.std.specs.Prelude.{◌≡◌, List};
ghost use Rattle.pm_query.specs.{declared.book.BookEntry.BookEntry, Calls.{newcomer, user_of}};
ghost use Rattle.pm_rows_tests.specs.Asking.{TendNotes, TendingNotes};

use pm_query::{Checkpointed, Store, StoreNo};

/// What came of it.
#[derive(Clone, Copy, Debug, PartialEq, Eq)]
pub struct Tended {
    /// How many commits stood after the redo.
    pub kept: u64,
    /// How many were flushed before the checkpoint.
    pub flushed: u64,
    pub made: Checkpointed,
}

/// The child enters, reads the log, flushes it, writes a checkpoint, and leaves.
pub fn tend<S: Store>(
    store: &mut S,
    pid: u32,
    generation: u32,
    clean: bool,
) -> Result<Tended, StoreNo>
    ensures { (entries : List BookEntry) × S.notes entries store.old store.new
        × TendingNotes (newcomer (S.stamp store.old) pid generation) clean result entries }
{
    let mut pass = store.enter(pid, generation)?;
    let outcome = keep_up(store, &mut pass, clean);
    store.leave(pass);
    outcome
}

// A redo, a flush and a checkpoint.
fn keep_up<S: Store>(store: &mut S, pass: &mut S::Pass, clean: bool) -> Result<Tended, StoreNo>
    requires { S.admits store.old pass.old }
    ensures notes { (entries : List BookEntry) × S.notes entries store.old store.new
        × TendNotes (user_of (S.stamp store.old) (S.view pass.old)) clean result entries }
    ensures admits { S.admits store.new pass.new }
    ensures user { user_of (S.stamp store.new) (S.view pass.new) ≡ user_of (S.stamp store.old)
        (S.view pass.old) }
{
    let kept = store.redo(pass)?;
    let flushed = match store.flush(pass) {
        Ok(flushed) => flushed,
        Err(refusal) => return Err(refusal),
    };
    let made = match store.checkpoint(pass, clean) {
        Ok(made) => made,
        Err(refusal) => return Err(refusal),
    };
    Ok(Tended {
        kept,
        flushed,
        made,
    })
}
