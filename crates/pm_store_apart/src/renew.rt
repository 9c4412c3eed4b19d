//! From one generation to the next.

ghost use Rattle.std.specs.Prelude.{◌≡◌, ◌+◌, ◌≤◌, length, map};
ghost use Rattle.pm_query.specs.declared.book.BookEntry.TheVariants.{Gone};
ghost use Rattle.pm_outside.specs.Added.{Added};

use crate::apart::Apart;
use crate::children::Children;
use crate::history::history_laws;
use pm_disk::Disk;
use pm_outside::Chronicle;
use pm_query::BookEntry;
use pm_rows::Rows;
use pm_stage::Stage;
use std::alloc::AllocError;

impl<D: Disk, B: Chronicle<BookEntry>> Apart<D, B> {
    ghost use Rattle.std.specs.Prelude.{◌++◌, ◌∷◌, [], ℕ, List, OnOk, OnErr};
    ghost use Rattle.pm_query.specs.declared.book.BookEntry.TheVariants.{Opened};
    ghost use Rattle.pm_store_apart.specs.{Children.AreOthers, Apart.RenewsOn, Lending.IsHome, Moment.{alone, over_as}, Moves.IsAsBefore, Rests.IsAtRest, declared.commits.Commits.{Commits}};

    /// The same of all that a store has but for its disk. It is home meanwhile.
    pub fn renew(&mut self, generation: u32, gone: &[u32]) -> Result<(), AllocError>
        requires next { generation ≡ (alone self.old).generation + 1 }
        requires home { IsHome self.old }
        ensures renews { OnOk result ((others : List ℕ)
            × AreOthers (alone self.old).inside gone.now others
            × RenewsOn (map Gone (gone.now ++ others) ++ Opened generation ∷ [])
            self.old self.new) }
        ensures refused { OnErr result ((ways : Commits) (disk : D)
            → IsAsBefore (over_as ways disk self.old) (over_as ways disk self.new)) }
        ensures room { OnErr result (B.spare self.old.book ≤ B.spare self.new.book) }
        ensures unstaged { OnOk result (self.new.stage.commits ≡ []) }
        ensures home { IsHome self.new }
        ensures rests { (disk : D) → IsAtRest disk self.old → IsAtRest disk self.new }
    {
        history_laws();
        let others = self.inside.others(self.alloc, gone)?;
        let named = gone.len().checked_add(others.len()).ok_or(AllocError)?;
        self.book.reserve(named.checked_add(1).ok_or(AllocError)?)?;
        note_gone(&mut self.book, gone);
        note_gone(&mut self.book, &others);
        self.book.note(BookEntry::Opened { generation });
        self.generation = generation;
        self.inside = Children::new(self.alloc);
        self.live = None;
        self.skipped = false;
        self.rows = Rows::new(self.alloc);
        self.stage = Stage::new(self.alloc, 0);
        Ok(())
    }
}

// Notes that each of these children is gone.
fn note_gone<B: Chronicle<BookEntry>>(book: &mut B, pids: &[u32])
    requires { length pids.now ≤ B.spare book.old }
    ensures entries { Added (map Gone pids.now) (B.entries book.old) (B.entries book.new) }
    ensures room { B.spare book.new + length pids.now ≡ B.spare book.old }
{
    for at in 0..pids.len() {
        book.note(BookEntry::Gone { pid: pids[at] });
    }
}
