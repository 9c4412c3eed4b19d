//! The end of a pool.
ghost use Rattle.std.specs.Prelude.{◌≡◌, ◌<◌, ℕ, [], List, IfSome};
ghost use Rattle.pm_serve_crew.specs.{pm_query.declared.book.BookEntry.BookEntry, pm_store_shared.Behind.Behind, Left.AreLeft};
ghost use Rattle.pm_serve_pool.specs.{Closing.{HasHadLast, KeepsBoard, MayClose}, Plan.{files_of, manner_of, slots_of}, Pools.IsPool};

use crate::closing::close_all;
use crate::pool::Pool;
use pm_board::Roster;
use pm_disk::Disk;
use pm_outside::{Chronicle, Clock, Link};
use pm_query::BookEntry;
use pm_segment::Segment;
use pm_store_shared::Shared;
use pm_worker::Mail;
use std::sync::Wait;
use std::thread::Threads;

impl<
    R: Threads + Wait + Drop,
    C: Clock + Drop,
    L: Link + Drop,
    D: Disk + Drop,
    B: Chronicle<BookEntry> + Drop,
> Pool<R, C, L, D, B> {
    /// Ends all workers, where nobody sits on the board: each is told to end and joined, the first slot first. The roster has
    /// taken in their posts then, and the store comes out after all that they noted.
    pub fn close(self, rt: &R, roster: &mut Roster<Mail<L>>, shared: Shared<D, B>) -> Segment<D, B>
        requires pool { IsPool C.gives roster.old.table shared.table shared.first self }
        requires board { MayClose (slots_of self.terms.plan) roster.old.knows }
        requires shared { (shared.tokens ≡ slots_of self.terms.plan) × (shared.joined ≡ []) }
        ensures table { roster.new.table ≡ roster.old.table }
        ensures board { KeepsBoard roster.old.knows roster.new.knows }
        ensures limit { roster.new.knows.session_limit ≡ roster.old.knows.session_limit }
        ensures last { (k : ℕ) → k < slots_of self.terms.plan
            → HasHadLast k roster.old.knows roster.new.knows }
        ensures left { IfSome shared.first (λ first. (log : List BookEntry)
            × Behind first log result
            × AreLeft (manner_of C.gives self.terms (files_of D.Disk shared.first))
            (slots_of self.terms.plan) roster.new.knows shared.own log) }
    {
        let Pool { workers, terms } = self;
        let mut shared = shared;
        close_all(rt, &terms, workers, roster, &mut shared);
        shared.into_segment()
    }
}
