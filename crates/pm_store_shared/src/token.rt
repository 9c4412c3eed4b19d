//! One worker's side of the store.
ghost use Rattle.std.specs.{Prelude.{◌≡◌, ◌⊎◌, ◌∷◌, [], List, None, IfOk, OnErr, All}, Arc.arc_value};
ghost use Rattle.pm_segment.specs.{pm_query.{declared.book.BookEntry.{BookEntry, TheVariants.Detached}, Book.generation_of, Calls.{CheckpointNotes, EnterNotes, FlushNotes, HasReached, IsPast, LearnsFront, LearnsReason, LeaveNotes, MetAnother, MetLater, ReachesNoLess, RedoNotes, RunNotes, SeenNotes, new_pass, newcomer, user_of, with_front}, Limits.HasShortValues}, Passes.view_of};
ghost use Rattle.pm_store_shared.specs.{Grows.Grew, Learned.Learned, Passes.{Among, without_pass}, Told.{IsResting, IsSmall, TokenModel, token_of}};

use crate::holding::{Holder, give, give_unchanged, take, take_for, take_whole_for};
use crate::inner::Inner;
use crate::marking::finish;
use crate::place::Place;
use pm_disk::Disk;
use pm_outside::Chronicle;
use pm_query::{BookEntry, Checkpointed, Seen, Staged, Store, StoreNo};
use pm_segment::{Batch, Lending, Pass};
use pm_sql::Script;
use std::marker::{Brand, Model};
use std::sync::{Arc, Wait};

/// A worker's seat. Between two calls it holds nothing of the store.
#[derive(Drop)]
pub struct Token<D: Disk + Drop, B: Chronicle<BookEntry> + Drop> {
    pub(crate) inner: Arc<Inner<D, B>>,
    pub(crate) seat: Holder<D, B>,
    pub(crate) number: u32,
}

impl<D: Disk + Drop, B: Chronicle<BookEntry> + Drop> Model for Token<D, B> {
    ghost Value = { TokenModel D };

    ghost view = { λ t. token_of t.seat.table_id t.number t.seat.me.0 };

    ghost invariant = { λ t. ((arc_value t.inner).table.shared.table_id ≡ t.seat.table_id) × IsSmall t.seat.table_id
        × IsResting t.number t.seat.me };
}

impl<D: Disk + Drop, B: Chronicle<BookEntry> + Drop> Token<D, B> {
    /// Whether the log is due for a checkpoint and nobody was told before.
    pub(crate) fn is_told_due(&self) -> bool {
        self.inner.due.tell()
    }

    /// Lets a child in.
    pub fn enter<R: Wait>(&mut self, rt: &R, pid: u32, generation: u32) -> Result<Pass, StoreNo>
        ensures notes { (entries : List BookEntry) × Grew entries self.old self.new
            × EnterNotes (newcomer None pid generation) result entries }
        ensures admits { IfOk result (λ pass. Among pass self.new.passes) }
        ensures view { IfOk result (λ pass. view_of pass ≡ new_pass pid generation) }
        ensures stale { MetAnother (generation_of self.new.past) generation result }
    {
        let mut place = take(rt, &self.inner, &mut self.seat, self.number);
        let result = place.apart.enter(pid, generation);
        let pass = Pass {
            pid,
            generation,
            front: None,
        };
        give::<Brand, D, B, (), Result<Pass, StoreNo>>(
            &self.inner,
            &mut self.seat,
            place,
            pass,
            pass,
            &(),
            &result,
        );
        result
    }

    /// Runs a script.
    pub fn run<R: Wait>(
        &mut self,
        rt: &R,
        pass: &mut Pass,
        script: &Script,
    ) -> Result<Staged, StoreNo>
        requires { Among pass.old self.old.passes }
        ensures notes { (entries : List BookEntry) × Grew entries self.old self.new
            × RunNotes (user_of None (view_of pass.old)) script.now result entries }
        ensures admits { Among pass.new self.new.passes }
        ensures fresh { IfOk result (λ staged. ReachesNoLess (view_of pass.old) staged.front) }
        ensures view { IfOk result (λ staged. view_of pass.new ≡ with_front staged.front
            (view_of pass.old)) }
        ensures refused { OnErr result (view_of pass.new ≡ view_of pass.old) }
        ensures short { IfOk result (λ staged. All HasShortValues staged.reply) }
        ensures stale { MetLater (generation_of self.new.past) pass.old.generation result }
    {
        let before = *pass;
        let mut place = take_for(rt, &self.inner, &mut self.seat, self.number, &before)?;
        let result = place.apart.run(pass, script);
        give::<Brand, D, B, Script, Result<Staged, StoreNo>>(
            &self.inner,
            &mut self.seat,
            place,
            before,
            *pass,
            script,
            &result,
        );
        result
    }

    /// Whether the answers up to a front may be sent.
    pub fn seen<R: Wait>(&mut self, rt: &R, pass: &mut Pass, front: u64) -> Result<Seen, StoreNo>
        requires admits { Among pass.old self.old.passes }
        requires reached { HasReached (view_of pass.old) front }
        ensures notes { (entries : List BookEntry) × Grew entries self.old self.new
            × SeenNotes (user_of None (view_of pass.old)) front result entries }
        ensures admits { Among pass.new self.new.passes }
        ensures view { view_of pass.new ≡ view_of pass.old }
        ensures stale { MetLater (generation_of self.new.past) pass.old.generation result }
    {
        let before = *pass;
        let mut place = take_for(rt, &self.inner, &mut self.seat, self.number, &before)?;
        let result = place.apart.seen(pass, front);
        give::<Brand, D, B, u64, Result<Seen, StoreNo>>(
            &self.inner,
            &mut self.seat,
            place,
            before,
            *pass,
            &front,
            &result,
        );
        result
    }

    /// Flushes for all that wait, or waits for another token's flush that reaches what this pass has staged. Answers up to where the
    /// log is flushed.
    pub fn flush<R: Wait>(&mut self, rt: &R, pass: &mut Pass) -> Result<u64, StoreNo>
        requires admits { Among pass.old self.old.passes }
        ensures notes { (entries : List BookEntry) × Grew entries self.old self.new
            × FlushNotes (user_of None (view_of pass.old)) result entries }
        ensures admits { Among pass.new self.new.passes }
        ensures view { view_of pass.new ≡ view_of pass.old }
        ensures stale { MetLater (generation_of self.new.past) pass.old.generation result }
        ensures learned { LearnsFront (Learned D.Disk B.Chronicle self.new.first self.new.past)
            result }
    {
        if self.inner.joining.turn(rt, pass.front) {
            return self.flushed_by_store(rt, pass);
        }
        self.flush_store(rt, pass)
    }

    // Up to where the log is flushed, as the store tells it.
    fn flushed_by_store<R: Wait>(&mut self, rt: &R, pass: &Pass) -> Result<u64, StoreNo>
        requires admits { Among pass.now self.old.passes }
        ensures notes { (entries : List BookEntry) × Grew entries self.old self.new
            × FlushNotes (user_of None (view_of pass.now)) result entries }
        ensures admits { Among pass.now self.new.passes }
        ensures stale { MetLater (generation_of self.new.past) pass.now.generation result }
        ensures learned { LearnsFront (Learned D.Disk B.Chronicle self.new.first self.new.past)
            result }
    {
        let place = take_for(rt, &self.inner, &mut self.seat, self.number, pass)?;
        let flushed = place.apart.flushed();
        give_unchanged(&self.inner, &mut self.seat, place);
        flushed.ok_or(StoreNo::NoMemory)
    }

    // Flushes what is staged. The caller leads, and does no longer.
    fn flush_store<R: Wait>(&mut self, rt: &R, pass: &mut Pass) -> Result<u64, StoreNo>
        requires admits { Among pass.old self.old.passes }
        ensures notes { (entries : List BookEntry) × Grew entries self.old self.new
            × FlushNotes (user_of None (view_of pass.old)) result entries }
        ensures admits { Among pass.new self.new.passes }
        ensures view { view_of pass.new ≡ view_of pass.old }
        ensures stale { MetLater (generation_of self.new.past) pass.old.generation result }
        ensures learned { LearnsFront (Learned D.Disk B.Chronicle self.new.first self.new.past)
            result }
    {
        let place = take_whole_for(rt, &self.inner, &mut self.seat, self.number, pass)?;
        let Place {
            mut apart,
            disk,
            making,
        } = place;
        let Some(disk) = disk else { unreachable!() };
        match apart.lend(pass) {
            Lending::Answered(result) => {
                let place = Place {
                    apart,
                    disk: Some(disk),
                    making,
                };
                give::<Brand, D, B, (), Result<u64, StoreNo>>(
                    &self.inner,
                    &mut self.seat,
                    place,
                    *pass,
                    *pass,
                    &(),
                    &result,
                );
                self.inner.joining.end(rt, result.ok());
                result
            }
            Lending::Lent(batch) => {
                let place = Place {
                    apart,
                    disk: None,
                    making,
                };
                give::<Brand, D, B, D, Batch>(
                    &self.inner,
                    &mut self.seat,
                    place,
                    *pass,
                    *pass,
                    &disk,
                    &batch,
                );
                finish(
                    rt,
                    &self.inner,
                    &mut self.seat,
                    self.number,
                    pass,
                    disk,
                    batch,
                )
            }
        }
    }

    /// Reads the log.
    pub fn redo<R: Wait>(&mut self, rt: &R, pass: &mut Pass) -> Result<u64, StoreNo>
        requires admits { Among pass.old self.old.passes }
        ensures notes { (entries : List BookEntry) × Grew entries self.old self.new
            × RedoNotes (user_of None (view_of pass.old)) result entries }
        ensures admits { Among pass.new self.new.passes }
        ensures view { view_of pass.new ≡ view_of pass.old }
        ensures stale { MetLater (generation_of self.new.past) pass.old.generation result }
        ensures learned { LearnsReason (Learned D.Disk B.Chronicle self.new.first self.new.past)
            result }
    {
        let before = *pass;
        self.inner.joining.lead(rt);
        let place = take_whole_for(rt, &self.inner, &mut self.seat, self.number, &before)?;
        let mut store = place.into_store();
        let result = store.redo(pass);
        let place = Place::of(store);
        give::<Brand, D, B, (), Result<u64, StoreNo>>(
            &self.inner,
            &mut self.seat,
            place,
            before,
            *pass,
            &(),
            &result,
        );
        self.inner.joining.end(rt, None);
        result
    }

    /// Writes a checkpoint.
    pub fn checkpoint<R: Wait>(
        &mut self,
        rt: &R,
        pass: &mut Pass,
        clean: bool,
    ) -> Result<Checkpointed, StoreNo>
        requires admits { Among pass.old self.old.passes }
        ensures notes { (entries : List BookEntry) × Grew entries self.old self.new
            × CheckpointNotes (user_of None (view_of pass.old)) clean result entries }
        ensures admits { Among pass.new self.new.passes }
        ensures view { view_of pass.new ≡ view_of pass.old }
        ensures stale { MetLater (generation_of self.new.past) pass.old.generation result }
    {
        let before = *pass;
        self.inner.joining.lead(rt);
        let place = take_whole_for(rt, &self.inner, &mut self.seat, self.number, &before)?;
        let mut store = place.into_store();
        let result = store.checkpoint(pass, clean);
        let place = Place::of(store);
        give::<Brand, D, B, bool, Result<Checkpointed, StoreNo>>(
            &self.inner,
            &mut self.seat,
            place,
            before,
            *pass,
            &clean,
            &result,
        );
        self.inner.joining.end(rt, None);
        result
    }

    /// Lets a child go. Its pass is the token's no longer.
    pub fn leave<R: Wait>(&mut self, rt: &R, pass: Pass)
        requires { Among pass self.old.passes }
        ensures notes { (entries : List BookEntry) × Grew entries self.old self.new
            × LeaveNotes (user_of None (view_of pass)) entries }
        ensures stale { Grew (Detached pass.pid ∷ []) self.old self.new
            ⊎ IsPast (generation_of self.new.past) pass.generation }
        ensures left { self.new.passes ≡ without_pass pass.pid pass.generation self.old.passes }
    {
        let mut place = take(rt, &self.inner, &mut self.seat, self.number);
        if place.apart.generation() != pass.generation {
            give::<Brand, D, B, bool, ()>(
                &self.inner,
                &mut self.seat,
                place,
                pass,
                pass,
                &false,
                &(),
            );
            return;
        }
        place.apart.leave(pass);
        give::<Brand, D, B, bool, ()>(&self.inner, &mut self.seat, place, pass, pass, &true, &());
    }
}
