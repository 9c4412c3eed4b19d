//! What a child asks of the store that it works on. No such call touches its life.
ghost use Rattle.std.specs.Prelude.{◌≡◌, All, List, IfOk, OnErr};
ghost use Rattle.pm_query.specs.{declared.book.BookEntry.BookEntry, Calls.{EnterNotes, FlushNotes, HasReached, LeaveNotes, MetAnother, MetLater, RunNotes, SeenNotes, new_pass, newcomer, user_of, with_front}, Limits.HasShortValues};

use crate::ear::Ear;
use crate::line::Line;
use pm_child_life::Life;
use pm_outside::Link;
use pm_query::{Seen, Staged, Store, StoreNo};
use pm_sql::Script;

impl<W: Store + Life> Ear<W> {
    /// As [`Store::enter`].
    pub fn enter(&mut self, pid: u32, generation: u32) -> Result<W::Pass, StoreNo>
        ensures notes { (entries : List BookEntry) × W.notes entries self.old.work self.new.work
            × EnterNotes (newcomer (W.stamp self.old.work) pid generation) result entries }
        ensures admits { IfOk result (λ pass. W.admits self.new.work pass) }
        ensures view { IfOk result (λ pass. W.view pass ≡ new_pass pid generation) }
        ensures stale { MetAnother (W.met self.new.work) generation result }
        ensures child { self.new.child ≡ self.old.child }
    {
        self.work.enter(pid, generation)
    }

    /// As [`Store::run`].
    pub(crate) fn ask_run(&mut self, pass: &mut W::Pass, script: &Script) -> Result<Staged, StoreNo>
        requires { W.admits self.old.work pass.old }
        ensures notes { (entries : List BookEntry) × W.notes entries self.old.work self.new.work
            × RunNotes (user_of (W.stamp self.old.work) (W.view pass.old)) script.now result entries }
        ensures admits { W.admits self.new.work pass.new }
        ensures view { IfOk result (λ staged. W.view pass.new ≡ with_front staged.front
            (W.view pass.old)) }
        ensures refused { OnErr result (W.view pass.new ≡ W.view pass.old) }
        ensures short { IfOk result (λ staged. All HasShortValues staged.reply) }
        ensures stale { MetLater (W.met self.new.work) (W.view pass.old).generation result }
        ensures child { self.new.child ≡ self.old.child }
    {
        self.work.run(pass, script)
    }

    /// As [`Store::seen`].
    pub(crate) fn ask_seen(&mut self, pass: &mut W::Pass, front: u64) -> Result<Seen, StoreNo>
        requires admits { W.admits self.old.work pass.old }
        requires reached { HasReached (W.view pass.old) front }
        ensures notes { (entries : List BookEntry) × W.notes entries self.old.work self.new.work
            × SeenNotes (user_of (W.stamp self.old.work) (W.view pass.old)) front result entries }
        ensures admits { W.admits self.new.work pass.new }
        ensures view { W.view pass.new ≡ W.view pass.old }
        ensures stale { MetLater (W.met self.new.work) (W.view pass.old).generation result }
        ensures child { self.new.child ≡ self.old.child }
    {
        self.work.seen(pass, front)
    }

    /// As [`Store::flush`].
    pub(crate) fn ask_flush(&mut self, pass: &mut W::Pass) -> Result<u64, StoreNo>
        requires { W.admits self.old.work pass.old }
        ensures notes { (entries : List BookEntry) × W.notes entries self.old.work self.new.work
            × FlushNotes (user_of (W.stamp self.old.work) (W.view pass.old)) result entries }
        ensures admits { W.admits self.new.work pass.new }
        ensures view { W.view pass.new ≡ W.view pass.old }
        ensures stale { MetLater (W.met self.new.work) (W.view pass.old).generation result }
        ensures child { self.new.child ≡ self.old.child }
    {
        self.work.flush(pass)
    }

    /// As [`Store::leave`].
    pub fn leave(&mut self, pass: W::Pass)
        requires { W.admits self.old.work pass }
        ensures notes { (entries : List BookEntry) × W.notes entries self.old.work self.new.work
            × LeaveNotes (user_of (W.stamp self.old.work) (W.view pass)) entries }
        ensures child { self.new.child ≡ self.old.child }
    {
        self.work.leave(pass);
    }
}

impl<L: Link, W: Store + Life> Line<L, W> {
    /// As [`Ear::enter`].
    pub fn enter(&mut self, pid: u32, generation: u32) -> Result<W::Pass, StoreNo>
        ensures notes { (entries : List BookEntry) × W.notes entries self.old.work self.new.work
            × EnterNotes (newcomer (W.stamp self.old.work) pid generation) result entries }
        ensures admits { IfOk result (λ pass. W.admits self.new.work pass) }
        ensures view { IfOk result (λ pass. W.view pass ≡ new_pass pid generation) }
        ensures stale { MetAnother (W.met self.new.work) generation result }
        ensures link { self.new.link ≡ self.old.link }
        ensures child { self.new.child ≡ self.old.child }
    {
        self.ear.enter(pid, generation)
    }

    /// As [`Ear::leave`].
    pub fn leave(&mut self, pass: W::Pass)
        requires { W.admits self.old.work pass }
        ensures notes { (entries : List BookEntry) × W.notes entries self.old.work self.new.work
            × LeaveNotes (user_of (W.stamp self.old.work) (W.view pass)) entries }
        ensures link { self.new.link ≡ self.old.link }
        ensures child { self.new.child ≡ self.old.child }
    {
        self.ear.leave(pass);
    }
}
