//! A store and a life as a child has them that is alone with the store: the startup child, or the checkpointer at a shutdown.

ghost use Rattle.std.{specs.Prelude.{◌≡◌, [], Some}, proofs.Common.{◌∙◌, ap, refl, subst, sym}};
ghost use Rattle.pm_segment.specs.{Moment.moment, Passes.{Admits, view_of}};
ghost use Rattle.pm_once_children.specs.{Alone.{Does, made_by, redone_by}, AloneLaws.{does_nothing, does_on, meets, stays_in}};

use pm_child_life::{Cancelled, GateNo, Life, Seat, Signals};
use pm_disk::Disk;
use pm_outside::Chronicle;
use pm_query::{BookEntry, Checkpointed, Seen, Staged, Store, StoreNo};
use pm_record::RedoFault;
use pm_segment::{Pass, Sole};
use pm_sql::Script;

/// The one piece of work that the child is there for, and what it came to.
#[derive(Clone, Copy, Debug)]
pub enum Work {
    /// The log is to be read.
    ToRead,
    /// The log was read, or wasn't to be.
    Redone(Result<u64, StoreNo>),
    /// The last checkpoint is to be made.
    ToClose,
    /// It was made, or wasn't.
    Made(Result<Checkpointed, StoreNo>),
}

impl Work {
    /// What the redo came to of a child that the store refused so, if it did. For one that didn't come in memory was short.
    pub fn redone(self, fault: Option<StoreNo>) -> Result<u64, StoreNo>
        ensures { result ≡ redone_by fault self }
    {
        match (fault, self) {
            (Some(StoreNo::NoMemory), _) => Err(StoreNo::NoMemory),
            (_, Work::Redone(redone)) => redone,
            _ => Err(StoreNo::NoMemory),
        }
    }

    /// What its last checkpoint came to.
    pub fn made(self, fault: Option<StoreNo>) -> Result<Checkpointed, StoreNo>
        ensures { result ≡ made_by fault self }
    {
        match (fault, self) {
            (Some(StoreNo::NoMemory), _) => Err(StoreNo::NoMemory),
            (_, Work::Made(made)) => made,
            _ => Err(StoreNo::NoMemory),
        }
    }
}

/// A child's life, and the store for it alone, which remembers what the child's work came to. A second time that isn't done, and
/// whatever else is asked is refused as for want of memory, with nothing noted. A checkpoint that isn't the last is never due.
#[derive(Drop)]
pub struct Alone<'a, F, D: Disk, B: Chronicle<BookEntry>> {
    pub life: F,
    pub store: &'a mut Sole<D, B>,
    pub work: Work,
}

impl<'a, F: Life, D: Disk, B: Chronicle<BookEntry>> Seat for Alone<'a, F, D, B> {
    ghost child = { λ alone. F.child alone.life };

    ghost told = { λ alone. F.told alone.life };

    ghost rests = { λ before now. (now.store ≡ before.store) × (now.work ≡ before.work) };
}

impl<'a, F: Life, D: Disk, B: Chronicle<BookEntry>> Life for Alone<'a, F, D, B> {
    fn pid(&self) -> u32 {
        self.life.pid()
    }

    fn signals(&mut self) -> Signals {
        self.life.signals()
    }

    fn attach(&mut self, is_ordinary: bool) -> Result<u32, GateNo> {
        self.life.attach(is_ordinary)
    }

    fn detach(&mut self) {
        self.life.detach();
    }

    fn cancel(&mut self, pid: u32, key: u32) -> Cancelled {
        self.life.cancel(pid, key)
    }

    ghost stands_still = { λ alone. (refl, refl) };

    ghost rests_on = { λ before between now one two. (two.0 ∙ one.0, two.1 ∙ one.1) };
}

impl<'a, F: Life, D: Disk, B: Chronicle<BookEntry>> Store for Alone<'a, F, D, B> {
    type Pass = Pass;

    ghost notes = { λ entries before now. (now.store.ghost_name ≡ before.store.ghost_name)
        × Does entries before.work now.work (moment before.store.now) (moment now.store.now) };

    ghost admits = { λ alone pass. Admits pass (moment alone.store.now) };

    ghost view = { view_of };

    ghost stamp = { λ alone. Some (moment alone.store.now).generation };

    ghost met = { λ alone. (moment alone.store.now).generation };

    ghost learned = { λ alone fact. Unit {0} };

    fn enter(&mut self, pid: u32, generation: u32) -> Result<Pass, StoreNo> {
        self.store.enter(pid, generation)
    }

    fn run(&mut self, _pass: &mut Pass, _script: &Script) -> Result<Staged, StoreNo> {
        Err(StoreNo::NoMemory)
    }

    fn seen(&mut self, _pass: &mut Pass, _front: u64) -> Result<Seen, StoreNo> {
        Err(StoreNo::NoMemory)
    }

    fn flush(&mut self, _pass: &mut Pass) -> Result<u64, StoreNo> {
        Err(StoreNo::NoMemory)
    }

    fn redo(&mut self, pass: &mut Pass) -> Result<u64, StoreNo> {
        if !matches!(self.work, Work::ToRead) {
            return Err(StoreNo::Redo(RedoFault::NoMemory));
        }
        let redone = self.store.redo(pass);
        self.work = Work::Redone(redone);
        redone
    }

    fn checkpoint(&mut self, pass: &mut Pass, clean: bool) -> Result<Checkpointed, StoreNo> {
        if !clean {
            return Ok(Checkpointed::NotDue { behind: 0 });
        }
        if !matches!(self.work, Work::ToClose) {
            return Err(StoreNo::NoMemory);
        }
        let made = self.store.checkpoint(pass, true);
        self.work = Work::Made(made);
        made
    }

    fn leave(&mut self, pass: Pass) {
        self.store.leave(pass);
    }

    ghost at_rest = { λ alone. (refl, does_nothing alone.work (moment alone.store.now)) };

    ghost apart = { λ before now same. (
      ap (λ store. store.ghost_name) same.0,
      subst (λ work. Does [] before.work work (moment before.store.now) (moment now.store.now)) (sym same.1)
          (subst (λ store. Does [] before.work before.work (moment before.store.now) (moment store.now)) (sym same.0)
          (does_nothing before.work (moment before.store.now))),
    ) };

    ghost admits_still = { λ before now pass same admits. subst (λ store. Admits pass (moment store.now)) (sym same.0) admits };

    ghost met_still = { λ before now same. ap (λ store. (moment store.now).generation) same.0 };

    ghost in_turn = { λ before between now first second one two. (
      two.0 ∙ one.0,
      does_on first second before.work between.work now.work
          (moment before.store.now) (moment between.store.now) (moment now.store.now) one.1 two.1,
    ) };

    ghost stays = { λ before now entries did.
        stays_in entries before.work now.work (moment before.store.now) (moment now.store.now) did.1 };

    ghost rises = { λ before now entries did.
        meets entries before.work now.work (moment before.store.now) (moment now.store.now) did.1 };

    ghost keeps = { λ before now entries did fact one. one };
}
