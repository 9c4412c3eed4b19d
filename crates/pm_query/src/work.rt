//! A child's life and its store as one value.
ghost use Rattle.std.specs.Prelude.{◌≡◌};

use crate::store::{Checkpointed, Seen, Staged, Stepping, Store, StoreNo};
use pm_child_life::{Cancelled, GateNo, Life, Seat, Signals};
use pm_sql::Script;

/// A child's life, and the store that it works on.
#[derive(Drop)]
pub struct Work<F, S> {
    pub life: F,
    pub store: S,
}

impl<F: Life, S: Store> Seat for Work<F, S> {
    ghost child = { λ work. F.child work.life };

    ghost told = { λ work. F.told work.life };

    ghost rests = { λ before now. now.store ≡ before.store };
}

impl<F: Life, S: Store> Life for Work<F, S> {
    ghost use Rattle.std.proofs.Common.{refl, ◌∙◌};

    fn pid(&self) -> u32 {
        self.life.pid()
    }

    fn signals(&mut self) -> Signals {
        self.life.signals()
    }

    fn attach(&mut self, is_ordinary: bool) -> Result<u32, GateNo> {
        self.life.attach(is_ordinary)
    }

    fn detach(&mut self) {
        self.life.detach();
    }

    fn cancel(&mut self, pid: u32, key: u32) -> Cancelled {
        self.life.cancel(pid, key)
    }

    ghost stands_still = { λ life. refl };

    ghost rests_on = { λ before between now one two. two ∙ one };
}

impl<F: Life, S: Store> Store for Work<F, S> {
    ghost use Rattle.std.proofs.Common.{[], ap, subst, sym};

    type Pass = S::Pass;

    ghost notes = { λ entries before now. S.notes entries before.store now.store };

    ghost admits = { λ work pass. S.admits work.store pass };

    ghost view = { S.view };

    ghost stamp = { λ work. S.stamp work.store };

    ghost met = { λ work. S.met work.store };

    ghost learned = { λ work fact. S.learned work.store fact };

    fn enter(&mut self, pid: u32, generation: u32) -> Result<S::Pass, StoreNo> {
        self.store.enter(pid, generation)
    }

    fn run(&mut self, pass: &mut S::Pass, script: &Script) -> Result<Staged, StoreNo> {
        self.store.run(pass, script)
    }

    fn seen(&mut self, pass: &mut S::Pass, front: u64) -> Result<Seen, StoreNo> {
        self.store.seen(pass, front)
    }

    fn flush(&mut self, pass: &mut S::Pass) -> Result<u64, StoreNo> {
        self.store.flush(pass)
    }

    fn redo(&mut self, pass: &mut S::Pass) -> Result<u64, StoreNo> {
        self.store.redo(pass)
    }

    fn checkpoint(&mut self, pass: &mut S::Pass, clean: bool) -> Result<Checkpointed, StoreNo> {
        self.store.checkpoint(pass, clean)
    }

    fn checkpoint_step(&mut self, pass: &mut S::Pass) -> Result<Stepping, StoreNo> {
        self.store.checkpoint_step(pass)
    }

    fn checkpoint_drop(&mut self, pass: &mut S::Pass) {
        self.store.checkpoint_drop(pass);
    }

    fn leave(&mut self, pass: S::Pass) {
        self.store.leave(pass);
    }

    ghost at_rest = { λ work. S.at_rest work.store };

    ghost apart = { λ before now same. subst (λ store. S.notes [] before.store store) (sym same) (S.at_rest before.store) };

    ghost admits_still = { λ before now pass same admits. subst (λ store. S.admits store pass) (sym same) admits };

    ghost met_still = { λ before now same. ap S.met same };

    ghost in_turn = { λ before between now first second. S.in_turn before.store between.store now.store first second };

    ghost stays = { λ before now entries noted. S.stays before.store now.store entries noted };

    ghost rises = { λ before now entries noted. S.rises before.store now.store entries noted };

    ghost keeps = { λ before now entries noted. S.keeps before.store now.store entries noted };
}
