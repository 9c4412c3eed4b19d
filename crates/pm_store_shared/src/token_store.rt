//! A token with leave to wait, which is a store. Its calls tell the writer and the checkpointer what is left to them.
ghost use Rattle.std.{specs.Prelude.{◌≡◌, [], None}, proofs.Common.{refl, ap, subst, sym}};
ghost use Rattle.pm_segment.specs.{Passes.view_of, pm_query.{Book.generation_of, pm_child_life.Life.no_child}};
ghost use Rattle.pm_store_shared.specs.{Grows.Grew, GrowsLaws.{generation_rises, grew_none, grew_on}, Learned.Learned, LearnedLaws.learned_still, Passes.Among};

use crate::token::Token;
use pm_child_life::Seat;
use pm_disk::Disk;
use pm_outside::{Chronicle, Clock};
use pm_query::{BookEntry, Checkpointed, Seen, Staged, Stepping, Store, StoreNo};
use pm_segment::Pass;
use pm_sql::Script;
use pm_store_turns::Caller;
use std::sync::Wait;

/// A token, with the runtime that lets its calls wait, and with what calls the writer and the checkpointer.
#[derive(Drop)]
pub struct TokenStore<R: Wait + Drop, C: Drop, D: Disk + Drop, B: Chronicle<BookEntry> + Drop> {
    pub rt: R,
    pub token: Token<D, B>,
    pub caller: Caller<C>,
}

impl<R: Wait + Drop, C: Clock + Drop, D: Disk + Drop, B: Chronicle<BookEntry> + Drop> Seat
    for TokenStore<R, C, D, B> {
    ghost child = { λ store. no_child };

    ghost told = { λ store. None };

    ghost rests = { λ before now. now.token ≡ before.token };
}

impl<R: Wait + Drop, C: Clock + Drop, D: Disk + Drop, B: Chronicle<BookEntry> + Drop> Store
    for TokenStore<R, C, D, B> {
    type Pass = Pass;

    ghost notes = { λ entries before now. Grew entries before.token now.token };

    ghost admits = { λ store pass. Among pass store.token.passes };

    ghost view = { view_of };

    ghost stamp = { λ store. None };

    ghost met = { λ store. generation_of store.token.past };

    ghost learned = { λ store fact. Learned D.Disk B.Chronicle store.token.first
        store.token.past fact };

    fn enter(&mut self, pid: u32, generation: u32) -> Result<Pass, StoreNo> {
        self.caller.begin();
        self.token.enter(&self.rt, pid, generation)
    }

    fn run(&mut self, pass: &mut Pass, script: &Script) -> Result<Staged, StoreNo> {
        self.token.run(&self.rt, pass, script)
    }

    fn seen(&mut self, pass: &mut Pass, front: u64) -> Result<Seen, StoreNo> {
        let result = self.token.seen(&self.rt, pass, front);
        self.caller.hear(pass.front, flushed_by(front, result));
        result
    }

    fn flush(&mut self, pass: &mut Pass) -> Result<u64, StoreNo> {
        let result = self.token.flush(&self.rt, pass);
        self.caller.hear(pass.front, result);
        if self.token.is_told_due() {
            self.caller.call_checkpointer();
        }
        result
    }

    fn redo(&mut self, pass: &mut Pass) -> Result<u64, StoreNo> {
        self.token.redo(&self.rt, pass)
    }

    fn checkpoint(&mut self, pass: &mut Pass, clean: bool) -> Result<Checkpointed, StoreNo> {
        self.token.checkpoint(&self.rt, pass, clean)
    }

    fn checkpoint_step(&mut self, pass: &mut Pass) -> Result<Stepping, StoreNo> {
        self.token.checkpoint_step(&self.rt, pass)
    }

    fn checkpoint_drop(&mut self, pass: &mut Pass) {
        self.token.checkpoint_drop(&self.rt, pass)
    }

    fn leave(&mut self, pass: Pass) {
        let front = pass.front;
        self.token.leave(&self.rt, pass);
        self.caller.leave(front);
    }

    ghost at_rest = { λ store. grew_none store.token };

    ghost apart = { λ before now same. subst (λ token. Grew [] before.token token) (sym same) (grew_none before.token) };

    ghost admits_still = { λ before now pass same admits. subst (λ token. Among pass token.passes) (sym same) admits };

    ghost met_still = { λ before now same. ap (λ token. generation_of token.past) same };

    ghost in_turn = { λ before between now first second one two. grew_on first second before.token between.token now.token one two };

    ghost stays = { λ before now entries grew. refl };

    ghost rises = { λ before now entries grew. generation_rises before.token.past now.token.past grew.past };

    ghost keeps = { λ before now entries grew. learned_still (record { seen = D.seen; ticks = D.ticks; images = D.images; faults = D.faults })
        (record { entries = B.entries; spare = B.spare }) entries before.token now.token grew };
}

// Up to where the log is flushed at least, by what was answered of a front.
fn flushed_by(front: u64, answer: Result<Seen, StoreNo>) -> Result<u64, StoreNo> {
    match answer {
        Ok(Seen::Released) => Ok(front),
        Ok(Seen::NotFlushed { flushed }) => Ok(flushed),
        Err(no) => Err(no),
    }
}
