//! The life of a child that runs on a post.
ghost use Rattle.std.specs.Prelude.{◌≡◌, Some, None, Option};
ghost use Rattle.pm_board.specs.{pm_board_words.declared.views.{Work.TheVariants.Inactive, Offer.Offer}, Rule.no_signals};
ghost use Rattle.pm_board_life.specs.Lives.{Beginning, LifeModel, LivesAs, GoesOnFrom, IsLiving, beginning};

use pm_board::{Letter, Post};
use pm_child_life::{Cancelled, GateNo, Life, Seat, Signals};
use pm_gate::Attached;
use std::marker::{Brand, Model, PhantomData};

/// What a post knew when its child was started, and the seed of the server's keys. Each call that runs a child picks it.
pub trait Begun<D> {
    ghost begun: { Option (Beginning D) };
}

impl<D> Begun<D> for Brand {
    ghost begun = { None };
}

/// The life of the child that runs on a post. It holds the post until `into_post` gives it back.
pub struct PostLife<J: Letter + Drop, K: Begun<J::Told>> {
    post: Post<J>,
    seed: [u8; 32],
    pid: u32,
    attached: Option<Attached>,
    /// Pid and key of the cancel that it asked for, if it did.
    cancel: Option<(u32, u32)>,
    of: PhantomData<K>,
}

impl<J: Letter + Drop, K: Begun<J::Told>> Model for PostLife<J, K> {
    ghost Value = { LifeModel J.Told };

    ghost view = { λ l. record { post = l.post; seed = l.seed; cancel = l.cancel } };

    ghost invariant = { λ l. LivesAs l.pid l.attached l.post.knows.work
        × GoesOnFrom K.begun (record { post = l.post; seed = l.seed; cancel = l.cancel }) };
}

impl<J: Letter + Drop, K: Begun<J::Told>> PostLife<J, K> {
    /// The life of a child that has just been started. Cancels are judged by the seed of the server's keys.
    pub fn new(post: Post<J>, pid: u32, seed: [u8; 32]) -> PostLife<J, K>
        requires runs { (o : Offer J.Told) × (post.knows.work ≡ Inactive o) × (o.pid ≡ pid) }
        requires untold { post.knows.notes.now ≡ no_signals }
        requires begun { K.begun ≡ Some (beginning post seed) }
        ensures { result ≡ record { post = post; seed = seed; cancel = None } }
    {
        PostLife {
            post,
            seed,
            pid,
            attached: None,
            cancel: None,
            of: PhantomData,
        }
    }

    /// The post. The same child runs on it still, outside the gate or attached.
    pub fn into_post(self) -> Post<J>
        ensures post { result ≡ self.post }
        ensures same { GoesOnFrom K.begun self }
        ensures living { IsLiving result.knows.work }
    {
        let PostLife {
            post,
            seed: _,
            pid: _,
            attached: _,
            cancel: _,
            of: _,
        } = self;
        post
    }
}

impl<J: Letter + Drop, K: Begun<J::Told>> Seat for PostLife<J, K> {
    ghost use Rattle.std.specs.Prelude.{Some};
    ghost use Rattle.pm_board.specs.pm_child_life.Life.{HasNoStore};
    ghost use Rattle.pm_board_life.specs.Lives.{child_by, told_by};

    ghost child = { λ l. child_by l.post.knows.work };

    ghost told = { λ l. Some (told_by l.post.knows.notes.now l.cancel) };

    ghost rests = { HasNoStore };
}

impl<J: Letter + Drop, K: Begun<J::Told>> Life for PostLife<J, K> {
    fn pid(&self) -> u32 {
        self.pid
    }

    fn signals(&mut self) -> Signals {
        pm_latch::take(&mut self.post)
    }

    fn attach(&mut self, is_ordinary: bool) -> Result<u32, GateNo> {
        let token = pm_gate::attach(&mut self.post, is_ordinary)?;
        let generation = token.generation;
        self.attached = Some(token);
        Ok(generation)
    }

    fn detach(&mut self) {
        let Some(token) = self.attached.take() else {
            unreachable!()
        };
        pm_gate::detach(&mut self.post, token);
    }

    fn cancel(&mut self, pid: u32, key: u32) -> Cancelled {
        self.cancel = Some((pid, key));
        pm_latch::cancel(&mut self.post, &self.seed, pid, key)
    }

    ghost stands_still = { λ life. tt };

    ghost rests_on = { λ before between now one two. tt };
}
