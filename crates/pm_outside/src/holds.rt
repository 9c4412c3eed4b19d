// Where a script waits for what others see.
ghost use Rattle.std.specs.Prelude.{◌≡◌, ◌≢◌, ◌⊎◌, ◌+◌, ◌<◌, ◌≤◌, [], true, false, min};
ghost use Rattle.pm_outside.specs.Holds.{IsFree, LetsGo, first_place, holds_left};

use crate::scene::{Cue, Scene};
use std::collections::VecDeque;

/// From this place of a link's bytes, or of a port's links, on none is given before the cue has come.
#[derive(Clone, Copy, Debug, PartialEq, Eq)]
pub struct Hold {
    pub at: usize,
    pub cue: Cue,
}

// How often a script is asked in vain, and then it goes no further.
pub(crate) const MOST_ASKS: u64 = 10_000;

/// The holds of a script, in the order of their places.
#[derive(Drop)]
pub(crate) struct Holds {
    left: VecDeque<Hold>,
    asks: u64,
    scene: Option<Scene>,
}

impl Holds {
    /// These holds. Without a scene no cue comes.
    pub(crate) fn new(holds: Vec<Hold>, scene: Option<Scene>) -> Holds
        ensures left { holds_left result ≡ holds.items }
        ensures asks { result.asks ≡ 0 }
    {
        Holds {
            left: VecDeque::from(holds),
            asks: 0,
            scene,
        }
    }

    /// Where its object notes what it has seen.
    pub(crate) fn scene(&self) -> Option<&Scene> {
        self.scene.as_ref()
    }

    /// Lets the first hold go where its cue has come, and tells up to which place bytes may be given.
    pub(crate) fn next(&mut self, end: usize) -> usize
        ensures lets_go { LetsGo (holds_left self.old) (holds_left self.new) }
        ensures asks { self.old.asks ≡ self.new.asks }
        ensures place { result ≡ min (first_place (holds_left self.new) end) end }
    {
        self.let_go();
        match self.left.front() {
            Some(hold) => hold.at.min(end),
            None => end,
        }
    }

    /// Lets the first hold go where its cue has come, and tells whether nothing may be given from this place on.
    pub(crate) fn hold_back(&mut self, place: usize) -> bool
        ensures lets_go { LetsGo (holds_left self.old) (holds_left self.new) }
        ensures asks { self.old.asks ≡ self.new.asks }
        ensures held { result ≡ true → holds_left self.new ≢ [] }
        ensures free { result ≡ false → IsFree (holds_left self.new) place }
    {
        self.let_go();
        match self.left.front() {
            Some(hold) => hold.at <= place,
            None => false,
        }
    }

    // Lets the first hold go where its cue has come.
    fn let_go(&mut self)
        ensures lets_go { LetsGo (holds_left self.old) (holds_left self.new) }
        ensures asks { self.old.asks ≡ self.new.asks }
    {
        let Some(hold) = self.left.front() else {
            return;
        };
        let Some(scene) = &self.scene else {
            return;
        };
        if scene.has_come(hold.cue) {
            self.left.pop_front();
        }
    }

    /// Asks once more: whether a hold stands, and wasn't asked for 10,000 times. Where it was, the script goes no
    /// further, and no hold is left.
    pub(crate) fn waits(&mut self) -> bool
        ensures held { result ≡ true → (holds_left self.old ≢ []) × (self.old.asks < 10000) }
        ensures keeps { result ≡ true → holds_left self.new ≡ holds_left self.old }
        ensures counted { result ≡ true → self.new.asks ≡ self.old.asks + 1 }
        ensures free { result ≡ false → (holds_left self.old ≡ []) ⊎ (10000 ≤ self.old.asks) }
        ensures gone { result ≡ false → holds_left self.new ≡ [] }
    {
        if !self.left.is_empty() && self.asks < MOST_ASKS {
            self.asks += 1;
            return true;
        }
        self.left.clear();
        false
    }
}
