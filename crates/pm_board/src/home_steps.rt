//! The calls at the board's home, where one value may lie that its seats share: one seat has it at a time.
ghost use Rattle.std.specs.Prelude.{◌≡◌, true, false};
ghost use Rattle.pm_board_home.specs.Views.{MayGiveIt};
ghost use Rattle.pm_board.specs.{Models.{IsAttached, HasTakenAttached}, Ties.{HasTakenHome, HasGivenHome}};

use crate::plays::{Silent, Ties, Words};
use crate::post::Post;
use crate::roster::Roster;
use pm_board_home::{Given, Gives, Home, Takes};
use pm_board_words::{Letter, low_half};
use pm_halves::Hand;
use std::sync::Wait;

/// The home's slot, of a post whose child runs.
const OF_POST: Hand = Hand {
    place: 0,
    firsts: 1,
    before: 0,
    after: 0,
};

/// Of the roster, and of a board's first seat.
pub(crate) const OF_ROSTER: Hand = Hand {
    place: 0,
    firsts: 0,
    before: 0,
    after: 0,
};

/// Sleeps while a seat has what lies at the home, by the home's word as this call meets it. It may also return for no reason.
fn sleep<J: Letter + Drop, H: Home + Drop, R: Wait>(rt: &R, words: &Words<J, H>) {
    let home = words.word_count();
    let found = words.peek(home);
    if found != 0 {
        words.park(rt, home, low_half(found));
    }
}

impl<J: Letter + Drop, H: Home + Drop> Post<J, H> {
    /// Whether a seat has what lies at the board's home, at one moment.
    pub fn is_home_out(&self) -> bool {
        self.words.peek(self.words.word_count()) != 0
    }

    /// Waits until what lies at the board's home may be there. It may also return for no reason.
    pub fn wait_home<R: Wait>(&self, rt: &R) {
        sleep(rt, &*self.words);
    }

    /// Wakes one who waits for it.
    pub fn wake_home(&self) {
        self.words.wake_one(self.words.word_count());
    }

    /// Takes what lies at the board's home. It is of the generation in which the post's child is attached. None exactly where
    /// another seat has it, by the home's word as this call meets it.
    pub fn take_home(&mut self) -> Option<H>
        requires attached { IsAttached self.old.knows.work }
        requires free { H.has self.old.home.knows ≡ false }
        ensures table { self.new.table ≡ self.old.table }
        ensures slot { self.new.slot ≡ self.old.slot }
        ensures knows { self.new.knows ≡ self.old.knows }
        ensures taken { HasTakenAttached H.Home self.old.knows.work result self.old.home
            self.new.home }
    {
        let to = self.index as u64 + 1;
        match self
            .words
            .take::<Takes<H>, Ties<J, H>>(&mut self.seat, 0, to, None)
        {
            None => None,
            Some(value) => Some(value.unwrap()),
        }
    }

    /// Gives it back, or another in its place.
    pub fn give_home<C: Given<H::Knows>>(&mut self, home: H)
        requires attached { IsAttached self.old.knows.work }
        requires held { H.has self.old.home.knows ≡ true }
        requires may { MayGiveIt H.gives C.then self.old.home.knows home }
        ensures table { self.new.table ≡ self.old.table }
        ensures slot { self.new.slot ≡ self.old.slot }
        ensures knows { self.new.knows ≡ self.old.knows }
        ensures given { HasGivenHome H.Home C.then home self.old.home self.new.home }
    {
        self.words
            .give::<Gives<H, C>, Silent>(&mut self.seat, OF_POST, Some(home));
    }
}

impl<J: Letter + Drop, H: Home + Drop> Roster<J, H> {
    /// Waits until what lies at the board's home may be there. It may also return for no reason.
    pub fn wait_home<R: Wait>(&self, rt: &R) {
        sleep(rt, &*self.words);
    }

    /// Wakes one who waits for it.
    pub fn wake_home(&self) {
        self.words.wake_one(self.words.word_count());
    }

    /// Takes what lies at the board's home. It is of the gate's generation. None exactly where another seat has it, by the
    /// home's word as this call meets it.
    pub fn take_home(&mut self) -> Option<H>
        requires free { H.has self.old.home.knows ≡ false }
        requires lends { H.lends self.old.home.knows ≡ true }
        ensures table { self.new.table ≡ self.old.table }
        ensures knows { self.new.knows ≡ self.old.knows }
        ensures taken { HasTakenHome H.Home self.old.knows.generation result self.old.home
            self.new.home }
    {
        let to = u64::from(self.dealt) + 1;
        match self
            .words
            .take::<Takes<H>, Ties<J, H>>(&mut self.seat, 0, to, None)
        {
            None => None,
            Some(value) => Some(value.unwrap()),
        }
    }

    /// Gives one back that is of the gate's generation.
    pub fn give_home<C: Given<H::Knows>>(&mut self, home: H)
        requires held { H.has self.old.home.knows ≡ true }
        requires may { MayGiveIt H.gives C.then self.old.home.knows home }
        requires stamp { H.stamp_of home ≡ self.old.knows.generation }
        ensures table { self.new.table ≡ self.old.table }
        ensures knows { self.new.knows ≡ self.old.knows }
        ensures given { HasGivenHome H.Home C.then home self.old.home self.new.home }
        ensures lends { H.lends self.new.home.knows ≡ true }
    {
        self.words
            .give::<Gives<H, C>, Silent>(&mut self.seat, OF_ROSTER, Some(home));
    }
}
