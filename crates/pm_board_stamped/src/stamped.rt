//! A value at a board's home that tells nothing but its generation, and the rule of its home.
use pm_board_home::Home;

/// A value of this generation.
#[derive(Drop)]
pub struct Stamped {
    pub stamp: u32,
}

/// What a seat knows of it.
pub enum Known {
    /// The first seat of a new board, before it has the empty slot and then.
    Vacant,
    Founding,
    /// The supervisor's seat: how many others it has made, the value's generation, and whether it has the value.
    Desk(u64, u64, bool),
    /// A worker's: its number, and the generation of the value that it has.
    Hand(u64, Option<u64>),
    Gone,
}

impl Home for Stamped {
    type Knows = Known;

    ghost use Rattle.pm_board_stamped.specs.declared.stamped.Known.TheVariants.{Vacant, Founding, Gone};
    ghost use Rattle.pm_board_stamped.specs.Stamped as home;
    ghost use Rattle.pm_board_stamped.specs.StampedLaws as laws;

    ghost rule = { home.Kept };

    ghost begins = { 0 };

    ghost first = { Vacant };

    ghost founding = { Founding };

    ghost has = { home.has };

    ghost leads = { home.leads };

    ghost lends = { home.lends };

    ghost numbered = { home.IsNumbered };

    ghost stamp = { home.stamp };

    ghost stamp_of = { λ x. x.stamp };

    ghost takes = { home.TakesIt };

    ghost gives = { home.GivesIt };

    ghost joins = { home.MayJoin };

    ghost dealt = { home.dealt };

    ghost next = { home.next };

    ghost taken_in = { λ u _. u };

    ghost spent = { Gone };

    fn generation(&self) -> u32 {
        self.stamp
    }

    ghost opens = { laws.opens };

    ghost starts = { laws.starts };

    ghost founds = { laws.founds };

    ghost founded = { laws.founded };

    ghost alone = { laws.alone };

    ghost at_home = { laws.at_home };

    ghost out = { laws.out_of };

    ghost take = { laws.take };

    ghost taken = { laws.taken };

    ghost taken_number = { laws.taken_number };

    ghost taken_stamp = { laws.taken_stamp };

    ghost give = { laws.give };

    ghost given = { laws.given };

    ghost given_number = { laws.given_number };

    ghost given_stamp = { laws.given_stamp };

    ghost deal = { laws.deal };

    ghost dealt_as = { laws.dealt_as };

    ghost dealt_number = { laws.dealt_number };

    ghost gather = { laws.gather };

    ghost gathered_as = { laws.gathered_as };

    ghost gathered_number = { laws.gathered_number };
}
