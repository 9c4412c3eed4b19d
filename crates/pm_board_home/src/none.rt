//! The home of a board with nothing there.
use crate::home::Home;

/// Nothing. The word of this home is never 0, so that nobody takes it.
#[derive(Drop)]
pub struct NoHome;

impl Home for NoHome {
    // whether the seat is the supervisor's
    type Knows = bool;

    ghost use Rattle.std.specs.Prelude.{true, false};
    ghost use Rattle.pm_board_home.specs.Nothing as nothing;
    ghost use Rattle.pm_board_home.specs.NothingLaws as laws;

    ghost rule = { nothing.IsOut };

    ghost begins = { 1 };

    ghost first = { true };

    ghost founding = { true };

    ghost has = { λ _. false };

    ghost leads = { λ leads. leads };

    ghost lends = { λ _. false };

    ghost numbered = { λ _ _. Unit {0} };

    ghost stamp = { λ _. 0 };

    ghost stamp_of = { λ _. 1 };

    ghost takes = { λ _ _ _. ⊥ };

    ghost gives = { λ _ _ _. ⊥ };

    ghost joins = { λ _ _. Unit {0} };

    ghost dealt = { λ leads. leads };

    ghost next = { λ _. false };

    ghost taken_in = { λ leads _. leads };

    ghost spent = { false };

    fn generation(&self) -> u32 {
        1
    }

    ghost opens = { laws.opens };

    ghost starts = { laws.starts };

    ghost founds = { laws.founds };

    ghost founded = { laws.founded };

    ghost alone = { laws.alone };

    ghost at_home = { laws.at_home };

    ghost out = { laws.out };

    ghost take = { laws.take };

    ghost taken = { laws.taken };

    ghost taken_number = { laws.taken_number };

    ghost taken_stamp = { laws.taken_stamp };

    ghost give = { laws.give };

    ghost given = { laws.given };

    ghost given_number = { laws.given_number };

    ghost given_stamp = { laws.given_stamp };

    ghost deal = { laws.deal };

    ghost dealt_as = { laws.dealt_as };

    ghost dealt_number = { laws.dealt_number };

    ghost gather = { laws.gather };

    ghost gathered_as = { laws.gathered_as };

    ghost gathered_number = { laws.gathered_number };
}
