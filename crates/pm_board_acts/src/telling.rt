//! Signals to the children that sit on a board.
ghost use Rattle.std.specs.Prelude.{◌≡◌, ◌∷◌};
ghost use Rattle.pm_board.specs.pm_board_words.declared.views.RosterStep.TheVariants as step;
ghost use Rattle.pm_board.specs.pm_board_words.GateWords.{MayQuit};
ghost use Rattle.pm_board_acts.specs.{Acts.ShowsNow, Board.{after_steps, seats_of}, Seating.sends, declared.audience.Audience.TheVariants.Everyone};

use crate::audience::Audience;
use crate::meant::is_told;
use crate::seats::seated;
use pm_board::{Letter, Roster, Signal};
use pm_supervisor::Reason;

/// Sends a signal to each child that is meant, by rising slot.
pub fn tell<M: Letter + Drop>(roster: &mut Roster<M>, who: Audience, signal: Signal)
    requires { ShowsNow roster.old.knows (seats_of roster.old.knows) }
    ensures table { roster.new.table ≡ roster.old.table }
    ensures knows { roster.new.knows ≡ after_steps roster.old.knows
        (sends who signal roster.old.knows.generation (seats_of roster.old.knows)) }
{
    for slot in 0..roster.slots() {
        if is_told(who, seated(roster, slot)) {
            pm_latch::send(roster, slot, signal);
        }
    }
}

/// Shuts the gate, and tells every child to end at once, by rising slot.
pub fn quit_all<M: Letter + Drop>(roster: &mut Roster<M>, why: Reason)
    requires shows { ShowsNow roster.old.knows (seats_of roster.old.knows) }
    requires may { MayQuit roster.old.knows.noticed why }
    ensures table { roster.new.table ≡ roster.old.table }
    ensures knows { roster.new.knows ≡ after_steps roster.old.knows
        (step.Quit why roster.old.knows.generation ∷ sends Everyone (Signal.Quit why)
        roster.old.knows.generation (seats_of roster.old.knows)) }
{
    pm_gate::quit(roster, why);
    tell(roster, Audience::Everyone, Signal::Quit(why));
}
