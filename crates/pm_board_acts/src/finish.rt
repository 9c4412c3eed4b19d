//! The end of a supervisor: after its last entry the children that are left are killed and released.
ghost use Rattle.std.specs.Prelude.{◌≡◌, ◌+◌, ◌<◌, ℕ, false, length};
ghost use Rattle.pm_board.specs.pm_board_words.declared.views.Signal.TheVariants as signal;
ghost use Rattle.pm_board_acts.specs.{Acts.ShowsNow, Board.{after_steps, seats_of}, Final.{AreFree, EndsWithNobody, HasFound, KeepsEnding, MayEndAnywhere, is_running}, Seating.sends, declared.audience.Audience.TheVariants.Everyone};

use crate::audience::Audience;
use crate::seats::{reap, seated};
use crate::telling::tell;
use pm_board::{Letter, Released, Roster, Signal};
use pm_supervisor_journal::keeps_a_legal_journal;

/// A supervisor may end at every moment: what it has noted stays all that was noted.
pub fn may_end_anywhere<M: Letter>()
    ensures { MayEndAnywhere M.Told }
{
    keeps_a_legal_journal();
}

/// Once nobody sits anywhere, the board is that of what was noted, and no slot has a child.
pub fn ends_with_nobody<M: Letter>()
    ensures { EndsWithNobody M.Told }
{}

/// Sends one Kill to each child that sits, by rising slot.
pub fn kill_rest<M: Letter + Drop>(roster: &mut Roster<M>)
    requires { ShowsNow roster.old.knows (seats_of roster.old.knows) }
    ensures table { roster.new.table ≡ roster.old.table }
    ensures knows { roster.new.knows ≡ after_steps roster.old.knows
        (sends Everyone signal.Kill roster.old.knows.generation (seats_of roster.old.knows)) }
    ensures slots { roster.new.knows.slots ≡ roster.old.knows.slots }
    ensures ending { KeepsEnding roster.old.knows roster.new.knows }
{
    tell(roster, Audience::Everyone, Signal::Kill);
}

/// What a look at a slot finds after the last entry.
#[derive(Drop)]
pub enum Rest<M> {
    Nobody,
    Running,
    /// The child has ended, and was released.
    Gone(Released<M>),
}

/// Looks at a slot, and releases its child where it has ended. Nothing is noted.
pub fn reap_rest<M: Letter + Drop>(roster: &mut Roster<M>, slot: u32) -> Rest<M>
    requires shows { ShowsNow roster.old.knows (seats_of roster.old.knows) }
    requires slot { slot < length (seats_of roster.old.knows) }
    ensures table { roster.new.table ≡ roster.old.table }
    ensures found { HasFound M.Letter slot result roster.old.knows roster.new.knows }
    ensures ending { KeepsEnding roster.old.knows roster.new.knows }
    ensures count { length roster.new.knows.slots ≡ length roster.old.knows.slots }
    ensures free { (n : ℕ) → AreFree n roster.old.knows → AreFree n roster.new.knows }
    ensures gone { is_running result ≡ false → AreFree slot roster.old.knows
        → AreFree (slot + 1) roster.new.knows }
{
    let Some(child) = seated(roster, slot) else {
        return Rest::Nobody;
    };
    match reap(roster, slot, child) {
        None => Rest::Running,
        Some(released) => Rest::Gone(released),
    }
}
