//! A supervisor at work with its board, and what it is made of.
ghost use Rattle.std.specs.Prelude.{◌≡◌, ℕ, [], OnOk};
ghost use Rattle.pm_supervisor_journal.specs.{pm_supervisor.declared.Limits.Limits, Supervision.{HasRoom, at_work, standing, told}};
ghost use Rattle.pm_board_acts.specs.Standing.{IsAt, IsUnbegun, view};

use crate::desk::Desk;
use crate::laws::laws;
use crate::mail::Report;
use pm_board::Roster;
use pm_outside::Chronicle;
use pm_state::PmEvent;
use pm_supervisor_journal::Supervision;
use std::alloc::AllocError;

impl<J: Chronicle<PmEvent>, M: Report + Drop> Desk<J, M> {
    /// A supervisor with its board. Before its start it is where no move leads to.
    pub fn new(supervision: Supervision<J>, roster: Roster<M>) -> Self
        ensures supervision { result.supervision ≡ supervision }
        ensures roster { result.roster ≡ roster }
        ensures begins { (limits : Limits) (count : ℕ)
            → IsUnbegun limits count (view (at_work supervision) roster.knows)
            → IsAt limits count [] (view (at_work result.supervision) result.roster.knows) }
    {
        laws();
        Desk {
            supervision,
            roster,
        }
    }

    /// The supervisor and its board, each for itself.
    pub fn into_parts(self) -> (Supervision<J>, Roster<M>)
        ensures supervision { result.0 ≡ self.supervision }
        ensures roster { result.1 ≡ self.roster }
    {
        let Desk {
            supervision,
            roster,
        } = self;
        (supervision, roster)
    }

    /// The supervisor.
    pub fn supervision(&self) -> &Supervision<J>
        ensures { result.now ≡ self.now.supervision }
    {
        &self.supervision
    }

    /// Its side of the board.
    pub fn roster(&self) -> &Roster<M>
        ensures { result.now ≡ self.now.roster }
    {
        &self.roster
    }

    /// Makes room for the next connection, so that it can be admitted whatever memory is left.
    pub fn make_room(&mut self) -> Result<(), AllocError>
        ensures room { OnOk result (HasRoom 1 self.new.supervision) }
        ensures standing { standing self.new.supervision ≡ standing self.old.supervision }
        ensures told { told self.new.supervision ≡ told self.old.supervision }
        ensures roster { self.new.roster ≡ self.old.roster }
    {
        self.supervision.make_room()
    }
}
