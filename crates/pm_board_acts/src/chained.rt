//! What follows once the workers were joined.

ghost use Rattle.pm_board_acts.specs.Laws.{CallsLeaveTheGate, CallsMayBeDone, EndsOfTheJournalAreRuns, LinesMayAskForNothing};

use pm_board::Letter;

/// Each end that the journal tells of is that of a run of a worker.
pub fn ends_are_runs<M: Letter>()
    ensures { EndsOfTheJournalAreRuns M.Told }
{}

/// The acts that a call of the machine asks for may be done at the board, one after the other.
pub fn calls_may_be_done()
    ensures { CallsMayBeDone }
{}

/// And after them the gate is as the supervisor has it after the call.
pub fn calls_leave_the_gate()
    ensures { CallsLeaveTheGate }
{}

/// A line of the console that asks for nothing is read, and nothing else happens.
pub fn lines_may_ask_for_nothing<M: Letter>()
    ensures { LinesMayAskForNothing M.Told }
{}
