//! The laws on which a supervisor at work stands.

ghost use Rattle.pm_state.specs.{pm_supervisor.Laws.TakesChildStepsBetween, Laws.{KeepsItsFacts, StaysInStep, TellsOfEachStart, WritesALegalJournal}};
ghost use Rattle.pm_supervisor_journal.specs.Laws.{GoesOnOverItsJournal, KeepsALegalJournal, NotesWhatIsDue};

use pm_state::{keeps_its_facts, stays_in_step, tells_of_each_start, writes_a_legal_journal};
use pm_supervisor::takes_child_steps_between;

// The machine, its journal and the supervisor.
pub(crate) fn laws()
    ensures steps { StaysInStep }
    ensures journal { WritesALegalJournal }
    ensures starts { TellsOfEachStart }
    ensures facts { KeepsItsFacts }
    ensures between { TakesChildStepsBetween }
{
    stays_in_step();
    writes_a_legal_journal();
    tells_of_each_start();
    keeps_its_facts();
    takes_child_steps_between();
}

/// Where a supervisor at work stands, its journal is legal at every moment; it is legal by a clock that gives its moments. Where
/// nothing is due, journal, machine and supervisor are in step. A step of a child leaves all that stands.
pub fn keeps_a_legal_journal()
    ensures { KeepsALegalJournal }
{
    stays_in_step();
}

/// Each act notes the first of the entries that are due, so that a call and its acts write what the journal's definition has for
/// them.
pub fn notes_what_is_due()
    ensures { NotesWhatIsDue }
{
    writes_a_legal_journal();
}

/// Where a supervisor at work stands over a given journal, each call, each tick and kill among them, and each act leaves it over
/// that journal and their entries, whether the journal is told or not.
pub fn goes_on_over_its_journal()
    ensures { GoesOnOverItsJournal }
{
    laws();
}
