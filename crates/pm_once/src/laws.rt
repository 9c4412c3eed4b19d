//! The laws on which a server stands.

ghost use Rattle.pm_supervisor_chain.specs.Laws.{StepsAreChained, StepsGoOn};
ghost use Rattle.pm_supervisor_journal.specs.{Laws.{GoesOnOverItsJournal, KeepsALegalJournal}, pm_state.Laws.RestartsSafely};

use pm_state::restarts_safely;
use pm_supervisor_chain::{steps_are_chained, steps_go_on};
use pm_supervisor_journal::{goes_on_over_its_journal, keeps_a_legal_journal};

// The supervisor at work, its journal, and the steps of journal and book.
pub(crate) fn laws()
    ensures steps { StepsGoOn }
    ensures chained { StepsAreChained }
    ensures work { GoesOnOverItsJournal }
    ensures journal { KeepsALegalJournal }
    ensures restarts { RestartsSafely }
{
    steps_go_on();
    steps_are_chained();
    goes_on_over_its_journal();
    keeps_a_legal_journal();
    restarts_safely();
}
