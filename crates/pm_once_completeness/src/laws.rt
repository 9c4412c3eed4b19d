//! The laws of crashes.
ghost use Rattle.pm_once_completeness.specs.{Crashes.CompletesItsRuns, WorkedCrashes.WorkedCrashes};

use pm_state::restarts_safely;

/// Where each child ended by itself, outside the store, none crashes, none is told to end at once and none is killed, but after
/// a startup child that ended without its redo, or a checkpointer without the last checkpoint. After such a one no other child
/// ends, and the server doesn't end clean.
pub fn completes_its_runs()
    ensures { CompletesItsRuns }
{
    restarts_safely();
}

/// What the definitions of crashes let pass, and what they refuse, at five journals.
pub fn worked_crashes()
    ensures { WorkedCrashes }
{}
