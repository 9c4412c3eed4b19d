//! The law of ends.
ghost use Rattle.pm_supervisor_crashes.specs.{Laws.EndsForCause, WorkedEnds.WorkedEnds};

use pm_state::restarts_safely;

/// Where nobody asks to kill a child or to stop at once: without a crash a server ends clean, where it ends, and begins no next
/// generation. If what crashes first is a startup child with code 1 it ends as failed at its startup, and if it is a checkpointer
/// with code 1 while the last checkpoint is waited for, it ends after a crash; and nothing is started behind that.
pub fn ends_for_cause()
    ensures { EndsForCause }
{
    restarts_safely();
}

/// Three journals that the law speaks of, one for each of its cases, and one that it would refuse.
pub fn worked_ends()
    ensures { WorkedEnds }
{}
