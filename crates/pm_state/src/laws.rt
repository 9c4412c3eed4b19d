//! What holds of every list of calls. Each law is stated in `specs/Laws`, and carried by the function of its name.

ghost use Rattle.pm_state.specs.{WorkedRestarts.WorkedRestarts, Laws.{ShowsASupervisor, KeepsItsFacts, TellsOfEachStart, WritesALegalJournal, StaysInStep, RestartsSafely, KeepsItsPromises}};

use pm_supervisor::{keeps_what_is_shared, stays_sound, stays_well, takes_child_steps_between};

/// Whatever happens, in whatever order, as long as each call is made where it may be: what the machine does is a run of
/// the supervisor, and after it the machine shows the supervisor that this run leaves, whose children and generation are
/// sound. As this holds of every list, it holds at every moment of each.
pub fn shows_a_supervisor()
    ensures { ShowsASupervisor }
{
    stays_sound();
    stays_well();
}

/// One call at a time: what holds at the beginning, and what each call keeps. A call that may be made is a run of the
/// supervisor, from any moment at which these facts hold, also with steps of children between its events.
pub fn keeps_its_facts()
    ensures { KeepsItsFacts }
{
    stays_well();
    takes_child_steps_between();
}

/// The actions of a call are at most four. They tell of each start that is due after it, each once, and of the end of the
/// server: so a caller that reports each start it does, as it does it, may make its next call, unless it was told that the
/// server ends.
pub fn tells_of_each_start()
    ensures { TellsOfEachStart }
{}

/// What the calls write, done and reported in their order, is a legal journal, from any place at which journal and machine
/// agree: and after it they agree again.
pub fn writes_a_legal_journal()
    ensures { WritesALegalJournal }
{}

/// Journal, machine and supervisor stay in step, one call of a server at a time: what the call writes is legal, its events
/// and the starts that it asks for are a run of the supervisor, and after them the journal leaves the machine and, but for
/// who is attached, what the supervisor shares.
pub fn stays_in_step()
    ensures { StaysInStep }
{
    stays_well();
    keeps_what_is_shared();
    takes_child_steps_between();
}

/// In any legal journal no connection is accepted as a session from an abnormal end of a child until redo has ended, a next
/// generation begins only with no child left, and the server starts again after a crash, or ends for want of it, as the options
/// say. At every entry the machine counts the children that are there.
pub fn restarts_safely()
    ensures { RestartsSafely }
{}

/// What the definitions of restarts refuse, and what they let pass, at four short journals.
pub fn worked_restarts()
    ensures { WorkedRestarts }
{}

/// What is told to end at once has five seconds: the moment is set by every Quit, by an abnormal exit, that of a startup child
/// too, and by an immediate request, stays until children are killed or none is left, and whoever is left five seconds after it
/// is killed. Sessions that are to end are told to, and the last checkpoint is asked for where it is waited for. Connections are
/// served after a redo only after Ready, which comes before the starts that come with it.
pub fn keeps_its_promises()
    ensures { KeepsItsPromises }
{}
