//! What holds of every run of the supervisor. Each law is stated in `specs/Laws`, and carried by the function of its name.

ghost use Rattle.pm_supervisor.specs.Laws.{StaysSound, StaysWell, AdmitsWhileWell, AdmitsNoneUntilRedo, RedoEndsOnce, EndsForGood, EndsCleanBehindACheckpoint, KeepsWhatIsShared, TakesChildStepsBetween};

/// What is shared with the children stays sound: pids differ, every child is of the present generation, a generation is
/// open only once its data are up to date, and a session is attached only in a generation that has been open.
pub fn stays_sound()
    ensures { StaysSound }
{}

/// What holds at every moment, one step at a time: at the beginning, and after each event that may happen.
pub fn stays_well()
    ensures { StaysWell }
{}

/// A connection is decided to become a session only where no crash is noted, no shutdown was asked for, no child was told
/// to end at once and the generation is open: never between the noticing of a crash and the end of the recovery from it.
pub fn admits_while_well()
    ensures { AdmitsWhileWell }
{}

/// From the noticing of a crash until redo has ended no session is admitted: no connection is decided to become one, and
/// none attaches.
pub fn admits_none_until_redo()
    ensures { AdmitsNoneUntilRedo }
{}

/// Redo ends once in a generation.
pub fn redo_ends_once()
    ensures { RedoEndsOnce }
{}

/// A supervisor that has ended takes no step.
pub fn ends_for_good()
    ensures { EndsForGood }
{}

/// A clean end after a smart or fast request has had its last checkpoint, in the same generation.
pub fn ends_clean_behind_a_checkpoint()
    ensures { EndsCleanBehindACheckpoint }
{}

/// What is shared with the children, by its own events alone: so that it also holds of a board that shows no more than that.
pub fn keeps_what_is_shared()
    ensures { KeepsWhatIsShared }
{}

/// A child attaches, uses what is shared or detaches whenever it may, also between the events of one call of the state
/// machine: the run stays one, and leaves the same but for who is attached.
pub fn takes_child_steps_between()
    ensures { TakesChildStepsBetween }
{}
