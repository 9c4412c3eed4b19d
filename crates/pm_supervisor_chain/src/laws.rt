//! That steps are chained; three worked servers, and four pairs of journal and book that aren't chained.

ghost use Rattle.pm_supervisor_chain.specs.{Chain.IsChained, Laws.{StepsAreChained, StepsGoOn}, WorkedSteps.{Write, clean_steps, crash_steps, failed_steps}, WorkedChains.{clean_book, clean_journal, crash_book, crash_journal, failed_book, failed_journal, miscounted_journal, unlisted_book, twice_book, early_book}};

/// The chain of a server that ran without a crash, of one that went through a crash cycle, and of one whose redo failed.
pub fn worked_chains()
    ensures clean { IsChained clean_journal clean_book }
    ensures crash { IsChained crash_journal crash_book }
    ensures failed { IsChained failed_journal failed_book }
{}

/// The steps of these three servers: each may stand where it does, and their journals are legal.
pub fn worked_steps()
    ensures clean { Write clean_steps clean_journal clean_book }
    ensures crash { Write crash_steps crash_journal crash_book }
    ensures failed { Write failed_steps failed_journal failed_book }
{}

/// No chain holds where redo's end has another number, where a child that crashed isn't gone, where one attaches twice, and where
/// one attaches in a generation before its own.
pub fn broken_chains()
    ensures miscounted { ¬ (IsChained miscounted_journal crash_book) }
    ensures unlisted { ¬ (IsChained crash_journal unlisted_book) }
    ensures twice { ¬ (IsChained crash_journal twice_book) }
    ensures early { ¬ (IsChained crash_journal early_book) }
{}

/// A server that keeps journal and book side by side, step after step: where its journal is legal and each step may stand
/// after those before it, journal and book are chained.
pub fn steps_are_chained()
    ensures { StepsAreChained }
{}

/// One step more: the steps stay steps, and the step adds its entries to journal and book. A run may be one of a child that is
/// there, where the server is in step.
pub fn steps_go_on()
    ensures { StepsGoOn }
{}
