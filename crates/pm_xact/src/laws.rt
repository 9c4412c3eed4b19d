//! Laws of what texts ask for.
ghost use Rattle.pm_xact.specs.Laws.{AsksOneThing, BlankRunsNothing};

use pm_sql::one_script;

/// No text asks for two things. So a text that begins or ends a block is no script.
pub fn asks_one_thing()
    ensures { AsksOneThing }
{
    one_script();
}

/// A text without a token, or of semicolons alone, asks for the script of no statement.
pub fn blank_runs_nothing()
    ensures { BlankRunsNothing }
{}
