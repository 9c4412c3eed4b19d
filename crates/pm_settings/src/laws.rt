//! Laws of session statements, for the layers above.
ghost use Rattle.pm_settings.specs.Laws.{EachByItself, NoScript, OneReading};

/// A text stands for one list of session statements at most.
pub fn one_reading()
    ensures { OneReading }
{}

/// A text that stands for session statements spells no script.
pub fn no_script()
    ensures { NoScript }
{}

/// What is told of a setting is its value, and the other settings keep theirs.
pub fn each_by_itself()
    ensures { EachByItself }
{}
