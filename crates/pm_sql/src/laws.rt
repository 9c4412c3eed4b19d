//! Laws of query texts, for the layers above.
ghost use Rattle.pm_sql.specs.Laws.{OneScript, OneFault, NoFault};

/// A text stands for one script at most.
pub fn one_script()
    ensures { OneScript }
{}

/// A text has one fault at most: its kind and its place are determined.
pub fn one_fault()
    ensures { OneFault }
{}

/// A text that stands for a script has no fault.
pub fn no_fault()
    ensures { NoFault }
{}
