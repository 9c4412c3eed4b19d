//! What the definitions say of some journals.
ghost use Rattle.pm_serve_first_crash.specs.WorkedFirsts.{WorkedFirsts};

/// Journals with no crash, one of them of a startup child that gave up for a shutdown; and the first crash of others.
pub fn worked_firsts()
    ensures { WorkedFirsts }
{}
