//! What the promises don't let through.

ghost use Rattle.pm_promises.specs.Laws.{NoneBeyond};

/// No reply is right that shows more than is acknowledged, or less than its session has seen.
pub fn none_is_right_beyond()
    ensures { NoneBeyond }
{}
