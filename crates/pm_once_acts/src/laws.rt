//! A law of the book of a run.

ghost use Rattle.pm_once_acts.specs.Laws.{OpensOnce};

/// A server whose store was never renewed opened it once: its book has one generation.
pub fn opens_once()
    ensures { OpensOnce }
{}
