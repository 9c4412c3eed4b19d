//! What a child's life and its store have in common.
ghost use Rattle.std.specs.Prelude.{Option};
ghost use Rattle.pm_child_life.specs.Life.{Told, Child};

/// The seat of a child: where it lives and where it works. No call of its life touches its store, and no call of its store
/// touches its life.
pub trait Seat {
    /// Its pid, whether it is a dead-end child, and in which generation it is attached, if it is.
    ghost child: { Self → Child };

    /// What it has asked, was given and met since the child's start. A life that doesn't tell it has none.
    ghost told: { Self → Option Told };

    /// Its store is at both moments the same.
    ghost rests: { Self → Self → Type 0 };
}
