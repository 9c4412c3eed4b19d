//! How a child lets time pass between two calls of the store.
ghost use Rattle.std.specs.Prelude.{◌≡◌};
ghost use Rattle.pm_child_life.specs.Attention.{attention, IsAttentive};
ghost use Rattle.pm_aux.specs.Signals.{Listens};

use pm_child_life::{Life, Standing, listen};
use pm_outside::Clock;

/// Lets a pause pass, and takes the signals after it. How long it is, and what ends it, is the clock's.
pub(crate) fn rest<C: Clock, W: Life>(clock: &C, work: &mut W, standing: &mut Standing)
    requires { IsAttentive (attention (W.told work.old) (W.child work.old) standing.old) }
    ensures listens { Listens 1 (attention (W.told work.old) (W.child work.old) standing.old)
        (attention (W.told work.new) (W.child work.new) standing.new) }
    ensures rests { W.rests work.old work.new }
{
    clock.pause();
    listen(work, standing);
}

/// Lets a moment pass, so that others get the store between two steps of a checkpoint, and takes the signals after it.
pub(crate) fn breathe<C: Clock, W: Life>(clock: &C, work: &mut W, standing: &mut Standing)
    requires { IsAttentive (attention (W.told work.old) (W.child work.old) standing.old) }
    ensures listens { Listens 1 (attention (W.told work.old) (W.child work.old) standing.old)
        (attention (W.told work.new) (W.child work.new) standing.new) }
    ensures rests { W.rests work.old work.new }
{
    clock.pause_briefly();
    listen(work, standing);
}
