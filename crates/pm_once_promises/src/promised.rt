//! A whole run of the server, with what a user counts on.

ghost use Rattle.std.specs.Prelude.{◌≡◌, [], IfSome};
ghost use Rattle.pm_state.specs.pm_supervisor.Limits.{IsWithinLimits};
ghost use Rattle.pm_server.specs.Outside.{outside_view};
ghost use Rattle.pm_once_promises.specs.PromisedOnce.{IsPromisedOnce};

use pm_disk::Disk;
use pm_once::{Ended, once};
use pm_outside::{Chronicle, Clock, Port, Sink};
use pm_query::{BookEntry, acked_never_falls};
use pm_server::{Conf, Outside};
use pm_session_answers::replies_are_right;
use pm_state::{PmEvent, restarts_safely};
use std::alloc::Global;
use std::sync::Wait;

/// Runs the server of one connection at a time over the disk until it ends, as `pm_once` does. The journal that it is given
/// has no entries.
pub fn once_as_promised<R, P, O, D, C, J, B>(
    rt: &R,
    alloc: Global,
    conf: &Conf,
    outside: Outside<P, O, D, C, J, B>,
) -> Ended<P, O, D, C, J, B>
where
    R: Wait,
    P: Port,
    O: Sink,
    D: Disk,
    C: Clock,
    J: Chronicle<PmEvent>,
    B: Chronicle<BookEntry>,
    requires within { IsWithinLimits conf.now.limits }
    requires empty { IfSome (J.entries outside.journal) (λ entries. entries ≡ []) }
    ensures run { IsPromisedOnce conf.now result.end (outside_view outside)
        (outside_view result.outside) }
    ensures rest { (result.outside.clock ≡ outside.clock) × (result.outside.seed ≡ outside.seed) }
{
    replies_are_right();
    acked_never_falls();
    restarts_safely();
    once(rt, alloc, conf, outside)
}
