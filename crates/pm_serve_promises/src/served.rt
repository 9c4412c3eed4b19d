//! A whole run of a server of many connections, with what a user counts on.

ghost use Rattle.std.specs.Prelude.{◌≡◌, ◌≤◌, ◌+◌, [], IfSome, option_map};
ghost use Rattle.pm_state.specs.pm_supervisor.Limits.{IsWithinLimits};
ghost use Rattle.pm_postmaster.specs.{pm_outside.Visits.no_visits, Outside.serve_view};
ghost use Rattle.pm_serve_promises.specs.PromisedServe.{IsPromisedServe};

use pm_disk::Disk;
use pm_outside::{Chronicle, Clock, Console, Link, Port, Sink};
use pm_postmaster::{Served, supervise};
use pm_query::{BookEntry, acked_never_falls};
use pm_server::{Conf, Outside};
use pm_session_answers::{own_entries_stand, replies_are_right};
use pm_spawn::Spawner;
use pm_state::{PmEvent, restarts_safely};
use pm_supervisor_crashes::ends_for_cause;
use std::alloc::Global;
use std::sync::Wait;
use std::thread::Threads;

/// Runs the server of many connections over the disk until it ends, as `pm_postmaster` does. What it is handed is new.
pub fn serve_as_promised<S, R, L, P, K, O, D, C, J, B>(
    spawner: &mut S,
    rt: R,
    alloc: Global,
    conf: &Conf,
    outside: Outside<P, O, D, C, J, B>,
    console: K,
) -> Served<L, P, K, O, D, C, J, B>
where
    S: Spawner<Runtime = R>,
    R: Threads + Wait + Copy + Drop + Send + 'static,
    L: Link + Drop + Send + 'static,
    P: Port<Link = L>,
    K: Console,
    O: Sink,
    D: Disk + Drop + Send + 'static,
    C: Clock + Drop + Send + 'static,
    J: Chronicle<PmEvent>,
    B: Chronicle<BookEntry> + Drop + Send + 'static,
    requires some { 1 ≤ conf.now.limits.max_connections + conf.now.limits.max_worker_processes }
    requires within { IsWithinLimits conf.now.limits }
    requires journal { IfSome (J.entries outside.journal) (λ entries. entries ≡ []) }
    requires book { IfSome (B.entries outside.book) (λ entries. entries ≡ []) }
    requires port { IfSome (P.visits outside.port) (λ visits. visits ≡ no_visits) }
    requires console { IfSome (K.lines console) (λ lines. lines ≡ []) }
    ensures run { IsPromisedServe conf.now result.end
        (option_map (λ roster. roster.knows) result.board)
        (serve_view K.Console (S.faults spawner.old) outside console)
        (serve_view K.Console (S.faults spawner.new) result.outside result.console) }
    ensures rest { (result.outside.clock ≡ outside.clock)
        × (result.outside.seed ≡ outside.seed) }
{
    replies_are_right();
    own_entries_stand();
    acked_never_falls();
    restarts_safely();
    ends_for_cause();
    supervise(spawner, rt, alloc, conf, outside, console)
}
