//! The top call: all that the program does, over the outside that it is handed.

ghost use Rattle.std.specs.Prelude.{◌≡◌, ◌≢◌, ◌+◌, ◌≤◌, ◌++◌, ℕ, [], List, codes, option_map, IfNone, IfSome};
ghost use Rattle.pm_state.specs.pm_supervisor.Limits.{IsWithinLimits};
ghost use Rattle.pm_server.specs.{pm_disk.Cause.Rose, Outside.outside_view, pm_outside.Visits.no_visits, pm_record.declared.fault.RedoFault.RedoFault, declared.conf.Conf.Conf};
ghost use Rattle.pm_postmaster.specs.Outside.{serve_view};
ghost use Rattle.pm_load_run.specs.{pm_redo.Found.IsReason, Worked.HasTold as HasWorked};
ghost use Rattle.pm_top.specs.{Cluster.{HasNewCluster, IsFree, IsLeftAlone, IsTaken, KeepsTaken}, Control.HasTold, Ends.{HasAnswer, HasSaid, IsControldataEnd, IsInitdbEnd, initdb_line, line_of}, Load.IsWorkloadEnd, Once.RunsOnce, Serve.{IsNoServeLine, IsServeLine, IsServer, RunsServe}};
ghost use Rattle.pm_top_words.specs.{Words.{IsLine, IsLineWith}, declared.words.Command.Command};

use crate::alone::run_alone;
use crate::outside::{Ended, Worked};
use crate::status::Top;
use pm_disk::Disk;
use pm_outside::{Chronicle, Clock, Console, Link, Port, Sink};
use pm_postmaster::Served;
use pm_query::BookEntry;
use pm_rows::Text;
use pm_serve_promises::serve_as_promised;
use pm_server::{Conf, Outside};
use pm_spawn::Spawner;
use pm_state::PmEvent;
use pm_top_words::{Command, read_words};
use std::alloc::Global;
use std::sync::Wait;
use std::thread::Threads;
use std::time;

/// Does what the words ask. What it is handed is new: its journal and its book have no entries, its port has given no link, and
/// its console no line. Threads and lines of the console are for `serve` alone.
pub fn run<S, R, L, P, K, O, D, C, J, B>(
    spawner: &mut S,
    rt: R,
    alloc: Global,
    words: &[Text],
    outside: Outside<P, O, D, C, J, B>,
    console: K,
) -> Ended<P, K, O, D, C, J, B>
where
    S: Spawner<Runtime = R>,
    R: Threads + Wait + time::Clock + Copy + Drop + Send + 'static,
    L: Link + Drop + Send + 'static,
    P: Port<Link = L>,
    K: Console,
    O: Sink,
    D: Disk + Drop + Send + 'static,
    C: Clock + Drop + Send + 'static,
    J: Chronicle<PmEvent>,
    B: Chronicle<BookEntry> + Drop + Send + 'static,
    requires journal { IfSome (J.entries outside.journal) (λ entries. entries ≡ []) }
    requires book { IfSome (B.entries outside.book) (λ entries. entries ≡ []) }
    requires port { IfSome (P.visits outside.port) (λ visits. visits ≡ no_visits) }
    requires console { IfSome (K.lines console) (λ lines. lines ≡ []) }
    // The usage is told exactly where the words are no command line. Each command has its own ends.
    ensures usage { result.status ≡ Top.Usage
        → (command : Command) (dir : List ℕ) → ¬ (IsLine words.now command dir) }
    ensures words { result.status ≢ Top.Usage
        → (command : Command) × (dir : List ℕ) × IsLine words.now command dir }
    ensures initdb_ends { (dir : List ℕ) → IsLine words.now Command.Initdb dir
        → IsInitdbEnd result.status }
    ensures controldata_ends { (dir : List ℕ) → IsLine words.now Command.Controldata dir
        → IsControldataEnd result.status }
    // `initdb`: a cluster is made where both files hold none. It is durable, and has no commits.
    ensures made { (dir : List ℕ) → IsLine words.now Command.Initdb dir → HasAnswer result.status
        → HasNewCluster (outside_view result.outside).disk }
    ensures fresh { (dir : List ℕ) → IsLine words.now Command.Initdb dir → HasAnswer result.status
        → IsFree (outside_view outside).disk }
    ensures exists { result.status ≡ Top.Exists → IsTaken (outside_view outside).disk }
    ensures kept { (dir : List ℕ) → IsLine words.now Command.Initdb dir
        → KeepsTaken (outside_view outside).disk (outside_view result.outside).disk }
    ensures disk_fault { result.status ≡ Top.DiskFault
        → Rose (D.faults outside.disk) (D.faults result.outside.disk) }
    ensures out_fault { result.status ≡ Top.OutFault
        → Rose (O.faults outside.sink) (O.faults result.outside.sink) }
    // `once`: a run of the server, by the options of the line, with what a user counts on.
    ensures once { (dir : List ℕ) (conf : Conf) → IsLineWith words.now Command.Once dir conf
        → RunsOnce conf result.status (outside_view outside) (outside_view result.outside) }
    // `serve`: a run of the server of many connections, likewise.
    ensures serve { (port : ℕ) (dir : List ℕ) (conf : Conf)
        → IsLineWith words.now (Command.Serve port) dir conf
        → RunsServe conf result.status (serve_view K.Console (S.faults spawner.old) outside console)
        (serve_view K.Console (S.faults spawner.new) result.outside result.console) }
    // `controldata`: what the files stand for is told, or why they stand for nothing. They stay so.
    ensures told { (dir : List ℕ) → IsLine words.now Command.Controldata dir
        → HasAnswer result.status → HasTold (result.status ≡ Top.OutFault)
        (outside_view outside) (outside_view result.outside) }
    ensures unreadable { (fault : RedoFault) → result.status ≡ Top.Unreadable fault
        → IfSome (D.seen outside.disk) (λ files. IsReason fault files) }
    ensures untouched { (dir : List ℕ) → IsLine words.now Command.Controldata dir
        → IsLeftAlone (outside_view outside).disk (outside_view result.outside).disk }
    // `workload`: what its queries come to is told, where each of them had the answer that is meant.
    ensures workload_ends { (number : ℕ) (dir : List ℕ)
        → IsLine words.now (Command.Workload number) dir → IsWorkloadEnd result.status }
    ensures worked { (number : ℕ) (dir : List ℕ) → IsLine words.now (Command.Workload number) dir
        → HasAnswer result.status → HasWorked number (result.status ≡ Top.OutFault)
        (O.written outside.sink) (O.written result.outside.sink) }
    // What is printed is the line of the status, or a front of it where the sink fails.
    ensures initdb_says { (dir : List ℕ) → IsLine words.now Command.Initdb dir
        → HasSaid (initdb_line result.status) (outside_view outside) (outside_view result.outside) }
    ensures initialized { (dir : List ℕ) → IsLine words.now Command.Initdb dir
        → result.status ≡ Top.Done → O.written result.outside.sink
        ≡ option_map (λ written. written ++ codes "initialized\n") (O.written outside.sink) }
    ensures controldata_says { (dir : List ℕ) → IsLine words.now Command.Controldata dir
        → ¬ (HasAnswer result.status)
        → HasSaid (line_of result.status) (outside_view outside) (outside_view result.outside) }
    ensures workload_says { (number : ℕ) (dir : List ℕ)
        → IsLine words.now (Command.Workload number) dir → ¬ (HasAnswer result.status)
        → HasSaid (line_of result.status) (outside_view outside) (outside_view result.outside) }
    ensures usage_says { result.status ≡ Top.Usage
        → HasSaid (line_of Top.Usage) (outside_view outside) (outside_view result.outside) }
    // What a command doesn't use stays as it is.
    ensures unused { result.status ≡ Top.Usage → (result.outside.port ≡ outside.port)
        × (result.outside.disk ≡ outside.disk) × (result.outside.journal ≡ outside.journal)
        × (result.outside.book ≡ outside.book) }
    ensures unasked { (command : Command) (dir : List ℕ) → IsLine words.now command dir
        → ¬ (IsServer command) → (result.outside.port ≡ outside.port)
        × (result.outside.journal ≡ outside.journal) × (result.outside.book ≡ outside.book) }
    ensures unserved { IsNoServeLine words.now
        → (spawner.new ≡ spawner.old) × (result.console ≡ console) }
    ensures clock { (result.outside.clock ≡ outside.clock) × (result.outside.seed ≡ outside.seed) }
{
    match serve_line(words) {
        Some(conf) => serve(spawner, rt, alloc, &conf, outside, console),
        None => {
            let Worked { status, outside } = run_alone(&rt, alloc, words, outside);
            Ended {
                status,
                outside,
                console,
            }
        }
    }
}

// What a server of many connections goes by, where the words ask for one.
fn serve_line(words: &[Text]) -> Option<Conf>
    ensures found { IfSome result (λ conf. IsServeLine words.now conf) }
    ensures none { IfNone result (IsNoServeLine words.now) }
{
    match read_words(words) {
        Ok(line) => match line.command {
            Command::Serve { .. } => Some(line.conf),
            Command::Initdb | Command::Once | Command::Controldata | Command::Workload { .. } =>
                None,
        },
        Err(_) => None,
    }
}

// Runs the server of many connections, which prints its lines itself.
fn serve<S, R, L, P, K, O, D, C, J, B>(
    spawner: &mut S,
    rt: R,
    alloc: Global,
    conf: &Conf,
    outside: Outside<P, O, D, C, J, B>,
    console: K,
) -> Ended<P, K, O, D, C, J, B>
where
    S: Spawner<Runtime = R>,
    R: Threads + Wait + Copy + Drop + Send + 'static,
    L: Link + Drop + Send + 'static,
    P: Port<Link = L>,
    K: Console,
    O: Sink,
    D: Disk + Drop + Send + 'static,
    C: Clock + Drop + Send + 'static,
    J: Chronicle<PmEvent>,
    B: Chronicle<BookEntry> + Drop + Send + 'static,
    requires some { 1 ≤ conf.now.limits.max_connections + conf.now.limits.max_worker_processes }
    requires within { IsWithinLimits conf.now.limits }
    requires journal { IfSome (J.entries outside.journal) (λ entries. entries ≡ []) }
    requires book { IfSome (B.entries outside.book) (λ entries. entries ≡ []) }
    requires port { IfSome (P.visits outside.port) (λ visits. visits ≡ no_visits) }
    requires console { IfSome (K.lines console) (λ lines. lines ≡ []) }
    ensures run { RunsServe conf.now result.status
        (serve_view K.Console (S.faults spawner.old) outside console)
        (serve_view K.Console (S.faults spawner.new) result.outside result.console) }
    ensures rest { (result.outside.clock ≡ outside.clock) × (result.outside.seed ≡ outside.seed) }
{
    let Served {
        end,
        board: _,
        outside,
        console,
    } = serve_as_promised(spawner, rt, alloc, conf, outside, console);
    Ended {
        status: Top::from(end),
        outside,
        console,
    }
}
