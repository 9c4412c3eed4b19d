//! A whole run of a server.
ghost use Rattle.std.specs.Prelude.{◌≡◌, ◌≤◌, ◌+◌, ◌*◌, [], IfSome, option_map};
ghost use Rattle.pm_supervisor.specs.Limits.{IsWithinLimits};
ghost use Rattle.pm_server.specs.{pm_outside.Visits.no_visits, pm_server_lines.Log.view_of, Ends.end_line};
ghost use Rattle.pm_postmaster.specs.{Outside.serve_view, Served.{IsEnded, IsServeRun, unmade_by}};

use crate::came::LastCame;
use crate::clearing::clear;
use crate::laws::laws;
use crate::server::Server;
use pm_board::Roster;
use pm_board_acts::Desk;
use pm_disk::Disk;
use pm_outside::{Chronicle, Clock, Console, Link, Port, Sink};
use pm_query::BookEntry;
use pm_serve_pool::{Made, NoPool, Plan, Unmade, board_slots, make};
use pm_server::{Conf, Outside, ServerEnd, say_end};
use pm_server_lines::Log;
use pm_spawn::Spawner;
use pm_state::PmEvent;
use pm_store_remains::part;
use pm_supervisor_journal::Supervision;
use pm_worker::Mail;
use std::alloc::Global;
use std::sync::Wait;
use std::thread::Threads;

// How a server ends for which no pool was made.
fn unmade_end(why: NoPool) -> ServerEnd
    ensures { result ≡ unmade_by why }
{
    match why {
        NoPool::NoThread => ServerEnd::NoThread,
        NoPool::NoMemory => ServerEnd::NoMemory,
    }
}

// Writes the line of an end, and gives the sink back.
fn ended<O: Sink>(log: Log<O>, end: ServerEnd) -> O
    ensures { IsEnded (end_line end) (view_of log) (O.written result) (O.faults result) }
{
    let mut log = log;
    say_end(&mut log, end);
    log.into_sink()
}

/// How many slots a server's board has by these settings, each for a child.
pub fn slots(conf: &Conf) -> u32
    ensures { conf.now.limits.max_connections + conf.now.limits.max_worker_processes ≤ 200
        → result ≡ 3
        + 2 * (conf.now.limits.max_connections + conf.now.limits.max_worker_processes) + 4 }
{
    let limits = conf.limits;
    board_slots(
        limits
            .max_connections
            .saturating_add(limits.max_worker_processes),
    )
}

/// How a server ended, what it worked on, and the supervisor's side of its board, where a pool was made.
#[derive(Drop)]
pub struct Served<
    L: Link + Drop,
    P: Port<Link = L>,
    K: Console,
    O: Sink,
    D: Disk,
    C: Clock,
    J: Chronicle<PmEvent>,
    B: Chronicle<BookEntry>,
> {
    pub end: ServerEnd,
    pub outside: Outside<P, O, D, C, J, B>,
    pub console: K,
    pub board: Option<Roster<Mail<L>>>,
}

/// Runs a server over the disk until it ends: it accepts the port's links, each of which has a child in a thread of its own, does
/// what the console's lines ask for, and goes through a crash cycle where a child crashes. It is asked for a shutdown by these lines,
/// by the port's end, and where it draws its last pid, and by nothing else.
///
/// What it is handed is new: its journal and its book have no entries, its port has given no link, and its console no line. It
/// takes a thread for each slot of its board, and takes all memory for these before the first starts.
pub fn supervise<S, R, L, P, K, O, D, C, J, B>(
    spawner: &mut S,
    rt: R,
    alloc: Global,
    conf: &Conf,
    outside: Outside<P, O, D, C, J, B>,
    console: K,
) -> Served<L, P, K, O, D, C, J, B>
where
    S: Spawner<Runtime = R>,
    R: Threads + Wait + Copy + Drop + Send + 'static,
    L: Link + Drop + Send + 'static,
    P: Port<Link = L>,
    K: Console,
    O: Sink,
    D: Disk + Drop + Send + 'static,
    C: Clock + Drop + Send + 'static,
    J: Chronicle<PmEvent>,
    B: Chronicle<BookEntry> + Drop + Send + 'static,
    requires some { 1 ≤ conf.now.limits.max_connections + conf.now.limits.max_worker_processes }
    requires within { IsWithinLimits conf.now.limits }
    requires journal { IfSome (J.entries outside.journal) (λ entries. entries ≡ []) }
    requires book { IfSome (B.entries outside.book) (λ entries. entries ≡ []) }
    requires port { IfSome (P.visits outside.port) (λ visits. visits ≡ no_visits) }
    requires console { IfSome (K.lines console) (λ lines. lines ≡ []) }
    ensures run { IsServeRun conf.now result.end (option_map (λ roster. roster.knows) result.board)
        (serve_view K.Console (S.faults spawner.old) outside console)
        (serve_view K.Console (S.faults spawner.new) result.outside result.console) }
    ensures rest { (result.outside.clock ≡ outside.clock)
        × (result.outside.seed ≡ outside.seed) }
{
    laws::<L>();
    let plan = Plan {
        limits: conf.limits,
        conf: conf.session,
        seed: outside.seed,
    };
    let Outside {
        port,
        sink,
        disk,
        clock,
        journal,
        book,
        seed,
    } = outside;
    let log = Log::new(sink);
    match make(spawner, rt, alloc, &clock, &plan, disk, book) {
        Ok(made) => {
            let Made {
                roster,
                shared,
                pool,
            } = made;
            let supervision = Supervision::new(alloc, conf.limits, journal);
            let desk = Desk::new(supervision, roster);
            let lost = Vec::new(alloc);
            let mut server = Server {
                desk,
                shared,
                log,
                port,
                console,
                clock,
                lost,
                came: LastCame {
                    startup: None,
                    checkpointer: None,
                },
                listens: true,
                hears: true,
            };
            let end = server.run(&rt);
            let Server {
                desk,
                shared,
                log,
                mut port,
                console,
                clock,
                ..
            } = server;
            let (supervision, mut roster) = desk.into_parts();
            clear(&rt, &mut roster, &mut port, &clock);
            let store = pool.close(&rt, &mut roster, shared);
            let (disk, book) = part(store);
            let sink = ended(log, end);
            let journal = supervision.into_journal();
            let outside = Outside {
                port,
                sink,
                disk,
                clock,
                journal,
                book,
                seed,
            };
            Served {
                end,
                outside,
                console,
                board: Some(roster),
            }
        }
        Err(unmade) => {
            let Unmade { why, disk, book } = unmade;
            let end = unmade_end(why);
            let sink = ended(log, end);
            let outside = Outside {
                port,
                sink,
                disk,
                clock,
                journal,
                book,
                seed,
            };
            Served {
                end,
                outside,
                console,
                board: None,
            }
        }
    }
}
