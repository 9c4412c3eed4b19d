//! A whole run of the server.

ghost use Rattle.std.specs.Prelude.{◌≡◌, [], IfSome};
ghost use Rattle.pm_supervisor.specs.Limits.{IsWithinLimits};
ghost use Rattle.pm_once.specs.Once.{IsOnceRun};
ghost use Rattle.pm_server.specs.Outside.{outside_view};

use crate::ended::Ended;
use crate::laws::laws;
use crate::server::Server;
use pm_disk::Disk;
use pm_once_children::Auxiliaries;
use pm_outside::{Chronicle, Clock, Port, Sink};
use pm_query::BookEntry;
use pm_segment::{Commits, Sole};
use pm_server::{Conf, Outside, ServerEnd, say_end};
use pm_server_lines::Log;
use pm_state::PmEvent;
use pm_supervisor_journal::Supervision;
use std::alloc::Global;
use std::sync::Wait;

/// Runs the server over the disk until it ends: one thread takes it through its states, and serves the port's links one after
/// another. The journal that it is given has no entries.
pub fn once<R, P, O, D, C, J, B>(
    rt: &R,
    alloc: Global,
    conf: &Conf,
    outside: Outside<P, O, D, C, J, B>,
) -> Ended<P, O, D, C, J, B>
where
    R: Wait,
    P: Port,
    O: Sink,
    D: Disk,
    C: Clock,
    J: Chronicle<PmEvent>,
    B: Chronicle<BookEntry>,
    requires within { IsWithinLimits conf.now.limits }
    requires empty { IfSome (J.entries outside.journal) (λ entries. entries ≡ []) }
    ensures run { IsOnceRun conf.now result.end (outside_view outside)
        (outside_view result.outside) }
    ensures rest { (result.outside.clock ≡ outside.clock) × (result.outside.seed ≡ outside.seed) }
{
    laws();
    let Outside {
        mut port,
        sink,
        disk,
        clock,
        journal,
        book,
        seed,
    } = outside;
    let supervision = Supervision::new(alloc, conf.limits, journal);
    let mut log = Log::new(sink);
    let store = match Sole::new(alloc, Commits::AtOnce, disk, book) {
        Ok(store) => store,
        Err((disk, book)) => {
            say_end(&mut log, ServerEnd::NoMemory);
            let outside = Outside {
                port,
                sink: log.into_sink(),
                disk,
                clock,
                journal: supervision.into_journal(),
                book,
                seed,
            };
            return Ended {
                end: ServerEnd::NoMemory,
                outside,
            };
        }
    };
    let server = Server {
        supervision,
        store,
        log,
        lost: Vec::new(alloc),
        auxiliaries: Auxiliaries::none(),
        outcome: None,
        listens: true,
    };
    let (mut server, end) = server.run(rt, alloc, &mut port, &clock, &seed, &conf.session);
    server.store.keeps_its_run();
    server.store.reads_its_files();
    let Server {
        supervision,
        store,
        mut log,
        ..
    } = server;
    say_end(&mut log, end);
    let (disk, book) = store.into_parts();
    let outside = Outside {
        port,
        sink: log.into_sink(),
        disk,
        clock,
        journal: supervision.into_journal(),
        book,
        seed,
    };
    Ended { end, outside }
}
