//! The program `pg_postmaster`: its words, and the outside that they are run over.
#![tactic(auto)]

ghost use Rattle.std.specs.Prelude.{◌≡◌, [], IfSome};
ghost use Rattle.pm_outside.specs.{MemConsole.lines_given, Visits.no_visits};

mod network;
mod reports;
mod words;

use crate::network::{Endpoint, Network, StartFault, open};
use crate::reports::Reports;
use crate::words::{given_words, print_misfit};
use pm_disk::{Disk, MemDisk};
use pm_outside::{Console, Forgotten, Link, MemClock, MemConsole, MemPort, Port, Sink};
use pm_outside_files::LogFiles;
use pm_outside_streams::{StandardPort, StandardSink, SystemClock, fill_standard_streams};
use pm_rows::Text;
use pm_top::{AUXILIARY_SLOTS, Command, Ended, Outside, Top, read_words, run, slots};
use std::alloc::Global;
use std::env::Env;
use std::fs;
use std::io::Write;
use std::net::Net;
use std::process::ExitCode;
use std::random::RandomSource;
use std::sync::Wait;
use std::thread::Threads;
use std::time::Clock;

/// The exit code where the program can't start.
const COULD_NOT_START: u8 = 1;

fn main(rt: HostRuntime) -> ExitCode {
    if fill_standard_streams(&rt).is_err() {
        return could_not_start(&rt);
    }
    if is_server(&rt) {
        start(rt, rt, StandardSink::new(rt.stderr(), "standard error"))
    } else {
        start(rt, rt, StandardSink::new(rt.stdout(), "standard output"))
    }
}

fn could_not_start(rt: &HostRuntime) -> ExitCode {
    not_started(rt, StartFault::System)
}

fn not_started(rt: &HostRuntime, fault: StartFault) -> ExitCode {
    let _ = eprintln!(rt; "{fault}");
    ExitCode::from(COULD_NOT_START)
}

// Whether the first word asks for a server. The standard output of `once` is the link's, and both print their lines as errors.
fn is_server(rt: &HostRuntime) -> bool {
    let mut word = [0; 6];
    match rt.arg(1, &mut word) {
        Ok(length) => matches!(&word[..length], b"once" | b"serve"),
        Err(_) => false,
    }
}

// Reads the words, and hands their command what it uses of the real outside.
fn start<R, W>(rt: HostRuntime, host: R, sink: StandardSink<W>) -> ExitCode
where
    R: Threads + Wait + Net + Clock + Copy + Drop + Send + 'static,
    W: Write + Drop,
{
    let Ok(words) = given_words(&rt) else {
        return out_of_memory();
    };
    let alloc = rt.alloc();
    let Ok(line) = read_words(&words) else {
        print_misfit(&rt, &words);
        return over_disk(rt, host, &words, MemDisk::new(alloc), sink);
    };
    let Ok(disk) = LogFiles::of(rt, alloc, line.dir) else {
        return out_of_memory();
    };
    match line.command {
        Command::Once => over_streams(rt, host, &words, disk, sink),
        Command::Serve { port } => {
            let endpoint = Endpoint {
                port,
                entry_ms: line.conf.session.authentication_ms,
                slots: slots(&line.conf),
                resting: AUXILIARY_SLOTS,
            };
            over_network(rt, host, &words, endpoint, disk, sink)
        }
        Command::Initdb => {
            // Where the folder can't be made its files can't either, and then that is told.
            let _ = fs::create_dir_all(&rt, line.dir);
            over_disk(rt, host, &words, disk, sink)
        }
        Command::Controldata | Command::Workload { .. } => {
            over_disk(rt, host, &words, disk, sink)
        }
    }
}

fn out_of_memory() -> ExitCode {
    ExitCode::from(Top::NoMemory.code())
}

// Runs `once`, over files, standard streams and the system's clock. A link may keep it waiting
// forever. Its journal and its book aren't kept.
fn over_streams<R, W>(
    rt: HostRuntime,
    host: R,
    words: &[Text],
    disk: LogFiles,
    sink: StandardSink<W>,
) -> ExitCode
where
    R: Threads + Wait + Clock + Copy + Drop + Send + 'static,
    W: Write + Drop,
{
    let Ok(clock) = SystemClock::new(host) else {
        return could_not_start(&rt);
    };
    let mut seed = [0; 32];
    if rt.fill_bytes(&mut seed).is_err() {
        return could_not_start(&rt);
    }
    let outside = Outside {
        port: StandardPort::new(rt.stdin(), rt.stdout()),
        sink,
        disk,
        clock,
        journal: Forgotten::new(),
        book: Forgotten::new(),
        seed,
    };
    end_of(rt, host, words, outside, no_console(rt.alloc()))
}

// Runs `serve`, over files, a port over TCP, standard input as its console, and a clock whose pauses these end. Its journal and its
// book aren't kept.
fn over_network<R, W>(
    rt: HostRuntime,
    host: R,
    words: &[Text],
    endpoint: Endpoint,
    disk: LogFiles,
    sink: StandardSink<W>,
) -> ExitCode
where
    R: Threads + Wait + Net + Clock + Copy + Drop + Send + 'static,
    W: Write + Drop,
{
    let mut seed = [0; 32];
    if rt.fill_bytes(&mut seed).is_err() {
        return could_not_start(&rt);
    }
    let Network {
        port,
        clock,
        console,
    } = match open(host, rt.alloc(), rt.stdin(), endpoint) {
        Ok(network) => network,
        Err(fault) => return not_started(&rt, fault),
    };
    let outside = Outside {
        port,
        sink,
        disk,
        clock,
        journal: Forgotten::new(),
        book: Forgotten::new(),
        seed,
    };
    end_of(rt, host, words, outside, console)
}

// A console that gives no line.
fn no_console(alloc: Global) -> MemConsole
    ensures { lines_given result ≡ [] }
{
    MemConsole::new(Vec::new(alloc), Vec::new(alloc), None)
}

// Runs words whose command uses a disk and a sink at most. The rest of the outside is in memory.
fn over_disk<R, D, W>(
    rt: HostRuntime,
    host: R,
    words: &[Text],
    disk: D,
    sink: StandardSink<W>,
) -> ExitCode
where
    R: Threads + Wait + Clock + Copy + Drop + Send + 'static,
    D: Disk + Reports + Drop + Send + 'static,
    W: Write + Drop,
{
    let alloc = rt.alloc();
    let outside = Outside {
        port: MemPort::new(alloc, Vec::new(alloc), Vec::new(alloc)),
        sink,
        disk,
        clock: MemClock::still(0, host),
        journal: Forgotten::new(),
        book: Forgotten::new(),
        seed: [0; 32],
    };
    end_of(rt, host, words, outside, no_console(alloc))
}

// Runs the words, and lets go of what they were run over, once it is told what of it failed.
fn end_of<R, L, P, K, O, D, C>(
    rt: HostRuntime,
    host: R,
    words: &[Text],
    outside: Outside<P, O, D, C, Forgotten, Forgotten>,
    console: K,
) -> ExitCode
where
    R: Threads + Wait + Clock + Copy + Drop + Send + 'static,
    L: Link + Drop + Send + 'static,
    P: Port<Link = L> + Reports + Drop,
    K: Console + Reports + Drop,
    O: Sink + Reports + Drop,
    D: Disk + Reports + Drop + Send + 'static,
    C: pm_outside::Clock + Drop + Send + 'static,
    requires port { IfSome (P.visits outside.port) (λ visits. visits ≡ no_visits) }
    requires console { IfSome (K.lines console) (λ lines. lines ≡ []) }
{
    let mut spawner = pm_spawn::Threads::new(host);
    let Ended {
        status,
        outside,
        console,
    } = run(&mut spawner, host, rt.alloc(), words, outside, console);
    outside.disk.report(&rt);
    outside.port.report(&rt);
    console.report(&rt);
    outside.sink.report(&rt);
    ExitCode::from(status.code())
}
