//! The commands that run in one thread: all but `serve`.

ghost use Rattle.std.specs.Prelude.{◌≡◌, ◌≢◌, ◌+◌, ◌≤◌, ◌++◌, ℕ, [], List, codes, option_map, IfSome};
ghost use Rattle.pm_state.specs.pm_supervisor.Limits.{IsWithinLimits};
ghost use Rattle.pm_server.specs.{pm_disk.Cause.{IsCounted, Rose}, Outside.outside_view, pm_server_lines.Print.IsPrinted, pm_record.declared.fault.RedoFault.RedoFault, declared.conf.Conf.Conf};
ghost use Rattle.pm_load_run.specs.{pm_redo.Found.IsReason, Worked.HasTold as HasWorked};
ghost use Rattle.pm_top.specs.{Cluster.{HasNewCluster, IsFree, IsLeftAlone, IsTaken, KeepsTaken}, Control.HasTold, Ends.{HasAnswer, HasSaid, IsControldataEnd, IsInitdbEnd, initdb_line, line_of}, Load.IsWorkloadEnd, Once.RunsOnce, Serve.IsNoServeLine};
ghost use Rattle.pm_top_words.specs.{Words.{IsLine, IsLineWith}, declared.words.Command.Command};

use crate::control::controldata;
use crate::load::load;
use crate::outside::Worked;
use crate::status::Top;
use pm_disk::Disk;
use pm_log::InitNo;
use pm_once_promises::once_as_promised;
use pm_outside::{Chronicle, Clock, Port, Sink};
use pm_query::BookEntry;
use pm_rows::Text;
use pm_server::{Conf, Outside};
use pm_server_lines::{print, print_redo};
use pm_state::PmEvent;
use pm_top_words::{Command, read_words};
use std::alloc::Global;
use std::sync::Wait;
use std::time;

/// The commands, each with its options.
const USAGE: &[u8] = b"usage: initdb --data D | controldata --data D | workload --number N
       once --data D [OPTIONS] | serve --data D --port P [OPTIONS]
options: --max-connections 1..200, --superuser-reserved 0..max-connections-1,
         --restart-after-crash on|off, --authentication-timeout 1..600
";

/// Does what the words ask, where they don't ask for a server of many connections. The journal that it is given has no
/// entries.
pub(crate) fn run_alone<R, P, O, D, C, J, B>(
    rt: &R,
    alloc: Global,
    words: &[Text],
    outside: Outside<P, O, D, C, J, B>,
) -> Worked<P, O, D, C, J, B>
where
    R: Wait + time::Clock + Copy + Drop,
    P: Port,
    O: Sink,
    D: Disk,
    C: Clock,
    J: Chronicle<PmEvent>,
    B: Chronicle<BookEntry>,
    requires alone { IsNoServeLine words.now }
    requires empty { IfSome (J.entries outside.journal) (λ entries. entries ≡ []) }
    // The usage is told exactly where the words are no command line. Each command has its own ends.
    ensures usage { result.status ≡ Top.Usage
        → (command : Command) (dir : List ℕ) → ¬ (IsLine words.now command dir) }
    ensures words { result.status ≢ Top.Usage
        → (command : Command) × (dir : List ℕ) × IsLine words.now command dir }
    ensures initdb_ends { (dir : List ℕ) → IsLine words.now Command.Initdb dir
        → IsInitdbEnd result.status }
    ensures controldata_ends { (dir : List ℕ) → IsLine words.now Command.Controldata dir
        → IsControldataEnd result.status }
    // `initdb`: a cluster is made where both files hold none. It is durable, and has no commits.
    ensures made { (dir : List ℕ) → IsLine words.now Command.Initdb dir → HasAnswer result.status
        → HasNewCluster (outside_view result.outside).disk }
    ensures fresh { (dir : List ℕ) → IsLine words.now Command.Initdb dir → HasAnswer result.status
        → IsFree (outside_view outside).disk }
    ensures exists { result.status ≡ Top.Exists → IsTaken (outside_view outside).disk }
    ensures kept { (dir : List ℕ) → IsLine words.now Command.Initdb dir
        → KeepsTaken (outside_view outside).disk (outside_view result.outside).disk }
    ensures disk_fault { result.status ≡ Top.DiskFault
        → Rose (D.faults outside.disk) (D.faults result.outside.disk) }
    ensures out_fault { result.status ≡ Top.OutFault
        → Rose (O.faults outside.sink) (O.faults result.outside.sink) }
    // `once`: a run of the server, by the options of the line, with what a user counts on.
    ensures once { (dir : List ℕ) (conf : Conf) → IsLineWith words.now Command.Once dir conf
        → RunsOnce conf result.status (outside_view outside) (outside_view result.outside) }
    // `controldata`: what the files stand for is told, or why they stand for nothing. They stay so.
    ensures told { (dir : List ℕ) → IsLine words.now Command.Controldata dir
        → HasAnswer result.status → HasTold (result.status ≡ Top.OutFault)
        (outside_view outside) (outside_view result.outside) }
    ensures unreadable { (fault : RedoFault) → result.status ≡ Top.Unreadable fault
        → IfSome (D.seen outside.disk) (λ files. IsReason fault files) }
    ensures untouched { (dir : List ℕ) → IsLine words.now Command.Controldata dir
        → IsLeftAlone (outside_view outside).disk (outside_view result.outside).disk }
    // `workload`: what its queries come to is told, where each of them had the answer that is meant.
    ensures workload_ends { (number : ℕ) (dir : List ℕ)
        → IsLine words.now (Command.Workload number) dir → IsWorkloadEnd result.status }
    ensures worked { (number : ℕ) (dir : List ℕ) → IsLine words.now (Command.Workload number) dir
        → HasAnswer result.status → HasWorked number (result.status ≡ Top.OutFault)
        (O.written outside.sink) (O.written result.outside.sink) }
    // What is printed is the line of the status, or a front of it where the sink fails.
    ensures initdb_says { (dir : List ℕ) → IsLine words.now Command.Initdb dir
        → HasSaid (initdb_line result.status) (outside_view outside) (outside_view result.outside) }
    ensures initialized { (dir : List ℕ) → IsLine words.now Command.Initdb dir
        → result.status ≡ Top.Done → O.written result.outside.sink
        ≡ option_map (λ written. written ++ codes "initialized\n") (O.written outside.sink) }
    ensures controldata_says { (dir : List ℕ) → IsLine words.now Command.Controldata dir
        → ¬ (HasAnswer result.status)
        → HasSaid (line_of result.status) (outside_view outside) (outside_view result.outside) }
    ensures workload_says { (number : ℕ) (dir : List ℕ)
        → IsLine words.now (Command.Workload number) dir → ¬ (HasAnswer result.status)
        → HasSaid (line_of result.status) (outside_view outside) (outside_view result.outside) }
    ensures usage_says { result.status ≡ Top.Usage
        → HasSaid (line_of Top.Usage) (outside_view outside) (outside_view result.outside) }
    // What a command doesn't use stays as it is.
    ensures unused { result.status ≡ Top.Usage → (result.outside.port ≡ outside.port)
        × (result.outside.disk ≡ outside.disk) × (result.outside.journal ≡ outside.journal)
        × (result.outside.book ≡ outside.book) }
    ensures unasked { (command : Command) (dir : List ℕ) → IsLine words.now command dir
        → command ≢ Command.Once → (result.outside.port ≡ outside.port)
        × (result.outside.journal ≡ outside.journal) × (result.outside.book ≡ outside.book) }
    ensures clock { (result.outside.clock ≡ outside.clock) × (result.outside.seed ≡ outside.seed) }
{
    let Worked {
        status,
        mut outside,
    } = match read_words(words) {
        Err(_) => Worked {
            status: Top::Usage,
            outside,
        },
        Ok(line) => match line.command {
            Command::Initdb => initdb(outside),
            Command::Once => return run_server(rt, alloc, &line.conf, outside),
            Command::Serve { .. } => unreachable!(),
            Command::Controldata => controldata(alloc, outside),
            Command::Workload { number } => load(rt, alloc, number, outside),
        },
    };
    tell(&mut outside.sink, status);
    Worked { status, outside }
}

// Runs the server, which prints its lines itself.
fn run_server<R, P, O, D, C, J, B>(
    rt: &R,
    alloc: Global,
    conf: &Conf,
    outside: Outside<P, O, D, C, J, B>,
) -> Worked<P, O, D, C, J, B>
where
    R: Wait,
    P: Port,
    O: Sink,
    D: Disk,
    C: Clock,
    J: Chronicle<PmEvent>,
    B: Chronicle<BookEntry>,
    requires within { IsWithinLimits conf.now.limits }
    requires empty { IfSome (J.entries outside.journal) (λ entries. entries ≡ []) }
    ensures run { RunsOnce conf.now result.status (outside_view outside)
        (outside_view result.outside) }
    ensures rest { (result.outside.clock ≡ outside.clock) × (result.outside.seed ≡ outside.seed) }
{
    let pm_once_promises::Ended { end, outside } = once_as_promised(rt, alloc, conf, outside);
    Worked {
        status: Top::from(end),
        outside,
    }
}

fn initdb<P, O, D, C, J, B>(outside: Outside<P, O, D, C, J, B>) -> Worked<P, O, D, C, J, B>
where
    P: Port,
    O: Sink,
    D: Disk,
    C: Clock,
    J: Chronicle<PmEvent>,
    B: Chronicle<BookEntry>,
    ensures kind { IsInitdbEnd result.status }
    ensures made { HasAnswer result.status → HasNewCluster (outside_view result.outside).disk }
    ensures fresh { HasAnswer result.status → IsFree (outside_view outside).disk }
    ensures exists { result.status ≡ Top.Exists → IsTaken (outside_view outside).disk }
    ensures kept { KeepsTaken (outside_view outside).disk (outside_view result.outside).disk }
    ensures disk_cause { IsCounted (D.faults outside.disk) (D.faults result.outside.disk)
        (result.status ≡ Top.DiskFault) }
    ensures said { HasAnswer result.status → IsPrinted (codes "initialized\n")
        (result.status ≡ Top.OutFault) (O.written outside.sink) (O.written result.outside.sink) }
    ensures silent { ¬ (HasAnswer result.status) → result.outside.sink ≡ outside.sink }
    ensures out_cause { IsCounted (O.faults outside.sink) (O.faults result.outside.sink)
        (result.status ≡ Top.OutFault) }
    ensures rest { (result.outside.port ≡ outside.port) × (result.outside.clock ≡ outside.clock)
        × (result.outside.journal ≡ outside.journal) × (result.outside.book ≡ outside.book)
        × (result.outside.seed ≡ outside.seed) }
{
    let mut outside = outside;
    let status = match pm_log::init(&mut outside.disk) {
        Ok(()) => match print(&mut outside.sink, b"initialized\n") {
            Ok(()) => Top::Done,
            Err(_) => Top::OutFault,
        },
        Err(InitNo::Disk) => Top::DiskFault,
        Err(InitNo::Exists) => Top::Exists,
    };
    Worked { status, outside }
}

// Prints the line of a status, while the sink works.
fn tell<O: Sink>(sink: &mut O, status: Top)
    ensures said { IsPrinted (line_of status) (Rose (O.faults sink.old) (O.faults sink.new))
        (O.written sink.old) (O.written sink.new) }
    ensures silent { line_of status ≡ [] → sink.new ≡ sink.old }
    ensures later { O.faults sink.old ≤ O.faults sink.new }
{
    let told = match status {
        Top::Done | Top::Abnormal(_) | Top::OutFault | Top::NoThread => return,
        Top::Usage => print(sink, USAGE),
        Top::Exists => print(sink, b"a cluster exists\n"),
        Top::DiskFault => print(sink, b"disk fault\n"),
        Top::NoMemory => print(sink, b"out of memory\n"),
        Top::Unreadable(fault) => print_redo(sink, fault),
    };
    let _ = told;
}
