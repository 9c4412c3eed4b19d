//! `workload`: queries that a server in memory answers.

ghost use Rattle.std.specs.Prelude.{◌≡◌, ◌≤◌};
ghost use Rattle.pm_load_run.specs.{pm_disk.Cause.IsCounted, Worked.HasTold};
ghost use Rattle.pm_top.specs.{Ends.HasAnswer, Load.IsWorkloadEnd};

use crate::outside::Worked;
use crate::status::Top;
use pm_disk::Disk;
use pm_load_run::{WorkloadNo, workload};
use pm_outside::{Chronicle, Clock, Port, Sink};
use pm_query::BookEntry;
use pm_server::Outside;
use pm_state::PmEvent;
use std::alloc::Global;
use std::sync::Wait;
use std::time;

/// Has a server in memory answer so many queries, and prints a summary of the rows that they left, where every answer was the
/// one that is meant. Of the outside it uses the sink alone.
pub(crate) fn load<R, P, O, D, C, J, B>(
    rt: &R,
    alloc: Global,
    number: u32,
    outside: Outside<P, O, D, C, J, B>,
) -> Worked<P, O, D, C, J, B>
where
    R: Wait + time::Clock + Copy + Drop,
    P: Port,
    O: Sink,
    D: Disk,
    C: Clock,
    J: Chronicle<PmEvent>,
    B: Chronicle<BookEntry>,
    requires { number ≤ 100000 }
    ensures kind { IsWorkloadEnd result.status }
    ensures told { HasAnswer result.status → HasTold number (result.status ≡ Top.OutFault)
        (O.written outside.sink) (O.written result.outside.sink) }
    ensures silent { ¬ (HasAnswer result.status) → result.outside.sink ≡ outside.sink }
    ensures out_cause { IsCounted (O.faults outside.sink) (O.faults result.outside.sink)
        (result.status ≡ Top.OutFault) }
    ensures rest { (result.outside.port ≡ outside.port) × (result.outside.disk ≡ outside.disk)
        × (result.outside.clock ≡ outside.clock) × (result.outside.journal ≡ outside.journal)
        × (result.outside.book ≡ outside.book) × (result.outside.seed ≡ outside.seed) }
{
    let mut outside = outside;
    let status = match workload(rt, alloc, number, &mut outside.sink) {
        Ok(()) => Top::Done,
        Err(WorkloadNo::SinkFailed) => Top::OutFault,
        Err(WorkloadNo::NoMemory) => Top::NoMemory,
    };
    Worked { status, outside }
}
