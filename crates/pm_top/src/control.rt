//! `controldata`: what the files of a cluster stand for.

ghost use Rattle.std.specs.Prelude.{◌≡◌, IfSome};
ghost use Rattle.pm_server.specs.{pm_disk.Cause.IsCounted, Outside.outside_view, pm_record.declared.fault.RedoFault.RedoFault};
ghost use Rattle.pm_redo.specs.Found.{IsReason};
ghost use Rattle.pm_top.specs.{Cluster.IsLeftAlone, Control.HasTold, Ends.{HasAnswer, IsControldataEnd}};

use crate::outside::Worked;
use crate::print::print_found;
use crate::status::Top;
use pm_disk::Disk;
use pm_outside::{Chronicle, Clock, Port, Sink};
use pm_query::BookEntry;
use pm_record::RedoFault;
use pm_redo::examine;
use pm_server::Outside;
use pm_state::PmEvent;
use std::alloc::Global;

/// Prints what the files stand for. It changes neither, and takes memory and time of the order of
/// their lengths.
pub(crate) fn controldata<P, O, D, C, J, B>(
    alloc: Global,
    outside: Outside<P, O, D, C, J, B>,
) -> Worked<P, O, D, C, J, B>
where
    P: Port,
    O: Sink,
    D: Disk,
    C: Clock,
    J: Chronicle<PmEvent>,
    B: Chronicle<BookEntry>,
    ensures kind { IsControldataEnd result.status }
    ensures told { HasAnswer result.status
        → HasTold (result.status ≡ Top.OutFault) (outside_view outside)
        (outside_view result.outside) }
    ensures silent { ¬ (HasAnswer result.status) → result.outside.sink ≡ outside.sink }
    ensures reason { (fault : RedoFault) → result.status ≡ Top.Unreadable fault
        → IfSome (D.seen outside.disk) (λ files. IsReason fault files) }
    ensures untouched { IsLeftAlone (outside_view outside).disk (outside_view result.outside).disk }
    ensures disk_cause { IsCounted (D.faults outside.disk) (D.faults result.outside.disk)
        (result.status ≡ Top.DiskFault) }
    ensures out_cause { IsCounted (O.faults outside.sink) (O.faults result.outside.sink)
        (result.status ≡ Top.OutFault) }
    ensures rest { (result.outside.port ≡ outside.port) × (result.outside.clock ≡ outside.clock)
        × (result.outside.journal ≡ outside.journal) × (result.outside.book ≡ outside.book)
        × (result.outside.seed ≡ outside.seed) }
{
    let mut outside = outside;
    let status = match examine(alloc, &mut outside.disk) {
        Ok(found) => match print_found(&mut outside.sink, &found) {
            Ok(()) => Top::Done,
            Err(_) => Top::OutFault,
        },
        Err(RedoFault::Disk) => Top::DiskFault,
        Err(RedoFault::NoMemory) => Top::NoMemory,
        Err(fault) => Top::Unreadable(fault),
    };
    Worked { status, outside }
}
