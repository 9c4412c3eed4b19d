//! The run of a startup child, which reads the log.

ghost use Rattle.std.specs.Prelude.{◌≡◌, ◌≢◌, List, IfSome, Some, Err};
ghost use Rattle.pm_query.specs.{declared.book.BookEntry.BookEntry, pm_record.declared.fault.RedoFault.RedoFault};
ghost use Rattle.pm_segment.specs.{pm_redo.Found.IsReason, Moment.moment, Moves.Moves, Redos.{HasReason, LeavesFiles, LeavesUnread}};
ghost use Rattle.pm_once_children.specs.AuxiliaryRuns.{StartNotes, refused_start, started_as};

use crate::alone::{Alone, Work};
use pm_aux::startup;
use pm_disk::Disk;
use pm_once_lives::{Home, Quiet};
use pm_outside::Chronicle;
use pm_query::{BookEntry, StoreNo};
use pm_record::RedoFault;
use pm_segment::Sole;
use pm_server::StartWhy;
use std::marker::Brand;

/// Reads the log, as the child with this pid, and answers how many commits stand; or why it wasn't to be read, which is none
/// where memory was short.
pub fn read_log<D: Disk, B: Chronicle<BookEntry>>(
    store: &mut Sole<D, B>,
    pid: u32,
) -> Result<u64, Option<StartWhy>>
    ensures notes { (noted : List BookEntry) × StartNotes pid (moment store.old).generation result noted
        × Moves noted (moment store.old) (moment store.new) }
    ensures reason { (fault : RedoFault) → result ≡ Err (Some (StartWhy.Redo fault))
        → IfSome (D.seen store.old.disk) (λ files. IsReason fault files) }
    ensures unread { (fault : RedoFault) → result ≡ Err (Some (StartWhy.Redo fault))
        → fault ≢ RedoFault.Disk → D.seen store.new.disk ≡ D.seen store.old.disk }
    ensures shut { (fault : RedoFault) → result ≡ Err (Some (StartWhy.Redo fault))
        → (moment store.new).live ≡ None }
{
    match redo_at_home::<Brand, D, B>(store, pid) {
        Ok(kept) => Ok(kept),
        Err(no) => Err(refusal(no)),
    }
}

// What the redo of that child came to, in a generation that is a type's.
fn redo_at_home<H: Home, D: Disk, B: Chronicle<BookEntry>>(
    store: &mut Sole<D, B>,
    pid: u32,
) -> Result<u64, StoreNo>
    requires { (moment store.old).generation ≡ H.home }
    ensures notes { (noted : List BookEntry)
        × StartNotes pid (moment store.old).generation (started_as result) noted
        × Moves noted (moment store.old) (moment store.new) }
    ensures reason { HasReason (moment store.old).files result }
    ensures kept { LeavesFiles (moment store.old).files (moment store.new).files result }
    ensures unread { LeavesUnread (moment store.new).live result }
{
    let life: Quiet<H> = Quiet::new(pid, store.generation());
    let mut alone = Alone {
        life,
        store,
        work: Work::ToRead,
    };
    let done = startup(&mut alone);
    alone.work.redone(done.fault)
}

// Why a log wasn't to be read whose redo was refused.
fn refusal(no: StoreNo) -> Option<StartWhy>
    ensures { result ≡ refused_start no }
{
    match no {
        StoreNo::Redo(RedoFault::NoMemory) => None,
        StoreNo::Redo(fault) => Some(StartWhy::Redo(fault)),
        _ => None,
    }
}
