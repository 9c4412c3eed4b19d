//! The run of the checkpointer at a shutdown, which writes the last checkpoint.

ghost use Rattle.std.specs.Prelude.{◌≡◌, ℕ, true, List, IfSome};
ghost use Rattle.pm_segment.specs.{pm_query.declared.book.BookEntry.BookEntry, Moment.moment, Moves.Moves, Redos.{FullAtLast, IsAtLastEpoch, IsCleanAt, MadeAfresh}};
ghost use Rattle.pm_once_children.specs.AuxiliaryRuns.{CloseNotes, closed_as, is_crashed, status_of_closed};

use crate::alone::{Alone, Work};
use pm_aux::checkpointer;
use pm_disk::Disk;
use pm_exit::Status;
use pm_once_lives::{Asked, Home};
use pm_outside::{Chronicle, Clock};
use pm_query::{BookEntry, Checkpointed, StoreNo};
use pm_segment::Sole;
use std::marker::Brand;
use std::sync::Wait;

/// What became of the last checkpoint.
#[derive(Clone, Copy, Debug, PartialEq, Eq)]
pub enum Closed {
    /// The log is clean.
    Made,
    /// The disk failed, and the child ended inside the store.
    Crashed,
    /// The log stands in its last epoch.
    Full,
    /// Memory was short.
    Short,
}

impl Closed {
    /// How the child ends.
    pub fn status(self) -> Status
        ensures { result ≡ status_of_closed self }
    {
        match self {
            Closed::Made => Status::Code(0),
            Closed::Crashed => Status::Signal(6),
            Closed::Full | Closed::Short => Status::Code(1),
        }
    }
}

impl Closed {
    /// Whether the child ends inside the store.
    pub fn is_crashed(self) -> bool
        ensures { result ≡ is_crashed self }
    {
        matches!(self, Closed::Crashed)
    }
}

/// Writes the last checkpoint, as the child with this pid.
pub fn write_last<R: Wait, D: Disk, B: Chronicle<BookEntry>, C: Clock>(
    rt: &R,
    store: &mut Sole<D, B>,
    clock: &C,
    pid: u32,
) -> Closed
    ensures notes { (noted : List BookEntry) × CloseNotes pid (moment store.old).generation result noted
        × Moves noted (moment store.old) (moment store.new) }
    ensures clean { result ≡ Closed.Made → (epoch : ℕ)
        × IsCleanAt epoch (moment store.new).live (moment store.new).rows (D.seen store.new.disk) }
    ensures full { result ≡ Closed.Full → IfSome (D.seen store.new.disk)
        (λ files. ∥ IsAtLastEpoch files ∥₁) }
{
    closing(close_at_home::<Brand, R, D, B, C>(rt, store, clock, pid))
}

// What the last checkpoint of that child came to, in a generation that is a type's.
fn close_at_home<H: Home, R: Wait, D: Disk, B: Chronicle<BookEntry>, C: Clock>(
    rt: &R,
    store: &mut Sole<D, B>,
    clock: &C,
    pid: u32,
) -> Result<Checkpointed, StoreNo>
    requires { (moment store.old).generation ≡ H.home }
    ensures notes { (noted : List BookEntry)
        × CloseNotes pid (moment store.old).generation (closed_as result) noted
        × Moves noted (moment store.old) (moment store.new) }
    ensures full { FullAtLast (moment store.new).files result }
    ensures afresh { MadeAfresh true (moment store.new) result }
{
    let life: Asked<H> = Asked::new(pid, store.generation());
    let mut alone = Alone {
        life,
        store,
        work: Work::ToClose,
    };
    let done = checkpointer(rt, &mut alone, clock);
    alone.work.made(done.fault)
}

// What the last checkpoint came to.
fn closing(made: Result<Checkpointed, StoreNo>) -> Closed
    ensures { result ≡ closed_as made }
{
    match made {
        Ok(Checkpointed::Done { .. }) => Closed::Made,
        Err(StoreNo::Disk | StoreNo::Broken { .. }) => Closed::Crashed,
        Err(StoreNo::Full { .. }) => Closed::Full,
        _ => Closed::Short,
    }
}
