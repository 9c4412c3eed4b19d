//! What a store keeps of its run, for the layers above. The functions make no call of the disk.

use crate::segment::Segment;
use pm_disk::Disk;
use pm_outside::Chronicle;
use pm_query::BookEntry;
use pm_store_apart::{Commits, history_laws};

impl<D: Disk, B: Chronicle<BookEntry>> Segment<D, B> {
    ghost use Rattle.std.specs.Prelude.{◌≡◌, ◌+◌, [], length, IfSome};
    ghost use Rattle.pm_query.specs.Book.{Base};
    ghost use Rattle.pm_store_apart.specs.{Fronts.{flushed_of, whole_of}, Runs.{CanBeRead, IsReplay, IsRun, LeavesAcknowledged, StaysClean}, Waits.needs_alone, Stands.{GoesFrom, IsSure, Origin}};
    ghost use Rattle.pm_segment.specs.Moment.{Told, moment};

    /// The law of a store after its first redo, in whichever generation. Where book and disk tell, and in the first
    /// generation wherever the book tells, the book is legal from its base; after a redo of the generation rows and log
    /// are its replay, the latter up to a fault of the disk. Where both tell, at every tick since the store got the disk a
    /// stop leaves what a durable run leaves; the files as they read, and whatever a stop leaves now, hold every
    /// acknowledged commit, also after such a fault.
    pub fn keeps_its_run(&self)
        ensures replay { (origin : Origin) (base : Base) → GoesFrom origin base (moment self.now)
            → IfSome (moment self.now).book (λ book. IsSure (moment self.now)
            → IsReplay base (moment self.now) book) }
        ensures run { (origin : Origin) (base : Base) → GoesFrom origin base (moment self.now)
            → Told (moment self.now) (IsRun origin base (moment self.now)) }
        ensures leaves { (origin : Origin) (base : Base) → GoesFrom origin base (moment self.now)
            → Told (moment self.now) (LeavesAcknowledged base (moment self.now)) }
    {
        history_laws();
        let _disk = &self.disk;
    }

    /// The law of what waits for the log. So many more commits were taken than are flushed, and so many bytes they need; there
    /// are none where commits are written at once.
    pub fn tells_what_waits(&self)
        ensures fronts { IfSome (moment self.now).live (λ live.
            whole_of live ≡ flushed_of live + length (moment self.now).staged) }
        ensures needs { IfSome (moment self.now).live (λ live.
            live.needs ≡ needs_alone (moment self.now).staged) }
        ensures at_once { (moment self.now).commits ≡ Commits.AtOnce
            → (moment self.now).staged ≡ [] }
    {
        let _disk = &self.disk;
    }

    /// The law of a clean log, in whichever generation. Where the book tells that a checkpoint of the generation has left the
    /// log clean, it stays so while the disk doesn't fail: the files stand for all rows, clean, with no commit after them.
    pub fn stays_clean(&self)
        ensures { (origin : Origin) (base : Base) → GoesFrom origin base (moment self.now)
            → IfSome (moment self.now).book (λ book. IsSure (moment self.now)
            → StaysClean (moment self.now) book) }
    {
        let _disk = &self.disk;
    }

    /// The law of the files of a store after its first redo, in whichever generation. Where book and disk tell, a redo of
    /// the files as they read finds neither want of a cluster, nor damage, nor one epoch twice: it is refused by a fault of
    /// the disk, or for want of memory, alone.
    pub fn reads_its_files(&self)
        ensures { (origin : Origin) (base : Base) → GoesFrom origin base (moment self.now)
            → Told (moment self.now) (λ book. CanBeRead (moment self.now)) }
    {
        let _disk = &self.disk;
    }
}
