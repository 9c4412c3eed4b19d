//! A store, taken apart at its end.

ghost use Rattle.std.specs.Prelude.{List};
ghost use Rattle.pm_store_shared.specs.{pm_query.declared.book.BookEntry.BookEntry, Behind.Behind};
ghost use Rattle.pm_server.specs.Views.{disk_view};
ghost use Rattle.pm_store_remains.specs.Remains.{Remains};

use pm_disk::Disk;
use pm_outside::Chronicle;
use pm_query::BookEntry;
use pm_segment::Segment;

/// Gives the disk and the book of a store back. It takes no memory and makes no call of the disk.
pub fn part<D: Disk, B: Chronicle<BookEntry>>(store: Segment<D, B>) -> (D, B)
    ensures { (first : D) (log : List BookEntry) → Behind first log store
        → Remains (disk_view D.Disk first) (disk_view D.Disk result.0) (B.entries result.1) log }
{
    store.keeps_its_run();
    store.stays_clean();
    store.reads_its_files();
    store.into_parts()
}
