//! The store as it lies in the table's slot.
ghost use Rattle.pm_segment.specs.{Moment.moment, pm_store_apart.declared.commits.Commits.Commits};
ghost use Rattle.std.specs.Prelude.{◌≡◌, None};
ghost use Rattle.pm_store_shared.specs.Laid.{HasDisk, IsLaid};

use pm_disk::Disk;
use pm_log::Making;
use pm_outside::Chronicle;
use pm_query::BookEntry;
use pm_segment::{Apart, Segment};

/// The store apart from its disk, and the disk unless it is lent for a batch or for a piece of a checkpoint.
#[derive(Drop)]
pub(crate) struct Place<D: Disk, B: Chronicle<BookEntry>> {
    pub(crate) apart: Apart<D, B>,
    pub(crate) disk: Option<D>,
    // The log's other file, while it is made and no piece of it is written.
    pub(crate) making: Option<Making>,
}

impl<D: Disk, B: Chronicle<BookEntry>> Place<D, B> {
    /// A store that stages its commits, with its disk.
    pub(crate) fn of(store: Segment<D, B>) -> Place<D, B>
        requires { (moment store).commits ≡ Commits.Staged }
        ensures laid { IsLaid store result }
        ensures bare { result.making ≡ None }
    {
        let (apart, disk) = store.part();
        Place {
            apart,
            disk: Some(disk),
            making: None,
        }
    }

    /// The store, where its disk isn't lent. A file that is being made is given up.
    pub(crate) fn into_store(self) -> Segment<D, B>
        requires { HasDisk self }
        ensures { IsLaid result self }
    {
        let Place {
            apart,
            disk,
            making: _,
        } = self;
        let Some(disk) = disk else { unreachable!() };
        Segment::join(apart, disk)
    }
}
