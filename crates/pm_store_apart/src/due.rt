//! Whether a checkpoint is due.
use crate::apart::Apart;
use pm_disk::Disk;
use pm_outside::Chronicle;
use pm_query::{BookEntry, CHECKPOINT_BYTES, checkpoint_bytes_are_the_number};

impl<D: Disk, B: Chronicle<BookEntry>> Apart<D, B> {
    ghost use Rattle.std.specs.Prelude.{◌↔◌, false, IsTrue};
    ghost use Rattle.pm_store_apart.specs.{Moment.alone, Redos.IsDue};

    /// Whether its log is due for a checkpoint.
    pub fn is_due(&self) -> bool
        ensures { IsTrue result ↔ IsDue (alone self.now).live false }
    {
        checkpoint_bytes_are_the_number();
        match self.live {
            None => false,
            Some(live) => live.log.since.is_none() && CHECKPOINT_BYTES <= live.log.behind(),
        }
    }
}
