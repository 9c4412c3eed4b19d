//! A batch, while the disk is lent for it.

use pm_disk::Disk;
use pm_log::{Log, LogFault};
use pm_query::StoreNo;
use pm_rows::Commit;
use std::alloc::Global;

/// A copy of the oldest commits that are staged, and the log as it was then.
#[derive(Drop)]
pub struct Batch {
    pub(crate) log: Log,
    pub(crate) commits: Vec<Commit>,
    pub(crate) alloc: Global,
}

/// What asking for the disk comes to.
#[derive(Drop)]
pub enum Lending {
    /// The disk isn't needed: this is the answer of the flush.
    Answered(Result<u64, StoreNo>),
    /// The disk is lent for a batch.
    Lent(Batch),
}

/// What the writing of a batch comes to.
#[derive(Clone, Copy, Debug, PartialEq, Eq)]
pub enum Written {
    /// The batch is durable, and in the log. So many calls the disk has had.
    Durable { log: Log, tick: u64 },
    /// The disk failed at it, and has broken the log.
    Failed { log: Log },
    /// Nothing was written.
    NoMemory,
}

impl Batch {
    ghost use Rattle.pm_store_apart.specs.Lending.{IsReadyFor, Wrote};

    /// Writes the batch into the log, and makes it durable. It needs nothing of the store but its disk.
    pub fn write<D: Disk>(&self, disk: &mut D) -> Written
        requires { IsReadyFor self.now (D.seen disk.old) }
        ensures { Wrote D.Disk disk.old disk.new self.now result }
    {
        let mut log = self.log;
        match log.append(self.alloc, disk, self.commits.as_slice()) {
            Ok(receipt) => Written::Durable {
                log,
                tick: receipt.tick,
            },
            Err(LogFault::Disk) => Written::Failed { log },
            Err(LogFault::NoMemory) => Written::NoMemory,
            // There was room for the batch, and the log wasn't broken.
            Err(LogFault::Full { need: _, room: _ }) => unreachable!(),
            Err(LogFault::Broken { since: _ }) => unreachable!(),
        }
    }
}
