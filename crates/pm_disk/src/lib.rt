//! The disk under the commit log: two files, what a stop may leave of them, and disks in memory that keep that model.
#![tactic(auto)]

mod disk;
mod failing_disk;
mod mem_disk;
mod mem_file;

pub use disk::{Disk, DiskFault, Which};
pub use failing_disk::FailingDisk;
pub use mem_disk::MemDisk;
