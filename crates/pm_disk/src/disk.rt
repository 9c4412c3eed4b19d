// What a device call does to the two files, and what a stop may leave of them.
ghost use Rattle.std.specs.Prelude.{◌≡◌, ◌+◌, ◌-◌, ◌^◌, ◌≤◌, ◌<◌, ℕ, length, take, drop, IfOk, IfSome, IsErr, OnOk, OnErr, Option, option_map};
ghost use Rattle.pm_disk.specs.{Files.{Files, file_of, with_file, overwritten}, Disk.{Elapses, Follows, Only, StopsNoWider, Torn, TellsStill}, Cause.IsCounted};

use thiserror::Error;

/// One of the two files of the commit log.
#[derive(Clone, Copy, Debug, PartialEq, Eq)]
pub enum Which {
    A,
    B,
}

impl Which {
    ghost use Rattle.pm_disk.specs.Files.{other};

    /// The file beside this one.
    pub fn other(self) -> Which
        ensures { result ≡ other self }
    {
        match self {
            Which::A => Which::B,
            Which::B => Which::A,
        }
    }
}

/// The disk has failed, as its count of faults shows.
#[derive(Clone, Copy, Debug, PartialEq, Eq, Error)]
#[error("disk fault")]
pub struct DiskFault;

/// Two files. Each call is one tick of the disk, whether it fails or not. At the last tick, 2^64 - 1, every further
/// call fails and changes no file.
///
/// Between two syncs each range written, and whatever lies past the old end, may hold any bytes after a stop; bytes
/// outside stay. After a sync that succeeded a stop leaves what a read gives. The stops after tick `t` are those
/// between call `t` and the next one, those inside call `t`, and those inside the next call where it writes nothing.
pub trait Disk {
    /// The files as they read. A disk that doesn't tell them has none, and then no clause speaks of content.
    ghost seen: { Self → Option Files };

    /// How many calls it has had, up to 2^64 - 1. It never falls.
    ghost ticks: { Self → ℕ };

    /// What a stop after that many calls may leave.
    ghost images: { Self → ℕ → Files → Type 0 };

    /// How often it has failed, up to 2^64 - 1. It never falls.
    ghost faults: { Self → ℕ };

    /// The length of a file, in bytes.
    fn len(&mut self, file: Which) -> Result<u64, DiskFault>
        ensures length { IfOk result (λ n. IfSome (seen self.old)
            (λ files. n ≡ length (file_of files file))) }
        ensures seen { seen self.new ≡ seen self.old }
        ensures images { StopsNoWider (images self.old (ticks self.old))
            (images self.new (ticks self.new)) }
        ensures time { Elapses (ticks self.old) (ticks self.new) (images self.old)
            (images self.new) }
        ensures last { ticks self.old ≡ 2 ^ 64 - 1 → IsErr result }
        ensures cause { IsCounted (faults self.old) (faults self.new) (IsErr result) };

    /// Fills the slice with the bytes from this place on.
    fn read(&mut self, file: Which, at: u64, into: &mut [u8]) -> Result<(), DiskFault>
        requires { IfSome (seen self.old) (λ files. at + length into.old ≤ length
            (file_of files file)) }
        ensures bytes { OnOk result (IfSome (seen self.old) (λ files.
            into.new ≡ take (length into.old) (drop at (file_of files file)))) }
        ensures seen { seen self.new ≡ seen self.old }
        ensures images { StopsNoWider (images self.old (ticks self.old))
            (images self.new (ticks self.new)) }
        ensures time { Elapses (ticks self.old) (ticks self.new) (images self.old)
            (images self.new) }
        ensures last { ticks self.old ≡ 2 ^ 64 - 1 → IsErr result }
        ensures cause { IsCounted (faults self.old) (faults self.new) (IsErr result) };

    /// Writes over what stands there, and past the end. A write that fails may have written any bytes in its range
    /// and past the old end.
    fn write(&mut self, file: Which, at: u64, bytes: &[u8]) -> Result<(), DiskFault>
        requires { IfSome (seen self.old) (λ files. at ≤ length (file_of files file)) }
        ensures written { OnOk result (seen self.new ≡ option_map (λ files.
            with_file files file (overwritten (file_of files file) at bytes.now)) (seen self.old)) }
        ensures torn { OnErr result (TellsStill (Torn file at (length bytes.now)) (seen self.old)
            (seen self.new)) }
        ensures images { Follows (Torn file at (length bytes.now))
            (images self.old (ticks self.old)) (images self.new (ticks self.new)) }
        ensures time { Elapses (ticks self.old) (ticks self.new) (images self.old)
            (images self.new) }
        ensures last { ticks self.old ≡ 2 ^ 64 - 1 → IsErr result }
        ensures last_keeps { ticks self.old ≡ 2 ^ 64 - 1 → seen self.new ≡ seen self.old }
        ensures cause { IsCounted (faults self.old) (faults self.new) (IsErr result) };

    /// Makes one file durable: from here on a stop leaves of it what a read gives, up to the next write.
    fn sync(&mut self, file: Which) -> Result<(), DiskFault>
        ensures durable { OnOk result (IfSome (seen self.old) (λ files.
            Only file (file_of files file) (images self.new (ticks self.new)))) }
        ensures seen { seen self.new ≡ seen self.old }
        ensures images { StopsNoWider (images self.old (ticks self.old))
            (images self.new (ticks self.new)) }
        ensures time { Elapses (ticks self.old) (ticks self.new) (images self.old)
            (images self.new) }
        ensures last { ticks self.old ≡ 2 ^ 64 - 1 → IsErr result }
        ensures cause { IsCounted (faults self.old) (faults self.new) (IsErr result) };

    /// How many calls it has had.
    fn ticks(&self) -> u64
        ensures { result ≡ ticks self.now };

    /// How often it has failed, up to 2^64 - 1.
    fn faults(&self) -> u64
        ensures { result ≡ faults self.now };

    /// The files as they read are one of the outcomes of a stop at this moment.
    ghost reads_as_left: { (disk : Self) → IfSome (seen disk) (images disk (ticks disk)) };

    /// Both counts are numbers of 64 bits.
    ghost counted: { (disk : Self) → (ticks disk < 2 ^ 64) × (faults disk < 2 ^ 64) };
}
