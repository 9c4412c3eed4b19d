// A disk of two files in memory.
ghost use Rattle.std.specs.Prelude.{◌≡◌, ◌↔◌, ℕ, ◌+◌, ◌-◌, ◌^◌, ◌≤◌, ◌<◌, [], Option, Some, option_map, length, take, drop, IfOk, IfSome, IsErr, IsOk, OnOk, OnErr};
ghost use Rattle.pm_disk.specs.Past.{IsKept, MayLeave, state_at};

use crate::mem_file::MemFile;
use crate::{Disk, DiskFault, Which};
use std::alloc::{AllocError, Global};

/// Two files in memory, of length 0 at first. A call fails at the last tick, 2^64 - 1, and else only where a write or a
/// sync finds no memory for its entry. It keeps each write and sync, so it grows with every one of them.
#[derive(Drop)]
pub struct MemDisk {
    a: MemFile,
    b: MemFile,
    ticks: u64,
    faults: u64,
    ghost a_kept: { IsKept a.past.items a.bytes.items ticks },
    ghost b_kept: { IsKept b.past.items b.bytes.items ticks },
    ghost counted: { (ticks < 2 ^ 64) × (faults < 2 ^ 64) },
}

impl MemDisk {
    ghost use Rattle.pm_disk.specs.{Files.{Files, file_of}, Cause.{IsCounted, Rose}, MemDisk.{ChangesNoFile, Stays, Syncs, Writes, files_of, stopped_files}};

    /// A disk with two files of length 0.
    pub fn new(alloc: Global) -> MemDisk
        ensures seen { ⟦<MemDisk as Disk>⟧.seen result ≡ Some (record { a = []; b = [] }) }
        ensures ticks { ⟦<MemDisk as Disk>⟧.ticks result ≡ 0 }
        ensures images { (tick : ℕ) (image : Files) → ⟦<MemDisk as Disk>⟧.images result tick image
            → image ≡ record { a = []; b = [] } }
        ensures faults { ⟦<MemDisk as Disk>⟧.faults result ≡ 0 }
    {
        MemDisk {
            a: MemFile::new(alloc),
            b: MemFile::new(alloc),
            ticks: 0,
            faults: 0,
        }
    }

    /// The bytes of a file as they read.
    pub fn file(&self, file: Which) -> &[u8]
        ensures tells { ⟦<MemDisk as Disk>⟧.seen self.now ≡ Some (files_of self.now) }
        ensures bytes { result.now ≡ file_of (files_of self.now) file }
    {
        match file {
            Which::A => &self.a.bytes,
            Which::B => &self.b.bytes,
        }
    }

    /// A disk with the files that a stop after so many ticks may leave: each reads as it did there, but for the places
    /// written since its last sync. In place of each such write stand the bytes of the fill, over and over from its
    /// first on, or zeros where it is empty. Past its length at that sync a file has at most `beyond` bytes.
    pub fn after_stop(&self, tick: u64, fill: &[u8], beyond: u64) -> Result<MemDisk, AllocError>
        ensures left { IfOk result (λ disk. ⟦<MemDisk as Disk>⟧.images self.now tick
            (files_of disk)) }
        ensures filled { IfOk result (λ disk. files_of disk ≡ stopped_files self.now tick fill.now
            beyond) }
        ensures only { IfOk result (λ disk. (t : ℕ) (image : Files)
            → ⟦<MemDisk as Disk>⟧.images disk t image → image ≡ files_of disk) }
        ensures ticks { IfOk result (λ disk. ⟦<MemDisk as Disk>⟧.ticks disk ≡ 0) }
        ensures faults { IfOk result (λ disk. ⟦<MemDisk as Disk>⟧.faults disk ≡ 0) }
    {
        let a = self.a.after_stop(tick, fill, beyond)?;
        let b = self.b.after_stop(tick, fill, beyond)?;
        Ok(MemDisk {
            a,
            b,
            ticks: 0,
            faults: 0,
        })
    }

    // Counts a call that fails and changes nothing.
    fn fail(&mut self) -> DiskFault
        ensures keeps { ChangesNoFile self.old self.new }
        ensures later { self.old.faults ≤ self.new.faults }
        ensures rose { Rose self.old.faults self.new.faults }
    {
        self.ticks = self.ticks.saturating_add(1);
        self.faults = self.faults.saturating_add(1);
        DiskFault
    }

    // Counts a call that changes nothing. It fails at the last tick alone.
    fn pass(&mut self) -> Result<(), DiskFault>
        ensures keeps { ChangesNoFile self.old self.new }
        ensures last { IsErr result ↔ (self.old.ticks ≡ 2 ^ 64 - 1) }
        ensures cause { IsCounted self.old.faults self.new.faults (IsErr result) }
    {
        if self.ticks == u64::MAX {
            return Err(self.fail());
        }
        self.ticks += 1;
        Ok(())
    }

    // Writes and counts the call. An `Err` counts nothing.
    fn write_to(&mut self, file: Which, at: u64, bytes: &[u8]) -> Result<(), AllocError>
        requires { self.old.ticks < 2 ^ 64 - 1 }
        ensures ok { OnOk result (Writes self.old self.new file at bytes.now) }
        ensures err { OnErr result (Stays self.old self.new) }
        ensures faults { self.new.faults ≡ self.old.faults }
    {
        match file {
            Which::A => self.a.write(self.ticks, at, bytes)?,
            Which::B => self.b.write(self.ticks, at, bytes)?,
        }
        self.ticks += 1;
        Ok(())
    }

    // Adds a sync and counts the call. An `Err` counts nothing.
    fn sync_to(&mut self, file: Which) -> Result<(), AllocError>
        requires { self.old.ticks < 2 ^ 64 - 1 }
        ensures ok { OnOk result (Syncs self.old self.new file) }
        ensures err { OnErr result (Stays self.old self.new) }
        ensures faults { self.new.faults ≡ self.old.faults }
    {
        match file {
            Which::A => self.a.sync(self.ticks)?,
            Which::B => self.b.sync(self.ticks)?,
        }
        self.ticks += 1;
        Ok(())
    }
}

impl Disk for MemDisk {
    ghost use Rattle.pm_disk.specs.{Cause.IsCounted, Files.file_of, MemDisk.{MayLeaveAt, ChangesNoFile, Syncs, Writes, files_of, mem_faults, mem_ticks}};

    ghost seen = { λ disk. Some (files_of disk) };

    ghost ticks = { mem_ticks };

    ghost images = { MayLeaveAt };

    ghost faults = { mem_faults };

    ghost reads_as_left = { λ disk. record { a = disk.a_kept.left; b = disk.b_kept.left } };

    ghost counted = { λ disk. disk.counted };

    // It takes no memory, so it fails at the last tick alone.
    fn len(&mut self, file: Which) -> Result<u64, DiskFault>
        ensures length { IfOk result (λ n. n ≡ length (file_of (files_of self.old) file)) }
        ensures keeps { ChangesNoFile self.old self.new }
        ensures last { IsErr result ↔ (mem_ticks self.old ≡ 2 ^ 64 - 1) }
        ensures cause { IsCounted (mem_faults self.old) (mem_faults self.new) (IsErr result) }
    {
        self.pass()?;
        Ok(self.file(file).len() as u64)
    }

    // It takes no memory either.
    fn read(&mut self, file: Which, at: u64, into: &mut [u8]) -> Result<(), DiskFault>
        requires { at + length into.old ≤ length (file_of (files_of self.old) file) }
        ensures bytes { OnOk result (into.new ≡ take (length into.old)
            (drop at (file_of (files_of self.old) file))) }
        ensures keeps { ChangesNoFile self.old self.new }
        ensures last { IsErr result ↔ (mem_ticks self.old ≡ 2 ^ 64 - 1) }
        ensures cause { IsCounted (mem_faults self.old) (mem_faults self.new) (IsErr result) }
    {
        self.pass()?;
        let start = at as usize;
        into.copy_from_slice(&self.file(file)[start..start + into.len()]);
        Ok(())
    }

    // Where it fails, at the last tick or for want of memory, nothing changes but the counts.
    fn write(&mut self, file: Which, at: u64, bytes: &[u8]) -> Result<(), DiskFault>
        requires { at ≤ length (file_of (files_of self.old) file) }
        ensures ok { OnOk result (Writes self.old self.new file at bytes.now) }
        ensures err { OnErr result (ChangesNoFile self.old self.new) }
        ensures last { mem_ticks self.old ≡ 2 ^ 64 - 1 → IsErr result }
        ensures cause { IsCounted (mem_faults self.old) (mem_faults self.new) (IsErr result) }
    {
        if self.ticks == u64::MAX {
            return Err(self.fail());
        }
        match self.write_to(file, at, bytes) {
            Ok(()) => Ok(()),
            Err(_) => Err(self.fail()),
        }
    }

    // The same holds here.
    fn sync(&mut self, file: Which) -> Result<(), DiskFault>
        ensures ok { OnOk result (Syncs self.old self.new file) }
        ensures err { OnErr result (ChangesNoFile self.old self.new) }
        ensures last { mem_ticks self.old ≡ 2 ^ 64 - 1 → IsErr result }
        ensures cause { IsCounted (mem_faults self.old) (mem_faults self.new) (IsErr result) }
    {
        if self.ticks == u64::MAX {
            return Err(self.fail());
        }
        match self.sync_to(file) {
            Ok(()) => Ok(()),
            Err(_) => Err(self.fail()),
        }
    }

    fn ticks(&self) -> u64 {
        self.ticks
    }

    fn faults(&self) -> u64 {
        self.faults
    }
}
