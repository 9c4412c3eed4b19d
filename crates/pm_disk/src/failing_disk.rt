// A disk that fails some of its calls.
ghost use Rattle.std.specs.Prelude.{◌≡◌, ◌≢◌, ◌⊎◌, ◌↔◌, ℕ, ◌+◌, ◌-◌, ◌^◌, ◌≤◌, ◌<◌, option_map, length, take, drop, IfOk, IfSome, IsErr, OnOk, OnErr};
ghost use Rattle.pm_disk.specs.Skipped.{added, inner_tick};

use crate::{Disk, DiskFault, Which};

/// A disk over another one: some calls fail without reaching it, and so does each at the last tick. The others are its
/// own. A failed call is a tick and a fault of this disk.
#[derive(Drop)]
pub struct FailingDisk<D: Disk> {
    disk: D,
    passes: u64,
    fails: u64,
    first: u64,
    skipped: u64,
    own: u64,
    ghost behind: { first ≤ D.ticks disk },
    ghost spent: { 0 < skipped → passes ≡ 0 },
    ghost still: { 0 < skipped → 0 < fails → D.ticks disk ≡ first },
    ghost stands: { inner_tick first skipped (D.ticks disk + skipped) ≡ D.ticks disk },
    ghost counted: { (D.ticks disk + skipped < 2 ^ 64) × (added (D.faults disk) own < 2 ^ 64) },
}

impl<D: Disk> FailingDisk<D> {
    ghost use Rattle.pm_disk.specs.{Cause.IsCounted, Files.Files, FailingDisk.{ChangesNoFile, IsDue, Wraps, failing_faults, failing_ticks, fails_left, inner_of, passes_left}};
    ghost use Rattle.std.specs.Prelude.{min};

    /// The call of this number alone fails, counted from 1. At 0 none does.
    pub fn blip(disk: D, at: u64) -> FailingDisk<D>
        ensures wraps { Wraps disk result }
        ensures passes { passes_left result ≡ at - 1 }
        ensures fails { fails_left result ≡ min at 1 }
    {
        FailingDisk::new(disk, at.saturating_sub(1), at.min(1))
    }

    /// So many calls are the disk's own, and each after them fails.
    pub fn fuse(disk: D, passes: u64) -> FailingDisk<D>
        ensures wraps { Wraps disk result }
        ensures passes { passes_left result ≡ passes }
        ensures fails { fails_left result ≡ 2 ^ 64 - 1 }
    {
        FailingDisk::new(disk, passes, u64::MAX)
    }

    // It passes on so many calls, fails the next `fails` ones, and passes on all after them.
    fn new(disk: D, passes: u64, fails: u64) -> FailingDisk<D>
        ensures wraps { Wraps disk result }
        ensures passes { passes_left result ≡ passes }
        ensures fails { fails_left result ≡ fails }
    {
        FailingDisk {
            disk,
            passes,
            fails,
            first: 0,
            skipped: 0,
            own: 0,
        }
    }

    /// The disk within.
    pub fn inner(&self) -> &D
        ensures { result.now ≡ inner_of self.now }
    {
        &self.disk
    }

    /// The disk within, as it stands.
    pub fn into_inner(self) -> D
        ensures disk { result ≡ inner_of self }
        ensures seen { D.seen result ≡ ⟦<FailingDisk<D> as Disk>⟧.seen self }
        ensures images { (image : Files) → D.images result (D.ticks result) image
            ↔ ⟦<FailingDisk<D> as Disk>⟧.images self (⟦<FailingDisk<D> as Disk>⟧.ticks self) image }
    {
        let FailingDisk {
            disk,
            passes: _,
            fails: _,
            first: _,
            skipped: _,
            own: _,
        } = self;
        disk
    }

    // Counts a call. It fails where it is due, and then it has gone by.
    fn enter(&mut self) -> Result<(), DiskFault>
        ensures inner { self.new.disk ≡ self.old.disk }
        ensures passes { self.new.passes ≡ self.old.passes - 1 }
        ensures passing { 0 < self.old.passes → self.new.fails ≡ self.old.fails }
        ensures failing { self.old.passes ≡ 0 → self.new.fails ≡ self.old.fails - 1 }
        ensures ok { OnOk result ((0 < self.old.passes) ⊎ (self.old.fails ≡ 0)) }
        ensures ok_tick { OnOk result (failing_ticks self.old < 2 ^ 64 - 1) }
        ensures ok_first { OnOk result (self.new.first ≡ self.old.first) }
        ensures ok_skipped { OnOk result (self.new.skipped ≡ self.old.skipped) }
        ensures ok_own { OnOk result (self.new.own ≡ self.old.own) }
        ensures due { OnErr result (IsDue self.old) }
        ensures goes { OnErr result (ChangesNoFile self.old self.new) }
        ensures rose { OnErr result (IsCounted (failing_faults self.old) (failing_faults self.new)
            (IsErr result)) }
    {
        let within = self.disk.ticks();
        let has_tick = within + self.skipped < u64::MAX;
        let passes = self.passes > 0 || self.fails == 0;
        if self.passes == 0 {
            self.fails = self.fails.saturating_sub(1);
        }
        self.passes = self.passes.saturating_sub(1);
        if has_tick && passes {
            return Ok(());
        }
        self.own = self.own.saturating_add(1);
        if has_tick {
            self.first = within;
            self.skipped += 1;
        }
        Err(DiskFault)
    }
}

impl<D: Disk> Disk for FailingDisk<D> {
    ghost use Rattle.std.proofs.Common.{sym, subst};
    ghost use Rattle.pm_disk.specs.{Cause.IsCounted, Disk.{Elapses, Follows, Only, TellsStill, Torn}, Files.{file_of, overwritten, with_file}, FailingDisk.{ChangesNoFile, FailsWhenDue, failing_faults, failing_images, failing_ticks, inner_of}};

    ghost seen = { λ failing. D.seen (inner_of failing) };

    ghost ticks = { failing_ticks };

    ghost images = { failing_images };

    ghost faults = { failing_faults };

    ghost reads_as_left = { λ failing.
        subst (λ (tick : ℕ). IfSome (D.seen (inner_of failing)) (D.images (inner_of failing) tick))
        (sym failing.stands) (D.reads_as_left (inner_of failing)) };

    ghost counted = { λ failing. failing.counted };

    fn len(&mut self, file: Which) -> Result<u64, DiskFault>
        ensures length { IfOk result (λ n. IfSome (D.seen (inner_of self.old))
            (λ files. n ≡ length (file_of files file))) }
        ensures goes { ChangesNoFile self.old self.new }
        ensures due { FailsWhenDue self.old self.new (IsErr result) }
        ensures cause { IsCounted (failing_faults self.old) (failing_faults self.new)
            (IsErr result) }
    {
        self.enter()?;
        self.disk.len(file)
    }

    fn read(&mut self, file: Which, at: u64, into: &mut [u8]) -> Result<(), DiskFault>
        requires { IfSome (D.seen (inner_of self.old))
            (λ files. at + length into.old ≤ length (file_of files file)) }
        ensures bytes { OnOk result (IfSome (D.seen (inner_of self.old)) (λ files.
            into.new ≡ take (length into.old) (drop at (file_of files file)))) }
        ensures goes { ChangesNoFile self.old self.new }
        ensures due { FailsWhenDue self.old self.new (IsErr result) }
        ensures cause { IsCounted (failing_faults self.old) (failing_faults self.new)
            (IsErr result) }
    {
        self.enter()?;
        self.disk.read(file, at, into)
    }

    fn write(&mut self, file: Which, at: u64, bytes: &[u8]) -> Result<(), DiskFault>
        requires { IfSome (D.seen (inner_of self.old)) (λ files. at ≤ length (file_of files file)) }
        ensures written { OnOk result (D.seen (inner_of self.new) ≡ option_map
            (λ files. with_file files file (overwritten (file_of files file) at bytes.now))
            (D.seen (inner_of self.old))) }
        ensures torn { OnErr result (TellsStill (Torn file at (length bytes.now))
            (D.seen (inner_of self.old)) (D.seen (inner_of self.new))) }
        ensures images { Follows (Torn file at (length bytes.now))
            (failing_images self.old (failing_ticks self.old))
            (failing_images self.new (failing_ticks self.new)) }
        ensures time { Elapses (failing_ticks self.old) (failing_ticks self.new)
            (failing_images self.old) (failing_images self.new) }
        ensures due { FailsWhenDue self.old self.new (IsErr result) }
        ensures cause { IsCounted (failing_faults self.old) (failing_faults self.new)
            (IsErr result) }
    {
        self.enter()?; // a write that is due doesn't reach the disk within
        self.disk.write(file, at, bytes)
    }

    fn sync(&mut self, file: Which) -> Result<(), DiskFault>
        ensures durable { OnOk result (IfSome (D.seen (inner_of self.old)) (λ files.
            Only file (file_of files file) (failing_images self.new (failing_ticks self.new)))) }
        ensures goes { ChangesNoFile self.old self.new }
        ensures due { FailsWhenDue self.old self.new (IsErr result) }
        ensures cause { IsCounted (failing_faults self.old) (failing_faults self.new)
            (IsErr result) }
    {
        self.enter()?;
        self.disk.sync(file)
    }

    fn ticks(&self) -> u64 {
        self.disk.ticks() + self.skipped
    }

    fn faults(&self) -> u64 {
        self.disk.faults().saturating_add(self.own)
    }
}
