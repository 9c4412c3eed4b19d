//! The disk over the files `a.log` and `b.log` of a folder.
ghost use Rattle.std.specs.Prelude.{◌<◌, ◌^◌};

use crate::fault::{FileFault, Step};
use crate::log_file::LogFile;
use pm_disk::{Disk, DiskFault, Which};
use pm_outside_faults::Faults;
use std::alloc::{AllocError, Global};
use std::io;

/// The two log files of a folder. A file that isn't there reads as empty, and the first write to it makes it. Any other
/// trouble in opening one is a fault of the call that needs it. Whoever opens `a.log` locks it up to his end, so that no
/// two servers work on one folder: for the second one the lock is a fault.
#[derive(Drop)]
pub struct LogFiles {
    files: Pair,
    ticks: u64,
    faults: Faults<FileFault>,
    ghost counted: { ticks < 2 ^ 64 },
}

#[derive(Drop)]
struct Pair {
    a: LogFile,
    b: LogFile,
}

impl Pair {
    fn get(&mut self, which: Which) -> &mut LogFile {
        match which {
            Which::A => &mut self.a,
            Which::B => &mut self.b,
        }
    }
}

impl LogFiles {
    ghost use Rattle.std.specs.Prelude.{◌≡◌, ◌↔◌, ◌-◌, IfErr, IfOk, IsErr, IsSome, MatchResult, None, Ok, Some};
    ghost use Rattle.pm_disk.specs.{Cause.IsCounted, Disk.next_tick};
    ghost use Rattle.pm_outside_faults.specs.Faults.{StaysFirst};
    ghost use Rattle.pm_outside_files.specs.Faults.{disk_faults, first_disk_fault};

    /// The files of this folder. No call has touched them yet.
    pub fn of(rt: HostRuntime, alloc: Global, folder: &str) -> Result<LogFiles, AllocError>
        ensures { IfOk result (λ disk. disk_faults disk ≡ 0) }
    {
        Ok(LogFiles {
            files: Pair {
                a: LogFile::of(rt, alloc, folder, "a.log", true)?,
                b: LogFile::of(rt, alloc, folder, "b.log", false)?,
            },
            ticks: 0,
            faults: Faults::new(),
        })
    }

    /// What failed first.
    pub fn first_fault(&self) -> Option<FileFault>
        ensures first { result ≡ first_disk_fault self.now }
        ensures some { IsSome result ↔ (0 < disk_faults self.now) }
    {
        self.faults.first()
    }

    // Counts the call. At the last tick it has failed, and nothing is to be touched.
    fn enter(&mut self, which: Which) -> Result<(), DiskFault>
        ensures tick { self.new.ticks ≡ next_tick self.old.ticks }
        ensures last { self.old.ticks ≡ 2 ^ 64 - 1 → IsErr result }
        ensures cause { IsCounted (disk_faults self.old) (disk_faults self.new) (IsErr result) }
        ensures kept { StaysFirst (first_disk_fault self.old) (first_disk_fault self.new) }
    {
        let Some(ticks) = self.ticks.checked_add(1) else {
            let reason = io::Error::other("no call is left");
            let fault = self.files.get(which).fault(Step::Open, reason);
            return self.answer(Err(fault));
        };
        self.ticks = ticks;
        Ok(())
    }

    // What the call answers, once its failure is counted.
    fn answer<T: Drop>(&mut self, done: Result<T, FileFault>) -> Result<T, DiskFault>
        ensures answer { MatchResult done (λ value. result ≡ Ok value) (λ _. IsErr result) }
        ensures ticks { self.new.ticks ≡ self.old.ticks }
        ensures cause { IsCounted (disk_faults self.old) (disk_faults self.new) (IsErr result) }
        ensures kept { StaysFirst (first_disk_fault self.old) (first_disk_fault self.new) }
        ensures first { IfErr done (λ fault. first_disk_fault self.old ≡ None
            → first_disk_fault self.new ≡ Some fault) }
    {
        match done {
            Ok(value) => Ok(value),
            Err(fault) => {
                self.faults.note(fault);
                Err(DiskFault)
            }
        }
    }
}

impl Disk for LogFiles {
    ghost use Rattle.std.specs.Prelude.{None, ⊤};
    ghost use Rattle.pm_outside_files.specs.Faults.{disk_faults};

    // It tells nothing of the files, and claims nothing of a stop.
    ghost seen = { λ _. None };

    ghost ticks = { λ disk. disk.ticks };

    ghost images = { λ _ _ _. ⊤ };

    ghost faults = { disk_faults };

    ghost reads_as_left = { λ _. tt };

    ghost counted = { λ disk. (disk.counted, disk.faults.counted) };

    fn len(&mut self, file: Which) -> Result<u64, DiskFault> {
        self.enter(file)?;
        let done = self.files.get(file).len();
        self.answer(done)
    }

    fn read(&mut self, file: Which, at: u64, into: &mut [u8]) -> Result<(), DiskFault> {
        self.enter(file)?;
        let done = self.files.get(file).read(at, into);
        self.answer(done)
    }

    fn write(&mut self, file: Which, at: u64, bytes: &[u8]) -> Result<(), DiskFault> {
        self.enter(file)?;
        let done = self.files.get(file).write(at, bytes);
        self.answer(done)
    }

    fn sync(&mut self, file: Which) -> Result<(), DiskFault> {
        self.enter(file)?;
        let done = self.files.get(file).sync();
        self.answer(done)
    }

    fn ticks(&self) -> u64 {
        self.ticks
    }

    fn faults(&self) -> u64 {
        self.faults.count()
    }
}
