//! The commit log on the disk, as it goes on after a redo.
//!
//! A batch counts where the gate in front of it is open. `append` writes everything behind the closed gate first and
//! makes that durable, and only then opens the gate, so a stop leaves the batch whole or not at all.

ghost use Rattle.std.specs.Prelude.{All, ◌≡◌, ◌≢◌, ◌+◌, ◌-◌, ◌^◌, ◌≤◌, ◌<◌, [], ◌∷◌, ◌++◌, ℕ, ◌↔◌, length, IfOk, IfSome, IsErr, IsSome, OnOk, OnErr, Some, None};
ghost use Rattle.std.specs.FinMap as map;
ghost use Rattle.pm_record.specs.{pm_disk.{Cause.IsCounted, Disk.TellsStill, Files.{Files, file_of, other}}, pm_rows.{Limits.IsWithinRowLimits, LogSize.need_of, Standing.after, Batch.IsBatch}, Spelling.{base_bytes, batch_bytes}, StandsFor.{Content, IsRow, MayAppend, checkpointed, standing_of, with_batch}, OnDisk.{GoesOn, Throughout}, Pair.MeansIn};
ghost use Rattle.pm_log.specs.{Append.{GrowsBehind, HasAppended, KeepsAppending}, Change.{HasChanged, KeepsChanging}, Half.{Half, over_of}, Making.{HasStepped, HasSwitched, IsReady, IsStep, IsUnderWay, IsWhole, Makes, MayBegin, begun}, Move.{HasMoved, KeepsMoving}};

use crate::making::{Making, Stepped};
use pm_disk::{Disk, DiskFault, Which};
use pm_record::{
    Bytes, CLOSED, Found, OPEN, lengths_are_the_numbers, put_base, put_batch, write_durably,
};
use pm_rows::{Commit, Rows};
use std::alloc::{AllocError, Global};
use thiserror::Error;

/// What a batch of no commits would need, in bytes.
const EMPTY_BATCH: u64 = 9;

/// Why the log refused a call.
#[derive(Clone, Copy, Debug, PartialEq, Eq, Error)]
pub enum LogFault {
    /// The disk failed in this call. The log is broken from here on.
    #[error("disk fault")]
    Disk,
    /// The disk failed in an earlier call, at that tick.
    #[error("the commit log is broken since tick {since}")]
    Broken { since: u64 },
    #[error("the commit log is full: {need} bytes are needed, and there is room for {room}")]
    Full { need: u64, room: u64 },
    #[error("out of memory")]
    NoMemory,
}

impl From<AllocError> for LogFault {
    ghost use Rattle.pm_log.specs.declared.log.LogFault.TheVariants.{NoMemory};

    ghost from_gives = { λ _ e. e ≡ NoMemory };

    fn from(_: AllocError) -> LogFault {
        LogFault::NoMemory
    }
}

/// What an append has made durable.
#[derive(Clone, Copy, Debug, PartialEq, Eq)]
pub struct Receipt {
    /// The number of commits since `initdb`.
    pub count: u64,
    /// How many calls the disk has had.
    pub tick: u64,
}

/// The log in one of the two files, as it goes on after a redo.
#[derive(Clone, Copy, Debug, PartialEq, Eq)]
pub struct Log {
    pub file: Which,
    pub epoch: u64,
    /// The place of the first gate after the base.
    pub base_end: u64,
    /// The place of the closed gate after the last batch.
    pub end: u64,
    /// The number of commits since `initdb`.
    pub count: u64,
    /// How long the file may be, in bytes.
    pub limit: u64,
    /// The tick at which the disk failed, since the log was resumed.
    pub since: Option<u64>,
    /// By how many bytes the file that is being made will be longer than this one, while one is being made.
    pub making: Option<u64>,
}

impl Log {
    ghost use Rattle.pm_log.specs.{Log.{Lives, base_length, resumed, room_of}, Append.MeansOneOf, declared.log.LogFault.LogFault};

    /// The log that was found, as it goes on.
    pub fn resume(found: &Found, limit: u64) -> Log
        ensures { result ≡ resumed found.now limit }
    {
        Log {
            file: found.file,
            epoch: found.epoch,
            base_end: found.base_end,
            end: found.end,
            count: found.count,
            limit,
            since: None,
            making: None,
        }
    }

    /// How many bytes of batches stand after the base.
    pub fn behind(&self) -> u64
        ensures { result ≡ self.now.end - self.now.base_end }
    {
        self.end.saturating_sub(self.base_end)
    }

    /// For how many bytes there is room in front of the gate that closes the file, and in the file that is being made
    /// too, once all so far is copied.
    pub fn room(&self) -> u64
        ensures { result ≡ room_of self.now }
    {
        let more = self.making.unwrap_or(0);
        self.limit
            .saturating_sub(self.end.saturating_add(more).saturating_add(1))
    }

    /// Appends a batch. At every tick of the call a stop leaves the commits before it, or these with the whole batch,
    /// and after Ok the latter alone. After `Disk` the log is broken: it makes no further device call.
    pub fn append<D: Disk>(
        &mut self,
        alloc: Global,
        disk: &mut D,
        batch: &[Commit],
    ) -> Result<Receipt, LogFault>
        requires gate { self.old.since ≡ None → IfSome (D.seen disk.old)
            (λ files. self.old.end < length (file_of files self.old.file)) }
        requires batch { IsBatch batch.now }
        requires number { self.old.count + length batch.now < 2 ^ 64 }
        ensures lives { OnOk result (TellsStill (λ files now. (content : Content)
            → Lives self.old content files (D.images disk.old (D.ticks disk.old))
            → MayAppend (standing_of content) batch.now
            → Lives self.new (with_batch content batch.now) now
            (D.images disk.new (D.ticks disk.new))) (D.seen disk.old) (D.seen disk.new)) }
        ensures stops { IfSome (D.seen disk.old) (λ files. (content : Content)
            → Lives self.old content files (D.images disk.old (D.ticks disk.old))
            → MayAppend (standing_of content) batch.now
            → Throughout (D.ticks disk.old) (D.ticks disk.new) (D.images disk.new)
            (MeansOneOf (standing_of content) (self.old.end + 1)
            (after (standing_of content) batch.now) (self.old.end + 1 + need_of batch.now))) }
        ensures grown { OnOk result (self.new ≡ record self.old
            { end = self.old.end + need_of batch.now; count = self.old.count + length batch.now }) }
        ensures still { OnErr result (self.new.count ≡ self.old.count) }
        ensures receipt { IfOk result (λ receipt. (receipt.count ≡ self.new.count)
            × (receipt.tick ≡ D.ticks disk.new)) }
        ensures broken { (since : ℕ) → result ≡ Err (LogFault.Broken since)
            ↔ self.old.since ≡ Some since }
        ensures full { (need room : ℕ) → result ≡ Err (LogFault.Full need room)
            → (self.old.since ≡ None) × (need ≡ need_of batch.now) × (room ≡ room_of self.old)
            × (room < need) }
        ensures fits { OnOk result (need_of batch.now ≤ room_of self.old) }
        ensures disk { result ≡ Err LogFault.Disk → (self.new ≡ record self.old
            { since = Some (D.ticks disk.new) }) × (self.old.since ≡ None)
            × (need_of batch.now ≤ room_of self.old) }
        ensures untouched { (fault : LogFault) → result ≡ Err fault → fault ≢ LogFault.Disk
            → (self.new ≡ self.old) × (disk.new ≡ disk.old) }
        ensures beside { TellsStill (λ files now. file_of now (other self.old.file) ≡ file_of files
            (other self.old.file)) (D.seen disk.old) (D.seen disk.new) }
        ensures under_way { (half : Half) → IsUnderWay self.old half → IsUnderWay self.new half }
        ensures makes { OnOk result (TellsStill (λ files now. (content : Content) (half : Half)
            → Makes half self.old.file self.old.end content files
            → Makes half self.new.file self.new.end (with_batch content batch.now) now)
            (D.seen disk.old) (D.seen disk.new)) }
        ensures time { GoesOn (D.ticks disk.old) (D.ticks disk.new) (D.images disk.old)
            (D.images disk.new) }
        ensures cause { IsCounted (D.faults disk.old) (D.faults disk.new)
            (result ≡ Err LogFault.Disk) }
    {
        if let Some(since) = self.since {
            return Err(LogFault::Broken { since });
        }
        let spelled = batch_between_gates(alloc, batch)?;
        let bytes = spelled.as_slice();
        let need = bytes.len() as u64 - 1;
        let room = self.room();
        if need > room {
            return Err(LogFault::Full { need, room });
        }
        if write_batch(disk, self.file, self.end, bytes).is_err() {
            self.since = Some(disk.ticks());
            return Err(LogFault::Disk);
        }
        self.end += need;
        self.count += batch.len() as u64;
        Ok(Receipt {
            count: self.count,
            tick: disk.ticks(),
        })
    }

    /// Writes all rows as the base of the other file, and goes on there. At every tick of the call a stop leaves the
    /// same rows and count. After `Disk` the log is broken.
    pub fn checkpoint<D: Disk>(
        &mut self,
        alloc: Global,
        disk: &mut D,
        rows: &Rows,
        clean: bool,
    ) -> Result<u64, LogFault>
        requires alone { self.old.making ≡ None }
        requires gate { self.old.since ≡ None → IfSome (D.seen disk.old)
            (λ files. 1 ≤ length (file_of files (other self.old.file))) }
        requires rows { All IsRow (map.entries rows.now) }
        requires limits { IsWithinRowLimits rows.now }
        ensures lives { OnOk result (TellsStill (λ files now. (content : Content)
            → Lives self.old content files (D.images disk.old (D.ticks disk.old))
            → rows.now ≡ (standing_of content).rows
            → Lives self.new (checkpointed content clean) now
            (D.images disk.new (D.ticks disk.new))) (D.seen disk.old) (D.seen disk.new)) }
        ensures stops { IfSome (D.seen disk.old) (λ files. (content : Content)
            → Lives self.old content files (D.images disk.old (D.ticks disk.old))
            → rows.now ≡ (standing_of content).rows
            → Throughout (D.ticks disk.old) (D.ticks disk.new) (D.images disk.new)
            (MeansOneOf (standing_of content) (self.old.end + 1) (standing_of content)
            (base_length (checkpointed content clean) + 1))) }
        ensures epoch { IfOk result (λ epoch. (epoch ≡ self.old.epoch + 1)
            × (self.new.epoch ≡ epoch)) }
        ensures kept { OnOk result ((self.new.file ≡ other self.old.file)
            × (self.new.count ≡ self.old.count) × (self.new.end ≡ self.new.base_end)
            × (self.new.limit ≡ self.old.limit) × (self.new.since ≡ None)
            × (self.new.making ≡ None)) }
        ensures base { OnOk result (self.new.base_end ≡ 1 + length
            (base_bytes (self.old.epoch + 1) clean self.old.count rows.now)) }
        ensures broken { (since : ℕ) → result ≡ Err (LogFault.Broken since)
            ↔ self.old.since ≡ Some since }
        ensures full { (need room : ℕ) → result ≡ Err (LogFault.Full need room)
            → (self.old.since ≡ None) × (self.old.epoch ≡ 2 ^ 64 - 1) × (need ≡ 9) × (room ≡ 0) }
        ensures last { OnOk result (self.old.epoch < 2 ^ 64 - 1) }
        ensures disk { result ≡ Err LogFault.Disk → (self.new ≡ record self.old
            { since = Some (D.ticks disk.new) }) × (self.old.since ≡ None)
            × (self.old.epoch < 2 ^ 64 - 1) }
        ensures untouched { (fault : LogFault) → result ≡ Err fault → fault ≢ LogFault.Disk
            → (self.new ≡ self.old) × (disk.new ≡ disk.old) }
        ensures tells { TellsStill (λ files now. Unit {0}) (D.seen disk.old) (D.seen disk.new) }
        ensures time { GoesOn (D.ticks disk.old) (D.ticks disk.new) (D.images disk.old)
            (D.images disk.new) }
        ensures cause { IsCounted (D.faults disk.old) (D.faults disk.new)
            (result ≡ Err LogFault.Disk) }
    {
        if let Some(since) = self.since {
            return Err(LogFault::Broken { since });
        }
        if self.epoch == u64::MAX {
            return Err(LogFault::Full {
                need: EMPTY_BATCH,
                room: 0,
            });
        }
        let spelled = base_between_gates(alloc, self.epoch + 1, clean, self.count, rows)?;
        let bytes = spelled.as_slice();
        match move_to_other(disk, self.file, bytes) {
            Ok(()) => {
                self.file = self.file.other();
                self.epoch += 1;
                self.base_end = bytes.len() as u64 - 1;
                self.end = self.base_end;
                Ok(self.epoch)
            }
            Err(DiskFault) => {
                self.since = Some(disk.ticks());
                Err(LogFault::Disk)
            }
        }
    }

    /// Begins to make the other file, as the base of all rows in the next epoch. From here on a batch needs room in that
    /// file as well. It lists the rows, which share their texts with the list, and makes no device call.
    pub fn begin(&mut self, alloc: Global, rows: &Rows) -> Result<Making, LogFault>
        requires alone { self.old.making ≡ None }
        requires rows { All IsRow (map.entries rows.now) }
        requires limits { IsWithinRowLimits rows.now }
        ensures half { IfOk result (λ making. making ≡ begun self.old rows.now) }
        ensures makes { IfOk result (λ making. (content : Content) (files : Files)
            → MayBegin self.old rows.now content files
            → Makes making self.new.file self.new.end content files) }
        ensures under_way { IfOk result (IsUnderWay self.new) }
        ensures begun { IfOk result (λ making. self.new ≡ record self.old
            { making = Some (over_of making) }) }
        ensures broken { (since : ℕ) → result ≡ Err (LogFault.Broken since)
            ↔ self.old.since ≡ Some since }
        ensures full { (need room : ℕ) → result ≡ Err (LogFault.Full need room)
            → (self.old.since ≡ None) × (self.old.epoch ≡ 2 ^ 64 - 1) × (need ≡ 9) × (room ≡ 0) }
        ensures last { OnOk result ((self.old.since ≡ None) × (self.old.epoch < 2 ^ 64 - 1)) }
        ensures disk { result ≢ Err LogFault.Disk }
        ensures untouched { OnErr result (self.new ≡ self.old) }
    {
        if let Some(since) = self.since {
            return Err(LogFault::Broken { since });
        }
        if self.epoch == u64::MAX {
            return Err(LogFault::Full {
                need: EMPTY_BATCH,
                room: 0,
            });
        }
        let making = Making::of(alloc, self.epoch + 1, self.end, self.count, rows)?;
        self.making = Some(making.over());
        Ok(making)
    }

    /// Makes one piece more of the other file: of the base, or else of what was appended since `begin`. It has 1 MiB or
    /// all that is left of that, and may end with the row that goes past it. Where nothing is left it makes all of it
    /// durable, and that alone answers `Ready`. At every tick of the call a stop leaves the same rows and count. After
    /// `Disk` the log is broken.
    pub fn step<D: Disk>(&mut self, disk: &mut D, making: &mut Making) -> Result<Stepped, LogFault>
        requires under_way { IsUnderWay self.old making.old }
        requires log { self.old.since ≡ None → IfSome (D.seen disk.old)
            (λ files. self.old.end ≤ length (file_of files self.old.file)) }
        requires beside { self.old.since ≡ None → IfSome (D.seen disk.old)
            (λ files. making.old.done ≤ length (file_of files (other self.old.file))) }
        ensures stops { IfSome (D.seen disk.old) (λ files. (content : Content)
            → Lives self.old content files (D.images disk.old (D.ticks disk.old))
            → Throughout (D.ticks disk.old) (D.ticks disk.new) (D.images disk.new)
            (λ image. MeansIn image (standing_of content) (self.old.end + 1))) }
        ensures lives { OnOk result (TellsStill (λ files now. (content : Content)
            → Lives self.old content files (D.images disk.old (D.ticks disk.old))
            → Lives self.new content now (D.images disk.new (D.ticks disk.new)))
            (D.seen disk.old) (D.seen disk.new)) }
        ensures made { IfOk result (λ stepped. TellsStill
            (λ files now. HasStepped making.old making.new self.old.file self.old.end files now
            (D.images disk.new (D.ticks disk.new)) stepped) (D.seen disk.old) (D.seen disk.new)) }
        ensures step { IfOk result (IsStep making.old making.new self.old.end) }
        ensures under_way { IsUnderWay self.new making.new }
        ensures still { OnErr result (making.new ≡ making.old) }
        ensures log { OnOk result (self.new ≡ self.old) }
        ensures broken { (since : ℕ) → result ≡ Err (LogFault.Broken since)
            ↔ self.old.since ≡ Some since }
        ensures disk { result ≡ Err LogFault.Disk → (self.new ≡ record self.old
            { since = Some (D.ticks disk.new) }) × (self.old.since ≡ None) }
        ensures refuses { (fault : LogFault) → result ≡ Err fault → fault ≢ LogFault.Disk
            → IsSome self.old.since × (self.new ≡ self.old) × (disk.new ≡ disk.old) }
        ensures same_file { TellsStill (λ files now. file_of now self.old.file ≡ file_of files
            self.old.file) (D.seen disk.old) (D.seen disk.new) }
        ensures time { GoesOn (D.ticks disk.old) (D.ticks disk.new) (D.images disk.old)
            (D.images disk.new) }
        ensures cause { IsCounted (D.faults disk.old) (D.faults disk.new)
            (result ≡ Err LogFault.Disk) }
    {
        if let Some(since) = self.since {
            return Err(LogFault::Broken { since });
        }
        match making.go_on(disk, self.file, self.end) {
            Ok(stepped) => Ok(stepped),
            Err(DiskFault) => {
                self.since = Some(disk.ticks());
                Err(LogFault::Disk)
            }
        }
    }

    /// Opens the file that was made, shuts this one, and goes on there. At every tick of the call a stop leaves the same
    /// rows and count. After `Disk` the log is broken.
    pub fn switch<D: Disk>(&mut self, disk: &mut D, making: Making) -> Result<u64, LogFault>
        requires under_way { IsUnderWay self.old making }
        requires whole { IsWhole self.old making }
        ensures lives { OnOk result (TellsStill (λ files now. (content : Content)
            → Lives self.old content files (D.images disk.old (D.ticks disk.old))
            → IsReady making self.old.file self.old.end content files
            (D.images disk.old (D.ticks disk.old))
            → HasSwitched self.new content now (D.images disk.new (D.ticks disk.new)))
            (D.seen disk.old) (D.seen disk.new)) }
        ensures stops { IfSome (D.seen disk.old) (λ files. (content : Content)
            → Lives self.old content files (D.images disk.old (D.ticks disk.old))
            → IsReady making self.old.file self.old.end content files
            (D.images disk.old (D.ticks disk.old))
            → Throughout (D.ticks disk.old) (D.ticks disk.new) (D.images disk.new)
            (MeansOneOf (standing_of content) (self.old.end + 1) (standing_of content)
            (making.done + 1))) }
        ensures moved { OnOk result (self.new ≡ record self.old {
          file = other self.old.file;
          epoch = making.epoch;
          base_end = length making.base;
          end = making.done;
          making = None;
        }) }
        ensures epoch { IfOk result (λ epoch. epoch ≡ making.epoch) }
        ensures broken { (since : ℕ) → result ≡ Err (LogFault.Broken since)
            ↔ self.old.since ≡ Some since }
        ensures disk { result ≡ Err LogFault.Disk → (self.new ≡ record self.old
            { since = Some (D.ticks disk.new); making = None }) × (self.old.since ≡ None) }
        ensures refuses { (fault : LogFault) → result ≡ Err fault → fault ≢ LogFault.Disk
            → IsSome self.old.since × (self.new ≡ record self.old { making = None })
            × (disk.new ≡ disk.old) }
        ensures tells { TellsStill (λ files now. Unit {0}) (D.seen disk.old) (D.seen disk.new) }
        ensures time { GoesOn (D.ticks disk.old) (D.ticks disk.new) (D.images disk.old)
            (D.images disk.new) }
        ensures cause { IsCounted (D.faults disk.old) (D.faults disk.new)
            (result ≡ Err LogFault.Disk) }
    {
        self.making = None;
        if let Some(since) = self.since {
            return Err(LogFault::Broken { since });
        }
        match change_files(disk, self.file) {
            Ok(()) => {
                self.file = self.file.other();
                self.epoch = making.epoch();
                self.base_end = making.base_end();
                self.end = making.done();
                Ok(self.epoch)
            }
            Err(DiskFault) => {
                self.since = Some(disk.ticks());
                Err(LogFault::Disk)
            }
        }
    }

    /// Gives up the file that was being made. It makes no device call.
    pub fn abandon(&mut self, making: Making)
        requires { IsUnderWay self.old making }
        ensures { self.new ≡ record self.old { making = None } }
    {
        drop(making);
        self.making = None;
    }
}

// A batch between its own gate and the next one, which is closed.
fn batch_between_gates(alloc: Global, batch: &[Commit]) -> Result<Bytes, AllocError>
    requires { IsBatch batch.now }
    ensures bytes { IfOk result (λ bytes. bytes ≡ 1 ∷ (batch_bytes batch.now ++ 0 ∷ [])) }
    ensures size { IfOk result (λ bytes. length bytes ≡ need_of batch.now + 1) }
{
    lengths_are_the_numbers();
    let mut bytes = Bytes::new(alloc);
    put_batch(&mut bytes, batch)?;
    bytes.push(CLOSED)?;
    Ok(bytes)
}

// A base between its file's gate and the next one, which is closed.
fn base_between_gates(
    alloc: Global,
    epoch: u64,
    clean: bool,
    count: u64,
    rows: &Rows,
) -> Result<Bytes, AllocError>
    requires rows { All IsRow (map.entries rows.now) }
    requires limits { IsWithinRowLimits rows.now }
    ensures { IfOk result (λ bytes. bytes ≡ 1 ∷ (base_bytes epoch clean count rows.now ++ 0 ∷ [])) }
{
    let mut bytes = Bytes::new(alloc);
    put_base(&mut bytes, epoch, clean, count, rows)?;
    bytes.push(CLOSED)?;
    Ok(bytes)
}

// Writes a batch behind the closed gate, and opens the gate once that is durable.
fn write_batch<D: Disk>(disk: &mut D, file: Which, end: u64, bytes: &[u8]) -> Result<(), DiskFault>
    requires gate { IfSome (D.seen disk.old) (λ files. end < length (file_of files file)) }
    requires some { 1 ≤ length bytes.now }
    requires fits { end + length bytes.now < 2 ^ 64 }
    ensures stops { IfSome (D.seen disk.old) (λ files. KeepsAppending file end bytes.now files
        (D.ticks disk.old) (D.ticks disk.new) (D.images disk.old) (D.images disk.new)) }
    ensures rests { OnOk result (TellsStill (λ files now. HasAppended file end bytes.now files now
        (D.images disk.old (D.ticks disk.old)) (D.images disk.new (D.ticks disk.new)))
        (D.seen disk.old) (D.seen disk.new)) }
    ensures beside { TellsStill (λ files now. file_of now (other file) ≡ file_of files (other file))
        (D.seen disk.old) (D.seen disk.new) }
    ensures grows { OnOk result (TellsStill (GrowsBehind file end bytes.now) (D.seen disk.old)
        (D.seen disk.new)) }
    ensures time { GoesOn (D.ticks disk.old) (D.ticks disk.new) (D.images disk.old)
        (D.images disk.new) }
    ensures cause { IsCounted (D.faults disk.old) (D.faults disk.new) (IsErr result) }
{
    let (gate, behind) = bytes.split_at(1);
    write_durably(disk, file, end + 1, behind)?;
    write_durably(disk, file, end, gate)?;
    Ok(())
}

// Writes a base into the other file, opens that file once it is durable, and then shuts this one.
fn move_to_other<D: Disk>(disk: &mut D, file: Which, bytes: &[u8]) -> Result<(), DiskFault>
    requires gate { IfSome (D.seen disk.old) (λ files. 1 ≤ length (file_of files (other file))) }
    requires some { 1 ≤ length bytes.now }
    ensures stops { IfSome (D.seen disk.old) (λ files. KeepsMoving file bytes.now files
        (D.ticks disk.old) (D.ticks disk.new) (D.images disk.old) (D.images disk.new)) }
    ensures moved { OnOk result (TellsStill (λ files now. HasMoved file bytes.now files now
        (D.images disk.old (D.ticks disk.old)) (D.images disk.new (D.ticks disk.new)))
        (D.seen disk.old) (D.seen disk.new)) }
    ensures tells { TellsStill (λ files now. Unit {0}) (D.seen disk.old) (D.seen disk.new) }
    ensures time { GoesOn (D.ticks disk.old) (D.ticks disk.new) (D.images disk.old)
        (D.images disk.new) }
    ensures cause { IsCounted (D.faults disk.old) (D.faults disk.new) (IsErr result) }
{
    let next = file.other();
    let (_, behind) = bytes.split_at(1);
    write_durably(disk, next, 1, behind)?;
    change_files(disk, file)?;
    Ok(())
}

// Opens the other file, and then shuts this one.
fn change_files<D: Disk>(disk: &mut D, file: Which) -> Result<(), DiskFault>
    ensures stops { IfSome (D.seen disk.old) (λ files. KeepsChanging file files
        (D.ticks disk.old) (D.ticks disk.new) (D.images disk.old) (D.images disk.new)) }
    ensures changed { OnOk result (TellsStill (λ files now. HasChanged file files now
        (D.images disk.old (D.ticks disk.old)) (D.images disk.new (D.ticks disk.new)))
        (D.seen disk.old) (D.seen disk.new)) }
    ensures tells { TellsStill (λ files now. Unit {0}) (D.seen disk.old) (D.seen disk.new) }
    ensures time { GoesOn (D.ticks disk.old) (D.ticks disk.new) (D.images disk.old)
        (D.images disk.new) }
    ensures cause { IsCounted (D.faults disk.old) (D.faults disk.new) (IsErr result) }
{
    let next = file.other();
    write_durably(disk, next, 0, &[OPEN])?;
    write_durably(disk, file, 0, &[CLOSED])?;
    Ok(())
}
