//! How a file is made, piece by piece.

ghost use Rattle.std.specs.Prelude.{◌≡◌, ◌+◌, ◌-◌, ◌%◌, ◌^◌, ◌≤◌, ◌<◌, length, vec_capacity, take, drop, IfOk, IfSome, IsErr, OnOk, option_map};
ghost use Rattle.pm_record.specs.{pm_disk.{Cause.IsCounted, Disk.{Only, TellsStill, Torn}, Files.{file_of, other, overwritten, with_file}}, OnDisk.{FollowsWithin, GoesOn}};
ghost use Rattle.pm_log.specs.{Base.{HasSpelled, MaySpell}, Half.{most_in_piece, piece_bytes, pieces_per_sync}, Init.IsUntouched, Making.{HasCopied, IsCopy, TornBehind}};

use crate::base::{Base, pairs_of, spell};
use crate::making::{MOST_IN_PIECE, Making, PIECE_BYTES, PIECES_PER_SYNC, Stepped};
use pm_disk::{Disk, DiskFault, Which};
use pm_record::{CLOSED, write_durably};
use pm_rows::Rows;
use std::alloc::{AllocError, Global};

/// Where a base without rows ends, behind its file's gate.
const EMPTY_BASE_END: u64 = 30;

impl Making {
    ghost use Rattle.std.specs.Prelude.{OnErr, ◌∷◌, All, false};
    ghost use Rattle.std.specs.FinMap as map;
    ghost use Rattle.pm_record.specs.{pm_rows.Limits.IsWithinRowLimits, Spelling.base_bytes, StandsFor.IsRow};
    ghost use Rattle.pm_log.specs.{Half.{over_of, whole_of}, Making.{HasStepped, IsStep}};

    // Nothing is made yet.
    pub(crate) fn of(
        alloc: Global,
        epoch: u64,
        from: u64,
        count: u64,
        rows: &Rows,
    ) -> Result<Making, AllocError>
        requires rows { All IsRow (map.entries rows.now) }
        requires limits { IsWithinRowLimits rows.now }
        ensures { IfOk result (λ making. making ≡ record {
          epoch = epoch;
          base = 1 ∷ base_bytes epoch false count rows.now;
          from = from;
          done = 1;
          ready = false;
        }) }
    {
        let base = Base {
            epoch,
            count,
            rows: pairs_of(alloc, rows)?,
        };
        let buffer = Vec::with_capacity(alloc, MOST_IN_PIECE)?;
        Ok(Making {
            base,
            base_end: EMPTY_BASE_END + rows.size(),
            next: 0,
            from,
            done: 1,
            ready: false,
            unsynced: 0,
            buffer,
        })
    }

    // By how many bytes it will be longer than the log's file.
    pub(crate) fn over(&self) -> u64
        ensures over { result ≡ over_of self.now }
        ensures number { length self.now.base < 2 ^ 64 }
    {
        self.base_end.saturating_sub(self.from)
    }

    pub(crate) fn epoch(&self) -> u64
        ensures { result ≡ self.now.epoch }
    {
        self.base.epoch
    }

    // The place of the first gate after its base.
    pub(crate) fn base_end(&self) -> u64
        ensures { result ≡ length self.now.base }
    {
        self.base_end
    }

    /// Up to which place it is written.
    pub fn done(&self) -> u64
        ensures { result ≡ self.now.done }
    {
        self.done
    }

    // The next piece: of the base, or else of what is copied. After the last one all is made durable.
    pub(crate) fn go_on<D: Disk>(
        &mut self,
        disk: &mut D,
        file: Which,
        end: u64,
    ) -> Result<Stepped, DiskFault>
        requires from { self.old.from ≤ end }
        requires done { self.old.done ≤ whole_of self.old end }
        requires number { whole_of self.old end < 2 ^ 64 }
        requires log { IfSome (D.seen disk.old) (λ files. end ≤ length (file_of files file)) }
        requires beside { IfSome (D.seen disk.old)
            (λ files. self.old.done ≤ length (file_of files (other file))) }
        ensures step { IfOk result (IsStep self.old self.new end) }
        ensures still { OnErr result (self.new ≡ self.old) }
        ensures made { IfOk result (λ stepped. TellsStill
            (λ files now. HasStepped self.old self.new file end files now
            (D.images disk.new (D.ticks disk.new)) stepped) (D.seen disk.old) (D.seen disk.new)) }
        ensures stops { FollowsWithin (TornBehind (other file)) (D.ticks disk.old)
            (D.ticks disk.new) (D.images disk.old) (D.images disk.new) }
        ensures log { TellsStill (λ files now. file_of now file ≡ file_of files file)
            (D.seen disk.old) (D.seen disk.new) }
        ensures time { GoesOn (D.ticks disk.old) (D.ticks disk.new) (D.images disk.old)
            (D.images disk.new) }
        ensures cause { IsCounted (D.faults disk.old) (D.faults disk.new) (IsErr result) }
    {
        let into = file.other();
        if self.done < self.base_end {
            let rows = &self.base;
            let next = write_rows(disk, into, rows, self.next, self.done, &mut self.buffer)?;
            self.unsynced = sync_each_fourth(disk, into, self.unsynced)?;
            self.next = next;
            self.done += self.buffer.len() as u64;
            self.ready = false;
            return Ok(Stepped::More);
        }
        let (at, from) = (self.done, self.from);
        match copy_next(disk, file, end, self.base_end, from, at, &mut self.buffer)? {
            Some(count) => {
                self.unsynced = sync_each_fourth(disk, into, self.unsynced)?;
                self.done += count;
                self.ready = false;
                Ok(Stepped::More)
            }
            None => {
                self.unsynced = 0;
                self.ready = true;
                Ok(Stepped::Ready)
            }
        }
    }
}

// Writes the next piece of a base at a place of a file. It isn't durable yet. Answers the next row that isn't written.
fn write_rows<D: Disk>(
    disk: &mut D,
    file: Which,
    base: &Base,
    next: usize,
    done: u64,
    buffer: &mut Vec<u8>,
) -> Result<usize, DiskFault>
    requires base { MaySpell base.now next }
    requires room { most_in_piece ≤ vec_capacity buffer.old }
    requires some { 1 ≤ done }
    requires place { IfSome (D.seen disk.old) (λ files. done ≤ length (file_of files file)) }
    ensures spelled { IfOk result (λ at. HasSpelled base.now next at buffer.new.items) }
    ensures room { most_in_piece ≤ vec_capacity buffer.new }
    ensures written { OnOk result (D.seen disk.new ≡ option_map (λ files. with_file files file
        (overwritten (file_of files file) done buffer.new.items)) (D.seen disk.old)) }
    ensures beside { TellsStill (λ files now. file_of now (other file) ≡ file_of files (other file))
        (D.seen disk.old) (D.seen disk.new) }
    ensures stops { FollowsWithin (TornBehind file) (D.ticks disk.old)
        (D.ticks disk.new) (D.images disk.old) (D.images disk.new) }
    ensures time { GoesOn (D.ticks disk.old) (D.ticks disk.new) (D.images disk.old)
        (D.images disk.new) }
    ensures cause { IsCounted (D.faults disk.old) (D.faults disk.new) (IsErr result) }
{
    let at = spell(base, next, buffer);
    write_piece(disk, file, done, buffer)?;
    Ok(at)
}

// Copies the next piece into the other file, and answers its length; or, where nothing is left, makes all of it
// durable. The base is written, up to its end.
fn copy_next<D: Disk>(
    disk: &mut D,
    file: Which,
    end: u64,
    base_end: u64,
    from: u64,
    done: u64,
    buffer: &mut Vec<u8>,
) -> Result<Option<u64>, DiskFault>
    requires from { from ≤ end }
    requires some { 1 ≤ done }
    requires base { base_end ≤ done }
    requires done { done ≤ base_end + (end - from) }
    requires room { most_in_piece ≤ vec_capacity buffer.old }
    requires log { IfSome (D.seen disk.old) (λ files. end ≤ length (file_of files file)) }
    requires beside { IfSome (D.seen disk.old) (λ files. done ≤ length (file_of files (other file))) }
    ensures piece { IfOk result (IsCopy base_end from done end) }
    ensures room { most_in_piece ≤ vec_capacity buffer.new }
    ensures made { IfOk result (λ piece. TellsStill
        (λ files now. HasCopied base_end from done file end files now
        (D.images disk.new (D.ticks disk.new)) piece) (D.seen disk.old) (D.seen disk.new)) }
    ensures stops { FollowsWithin (TornBehind (other file)) (D.ticks disk.old)
        (D.ticks disk.new) (D.images disk.old) (D.images disk.new) }
    ensures log { TellsStill (λ files now. file_of now file ≡ file_of files file)
        (D.seen disk.old) (D.seen disk.new) }
    ensures time { GoesOn (D.ticks disk.old) (D.ticks disk.new) (D.images disk.old)
        (D.images disk.new) }
    ensures cause { IsCounted (D.faults disk.old) (D.faults disk.new) (IsErr result) }
{
    let copied = done - base_end;
    let left = end - from - copied;
    if left > 0 {
        let count = left.min(PIECE_BYTES as u64);
        copy_into(disk, file, from + copied, done, count, buffer)?;
        return Ok(Some(count));
    }
    write_durably(disk, file.other(), done, &[CLOSED])?;
    Ok(None)
}

// One piece more of the file was written. Each fourth time the file is made durable. Answers how many pieces aren't.
fn sync_each_fourth<D: Disk>(disk: &mut D, file: Which, unsynced: u64) -> Result<u64, DiskFault>
    requires { unsynced < pieces_per_sync }
    ensures unsynced { IfOk result (λ left. left ≡ (unsynced + 1) % pieces_per_sync) }
    ensures durable { IfOk result (λ left. left ≡ 0 → IfSome (D.seen disk.new) (λ files.
        Only file (file_of files file) (D.images disk.new (D.ticks disk.new)))) }
    ensures untouched { IsUntouched (D.seen disk.old) (D.seen disk.new) (D.ticks disk.old)
        (D.ticks disk.new) (D.images disk.old) (D.images disk.new) }
    ensures time { GoesOn (D.ticks disk.old) (D.ticks disk.new) (D.images disk.old)
        (D.images disk.new) }
    ensures cause { IsCounted (D.faults disk.old) (D.faults disk.new) (IsErr result) }
{
    if unsynced + 1 < PIECES_PER_SYNC {
        return Ok(unsynced + 1);
    }
    disk.sync(file)?;
    Ok(0)
}

// Copies so many bytes, by the buffer.
fn copy_into<D: Disk>(
    disk: &mut D,
    file: Which,
    from: u64,
    at: u64,
    count: u64,
    buffer: &mut Vec<u8>,
) -> Result<(), DiskFault>
    requires few { count ≤ piece_bytes }
    requires room { most_in_piece ≤ vec_capacity buffer.old }
    requires log { IfSome (D.seen disk.old)
        (λ files. from + count ≤ length (file_of files file)) }
    requires beside { IfSome (D.seen disk.old)
        (λ files. at ≤ length (file_of files (other file))) }
    ensures room { most_in_piece ≤ vec_capacity buffer.new }
    ensures written { OnOk result (D.seen disk.new ≡ option_map (λ files.
        with_file files (other file) (overwritten (file_of files (other file)) at
        (take count (drop from (file_of files file))))) (D.seen disk.old)) }
    ensures log { TellsStill (λ files now. file_of now file ≡ file_of files file)
        (D.seen disk.old) (D.seen disk.new) }
    ensures stops { FollowsWithin (Torn (other file) at count)
        (D.ticks disk.old) (D.ticks disk.new) (D.images disk.old) (D.images disk.new) }
    ensures time { GoesOn (D.ticks disk.old) (D.ticks disk.new) (D.images disk.old)
        (D.images disk.new) }
    ensures cause { IsCounted (D.faults disk.old) (D.faults disk.new) (IsErr result) }
{
    buffer.resize(count as usize, 0).unwrap();
    copy_piece(disk, file, from, at, buffer)?;
    Ok(())
}

// Writes bytes at a place of a file. They aren't durable yet.
fn write_piece<D: Disk>(disk: &mut D, file: Which, at: u64, bytes: &[u8]) -> Result<(), DiskFault>
    requires { IfSome (D.seen disk.old) (λ files. at ≤ length (file_of files file)) }
    ensures written { OnOk result (D.seen disk.new ≡ option_map (λ files.
        with_file files file (overwritten (file_of files file) at bytes.now)) (D.seen disk.old)) }
    ensures beside { TellsStill (λ files now. file_of now (other file) ≡ file_of files (other file))
        (D.seen disk.old) (D.seen disk.new) }
    ensures stops { FollowsWithin (Torn file at (length bytes.now))
        (D.ticks disk.old) (D.ticks disk.new) (D.images disk.old) (D.images disk.new) }
    ensures time { GoesOn (D.ticks disk.old) (D.ticks disk.new) (D.images disk.old)
        (D.images disk.new) }
    ensures cause { IsCounted (D.faults disk.old) (D.faults disk.new) (IsErr result) }
{
    disk.write(file, at, bytes)?;
    Ok(())
}

// Copies as many bytes of a file as the slice has, from one place to another place of the other file. They aren't
// durable there yet.
fn copy_piece<D: Disk>(
    disk: &mut D,
    file: Which,
    from: u64,
    at: u64,
    into: &mut [u8],
) -> Result<(), DiskFault>
    requires log { IfSome (D.seen disk.old)
        (λ files. from + length into.old ≤ length (file_of files file)) }
    requires beside { IfSome (D.seen disk.old)
        (λ files. at ≤ length (file_of files (other file))) }
    ensures size { length into.new ≡ length into.old }
    ensures written { OnOk result (D.seen disk.new ≡ option_map (λ files.
        with_file files (other file) (overwritten (file_of files (other file)) at
        (take (length into.old) (drop from (file_of files file))))) (D.seen disk.old)) }
    ensures log { TellsStill (λ files now. file_of now file ≡ file_of files file)
        (D.seen disk.old) (D.seen disk.new) }
    ensures stops { FollowsWithin (Torn (other file) at (length into.old))
        (D.ticks disk.old) (D.ticks disk.new) (D.images disk.old) (D.images disk.new) }
    ensures time { GoesOn (D.ticks disk.old) (D.ticks disk.new) (D.images disk.old)
        (D.images disk.new) }
    ensures cause { IsCounted (D.faults disk.old) (D.faults disk.new) (IsErr result) }
{
    disk.read(file, from, into)?;
    disk.write(file.other(), at, into)?;
    Ok(())
}
