// A file in memory, with the calls that a stop after an earlier tick asks for.
ghost use Rattle.std.specs.Prelude.{◌≡◌, ℕ, ◌+◌, ◌-◌, ◌^◌, ◌<◌, ◌≤◌, List, [], length, IfOk, OnOk, OnErr, All};
ghost use Rattle.pm_disk.specs.{Files.overwritten, Past.{IsKept, MayLeave, AddsChange, after_write, after_sync, state_at}, Stop.{Redone, Tells, filled, spoiled, stopped}};

use std::alloc::{AllocError, Global};

/// What a call that succeeded has done to a file.
#[derive(Drop)]
pub(crate) enum Change {
    Written { at: u64, bytes: Vec<u8> },
    Synced,
}

/// A change, and the tick of the call that made it.
#[derive(Drop)]
pub(crate) struct Entry {
    pub(crate) tick: u64,
    pub(crate) change: Change,
}

/// So many bytes of a file, from a place on.
#[derive(Clone, Copy)]
pub(crate) struct Span {
    pub(crate) at: u64,
    pub(crate) count: u64,
}

/// What a stop's image is made of: the bytes as they read, how many there were at the last sync, and what was written
/// since.
#[derive(Drop)]
pub(crate) struct Replayed {
    pub(crate) bytes: Vec<u8>,
    pub(crate) synced: usize,
    pub(crate) written: Vec<Span>,
}

/// One file: its bytes, and each change of them or of what a stop may leave.
#[derive(Drop)]
pub(crate) struct MemFile {
    pub(crate) alloc: Global,
    pub(crate) bytes: Vec<u8>,
    pub(crate) past: Vec<Entry>,
}

impl MemFile {
    /// A file of length 0.
    pub(crate) fn new(alloc: Global) -> Self
        ensures bytes { result.bytes.items ≡ [] }
        ensures past { result.past.items ≡ [] }
    {
        MemFile {
            alloc,
            bytes: Vec::new(alloc),
            past: Vec::new(alloc),
        }
    }

    /// Writes over what stands there, in the call after so many ticks. Room comes first: an `Err` changes nothing.
    pub(crate) fn write(&mut self, ticks: u64, at: u64, bytes: &[u8]) -> Result<(), AllocError>
        requires ticks { ticks < 2 ^ 64 - 1 }
        requires earlier { All (λ entry. entry.tick ≤ ticks) self.old.past.items }

        ensures reads { OnOk result (self.new.bytes.items ≡ overwritten self.old.bytes.items at
            bytes.now) }
        ensures noted { OnOk result (AddsChange ticks self.old.past.items self.new.past.items
            (λ state. after_write state at bytes.now)) }
        ensures err { OnErr result (self.new.bytes.items ≡ self.old.bytes.items) }
        ensures err_past { OnErr result (self.new.past.items ≡ self.old.past.items) }
    {
        let copy = bytes.to_vec(self.alloc)?;
        self.past.reserve(1)?;
        put(&mut self.bytes, at, bytes)?;
        let change = Change::Written { at, bytes: copy };
        self.past.push(Entry {
            tick: ticks + 1,
            change,
        })?;
        Ok(())
    }

    /// Adds a sync, in the call after so many ticks. An `Err` changes nothing.
    pub(crate) fn sync(&mut self, ticks: u64) -> Result<(), AllocError>
        requires ticks { ticks < 2 ^ 64 - 1 }
        requires earlier { All (λ entry. entry.tick ≤ ticks) self.old.past.items }

        ensures reads { self.new.bytes.items ≡ self.old.bytes.items }
        ensures noted { OnOk result (AddsChange ticks self.old.past.items self.new.past.items
            after_sync) }
        ensures err_past { OnErr result (self.new.past.items ≡ self.old.past.items) }
    {
        let change = Change::Synced;
        self.past.push(Entry {
            tick: ticks + 1,
            change,
        })?;
        Ok(())
    }

    /// A file as a stop leaves it after so many ticks, with the fill in each place written since the last sync, and at
    /// most `beyond` bytes past its length there.
    pub(crate) fn after_stop(
        &self,
        tick: u64,
        fill: &[u8],
        beyond: u64,
    ) -> Result<MemFile, AllocError>
        ensures bytes { IfOk result (λ file. file.bytes.items ≡ stopped fill.now beyond
            (state_at self.now.past.items tick)) }
        ensures kept { IfOk result (λ file. IsKept file.past.items file.bytes.items 0) }
        ensures only { IfOk result (λ file. (t : ℕ) (image : List ℕ)
            → MayLeave (state_at file.past.items t) image → image ≡ file.bytes.items) }
    {
        let Replayed {
            mut bytes,
            synced,
            written,
        } = self.replay(tick)?;
        spoil(self.alloc, &mut bytes, &written, fill)?;
        let most = synced.saturating_add(beyond as usize);
        bytes.truncate(most.min(bytes.len()));
        MemFile::settled(self.alloc, bytes)
    }

    // The changes up to so many ticks, made again.
    fn replay(&self, tick: u64) -> Result<Replayed, AllocError>
        ensures { IfOk result (λ replayed. Tells replayed (state_at self.now.past.items tick)) }
    {
        let mut replayed = Replayed {
            bytes: Vec::new(self.alloc),
            synced: 0,
            written: Vec::new(self.alloc),
        };
        for entry in &self.past {
            if entry.tick <= tick {
                redo(&entry.change, &mut replayed)?;
            }
        }
        Ok(replayed)
    }

    // A file of these bytes, all of them synced before the first call.
    fn settled(alloc: Global, bytes: Vec<u8>) -> Result<MemFile, AllocError>
        ensures bytes { IfOk result (λ file. file.bytes.items ≡ bytes.items) }
        ensures kept { IfOk result (λ file. IsKept file.past.items file.bytes.items 0) }
        ensures only { IfOk result (λ file. (t : ℕ) (image : List ℕ)
            → MayLeave (state_at file.past.items t) image → image ≡ file.bytes.items) }
    {
        let copy = bytes.to_vec(alloc)?;
        let mut past = Vec::new(alloc);
        past.push(Entry {
            tick: 0,
            change: Change::Written { at: 0, bytes: copy },
        })?;
        past.push(Entry {
            tick: 0,
            change: Change::Synced,
        })?;
        Ok(MemFile { alloc, bytes, past })
    }
}

// Writes over what stands there, and past the end.
fn put(bytes: &mut Vec<u8>, at: u64, from: &[u8]) -> Result<(), AllocError>
    ensures ok { OnOk result (bytes.new.items ≡ overwritten bytes.old.items at from.now) }
    ensures err { OnErr result (bytes.new.items ≡ bytes.old.items) }
{
    let start = bytes.len().min(at as usize);
    let (over, beyond) = from.split_at(from.len().min(bytes.len() - start));
    bytes.extend_from_slice(beyond)?;
    bytes[start..start + over.len()].copy_from_slice(over);
    Ok(())
}

// Makes a change again.
fn redo(change: &Change, replayed: &mut Replayed) -> Result<(), AllocError>
    ensures { OnOk result (Redone change.now replayed.old replayed.new) }
{
    match change {
        Change::Written { at, bytes } => {
            put(&mut replayed.bytes, *at, bytes)?;
            let count = bytes.len() as u64;
            replayed.written.push(Span { at: *at, count })?;
        }
        Change::Synced => {
            replayed.written.clear();
            replayed.synced = replayed.bytes.len();
        }
    }
    Ok(())
}

// So many bytes of the fill, over and over.
fn filling(alloc: Global, fill: &[u8], count: u64) -> Result<Vec<u8>, AllocError>
    ensures { IfOk result (λ bytes. bytes.items ≡ filled fill.now count) }
{
    let byte = |k: usize| if fill.is_empty() {
        0
    } else {
        fill[k % fill.len()]
    };
    (0..count as usize).map(byte).collect(alloc)
}

// Puts the fill in place of what was written.
fn spoil(
    alloc: Global,
    bytes: &mut Vec<u8>,
    written: &[Span],
    fill: &[u8],
) -> Result<(), AllocError>
    ensures { OnOk result (bytes.new.items ≡ spoiled fill.now bytes.old.items written.now) }
{
    for span in written {
        let new = filling(alloc, fill, span.count)?;
        put(bytes, span.at, &new)?;
    }
    Ok(())
}
