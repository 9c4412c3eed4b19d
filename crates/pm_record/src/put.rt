//! The one spelling of a base and of a batch, appended to a buffer.

ghost use Rattle.std.specs.{Prelude.{◌≡◌, ◌+◌, ◌≤◌, ◌++◌, ◌∷◌, All, length, vec_capacity, vec_len, OnOk}, List.flat_map};
ghost use Rattle.std.specs.FinMap as map;
ghost use Rattle.pm_rows.specs.{Limits.{max_rows, max_value_bytes}, Batch.{IsBatch, IsChange, IsCommit}, Size.row_size};
ghost use Rattle.pm_record.specs.{Spelling.{base_bytes, batch_bytes, change_bytes, commit_bytes, header_bytes, header_length, row_bytes}, StandsFor.IsRow};

use crate::bytes::Bytes;
use crate::length::body_length;
use pm_rows::{Change, Commit, Rows, Text};
use std::alloc::AllocError;

/// The gate byte of what doesn't count.
pub const CLOSED: u8 = 0;

/// The gate byte that this program writes where something counts. Any byte but [`CLOSED`] is read so.
pub const OPEN: u8 = 1;

// A file's first bytes behind its gate: magic and version.
const MAGIC: [u8; 8] = [b'P', b'G', b'P', b'M', b'L', b'O', b'G', 1];

// The length of a base's part in front of its rows.
pub(crate) const HEADER_BYTES: usize = 29;

// The bytes that a row takes besides those of its value.
pub(crate) const ROW_BYTES: usize = 12;

/// Appends an open gate and the base of a file: header and rows. Where memory is short a part of it may be appended.
pub fn put_base(
    out: &mut Bytes,
    epoch: u64,
    clean: bool,
    count: u64,
    rows: &Rows,
) -> Result<(), AllocError>
    requires rows { All IsRow (map.entries rows.now) }
    requires few { map.len rows.now ≤ max_rows }
    ensures { OnOk result (out.new ≡ out.old ++ 1 ∷ base_bytes epoch clean count rows.now) }
{
    out.push(OPEN)?;
    out.add_header(epoch, clean, count, rows.len() as u32)?;
    put_rows(out, rows)?;
    Ok(())
}

fn put_rows(out: &mut Bytes, rows: &Rows) -> Result<(), AllocError>
    requires { All IsRow (map.entries rows.now) }
    ensures { OnOk result (out.new ≡ out.old ++ flat_map row_bytes (map.entries rows.now)) }
{
    for (key, value) in rows.iter() {
        out.add_row(key, value)?;
    }
    Ok(())
}

/// Appends the part of a base that is in front of its rows, of which there are so many. It needs room for it in the
/// vector's capacity, and takes no memory.
pub fn put_header(out: &mut Vec<u8>, epoch: u64, clean: bool, count: u64, rows: u32)
    requires { vec_len out.old + header_length ≤ vec_capacity out.old }
    ensures bytes { out.new.items ≡ out.old.items ++ header_bytes epoch clean count rows }
    ensures capacity { vec_capacity out.old ≤ vec_capacity out.new }
{
    put_within(out, &MAGIC);
    put_within(out, &epoch.to_be_bytes());
    put_within(out, &[u8::from(clean)]);
    put_within(out, &count.to_be_bytes());
    put_within(out, &rows.to_be_bytes());
}

/// Appends a row of a base. It needs room for it in the vector's capacity, and takes no memory.
pub fn put_row(out: &mut Vec<u8>, key: i64, value: &Text)
    requires short { length value.now ≤ max_value_bytes }
    requires room { vec_len out.old + row_size value.now ≤ vec_capacity out.old }
    ensures bytes { out.new.items ≡ out.old.items ++ row_bytes (key, value.now) }
    ensures capacity { vec_capacity out.old ≤ vec_capacity out.new }
{
    let value = value.as_str().as_bytes();
    put_within(out, &key.to_be_bytes());
    put_within(out, &(value.len() as u32).to_be_bytes());
    put_within(out, value);
}

// Appends bytes for which there is room.
fn put_within(out: &mut Vec<u8>, bytes: &[u8])
    requires { vec_len out.old + length bytes.now ≤ vec_capacity out.old }
    ensures bytes { out.new.items ≡ out.old.items ++ bytes.now }
    ensures capacity { vec_capacity out.old ≤ vec_capacity out.new }
{
    out.extend_from_slice(bytes).unwrap();
}

/// Appends an open gate, the length of a batch's body, and the body. Where memory is short a part of it may be appended.
pub fn put_batch(out: &mut Bytes, batch: &[Commit]) -> Result<(), AllocError>
    requires { IsBatch batch.now }
    ensures { OnOk result (out.new ≡ out.old ++ 1 ∷ batch_bytes batch.now) }
{
    out.push(OPEN)?;
    out.extend(&(body_length(batch) as u32).to_be_bytes())?;
    out.extend(&(batch.len() as u32).to_be_bytes())?;
    for commit in batch {
        put_commit(out, commit)?;
    }
    Ok(())
}

fn put_commit(out: &mut Bytes, commit: &Commit) -> Result<(), AllocError>
    requires { IsCommit commit.now }
    ensures { OnOk result (out.new ≡ out.old ++ commit_bytes commit.now) }
{
    let changes = commit.changes();
    out.extend(&(changes.len() as u16).to_be_bytes())?;
    for change in changes {
        put_change(out, change)?;
    }
    Ok(())
}

fn put_change(out: &mut Bytes, change: &Change) -> Result<(), AllocError>
    requires { IsChange change.now }
    ensures { OnOk result (out.new ≡ out.old ++ change_bytes change.now) }
{
    match change {
        Change::Put { key, value } => {
            let value = value.as_str().as_bytes();
            out.push(1)?;
            out.extend(&key.to_be_bytes())?;
            out.extend(&(value.len() as u32).to_be_bytes())?;
            out.extend(value)?;
        }
        Change::Del { key } => {
            out.push(2)?;
            out.extend(&key.to_be_bytes())?;
        }
    }
    Ok(())
}
