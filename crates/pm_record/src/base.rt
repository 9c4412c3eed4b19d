//! The base of a log file: its header, and its rows by rising key.

ghost use Rattle.std.specs.{Prelude.{◌≡◌, ◌≤◌, ◌<◌, ◌^◌, FitsSigned, IfOk}, Int.w64};
ghost use Rattle.pm_rows.specs.Limits.{max_rows};
ghost use Rattle.pm_record.specs.{Reading.Gives, Base.{base_at, key_ranges, place, row_at, rows_at}};

use crate::fault::Unread;
use crate::number::{Ranges, read_number};
use crate::text::{ANY, read_string};
use pm_rows::{MAX_ROWS, MAX_VALUE_BYTES, Rows, Text};
use std::alloc::Global;

/// The base of a file.
#[derive(Drop)]
pub struct Base {
    pub epoch: u64,
    pub clean: bool,
    pub count: u64,
    pub rows: Rows,
}

// The magic `PGPMLOG` and the version 1, as one number.
const MAGIC: Ranges = Ranges {
    low: 0x5047_504D_4C4F_4701,
    high: 0x5047_504D_4C4F_4701,
    low2: 1,
    high2: 0,
};

// 0 or 1.
const BIT: Ranges = Ranges {
    low: 0,
    high: 1,
    low2: 1,
    high2: 0,
};

// How many rows a base may have.
const COUNTS: Ranges = Ranges {
    low: 0,
    high: MAX_ROWS as u64,
    low2: 1,
    high2: 0,
};

// How many bytes a value may have.
const LENGTHS: Ranges = Ranges {
    low: 0,
    high: MAX_VALUE_BYTES as u64,
    low2: 1,
    high2: 0,
};

// The place of a key among all keys, from the lowest on.
fn place(key: i64) -> u64
    ensures { result ≡ place key }
{
    key.cast_unsigned().wrapping_add(1 << 63)
}

// Words of keys from this place on, with room for so many after it.
fn key_ranges(n: u64, from: u64) -> Ranges
    requires { n ≤ max_rows }
    ensures { result ≡ key_ranges n from }
{
    Ranges {
        low: from.saturating_sub(1 << 63),
        high: i64::MAX.cast_unsigned() - n,
        low2: from.saturating_add(1 << 63),
        high2: if from < 1 << 63 { u64::MAX } else { 0 },
    }
}

// A row whose key stands at this place or after it, with room for so many keys.
fn read_row(alloc: Global, n: u64, from: u64, bytes: &[u8]) -> Result<(i64, Text, &[u8]), Unread>
    requires { n ≤ max_rows }
    ensures read { Gives (λ x. ((x.0, x.1), x.2.now)) result (row_at n from bytes.now) }
    ensures fits { IfOk result (λ x. FitsSigned w64 x.0) }
{
    let (word, rest) = read_number(bytes, 8, &key_ranges(n, from))?;
    let (value, rest) = read_string(alloc, &LENGTHS, rest)?;
    Ok((word.cast_signed(), value, rest))
}

// The rows of a base. They are listed first, since a table is made of rising keys in time linear in their number. The
// list grows with what is read, and not with the number that the base tells.
fn read_rows(alloc: Global, bytes: &[u8]) -> Result<(Rows, &[u8]), Unread>
    ensures { Gives (λ x. (x.0, x.1.now)) result (rows_at bytes.now) }
{
    let (count, behind) = read_number(bytes, 4, &COUNTS)?;
    let mut pairs = Vec::new(alloc);
    let mut from = 0;
    let mut rest = behind;
    for i in 0..count {
        let (key, value, after) = read_row(alloc, count - 1 - i, from, rest)?;
        pairs.push((key, value))?;
        from = place(key).saturating_add(1);
        rest = after;
    }
    Ok((Rows::of_pairs(alloc, pairs)?, rest))
}

/// The base of a file behind its gate.
#[tactic(auto, unfolding(crate::specs::Base::base_at))]
pub fn read_base(alloc: Global, bytes: &[u8]) -> Result<(Base, &[u8]), Unread>
    ensures { Gives (λ x. (x.0, x.1.now)) result (base_at bytes.now) }
{
    let (_magic, rest) = read_number(bytes, 8, &MAGIC)?;
    let (epoch, rest) = read_number(rest, 8, &ANY)?;
    let (clean, rest) = read_number(rest, 1, &BIT)?;
    let (count, rest) = read_number(rest, 8, &ANY)?;
    let (rows, rest) = read_rows(alloc, rest)?;
    let base = Base {
        epoch,
        clean: clean == 1,
        count,
        rows,
    };
    Ok((base, rest))
}
