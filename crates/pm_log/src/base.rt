//! A base that is spelled piece by piece.

ghost use Rattle.std.specs.{Prelude.{◌≡◌, ◌+◌, ◌≤◌, ◌<◌, ◌++◌, length, drop, vec_capacity, vec_len, All, IfOk}, FinMap.{entries}, List.{flat_map}};
ghost use Rattle.pm_record.specs.{Spelling.{row_bytes}, StandsFor.{IsRow}};
ghost use Rattle.pm_log.specs.{Base.{HasSpelled, MaySpell, head_at}, Half.{most_in_piece, piece_bytes}};

use crate::making::PIECE_BYTES;
use pm_record::{put_header, put_row};
use pm_rows::{Rows, Text};
use std::alloc::{AllocError, Global};

/// What a base is spelled from.
#[derive(Debug, Drop)]
pub(crate) struct Base {
    pub(crate) epoch: u64,
    pub(crate) count: u64,
    // By rising key. The texts are shared with the table that they are of.
    pub(crate) rows: Vec<(i64, Text)>,
}

// The rows by rising key, which share their texts.
pub(crate) fn pairs_of(alloc: Global, rows: &Rows) -> Result<Vec<(i64, Text)>, AllocError>
    ensures { IfOk result (λ pairs. pairs.items ≡ entries rows.now) }
{
    let mut pairs = Vec::with_capacity(alloc, rows.len())?;
    for (key, value) in rows.iter() {
        pairs.push((key, value.copy()?))?;
    }
    Ok(pairs)
}

// Spells the next piece into the buffer: the header, where nothing is spelled yet, and rows, until there is a piece's
// bytes or no row is left. Answers the next row that isn't spelled.
pub(crate) fn spell(base: &Base, next: usize, buffer: &mut Vec<u8>) -> usize
    requires base { MaySpell base.now next }
    requires room { most_in_piece ≤ vec_capacity buffer.old }
    ensures spelled { HasSpelled base.now next result buffer.new.items }
    ensures room { most_in_piece ≤ vec_capacity buffer.new }
{
    put_head(base, next, buffer);
    put_rows(&base.rows, next, buffer)
}

// Puts the header alone into the buffer, where that row is the first one, and else nothing.
fn put_head(base: &Base, next: usize, buffer: &mut Vec<u8>)
    requires base { MaySpell base.now next }
    requires room { most_in_piece ≤ vec_capacity buffer.old }
    ensures bytes { buffer.new.items ≡ head_at base.now next }
    ensures room { most_in_piece ≤ vec_capacity buffer.new }
{
    buffer.clear();
    if next == 0 {
        let rows = base.rows.len() as u32;
        put_header(buffer, base.epoch, false, base.count, rows);
    }
}

// Puts rows from a place on, until there is a piece's bytes or no row is left. Answers the place of the next row.
fn put_rows(rows: &[(i64, Text)], next: usize, buffer: &mut Vec<u8>) -> usize
    requires rows { All IsRow rows.now }
    requires next { next ≤ length rows.now }
    requires few { length buffer.old.items ≤ piece_bytes }
    requires room { most_in_piece ≤ vec_capacity buffer.old }
    ensures further { next ≤ result }
    ensures within { result ≤ length rows.now }
    ensures bytes { buffer.new.items ++ flat_map row_bytes (drop result rows.now)
        ≡ buffer.old.items ++ flat_map row_bytes (drop next rows.now) }
    ensures enough { length buffer.new.items < piece_bytes → result ≡ length rows.now }
    ensures few { length buffer.new.items ≤ most_in_piece }
    ensures room { most_in_piece ≤ vec_capacity buffer.new }
{
    let mut at = next;
    while at < rows.len() && buffer.len() < PIECE_BYTES {
        let (key, value) = &rows[at];
        put_row(buffer, *key, value);
        at += 1;
    }
    at
}
