//! A buffer of bytes to write.

ghost use Rattle.std.specs.Prelude.{◌≡◌, ◌≤◌, ◌++◌, ◌∷◌, [], length, OnOk, OnErr};
ghost use Rattle.pm_rows.specs.Limits.{max_value_bytes};
ghost use Rattle.pm_record.specs.Spelling.{header_bytes, row_bytes};

use crate::put::{HEADER_BYTES, ROW_BYTES, put_header, put_row};
use pm_rows::Text;
use std::alloc::{AllocError, Global};
use std::marker::Model;

/// A growing list of bytes. Contracts see it as that list.
#[derive(Debug, Drop)]
pub struct Bytes {
    held: Vec<u8>,
}

impl Model for Bytes {
    ghost use Rattle.std.specs.Prelude.{ℕ, List};

    ghost Value = { List ℕ };

    ghost view = { λ bytes. bytes.held.items };
}

impl Bytes {
    /// No bytes. It takes no memory.
    pub fn new(alloc: Global) -> Bytes
        ensures { result ≡ [] }
    {
        Bytes {
            held: Vec::new(alloc),
        }
    }

    /// The bytes, in order.
    pub fn as_slice(&self) -> &[u8]
        ensures { result.now ≡ self.now }
    {
        &self.held
    }

    /// Adds a byte after the others. Where memory is short the bytes stay as they were.
    pub fn push(&mut self, byte: u8) -> Result<(), AllocError>
        ensures ok { OnOk result (self.new ≡ self.old ++ byte ∷ []) }
        ensures err { OnErr result (self.new ≡ self.old) }
    {
        self.held.push(byte)?;
        Ok(())
    }

    /// Adds bytes after the others. Where memory is short the bytes stay as they were.
    pub fn extend(&mut self, bytes: &[u8]) -> Result<(), AllocError>
        ensures ok { OnOk result (self.new ≡ self.old ++ bytes.now) }
        ensures err { OnErr result (self.new ≡ self.old) }
    {
        self.held.extend_from_slice(bytes)?;
        Ok(())
    }

    // Adds the part of a base that is in front of its rows.
    pub(crate) fn add_header(
        &mut self,
        epoch: u64,
        clean: bool,
        count: u64,
        rows: u32,
    ) -> Result<(), AllocError>
        ensures { OnOk result (self.new ≡ self.old ++ header_bytes epoch clean count rows) }
    {
        self.held.reserve(HEADER_BYTES)?;
        put_header(&mut self.held, epoch, clean, count, rows);
        Ok(())
    }

    // Adds a row of a base.
    pub(crate) fn add_row(&mut self, key: i64, value: &Text) -> Result<(), AllocError>
        requires { length value.now ≤ max_value_bytes }
        ensures { OnOk result (self.new ≡ self.old ++ row_bytes (key, value.now)) }
    {
        self.held.reserve(ROW_BYTES + value.as_str().len())?;
        put_row(&mut self.held, key, value);
        Ok(())
    }
}
