//! Clusters and scripts, as the tests write them.

use pm_disk::MemDisk;
use pm_log::init;
use pm_outside::Kept;
use pm_query::BookEntry;
use pm_sql::{Script, parse};
use pm_store_shared::{Shared, Token, Tokens};
use std::alloc::Global;
use std::test::Fail;

pub(crate) type Book = Kept<BookEntry>;

pub(crate) type Home = Shared<MemDisk, Book>;

pub(crate) type Seats = Tokens<MemDisk, Book>;

pub(crate) type Seat = Token<MemDisk, Book>;

/// A disk with a new cluster.
pub(crate) fn cluster(alloc: Global) -> Result<MemDisk, Fail> {
    let mut disk = MemDisk::new(alloc);
    init(&mut disk)?;
    Ok(disk)
}

/// The script that inserts the row of a key.
pub(crate) fn insert(alloc: Global, key: u32) -> Option<Script> {
    let text = format!(in alloc; "INSERT INTO kv VALUES ({key}, 'row {key}')").ok()?;
    parse(alloc, text.as_str()).ok()
}
