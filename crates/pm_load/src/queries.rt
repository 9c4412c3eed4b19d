//! The queries of a workload, and what their client sends.
ghost use Rattle.std.specs.Prelude.{◌≡◌, ◌≤◌, ◌%◌, ◌==◌, IfOk, codes, length, string_bytes};
ghost use Rattle.pm_wire_front.specs.Requests.{all_sent};
ghost use Rattle.pm_load.specs.Queries.{key_at, put_text, queries, query_at};

use itoa::Buffer;
use pm_wire_front::{put_query, put_start, terminate};
use std::alloc::{AllocError, Global};

/// The user's name in the workload's startup packet.
pub const USER: &str = "ann";

// The key of the query with this number.
fn key_at(number: u32) -> u64
    requires { number ≤ 100000 }
    ensures { result ≡ key_at number }
{
    let number = u64::from(number);
    (31 * number * number + 7 * number) % 5000
}

// Whether the query with this number counts the rows.
fn counts_rows(number: u32) -> bool
    ensures { result ≡ (number % 5 == 0) }
{
    number % 5 == 0
}

// The query that puts the row of this key and this number.
fn put_text(alloc: Global, key: u64, number: u32) -> Result<String, AllocError>
    ensures text { IfOk result (λ text. string_bytes text ≡ put_text key number) }
    ensures short { IfOk result (λ text. length (string_bytes text) ≤ 200) }
{
    let (mut keys, mut numbers) = (Buffer::new(), Buffer::new());
    let key = keys.format(key);
    let mut text = String::from_str(alloc, "DELETE FROM kv WHERE k = ")?;
    text.push_str(key)?;
    text.push_str("; INSERT INTO kv VALUES (")?;
    text.push_str(key)?;
    text.push_str(", 'w")?;
    text.push_str(numbers.format(number))?;
    text.push_str("')")?;
    Ok(text)
}

/// The query with this number, from 1 on.
pub(crate) fn query_at(alloc: Global, number: u32) -> Result<String, AllocError>
    requires { number ≤ 100000 }
    ensures text { IfOk result (λ text. string_bytes text ≡ query_at number) }
    ensures short { IfOk result (λ text. length (string_bytes text) ≤ 200) }
{
    if counts_rows(number) {
        String::from_str(alloc, "SELECT count(*) FROM kv")
    } else {
        put_text(alloc, key_at(number), number)
    }
}

/// All that the client of a workload of so many queries sends: a startup packet, the queries, and the end.
pub fn load_bytes(alloc: Global, number: u32) -> Result<Vec<u8>, AllocError>
    requires { number ≤ 100000 }
    ensures { IfOk result (λ bytes. bytes.items ≡ all_sent (codes "ann") (queries number)) }
{
    let mut bytes = Vec::new(alloc);
    put_start(&mut bytes, USER)?;
    for i in 0..number {
        put_query(&mut bytes, query_at(alloc, i + 1)?.as_str())?;
    }
    bytes.extend_from_slice(terminate())?;
    Ok(bytes)
}
