//! What is kept of all tables together.
ghost use Rattle.std.specs.{Prelude.{◌≡◌, ◌+◌, ◌<◌, ◌^◌, cond}, Str.bytes_eq};
ghost use Rattle.pm_tables.specs.{Inside.{capped, Counts, MayExchange, Exchanges}, Sizes.name_size};

use pm_rows::Rows;

// The name of the table that each database has from the beginning.
const FIRST_NAME: &str = "kv";

/// A number of rows and a size, each a sum over tables in which no table counts more than the largest `u64`.
///
/// So they fit: there are fewer than 2^63 tables.
#[derive(Clone, Copy, Debug)]
pub(crate) struct Totals {
    pub(crate) rows: u128,
    pub(crate) size: u128,
}

impl Totals {
    /// Those of no table.
    pub(crate) const NONE: Totals = Totals { rows: 0, size: 0 };

    /// Those of one table.
    pub(crate) fn of(name: &str, rows: &Rows) -> Totals
        ensures { Counts (name.now, rows.now) result }
    {
        Totals {
            rows: rows.len() as u128,
            size: rows.size().saturating_add(name_size(name)) as u128,
        }
    }

    /// These after a table was taken out and another put in.
    pub(crate) fn exchange(self, taken: Totals, given: Totals) -> Totals
        requires { MayExchange self taken given }
        ensures { Exchanges self taken given result }
    {
        Totals {
            rows: self.rows - taken.rows + given.rows,
            size: self.size - taken.size + given.size,
        }
    }
}

// The bytes that the name of a table takes, or the largest `u64` where that is less.
fn name_size(name: &str) -> u64
    ensures { result ≡ capped (name_size name.now) }
{
    if name == FIRST_NAME {
        0
    } else {
        5u64.saturating_add(name.len() as u64)
    }
}
