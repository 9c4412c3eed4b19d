//! The limits of the whole server, as numbers of the program.
ghost use Rattle.std.specs.Prelude.{◌≡◌};
ghost use Rattle.pm_rows.specs.{Limits.{max_rows, max_rows_bytes, max_value_bytes, max_changes, max_commits, max_file_bytes}, Longest.{max_change_bytes, max_commit_bytes}};

/// How many rows the table has at most.
pub const MAX_ROWS: usize = 100_000;

/// The size of the rows at most, in bytes, as [`Rows::size`](crate::Rows::size) counts it.
pub const MAX_ROWS_BYTES: u64 = 67_108_864;

/// How many bytes a value has at most.
pub const MAX_VALUE_BYTES: usize = 8_192;

/// How many changes a commit has at most, and a query writing statements.
pub const MAX_CHANGES: usize = 1_000;

/// How many commits a batch has at most.
pub const MAX_COMMITS: usize = 256;

/// How many bytes a log file has at most.
pub const MAX_FILE_BYTES: u64 = 268_435_456;

/// How many bytes a change takes in a log file at most.
pub const MAX_CHANGE_BYTES: u64 = 1 + 8 + 4 + MAX_VALUE_BYTES as u64;

/// How many bytes a commit takes in a log file at most.
pub const MAX_COMMIT_BYTES: u64 = 2 + MAX_CHANGES as u64 * MAX_CHANGE_BYTES;

/// The law that the constants are the numbers of the definitions.
pub fn limits_are_the_numbers()
    ensures rows { MAX_ROWS ≡ max_rows }
    ensures rows_bytes { MAX_ROWS_BYTES ≡ max_rows_bytes }
    ensures value_bytes { MAX_VALUE_BYTES ≡ max_value_bytes }
    ensures changes { MAX_CHANGES ≡ max_changes }
    ensures commits { MAX_COMMITS ≡ max_commits }
    ensures file_bytes { MAX_FILE_BYTES ≡ max_file_bytes }
    ensures change_bytes { MAX_CHANGE_BYTES ≡ max_change_bytes }
    ensures commit_bytes { MAX_COMMIT_BYTES ≡ max_commit_bytes }
{}
