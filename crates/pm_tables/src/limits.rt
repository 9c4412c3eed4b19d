//! The limits of a database, as numbers of the program. Those on its rows are of `pm_rows`, over all tables.
ghost use Rattle.std.specs.Prelude.{◌≡◌};
ghost use Rattle.pm_tables.specs.Limits.{max_tables, max_name_bytes};

/// How many tables a database has at most.
pub const MAX_TABLES: usize = 100;

/// How many bytes the name of a table has at most.
pub const MAX_NAME_BYTES: usize = 63;

/// The law that the constants are the numbers of the definitions.
pub fn limits_are_the_numbers()
    ensures tables { MAX_TABLES ≡ max_tables }
    ensures name_bytes { MAX_NAME_BYTES ≡ max_name_bytes }
{}
