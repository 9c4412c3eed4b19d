//! Tests of the public calls of `pm_sql`.

mod limits;
mod parse;
mod scripts;
