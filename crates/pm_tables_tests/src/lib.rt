//! Tests of the public calls of a database's tables.
#![tactic(auto)]

#[cfg(test)]
mod tables;
