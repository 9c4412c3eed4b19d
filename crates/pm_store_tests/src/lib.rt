//! Tests of the public calls of log and store: files as text, a script of calls on the log, a table of files that are made beside it,
//! a script of visits to the store, and a store that threads share.
#![tactic(auto)]

#[cfg(test)]
mod files;
#[cfg(test)]
mod log;
#[cfg(test)]
mod making;
#[cfg(test)]
mod script;
#[cfg(test)]
mod segment;
#[cfg(test)]
mod shared;
