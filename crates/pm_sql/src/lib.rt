//! Statements over the table `kv`, scripts of them, and the texts that spell them.
//!
//! A [`Script`] is a list of statements that keeps two limits: it writes at most a thousand times, and no value that
//! it writes is longer than 8,192 bytes. Contracts see it as that list. [`parse`] reads a text as a script, or tells the
//! first fault from the left with its place, and [`fault_text`] gives what a client is told of a fault. The grammar stands in
//! `docs/SQL.md`; as a relation between texts and scripts in `specs/Token` and `specs/Statements`, and the fault of each other
//! text over this grammar in `specs/Faults`. What the functions inside do, step by step, is in `specs/Grammar` and
//! `specs/Query`, which no public contract cites but for the form of an answer.
#![tactic(auto)]

mod fault;
mod grammar;
mod laws;
mod message;
mod query;
mod script;
mod stmt;
mod tokens;

pub use grammar::MAX_SLEEP_SECONDS;
pub use laws::{no_fault, one_fault, one_script};
pub use message::fault_text;
pub use query::{SqlFault, parse};
pub use script::Script;
pub use stmt::Stmt;
