//! Transaction blocks: what a query's text asks of one, and the statements of a block so far.
//!
//! [`read`] tells a text that begins or ends a block, as `BEGIN READ ONLY` or `commit;`, from a script. Which texts these are stands in
//! `specs/Control`, as a relation over the tokens of `pm_sql`; what the functions inside do, step by step, is in `specs/Reading`, which
//! no public contract cites. A [`Block`] is a list of statements, at most a thousand, with what they may do and whether it has failed.
#![tactic(auto)]

mod access;
mod asked;
mod block;
mod control;
mod laws;
mod tokens;

pub use access::Access;
pub use asked::{Asked, read};
pub use block::{Block, BlockNo, MAX_BLOCK_STATEMENTS};
pub use laws::{asks_one_thing, blank_runs_nothing};
