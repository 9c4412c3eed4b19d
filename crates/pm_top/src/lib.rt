//! The top call of the program: the words of the command line, and the commands over the outside
//! that they are handed. `pm_top_words` reads the words, `pm_once` is the server of `once`, and
//! `pm_postmaster` that of `serve`. All commands but `serve` run in one thread (`alone`).
#![tactic(auto)]

mod alone;
mod control;
mod load;
mod outside;
mod print;
mod status;
mod top;

pub use outside::Ended;
pub use pm_postmaster::{AUXILIARY_SLOTS, slots};
pub use pm_query::BookEntry;
pub use pm_record::RedoFault;
pub use pm_server::{Conf, Outside, ServerEnd, StartWhy, Why};
pub use pm_state::PmEvent;
pub use pm_top_words::{Command, Line, WordsNo, misfit, read_words};
pub use status::Top;
pub use top::run;
