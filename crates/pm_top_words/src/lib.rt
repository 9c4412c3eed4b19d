//! The words of the command line: a command and its options.
#![tactic(auto)]

mod fitting;
mod options;
mod words;

pub use fitting::misfit;
pub use words::{Command, Line, WordsNo, read_words};
