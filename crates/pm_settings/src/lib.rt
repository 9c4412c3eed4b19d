//! A session's settings, and the statements that it answers by what it knows itself.
//!
//! [`read`] tells a text of session statements from any other, and [`Settings::answer`] answers each of them. No text is both such a text
//! and a script of `pm_sql`. The grammar stands in `specs/Statements`, the table of the settings in `specs/Names`, and the answers in
//! `specs/Answers`. A setting is taken where it changes no answer of this server, or where its value is the one that the server has anyhow.
//! What is set by LOCAL stays as what is set by SESSION does.
#![tactic(auto)]

mod answer;
mod grammar;
mod laws;
mod lexeme;
mod lexer;
mod modes;
mod reading;
mod setting;
mod settings;
mod statement;
mod value;

pub use answer::{Answer, Cell, Refusal};
pub use laws::{each_by_itself, no_script, one_reading};
pub use reading::{ReadNo, read};
pub use setting::{MAX_SETTING_BYTES, Setting};
pub use settings::Settings;
pub use statement::Statement;
