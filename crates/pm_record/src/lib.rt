//! The file layer of the commit log: what the bytes of a log file stand for, read and written.
//!
//! [`read_file`] tells what a whole file stands for, or the place of its first wrong byte. [`put_base`] and [`put_batch`]
//! append the one spelling of a base and of a batch, and [`put_header`] and [`put_row`] that of a base's parts.
#![tactic(auto)]

mod base;
mod batch;
mod bytes;
mod change;
mod commit;
mod durable;
mod fault;
mod file;
mod found;
mod laws;
mod length;
mod number;
mod put;
mod puts;
mod text;

pub use bytes::Bytes;
pub use durable::write_durably;
pub use fault::{FileFault, RedoFault};
pub use file::read_file;
pub use found::{Contents, Found};
pub use laws::{a_file_has_one_first_wrong_byte, a_file_stands_for_one_content};
pub use length::{body_length, lengths_are_the_numbers};
pub use put::{CLOSED, OPEN, put_base, put_batch, put_header, put_row};
