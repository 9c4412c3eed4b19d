//! Messages of PostgreSQL's frontend/backend protocol 3.0, as a client needs them: what a server sends, read.
#![tactic(auto)]

mod laws;
mod message;
mod parts;
mod reading;
mod report;
mod row;
mod tag;

pub use laws::{
    back_messages_stand_apart, back_stream_fails_at_one_byte, back_stream_has_one_reading,
};
pub use reading::read_back;
