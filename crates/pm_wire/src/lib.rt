//! Messages of PostgreSQL's frontend/backend protocol 3.0, as a server needs them: what a client sends, read, and what
//! the server answers, written.
#![tactic(auto)]

mod back;
mod bytes;
mod columns;
mod condition;
mod front;
mod laws;
mod outbox;
mod ready;
mod state;
mod take;
mod writing;

pub use back::{Back, Report, Severity, Shape, Tag};
pub use bytes::Bytes;
pub use condition::{Condition, Fixed, StatementFault};
pub use front::Front;
pub use laws::{
    back_lengths_are_short, back_messages_have_a_longest, back_spellings_stand_apart,
    conditions_can_be_told, front_messages_stand_apart, front_stream_fails_at_one_byte,
    front_stream_has_one_reading,
};
pub use outbox::Outbox;
pub use ready::fixed;
pub use state::SqlState;
pub use take::{Take, WireFault};
