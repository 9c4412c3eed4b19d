//! Who may connect: rules that say by whom and how, and the exchange by which a client shows that it knows a user's password and is
//! shown that the server does (SCRAM-SHA-256 of RFC 7677). It has no handle; the bytes round the messages are the protocol's.
#![tactic(auto)]

mod cuts;
mod exchange;
mod fault;
mod first_message;
mod kept;
mod laws;
mod rules;
mod secrets;
mod words;

pub use exchange::{ScramNo, Server};
pub use fault::AuthNo;
pub use kept::{is_user, secret_line};
pub use laws::{none_without_secret, password_proves};
pub use rules::{Method, Rules, Ruling};
