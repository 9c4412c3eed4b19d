//! A server of many connections: one supervisor, and a pool of workers that are its children.
//!
//! [`supervise`] is the whole run. It makes the pool, and then goes on turn by turn (`server`): it looks at every slot (`looking`),
//! reads a line of the console (`asking`), tells its machine the time and lets it do what it does by itself (`turning`), and takes a
//! connection (`accepting`). The acts of the machine are done at once after each of these (`acting`), and the children that one of
//! them tells something are called (`calls`). Where a turn came to nothing it pauses. At its end it kills who is left (`clearing`), and closes the pool.
#![tactic(auto)]

mod accepting;
mod acting;
mod asking;
mod calls;
mod came;
mod clearing;
mod laws;
mod looking;
mod postmaster;
mod server;
mod turning;

pub use pm_serve_pool::AUXILIARY_SLOTS;
pub use postmaster::{Served, slots, supervise};
