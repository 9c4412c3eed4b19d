//! Turns at a store that several threads share: who has its disk, who sleeps for it, and who is called because of it.
//!
//! Of those who would call the disk one leads, and the others wait for its end ([`Joining`]). Those who sleep for the store are
//! counted, so that nobody is woken where nobody sleeps ([`Sleepers`]). Writer and checkpointer sleep until they are called, where
//! a commit was left ([`Caller`]) or the log is due for a checkpoint ([`Due`]). What a store does is promised elsewhere, whoever
//! waits and is called.
#![tactic(auto)]

mod caller;
mod due;
mod joining;
mod sleepers;

pub use caller::Caller;
pub use due::Due;
pub use joining::Joining;
pub use sleepers::Sleepers;
