//! What a user of a server counts on, in definitions over what a run leaves: answers are right, what was acknowledged stays,
//! a commit stands as a whole or not at all, and a clean end leaves clean files. That no session is admitted from a crash until
//! redo has ended is said of the journal alone, in the supervisor's rules.
#![tactic(auto)]

mod laws;

pub use laws::none_is_right_beyond;
