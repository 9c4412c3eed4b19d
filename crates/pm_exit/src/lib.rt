//! How a child of the server ends, and what its end means.
//!
//! The supervisor looks at every child that has exited and sorts its end into one of three classes. A backend that ends
//! with code 0 or 1 has ended by itself. Anything else may have left shared state half changed, so it counts as a crash
//! of the server, after which all children are ended and the server recovers (the manual, 20.14 "Error Handling",
//! `restart_after_crash`).
#![tactic(auto)]

ghost use Rattle.std.specs.Prelude.{◌≡◌};
ghost use Rattle.pm_exit.specs.Ends.{class_of};

mod child;

pub use child::{Class, Kind, Status};

/// The class of a child's end.
///
/// `in_shutdown` says that the server waits for its last checkpoint, and `was_active` that the child's slot was still
/// marked as active, so that the child hadn't let go of shared state.
pub fn class(kind: Kind, in_shutdown: bool, was_active: bool, status: Status) -> Class
    ensures { result ≡ class_of kind in_shutdown was_active status }
{
    match kind {
        Kind::Startup => match status {
            Status::Code(0) => Class::Normal,
            _ => Class::StartupFailed,
        },
        Kind::Checkpointer => match status {
            Status::Code(0) if in_shutdown => Class::Normal,
            _ => Class::Crash,
        },
        Kind::Writer => match status {
            Status::Code(0) => Class::Normal,
            _ => Class::Crash,
        },
        Kind::Worker | Kind::Backend | Kind::DeadEnd => match status {
            Status::Code(0 | 1) if !was_active => Class::Normal,
            _ => Class::Crash,
        },
    }
}

#[cfg(test)]
mod tests;
