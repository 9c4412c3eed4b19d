//! The three ways to shut the server down, and which request stands when several come.
//!
//! The manual, 19.5 "Shutting Down the Server": a smart shutdown lets sessions end by themselves, a fast one ends them, and an
//! immediate one ends all children at once and leaves recovery to the next start. A stronger request may follow a weaker
//! one, never the other way round.
#![tactic(auto)]

ghost use Rattle.std.specs.Prelude.{◌≡◌};
ghost use Rattle.pm_modes.specs.Strength.{strengthen_of};

/// How the server is asked to shut down, the weakest way first.
#[derive(Clone, Copy, Debug, PartialEq, Eq, PartialOrd, Ord)]
pub enum Mode {
    /// No new connections; the server ends once every session has ended by itself.
    Smart,
    /// Sessions are ended, and the server ends with a checkpoint.
    Fast,
    /// Every child is ended at once, and the next start recovers.
    Immediate,
}

/// The request that takes the place of the one that stands: the one that is asked for where it is stronger, else none.
pub fn strengthen(standing: Option<Mode>, asked: Mode) -> Option<Mode>
    ensures { result ≡ strengthen_of standing asked }
{
    match standing {
        Some(mode) if asked <= mode => None,
        _ => Some(asked),
    }
}

#[cfg(test)]
mod tests;
