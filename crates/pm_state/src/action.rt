//! What the machine asks its caller to do.

ghost use Rattle.std.specs.Prelude.{◌≡◌, ◌<◌, ◌≤◌, ◌++◌, [], ◌∷◌, length};

use arrayvec::ArrayVec;
use pm_exit::{Kind, Status};
use pm_supervisor::{Ending, Reason};
use std::marker::Model;

/// A line of the server's log.
#[derive(Clone, Copy, Debug, PartialEq, Eq)]
pub enum Line {
    /// The server takes connections.
    Ready,
    /// A child crashed.
    ChildExit {
        /// Its number.
        pid: u32,
        /// What it was for.
        kind: Kind,
        /// How it ended.
        status: Status,
    },
    /// All other children are told to end, because one crashed.
    TerminatingOthers,
    /// The startup child failed, and the server ends.
    AbortingStartup,
    /// A smart shutdown was asked for.
    Smart,
    /// A fast shutdown was asked for.
    Fast,
    /// An immediate shutdown was asked for.
    Immediate,
    /// Sessions are ended in the middle of what they do.
    AbortingTransactions,
    /// The server ends after a crash.
    Abnormal,
    /// The server has shut down.
    Down,
    /// The server ends because it isn't to restart after a crash.
    RestartOff,
    /// Every child has ended after a crash, and the server starts again.
    Reinitializing,
}

/// One thing to do.
#[derive(Clone, Copy, Debug, PartialEq, Eq, Default)]
pub enum Action {
    /// Start a child of this kind, and report it by `started`.
    Start(Kind),
    /// Let no child attach any more, and tell every child to end at once.
    Quit(Reason),
    /// Tell backends, workers, the writer and a startup child to end.
    Terminate,
    /// Kill every child that is left.
    #[default]
    KillAll,
    /// Tell the checkpointer to write the last checkpoint and end.
    AskCheckpoint,
    /// Let sessions attach.
    Ready,
    /// Begin the next generation.
    Reset,
    /// Write a line to the log.
    Say(Line),
    /// End the server.
    End(Ending),
}

/// What one call asks for, in order: at most eight actions.
#[derive(Drop)]
pub struct Actions {
    items: ArrayVec<Action, 8>,
}

impl Model for Actions {
    ghost use Rattle.std.specs.Prelude.{List};
    ghost use Rattle.pm_state.specs.declared.action.Action.{Action};

    ghost Value = { List Action };

    ghost view = { λ a. a.items.items };
}

impl Actions {
    pub(crate) fn none() -> Self
        ensures { result ≡ [] }
    {
        Actions {
            items: ArrayVec::new(),
        }
    }

    pub(crate) fn push(&mut self, action: Action)
        requires { length self.old < 8 }
        ensures { self.new ≡ self.old ++ action ∷ [] }
    {
        self.items.push(action);
    }

    /// The actions, in the order in which they are to be done.
    pub fn list(&self) -> &[Action]
        ensures actions { result.now ≡ self.now }
        ensures few { length self.now ≤ 8 }
    {
        self.items.as_slice()
    }
}
