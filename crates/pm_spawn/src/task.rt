// Work for a thread.
use std::sync::Wait;

/// A piece of work for one thread.
pub trait Task {
    /// What lets the work wait.
    type Runtime: Wait;

    /// What is left when it is done.
    type Output;

    /// What has to hold of a work that is to be done.
    ghost can_work: { Self → Type 0 };

    /// Which outputs a work may give.
    ghost gives: { Self → Self.Output → Type 0 };

    /// Does the work.
    fn work(self) -> Self::Output
        requires { can_work self }
        ensures { gives self result };
}
