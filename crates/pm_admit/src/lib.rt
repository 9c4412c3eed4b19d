//! Whether a new connection may become a session: the decision that the supervisor takes when it accepts one.
//!
//! It looks at a `View` of the supervisor's machine and answers like PostgreSQL's `canAcceptConnections`. The manual, 20.3
//! "Connections and Authentication", has `max_connections`; twice the children that it allows may be there, since some of them
//! are only on their way.
#![tactic(auto)]

ghost use Rattle.std.specs.Prelude.{◌≡◌};
ghost use Rattle.pm_admit.specs.Admission.{decide_of};

/// The state of the supervisor's machine, as in PostgreSQL's `pmState`.
#[derive(Clone, Copy, Debug, PartialEq, Eq)]
pub enum PmState {
    /// Nothing was started yet.
    Init,
    /// The startup child brings the data up to date.
    Startup,
    /// Connections are served, or after a smart request sessions go on.
    Run,
    /// Sessions and background children are about to be told to end.
    StopBackends,
    /// Sessions and background children are ending.
    WaitBackends,
    /// The checkpointer writes the last checkpoint.
    Shutdown,
    /// Only children that refuse a connection may be left.
    WaitDeadEnd,
    /// No child is left.
    NoChildren,
}

/// The decision on a new connection, as in PostgreSQL's `CAC_state`.
#[derive(Clone, Copy, Debug, PartialEq, Eq)]
pub enum Cac {
    /// It may become a session.
    Ok,
    /// The server is starting up.
    Startup,
    /// The server recovers from a crash.
    Recovery,
    /// The server is shutting down.
    Shutdown,
    /// There are too many children.
    TooMany,
}

/// What the decision looks at.
#[derive(Clone, Copy, Debug, PartialEq, Eq)]
pub struct View {
    /// The machine's state.
    pub state: PmState,
    /// A shutdown was asked for.
    pub shutdown: bool,
    /// A crash was noted, and the server hasn't recovered since.
    pub fatal: bool,
    /// Connections are allowed: false from a smart request on.
    pub conns: bool,
    /// The number of children that serve a connection or are background workers.
    pub children: u32,
    /// The number of such children at which no more are taken.
    pub limit: u32,
}

/// Whether a new connection may become a session.
pub fn decide(view: &View) -> Cac
    ensures { result ≡ decide_of view.now }
{
    match view.state {
        PmState::Run if !view.conns => Cac::Shutdown,
        PmState::Run if view.children >= view.limit => Cac::TooMany,
        PmState::Run => Cac::Ok,
        _ if view.shutdown => Cac::Shutdown,
        PmState::Startup if !view.fatal => Cac::Startup,
        _ => Cac::Recovery,
    }
}

#[cfg(test)]
mod tests;
