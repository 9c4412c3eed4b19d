//! By what a child ends that serves no connection.
ghost use Rattle.std.specs.Prelude.{◌≡◌};
ghost use Rattle.pm_aux.specs.Ends.{status_by, fault_by, kept_by, lets_go};

use pm_child_life::GateNo;
use pm_exit::Status;
use pm_query::StoreNo;
use pm_supervisor::Reason;

/// By what it came to its end.
#[derive(Clone, Copy, Debug, PartialEq, Eq)]
pub enum AuxiliaryEnd {
    /// The startup child read the log, and so many commits stand.
    Redone { kept: u64 },
    /// The writer was told to terminate, and after that two flushes in a row answered the same front.
    Flushed,
    /// The checkpointer was asked for the last checkpoint, and made it.
    Closed,
    /// The last checkpoint was left out, since redo hasn't ended.
    LeftOut,
    /// The store refused a call.
    Refused(StoreNo),
    /// The gate didn't let it in.
    TurnedAway(GateNo),
    ToldToTerminate,
    ToldToQuit(Reason),
    Killed,
}

impl AuxiliaryEnd {
    /// How the child exits.
    pub fn status(self) -> Status
        ensures { result ≡ status_by self }
    {
        match self {
            AuxiliaryEnd::Redone { .. }
            | AuxiliaryEnd::Flushed
            | AuxiliaryEnd::Closed
            | AuxiliaryEnd::LeftOut => { Status::Code(0) }
            AuxiliaryEnd::Refused(StoreNo::Stale { .. } | StoreNo::Disk | StoreNo::Broken { .. }) =>
                { Status::Signal(6) }
            AuxiliaryEnd::Refused(_) | AuxiliaryEnd::ToldToTerminate => Status::Code(1),
            AuxiliaryEnd::TurnedAway(_) | AuxiliaryEnd::ToldToQuit(_) => Status::Code(2),
            AuxiliaryEnd::Killed => Status::Signal(9),
        }
    }

    /// The refusal of the store, if it was one.
    pub fn fault(self) -> Option<StoreNo>
        ensures { result ≡ fault_by self }
    {
        match self {
            AuxiliaryEnd::Refused(no) => Some(no),
            _ => None,
        }
    }

    /// How many commits its redo kept, if it made one.
    pub fn kept(self) -> Option<u64>
        ensures { result ≡ kept_by self }
    {
        match self {
            AuxiliaryEnd::Redone { kept } => Some(kept),
            _ => None,
        }
    }

    /// Whether the child lets go of the store and of its attachment before it exits. It stays inside where what is shared may be
    /// half changed or is another generation's, and where it has to end at once.
    pub fn lets_go(self) -> bool
        ensures { result ≡ lets_go self }
    {
        match self {
            AuxiliaryEnd::Refused(StoreNo::Stale { .. } | StoreNo::Disk | StoreNo::Broken { .. }) =>
                false,
            AuxiliaryEnd::ToldToQuit(_) | AuxiliaryEnd::Killed => false,
            _ => true,
        }
    }
}
