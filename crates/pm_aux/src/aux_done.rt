//! How a child ends that serves no connection.
ghost use Rattle.std.specs.Prelude.{◌≡◌};
ghost use Rattle.pm_aux.specs.Ends.{done_by};

use crate::cause::AuxiliaryEnd;
use pm_exit::Status;
use pm_query::StoreNo;

/// The status that it exits with, the refusal of the store that it ends by, if it does, and how many commits its redo kept,
/// if it made one.
#[derive(Clone, Copy, Debug, PartialEq, Eq)]
pub struct AuxDone {
    pub status: Status,
    pub fault: Option<StoreNo>,
    pub kept: Option<u64>,
}

impl AuxDone {
    /// How a child ends by this cause.
    pub(crate) fn by(cause: AuxiliaryEnd) -> AuxDone
        ensures { result ≡ done_by cause }
    {
        AuxDone {
            status: cause.status(),
            fault: cause.fault(),
            kept: cause.kept(),
        }
    }
}
