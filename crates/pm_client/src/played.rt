//! How a client's talk ended.
use pm_wire::WireFault;
use std::alloc::AllocError;

/// How a client's talk ended.
#[derive(Clone, Copy, Debug, PartialEq, Eq)]
pub enum Played {
    /// Every query was sent and answered; or the server ended the link before.
    Done { link_ended: bool },
    /// The link failed.
    LinkFault,
    /// What was to be shown wasn't written.
    OutFault,
    /// What came is no message of the server.
    BadReply(WireFault),
    NoMemory,
}

impl From<AllocError> for Played {
    ghost use Rattle.std.specs.Prelude.{◌≡◌};
    ghost use Rattle.pm_client.specs.declared.played.Played.TheVariants.{NoMemory};

    ghost from_gives = { λ _ played. played ≡ NoMemory };

    fn from(_error: AllocError) -> Played {
        Played::NoMemory
    }
}
