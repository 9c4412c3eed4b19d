//! How children came out that serve no connection.

ghost use Rattle.std.specs.Prelude.{◌≡◌};
ghost use Rattle.pm_postmaster.specs.Looking.{with_came};

use pm_exit::{Kind, Status};
use pm_query::StoreNo;

/// How a child came out: its status, and the refusal of the store that it told, if it did.
#[derive(Clone, Copy, Debug, PartialEq, Eq)]
pub(crate) struct Came {
    pub(crate) status: Status,
    pub(crate) fault: Option<StoreNo>,
}

/// How the last startup child and the last checkpointer came out, of those that were released.
#[derive(Clone, Copy, Debug, PartialEq, Eq)]
pub(crate) struct LastCame {
    pub(crate) startup: Option<Came>,
    pub(crate) checkpointer: Option<Came>,
}

impl LastCame {
    /// The same with a child of this kind that came out so.
    pub(crate) fn with(self, kind: Kind, came: Came) -> LastCame
        ensures { result ≡ with_came kind came self }
    {
        match kind {
            Kind::Startup => LastCame {
                startup: Some(came),
                ..self
            },
            Kind::Checkpointer => LastCame {
                checkpointer: Some(came),
                ..self
            },
            Kind::Writer | Kind::Worker | Kind::Backend | Kind::DeadEnd => self,
        }
    }
}
