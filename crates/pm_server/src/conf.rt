//! What a server goes by.

use pm_session::SessionConf;
use pm_supervisor::Limits;

/// What a server goes by.
#[derive(Clone, Copy, Debug, PartialEq, Eq)]
pub struct Conf {
    pub limits: Limits,
    pub session: SessionConf,
}
