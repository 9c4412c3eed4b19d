//! What a worker goes by.

use pm_session::SessionConf;
use std::alloc::Global;

/// What a worker goes by: what lets it wait, its memory, its clock, the settings of sessions, and the seed of the cancel keys.
#[derive(Drop)]
pub struct Tools<R, C> {
    pub rt: R,
    pub alloc: Global,
    pub clock: C,
    pub conf: SessionConf,
    pub seed: [u8; 32],
}
