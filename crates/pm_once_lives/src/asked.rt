//! The life of a checkpointer that is alone: it is asked for the last checkpoint at once, and no other signal reaches it.
ghost use Rattle.std.specs.Prelude.{◌≡◌, false};

use crate::quiet::Home;
use std::marker::PhantomData;

/// The life of a child of this generation that is asked for the last checkpoint, and that no other child is beside.
#[derive(Drop)]
pub struct Asked<H: Home> {
    pub(crate) pid: u32,
    pub(crate) generation: u32,
    pub(crate) attached: Option<u32>,
    // How often it has asked for its signals, and whether it has.
    pub(crate) asked: u64,
    pub(crate) is_told: bool,
    // Whether it came to the gate as an ordinary child, if it was there.
    pub(crate) came_as_ordinary: Option<bool>,
    pub(crate) asked_cancel: Option<(u32, u32)>,
    pub(crate) of: PhantomData<H>,
    ghost at_home: { generation ≡ H.home },
    ghost first: { is_told ≡ false → asked ≡ 0 },
}
