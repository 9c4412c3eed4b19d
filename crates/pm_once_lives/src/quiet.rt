//! The life of a child to which nothing happens: no signal reaches it, and the gate lets it into its generation.
ghost use Rattle.std.specs.Prelude.{◌≡◌};

use std::marker::{Brand, PhantomData};

/// The generation of a child, as a type.
pub trait Home {
    ghost use Rattle.std.specs.Prelude.{ℕ};

    /// The generation.
    ghost home: { ℕ };
}

impl Home for Brand {
    ghost home = { 0 };
}

/// The life of a child of this generation that no other child is beside.
#[derive(Drop)]
pub struct Quiet<H: Home> {
    pub(crate) pid: u32,
    pub(crate) generation: u32,
    pub(crate) attached: Option<u32>,
    pub(crate) asked: u64,
    // Whether it came to the gate as an ordinary child, if it was there.
    pub(crate) came_as_ordinary: Option<bool>,
    pub(crate) asked_cancel: Option<(u32, u32)>,
    pub(crate) of: PhantomData<H>,
    ghost at_home: { generation ≡ H.home },
}
