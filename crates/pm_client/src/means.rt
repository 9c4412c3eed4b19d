//! What a client works with.
use pm_outside::Clock;
use std::alloc::Global;
use std::sync::Wait;

/// The runtime, the allocator, and the clock that lets time pass where a link has nothing yet.
#[derive(Drop)]
pub struct Means<'a, R: Wait, C: Clock> {
    pub rt: &'a R,
    pub alloc: Global,
    pub clock: &'a C,
}
