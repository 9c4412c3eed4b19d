//! What a child works with.
use pm_outside::Clock;
use std::alloc::Global;
use std::sync::Wait;

/// What a child works with: the runtime, the allocator and the clock.
#[derive(Drop)]
pub struct Means<'a, R: Wait, C: Clock> {
    pub rt: &'a R,
    pub alloc: Global,
    pub clock: &'a C,
}
