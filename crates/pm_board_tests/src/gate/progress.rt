//! What the roster tells the workers of its steps, so that they can judge what they meet.
use pm_child_life::GateNo;
use pm_supervisor::Reason;
use std::sync::atomic::{AtomicU32, Ordering};

/// So many sessions may be attached.
pub const SESSIONS: u32 = 4;
/// So many workers go to the gate.
pub const WORKERS: u32 = 8;

/// Of each step at the gate the last generation in which the roster has begun or ended it, and how many are attached.
#[derive(Drop)]
pub struct Progress {
    opening: AtomicU32,
    opened: AtomicU32,
    shutting: AtomicU32,
    shut: AtomicU32,
    attached: AtomicU32,
}

/// What a child knew of its generation when it went to the gate.
#[derive(Clone, Copy)]
pub struct Before {
    generation: u32,
    opened: bool,
    shut: bool,
}

impl Progress {
    pub fn new() -> Progress {
        Progress {
            opening: AtomicU32::new(0),
            opened: AtomicU32::new(0),
            shutting: AtomicU32::new(0),
            shut: AtomicU32::new(0),
            attached: AtomicU32::new(0),
        }
    }

    pub fn begins_to_open(&self, generation: u32) {
        self.opening.store(generation, Ordering::SeqCst);
    }

    pub fn has_opened(&self, generation: u32) {
        self.opened.store(generation, Ordering::SeqCst);
    }

    pub fn begins_to_shut(&self, generation: u32) {
        self.shutting.store(generation, Ordering::SeqCst);
    }

    pub fn has_shut(&self, generation: u32) {
        self.shut.store(generation, Ordering::SeqCst);
    }

    pub fn attached(&self) -> u32 {
        self.attached.load(Ordering::SeqCst)
    }

    /// One more worker is attached. How many others are.
    pub fn came_in(&self) -> u32 {
        self.attached.fetch_add(1, Ordering::SeqCst)
    }

    /// One less.
    pub fn goes_out(&self) {
        self.attached.fetch_sub(1, Ordering::SeqCst);
    }

    /// To be asked before a child of this generation goes to the gate.
    pub fn before(&self, generation: u32) -> Before {
        Before {
            generation,
            opened: self.opened.load(Ordering::SeqCst) >= generation,
            shut: self.shut.load(Ordering::SeqCst) >= generation,
        }
    }

    /// Whether it may have been let in: neither before the opening began, nor after the notice.
    pub fn may_let_in(&self, before: Before, generation: u32) -> bool {
        generation == before.generation
            && self.opening.load(Ordering::SeqCst) >= generation
            && !before.shut
    }

    /// Whether it may have been refused so.
    pub fn may_refuse(&self, before: Before, refusal: GateNo) -> bool {
        match refusal {
            GateNo::Quit { generation, reason } => {
                generation == before.generation
                    && reason == Reason::Crash
                    && self.shutting.load(Ordering::SeqCst) >= generation
            }
            GateNo::NotReady { generation } => generation == before.generation && !before.opened,
            GateNo::TooMany { count } => {
                SESSIONS <= count
                    && count < WORKERS
                    && self.opening.load(Ordering::SeqCst) >= before.generation
                    && !before.shut
            }
            GateNo::Reserved { .. } => false,
        }
    }
}
