//! A pool, and what is made with it.

use crate::plan::Terms;
use pm_board::Roster;
use pm_disk::Disk;
use pm_outside::{Chronicle, Clock, Link};
use pm_query::BookEntry;
use pm_spawn::Running;
use pm_store_shared::{Shared, TokenStore};
use pm_worker::{Child, Mail};
use std::collections::VecDeque;
use std::sync::Wait;
use std::thread::Threads;

/// The work of one worker.
pub type Worker<R, C, L, D, B> = Child<R, C, L, TokenStore<R, C, D, B>>;

/// The threads of a server's workers, that of slot 0 first.
#[derive(Drop)]
pub struct Pool<
    R: Threads + Wait + Drop,
    C: Clock + Drop,
    L: Link + Drop,
    D: Disk + Drop,
    B: Chronicle<BookEntry> + Drop,
> {
    pub workers: VecDeque<Running<R, Worker<R, C, L, D, B>>>,
    pub terms: Terms<C>,
}

/// A pool, with the supervisor's sides of its board and of its store.
#[derive(Drop)]
pub struct Made<
    R: Threads + Wait + Drop,
    C: Clock + Drop,
    L: Link + Drop,
    D: Disk + Drop,
    B: Chronicle<BookEntry> + Drop,
> {
    pub roster: Roster<Mail<L>>,
    pub shared: Shared<D, B>,
    pub pool: Pool<R, C, L, D, B>,
}

/// Why no pool was made.
#[derive(Clone, Copy, Debug, PartialEq, Eq)]
pub enum NoPool {
    /// A thread wasn't made, which its spawner has counted.
    NoThread,
    NoMemory,
}

/// No pool was made. Disk and book come back.
#[derive(Drop)]
pub struct Unmade<D, B> {
    pub why: NoPool,
    pub disk: D,
    pub book: B,
}
