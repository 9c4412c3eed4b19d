//! What a pool takes of memory before it shares its store.
ghost use Rattle.std.specs.Prelude.{◌≡◌, ◌+◌, ◌≤◌, ℕ, [], All, IfOk, length, vec_len};
ghost use Rattle.pm_board.specs.{Told.new_roster, Models.AreNewPosts};
ghost use Rattle.pm_supervisor.specs.Limits.{IsWithinLimits};
ghost use Rattle.pm_serve_pool.specs.Plan.{sessions_of, slots_of};

use crate::plan::Plan;
use crate::pool::Worker;
use pm_board::{Board, Post, Posts, Roster};
use pm_disk::Disk;
use pm_outside::{Chronicle, Clock, Link};
use pm_query::BookEntry;
use pm_worker::Mail;
use std::alloc::{AllocError, Global};
use std::collections::VecDeque;
use std::sync::Wait;

/// A board, and for each of its slots a post, a clock, one for the calls of its store, and room for a work.
#[derive(Drop)]
pub(crate) struct Stock<
    R: Wait + Drop,
    C: Clock + Drop,
    L: Link + Drop,
    D: Disk + Drop,
    B: Chronicle<BookEntry> + Drop,
> {
    pub(crate) roster: Roster<Mail<L>>,
    pub(crate) posts: Vec<Post<Mail<L>>>,
    pub(crate) clocks: Vec<C>,
    pub(crate) callers: Vec<C>,
    pub(crate) works: VecDeque<Worker<R, C, L, D, B>>,
}

impl<
    R: Wait + Drop,
    C: Clock + Drop,
    L: Link + Drop,
    D: Disk + Drop,
    B: Chronicle<BookEntry> + Drop,
> Stock<R, C, L, D, B> {
    /// For a pool that is made by this plan, with clocks that give the moments of this one.
    pub(crate) fn new(
        alloc: Global,
        clock: &C,
        plan: &Plan,
    ) -> Result<Stock<R, C, L, D, B>, AllocError>
        requires { IsWithinLimits plan.now.limits }
        ensures roster { IfOk result (λ stock. stock.roster.knows ≡ new_roster (slots_of plan.now)
            (sessions_of plan.now.limits) (slots_of plan.now)) }
        ensures posts { IfOk result (λ stock. AreNewPosts (slots_of plan.now)
            (sessions_of plan.now.limits) stock.roster.table stock.posts.items) }
        ensures clocks { IfOk result (λ stock. (vec_len stock.clocks ≡ slots_of plan.now)
            × All (λ clock'. (moment : ℕ) → C.gives clock' moment → C.gives clock.now moment)
            stock.clocks.items) }
        ensures callers { IfOk result (λ stock. vec_len stock.callers ≡ slots_of plan.now) }
        ensures works { IfOk result (λ stock. (stock.works.items ≡ [])
            × (slots_of plan.now ≤ stock.works.cap)) }
    {
        let slots = plan.slots();
        let (roster, posts) = Board::new(alloc, slots, plan.sessions())?;
        Ok(Stock {
            roster,
            posts: listed(alloc, posts)?,
            clocks: clocks(alloc, clock, slots)?,
            callers: clocks(alloc, clock, slots)?,
            works: VecDeque::with_capacity(alloc, slots as usize)?,
        })
    }
}

// Posts as a list.
fn listed<L: Link + Drop>(
    alloc: Global,
    posts: Posts<Mail<L>>,
) -> Result<Vec<Post<Mail<L>>>, AllocError>
    ensures { IfOk result (λ list. list.items ≡ posts.left.items) }
{
    let mut posts = posts;
    let mut list = Vec::new(alloc);
    while let Some(post) = posts.take() {
        list.push(post)?;
    }
    Ok(list)
}

// So many clocks that give the moments of this one, each for the child of its slot.
fn clocks<C: Clock + Drop>(alloc: Global, clock: &C, count: u32) -> Result<Vec<C>, AllocError>
    ensures { IfOk result (λ clocks. (vec_len clocks ≡ count)
        × All (λ clock'. (moment : ℕ) → C.gives clock' moment → C.gives clock.now moment)
        clocks.items) }
{
    let mut clocks = Vec::with_capacity(alloc, count as usize)?;
    for slot in 0..count {
        clocks.push_reserved(clock.another(slot)?);
    }
    Ok(clocks)
}
