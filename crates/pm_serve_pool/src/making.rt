//! A pool is made.
ghost use Rattle.std.specs.Prelude.{◌≡◌, ◌+◌, ◌≤◌, ℕ, [], All, Some, IfErr, IfOk, IfSome, length, vec_len};
ghost use Rattle.pm_board.specs.{Models.AreNewPosts, Told.new_roster};
ghost use Rattle.pm_supervisor.specs.Limits.{IsWithinLimits};
ghost use Rattle.pm_store_shared.specs.{pm_disk.Cause.Rose, Told.{AreNewTokens, IsNewShared}};
ghost use Rattle.pm_serve_pool.specs.{declared.pool.NoPool.TheVariants.NoThread, Given.{IsGivenBack, IsOpenedAlone}, Plan.{sessions_of, slots_of}, Pools.{IsPool, IsWithin}, Works.{EachFrom, IsWorkOf}};

use crate::closing::close_all;
use crate::plan::{CHECKPOINTER_SLOT, Plan, Terms, WRITER_SLOT};
use crate::pool::{Made, NoPool, Pool, Unmade, Worker};
use crate::refusing::give_up;
use crate::stock::Stock;
use pm_board::Roster;
use pm_disk::Disk;
use pm_outside::{Chronicle, Clock, Link};
use pm_query::BookEntry;
use pm_spawn::{Spawner, start_all};
use pm_store_shared::{Caller, Shared, TokenStore, Tokens};
use pm_worker::{Child, Mail, Tools};
use std::alloc::Global;
use std::collections::VecDeque;
use std::snapshot::Snapshot;
use std::sync::Wait;
use std::thread::Threads;

// Makes the works, from the last slot to the first, since the last token is the first to be taken. The shared side is for the proof
// alone.
fn fill<
    R: Wait + Copy + Drop,
    C: Clock + Drop,
    L: Link + Drop,
    D: Disk + Drop,
    B: Chronicle<BookEntry> + Drop,
>(
    rt: R,
    alloc: Global,
    terms: &Terms<C>,
    stock: Stock<R, C, L, D, B>,
    shared: &Shared<D, B>,
    tokens: Tokens<D, B>,
) -> (Roster<Mail<L>>, VecDeque<Worker<R, C, L, D, B>>)
    requires posts { AreNewPosts (slots_of terms.now.plan) (sessions_of terms.now.plan.limits)
        stock.roster.table stock.posts.items }
    requires clocks { (vec_len stock.clocks ≡ slots_of terms.now.plan)
        × All (λ clock. (moment : ℕ) → C.gives clock moment
        → C.gives terms.now.clock.value moment) stock.clocks.items }
    requires callers { vec_len stock.callers ≡ slots_of terms.now.plan }
    requires room { (stock.works.items ≡ []) × (slots_of terms.now.plan ≤ stock.works.cap) }
    requires tokens { AreNewTokens (slots_of terms.now.plan) shared.now tokens }
    ensures roster { result.0 ≡ stock.roster }
    ensures count { length result.1.items ≡ slots_of terms.now.plan }
    ensures works { EachFrom (IsWorkOf C.gives terms.now stock.roster.table shared.now.table
        shared.now.first) 0 result.1.items }
{
    let _shared = shared;
    let Stock {
        roster,
        mut posts,
        mut clocks,
        mut callers,
        mut works,
    } = stock;
    let mut tokens = tokens;
    while let Some(token) = tokens.take() {
        let post = posts.pop().unwrap();
        let tools = Tools {
            rt,
            alloc,
            clock: clocks.pop().unwrap(),
            conf: terms.plan.conf,
            seed: terms.plan.seed,
        };
        let clock = callers.pop().unwrap();
        let caller = Caller::new(clock, WRITER_SLOT, CHECKPOINTER_SLOT);
        works.push_front_reserved(Child::new(tools, post, TokenStore { rt, token, caller }));
    }
    (roster, works)
}

// Starts all works. Where one isn't started, those that were are closed again.
fn start<
    S: Spawner<Runtime = R>,
    R: Threads + Wait + Copy + Drop + Send + 'static,
    C: Clock + Drop + Send + 'static,
    L: Link + Drop + Send + 'static,
    D: Disk + Drop + Send + 'static,
    B: Chronicle<BookEntry> + Drop + Send + 'static,
>(
    spawner: &mut S,
    rt: R,
    alloc: Global,
    terms: Terms<C>,
    roster: Roster<Mail<L>>,
    shared: Shared<D, B>,
    works: VecDeque<Worker<R, C, L, D, B>>,
) -> Result<Made<R, C, L, D, B>, Unmade<D, B>>
    requires within { IsWithin terms }
    requires roster { roster.knows ≡ new_roster (slots_of terms.plan) (sessions_of terms.plan.limits)
        (slots_of terms.plan) }
    requires shared { (first : D) × IsNewShared (slots_of terms.plan) first shared }
    requires count { length works.items ≡ slots_of terms.plan }
    requires works { EachFrom (IsWorkOf C.gives terms roster.table shared.table shared.first) 0
        works.items }
    ensures roster { IfOk result (λ made. made.roster ≡ roster) }
    ensures shared { IfOk result (λ made. made.shared ≡ shared) }
    ensures terms { IfOk result (λ made. made.pool.terms ≡ terms) }
    ensures pool { IfOk result (λ made.
        IsPool C.gives roster.table shared.table shared.first made.pool) }
    ensures cause { IfErr result (λ back. back.why ≡ NoThread
        → Rose (S.faults spawner.old) (S.faults spawner.new)) }
    ensures parts { IfErr result (λ back. (first : D) → shared.first ≡ Some first
        → IsOpenedAlone D.Disk B.Chronicle first back.disk back.book) }
{
    let mut works = works;
    let Ok(workers) = start_all(spawner, alloc, &mut works) else {
        return Err(give_up(NoPool::NoMemory, works, shared));
    };
    if works.is_empty() {
        let pool = Pool { workers, terms };
        return Ok(Made {
            roster,
            shared,
            pool,
        });
    }
    let mut roster = roster;
    let mut shared = shared;
    close_all(&rt, &terms, workers, &mut roster, &mut shared);
    Err(give_up(NoPool::NoThread, works, shared))
}

/// Makes a board and a store, and a thread for each slot of the board. All works are made before the first is started.
///
/// The book is handed in empty, where it tells. Where a thread isn't made, or memory is short, disk and book come back: as they
/// were, or those of a store that has noted its first generation alone.
pub fn make<
    S: Spawner<Runtime = R>,
    R: Threads + Wait + Copy + Drop + Send + 'static,
    C: Clock + Drop + Send + 'static,
    L: Link + Drop + Send + 'static,
    D: Disk + Drop + Send + 'static,
    B: Chronicle<BookEntry> + Drop + Send + 'static,
>(
    spawner: &mut S,
    rt: R,
    alloc: Global,
    clock: &C,
    plan: &Plan,
    disk: D,
    book: B,
) -> Result<Made<R, C, L, D, B>, Unmade<D, B>>
    requires within { IsWithinLimits plan.now.limits }
    requires empty { IfSome (B.entries book) (λ entries. entries ≡ []) }
    ensures roster { IfOk result (λ made. made.roster.knows ≡ new_roster (slots_of plan.now)
        (sessions_of plan.now.limits) (slots_of plan.now)) }
    ensures shared { IfOk result (λ made. IsNewShared (slots_of plan.now) disk made.shared) }
    ensures pool { IfOk result (λ made. IsPool C.gives made.roster.table made.shared.table
        made.shared.first made.pool) }
    ensures terms { IfOk result (λ made. (made.pool.terms.plan ≡ plan.now)
        × (made.pool.terms.clock.value ≡ clock.now)) }
    ensures cause { IfErr result (λ back. back.why ≡ NoThread
        → Rose (S.faults spawner.old) (S.faults spawner.new)) }
    ensures parts { IfErr result (λ back. IsGivenBack D.Disk B.Chronicle disk book back.disk
        back.book) }
{
    let Ok(stock) = Stock::<R, C, L, D, B>::new(alloc, clock, plan) else {
        return Err(Unmade {
            why: NoPool::NoMemory,
            disk,
            book,
        });
    };
    match Shared::new(alloc, disk, book, plan.slots()) {
        Ok((shared, tokens)) => {
            let terms = Terms {
                plan: *plan,
                clock: Snapshot::of(clock),
            };
            let (roster, works) = fill(rt, alloc, &terms, stock, &shared, tokens);
            start(spawner, rt, alloc, terms, roster, shared, works)
        }
        Err((disk, book)) => Err(Unmade {
            why: NoPool::NoMemory,
            disk,
            book,
        }),
    }
}
