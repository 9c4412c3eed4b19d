//! Disk and book come back where no pool was made.
ghost use Rattle.std.specs.Prelude.{◌≡◌, ◌+◌, Some, length};
ghost use Rattle.pm_serve_pool.specs.{Given.IsOpenedAlone, Works.{EachFrom, HasTakenBack, IsIdleShared, IsUnusedWork}};

use crate::pool::{NoPool, Unmade, Worker};
use pm_disk::Disk;
use pm_outside::{Chronicle, Clock, Link};
use pm_query::BookEntry;
use pm_store_shared::{Shared, TokenStore};
use std::collections::VecDeque;
use std::sync::Wait;

// Takes the tokens of works back that were not started.
fn take_all_back<
    R: Wait + Drop,
    C: Clock + Drop,
    L: Link + Drop,
    D: Disk + Drop,
    B: Chronicle<BookEntry> + Drop,
>(works: VecDeque<Worker<R, C, L, D, B>>, shared: &mut Shared<D, B>)
    requires { EachFrom (IsUnusedWork shared.old.table) (length shared.old.joined) works.items }
    ensures { HasTakenBack (length works.items) shared.old shared.new }
{
    let mut works = works;
    while let Some(work) = works.pop_front() {
        let (_post, store) = work.apart();
        let TokenStore {
            rt: _,
            token,
            caller: _,
        } = store;
        shared.take_back(token);
    }
}

/// Takes apart works that were not started, and the store after them.
pub(crate) fn give_up<
    R: Wait + Drop,
    C: Clock + Drop,
    L: Link + Drop,
    D: Disk + Drop,
    B: Chronicle<BookEntry> + Drop,
>(why: NoPool, works: VecDeque<Worker<R, C, L, D, B>>, shared: Shared<D, B>) -> Unmade<D, B>
    requires tokens { EachFrom (IsUnusedWork shared.table) (length shared.joined) works.items }
    requires all { length shared.joined + length works.items ≡ shared.tokens }
    requires idle { IsIdleShared shared }
    ensures why { result.why ≡ why }
    ensures parts { (first : D) → shared.first ≡ Some first
        → IsOpenedAlone D.Disk B.Chronicle first result.disk result.book }
{
    let mut shared = shared;
    take_all_back(works, &mut shared);
    let (disk, book) = shared.into_segment().into_parts();
    Unmade { why, disk, book }
}
