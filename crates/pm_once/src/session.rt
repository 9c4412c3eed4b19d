//! One connection, and where it comes from.

ghost use Rattle.std.specs.Prelude.{◌≡◌, ◌+◌, ◌<◌, ◌≤◌, length, option_map, IfNone, IfSome};
ghost use Rattle.pm_keys.specs.CancelKey.{cancel_key};
ghost use Rattle.pm_session.specs.{pm_outside.Traffic.IsFresh, pm_session_exchange.Exchange.link_view, Session.status_of};
ghost use Rattle.pm_segment.specs.{Moment.moment, Moves.Moves};
ghost use Rattle.pm_once.specs.Service.{Connection, IsServedAs, with_end, with_link};

use pm_admit::Cac;
use pm_disk::Disk;
use pm_exit::Status;
use pm_once_lives::{Home, Quiet};
use pm_outside::{Accepted, Chronicle, Clock, Link, Port};
use pm_query::{BookEntry, Work};
use pm_segment::Sole;
use pm_session::{Admission, Done, Means, SessionConf, serve};
use std::marker::Brand;
use std::sync::Wait;

/// The slot of whoever serves a link: there is one thread alone.
const SLOT: u32 = 0;

/// The port's next link, or none where it has come to its end. A fault of the port is passed over.
pub fn next_link<R: Wait, P: Port>(rt: &R, port: &mut P) -> Option<P::Link>
    ensures out { IfSome result (λ link. IfSome (P.visits port.new)
        (λ visits. length visits.back < length visits.given)) }
    ensures given { IfSome result (λ link. P.visits port.new ≡ option_map
        (with_link (P.Link.faults link)) (P.visits port.old)) }
    ensures number { IfSome result (λ link. IfSome (P.visits port.old)
        (λ visits. P.Link.number link ≡ length visits.given + 1)) }
    ensures fresh { IfSome result (λ link. IsFresh (P.Link.traffic link)) }
    ensures ended { IfNone result (P.visits port.new ≡ option_map with_end (P.visits port.old)) }
{
    for _ in rt.forever() {
        match port.accept(SLOT) {
            Accepted::Link(link) => return Some(link),
            Accepted::End => return None,
            Accepted::NotYet | Accepted::Failed => {}
        }
    }
    unreachable!()
}

/// How a connection's child exits, and its link and the store, given back.
#[derive(Debug)]
pub struct Served<L, S> {
    pub status: Status,
    pub link: L,
    pub store: S,
}

/// Serves one link to its end, as the child with this pid, in the store's generation, and gives both back.
pub fn serve_link<R, L, D, C, B>(
    means: &Means<'_, R, C>,
    link: L,
    pid: u32,
    seed: &[u8; 32],
    conf: &SessionConf,
    store: Sole<D, B>,
) -> Served<L, Sole<D, B>>
where
    R: Wait,
    L: Link,
    D: Disk,
    C: Clock,
    B: Chronicle<BookEntry>,
    requires fresh { IsFresh (L.traffic link) }
    requires pid { 1 ≤ pid }
    ensures session { (connection : Connection) × (connection.pid ≡ pid)
        × (connection.generation ≡ (moment store).generation)
        × (connection.given ≡ link_view (L.traffic link) (L.number link) (L.faults link))
        × (connection.back ≡ link_view (L.traffic result.link) (L.number result.link)
        (L.faults result.link)) × (result.status ≡ status_of connection.ending)
        × IsServedAs (cancel_key seed.now pid) conf.now.authentication_ms
        (C.gives means.now.clock.now) connection
        × Moves connection.noted (moment store) (moment result.store) }
{
    serve_at_home::<Brand, R, L, D, C, B>(means, link, pid, seed, conf, store)
}

// The same in a generation that is a type's.
fn serve_at_home<H, R, L, D, C, B>(
    means: &Means<'_, R, C>,
    link: L,
    pid: u32,
    seed: &[u8; 32],
    conf: &SessionConf,
    store: Sole<D, B>,
) -> Served<L, Sole<D, B>>
where
    H: Home,
    R: Wait,
    L: Link,
    D: Disk,
    C: Clock,
    B: Chronicle<BookEntry>,
    requires fresh { IsFresh (L.traffic link) }
    requires pid { 1 ≤ pid }
    requires home { (moment store).generation ≡ H.home }
    ensures session { (connection : Connection) × (connection.pid ≡ pid)
        × (connection.generation ≡ (moment store).generation)
        × (connection.given ≡ link_view (L.traffic link) (L.number link) (L.faults link))
        × (connection.back ≡ link_view (L.traffic result.link) (L.number result.link)
        (L.faults result.link)) × (result.status ≡ status_of connection.ending)
        × IsServedAs (cancel_key seed.now pid) conf.now.authentication_ms
        (C.gives means.now.clock.now) connection
        × Moves connection.noted (moment store) (moment result.store) }
{
    let life: Quiet<H> = Quiet::new(pid, store.generation());
    let work = Work { life, store };
    let key = pm_keys::key(seed, pid);
    let admission = Admission {
        decision: Cac::Ok,
        key,
    };
    let Done {
        status,
        link,
        work: Work { life: _, store },
    } = serve(means, link, work, admission, conf);
    Served {
        status,
        link,
        store,
    }
}
