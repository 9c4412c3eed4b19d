// Where links come from, and where they go back to.
ghost use Rattle.std.specs.Prelude.{◌≡◌, ◌+◌, ◌<◌, ◌≤◌, ℕ, length, IfSome, Option, option_map};
ghost use Rattle.pm_disk.specs.Cause.{IsCounted};
ghost use Rattle.pm_outside.specs.{Traffic.IsFresh, Visits.{Visits, after_accept, after_done, IfLink}};

use crate::link::Link;

/// What a port answered.
#[derive(Debug, Drop)]
pub enum Accepted<L> {
    Link(L),
    /// Nobody waits.
    NotYet,
    /// No link will come any more.
    End,
    Failed,
}

pub trait Port {
    type Link: Link;

    /// The links given and taken back so far. A port that doesn't tell them has none.
    ghost visits: { Self → Option Visits };

    /// How often it has failed, up to 2^64 - 1. It never falls.
    ghost faults: { Self → ℕ };

    /// The next link, on which nothing has passed yet, for the child of this slot. The first is number 1, and each has the next
    /// number.
    fn accept(&mut self, slot: u32) -> Accepted<Self::Link>
        ensures visits { visits self.new ≡ option_map (λ v. after_accept Self.Link.faults v result)
            (visits self.old) }
        ensures number { IfSome (visits self.old) (λ v. IfLink result
            (λ link. Self.Link.number link ≡ length v.given + 1)) }
        ensures fresh { IfLink result (λ link. IsFresh (Self.Link.traffic link)) }
        ensures cause { IsCounted (faults self.old) (faults self.new) (result ≡ Accepted.Failed) };

    /// Takes a served link back, where one is out. It takes no memory: the call that gave the link made the room.
    fn done(&mut self, link: Self::Link)
        requires { IfSome (visits self.old) (λ v. length v.back < length v.given) }
        ensures visits { visits self.new ≡ option_map
            (λ v. after_done v (Self.Link.number link) (Self.Link.traffic link)
            (Self.Link.faults link)) (visits self.old) }
        ensures cause { faults self.new ≡ faults self.old };

    /// How often it has failed, up to 2^64 - 1.
    fn faults(&self) -> u64
        ensures { result ≡ faults self.now };

    /// No more links came back than were given.
    ghost balanced: { (port : Self) → IfSome (visits port) (λ v. length v.back ≤ length v.given) };
}
