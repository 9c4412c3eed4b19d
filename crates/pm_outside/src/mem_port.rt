// A port whose links are given beforehand, and which keeps those that come back.
ghost use Rattle.std.specs.{Prelude.{◌≤◌, length}, Vec.vec_capacity};

use crate::failing_calls::FailingCalls;
use crate::holds::{Hold, Holds};
use crate::link_script::LinkScript;
use crate::mem_link::MemLink;
use crate::port::{Accepted, Port};
use crate::scene::Scene;
use std::alloc::{AllocError, Global};
use std::collections::VecDeque;

/// Gives a link for each script, in their order, and then the end. The first link is number 1. At a hold whose cue
/// hasn't come, which has the number of links in front of it as its place, it answers that nobody waits, 10,000 times
/// at most in all, and then gives the end in place of the links that are left. An accept fails where its number is
/// listed, or where there is no memory to take the link back later.
#[derive(Drop)]
pub struct MemPort {
    alloc: Global,
    waiting: VecDeque<LinkScript>,
    given: usize,
    back: Vec<MemLink>,
    ended_behind: Option<usize>,
    accepts: FailingCalls,
    holds: Holds,
    ghost came_from_here: { length back.items ≤ given },
    ghost room_for_all: { given ≤ vec_capacity back },
}

impl MemPort {
    ghost use Rattle.std.specs.Prelude.{◌≡◌, ◌≢◌, ◌<◌, [], true, false};
    ghost use Rattle.pm_outside.specs.{Calls.no_calls, Holds.holds_left, MemPort.{PassesHolds, ChangesHoldsOnly, scripts_left, port_holds, links_given, links_back, accept_calls, port_visits}, Visits.no_visits};

    /// A port for these links, on no scene. The accepts with these numbers, counted from 1, fail.
    pub fn new(alloc: Global, scripts: Vec<LinkScript>, failing: Vec<u64>) -> Self
        ensures scripts { scripts_left result ≡ scripts.items }
        ensures visits { port_visits result ≡ no_visits }
        ensures links { links_back result ≡ [] }
        ensures calls { accept_calls result ≡ no_calls failing.items }
    {
        MemPort::on(alloc, None, scripts, failing)
    }

    /// The same on a scene, which its links share.
    pub fn on(
        alloc: Global,
        scene: Option<Scene>,
        scripts: Vec<LinkScript>,
        failing: Vec<u64>,
    ) -> Self
        ensures scripts { scripts_left result ≡ scripts.items }
        ensures visits { port_visits result ≡ no_visits }
        ensures links { links_back result ≡ [] }
        ensures calls { accept_calls result ≡ no_calls failing.items }
    {
        MemPort::held(alloc, scene, scripts, Vec::new(alloc), failing)
    }

    /// The same, where links or the end wait at these holds. Their places count links, and rise.
    pub fn held(
        alloc: Global,
        scene: Option<Scene>,
        scripts: Vec<LinkScript>,
        holds: Vec<Hold>,
        failing: Vec<u64>,
    ) -> Self
        ensures scripts { scripts_left result ≡ scripts.items }
        ensures holds { holds_left (port_holds result) ≡ holds.items }
        ensures visits { port_visits result ≡ no_visits }
        ensures links { links_back result ≡ [] }
        ensures calls { accept_calls result ≡ no_calls failing.items }
    {
        MemPort {
            alloc,
            waiting: VecDeque::from(scripts),
            given: 0,
            back: Vec::new(alloc),
            ended_behind: None,
            accepts: FailingCalls::new(failing),
            holds: Holds::new(holds, scene),
        }
    }

    // Whether the next link, or the end, waits at a hold. One that was asked too often lets no link come any more.
    fn is_held_back(&mut self) -> bool
        ensures held { result ≡ true → (scripts_left self.new ≡ scripts_left self.old)
            × (holds_left (port_holds self.new) ≢ []) × ((port_holds self.old).asks < 10000) }
        ensures free { result ≡ false → PassesHolds self.old self.new }
        ensures rest { ChangesHoldsOnly self.old self.new }
    {
        if !self.holds.hold_back(self.given) {
            return false;
        }
        if self.holds.waits() {
            return true;
        }
        self.waiting.clear();
        false
    }

    // The scene for one link more.
    fn scene_for_link(&self) -> Result<Option<Scene>, AllocError> {
        match self.holds.scene() {
            Some(scene) => Ok(Some(scene.another()?)),
            None => Ok(None),
        }
    }

    /// The links that came back, in the order in which they came.
    pub fn links(&self) -> &[MemLink]
        ensures { result.now ≡ links_back self.now }
    {
        &self.back
    }
}

impl Port for MemPort {
    type Link = MemLink;

    ghost use Rattle.std.{proofs.{Common.{sym, subst}, lemmas.List.{length-map, length-replicate}}, specs.Prelude.{◌≡◌, ◌+◌, ◌<◌, ◌≤◌, ℕ, [], ◌∷◌, ◌++◌, length, IsTrue, Some}};
    ghost use Rattle.pm_disk.specs.Cause.{IsCounted};
    ghost use Rattle.pm_outside.specs.{Calls.{is_next_listed, after_call}, MemLink.{link_faults, link_number, link_traffic}, MemPort.{links_given, links_back, accept_calls, port_visits, visit_of, links_in, is_accept_failed, GivesNext, ChangesBackOnly}, Traffic.IsFresh, Visits.{after_accept, after_done, IfLink}};

    ghost visits = { λ p. Some (port_visits p) };

    ghost faults = { λ p. (accept_calls p).failed };

    ghost balanced = { λ p. subst (λ (n : ℕ). n ≤ length (port_visits p).given) (sym (length-map (links_back p) visit_of))
        (subst (λ (n : ℕ). length (links_back p) ≤ n) (sym (length-replicate (links_given p) 0)) p.came_from_here) };

    fn accept(&mut self, _slot: u32) -> Accepted<MemLink>
        ensures visits { port_visits self.new ≡ after_accept link_faults (port_visits self.old)
            result }
        ensures number { IfLink result (λ link. link_number link ≡ links_given self.old + 1) }
        ensures fresh { IfLink result (λ link. IsFresh (Some (link_traffic link))) }
        ensures cause { IsCounted (accept_calls self.old).failed (accept_calls self.new).failed
            (result ≡ Accepted.Failed) }

        ensures next { GivesNext self.old result self.new }
        ensures listed { IsTrue (is_next_listed (accept_calls self.old))
            → result ≡ Accepted.Failed }
        ensures counts { accept_calls self.new ≡ after_call (accept_calls self.old)
            (is_accept_failed result) }
        ensures links { links_back self.new ≡ links_back self.old }
        ensures given { links_given self.new ≡ links_given self.old + links_in result }
    {
        if self.accepts.begin() {
            self.accepts.fail();
            return Accepted::Failed;
        }
        if self.is_held_back() {
            return Accepted::NotYet;
        }
        if self.waiting.is_empty() {
            self.ended_behind = Some(self.ended_behind.unwrap_or(self.given));
            return Accepted::End;
        }
        if self.back.reserve(self.given + 1 - self.back.len()).is_err() {
            self.accepts.fail();
            return Accepted::Failed;
        }
        let Ok(scene) = self.scene_for_link() else {
            self.accepts.fail();
            return Accepted::Failed;
        };
        let script = self.waiting.pop_front().unwrap();
        self.given += 1;
        Accepted::Link(MemLink::new(self.alloc, self.given as u64, script, scene))
    }

    fn done(&mut self, link: MemLink)
        requires { length (links_back self.old) < links_given self.old }
        ensures visits { port_visits self.new ≡ after_done (port_visits self.old) (link_number link)
            (Some (link_traffic link)) (link_faults link) }
        ensures cause { (accept_calls self.new).failed ≡ (accept_calls self.old).failed }

        ensures links { links_back self.new ≡ links_back self.old ++ link ∷ [] }
        ensures rest { ChangesBackOnly self.old self.new }
    {
        self.back.push(link).unwrap();
    }

    fn faults(&self) -> u64 {
        self.accepts.failed()
    }
}
