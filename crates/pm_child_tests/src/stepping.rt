//! What a checkpointer does between two steps of a checkpoint.
ghost use Rattle.std.specs.Prelude.{◌≡◌, ⊤};

use crate::lives::script_of;
use pm_aux::{checkpointer, startup};
use pm_child_life::{Cancelled, ScriptedLife, Seat};
use pm_outside::{Clock, Forgotten};
use pm_query::{Checkpointed, Seen, Staged, Stepping, Store, StoreNo, Work};
use pm_rows_tests::{GENERATION, MemStore};
use pm_sql::Script;
use std::alloc::{AllocError, Global};
use std::sync::Wait;
use std::sync::atomic::{AtomicU64, Ordering};
use std::test::Fail;

/// How many steps the next checkpoint takes before its last one, what the child is given at its asks, how it exits, which of
/// these calls it has made by then, and how many brief pauses and others.
const TABLE: &str = "
told to quit between two steps | 9 | 3 quit | Code(2) mmmd 3 0
killed there | 9 | 3 kill | Signal(9) mmm 3 0
killed before all else | 9 | 3 kill+stop+checkpoint | Signal(9) mmm 3 0
asked there for the last one | 9 | 3 checkpoint | Code(0) mmmdl 3 0
asked before the first step | 9 | checkpoint | Code(0) dl 0 0
asked after a checkpoint | 2 | 5 checkpoint | Code(0) mmcccdl 2 3
told to quit after a checkpoint | 2 | 3 quit | Code(2) mmcd 2 1";

/// A store whose next checkpoint takes so many steps before its last one. It notes its calls for checkpoints: one of these
/// steps as `m`, any other as `c`, the last checkpoint as `l`, and one that is given up as `d`.
#[derive(Drop)]
struct Stepped<S> {
    store: S,
    steps: u64,
    calls: String,
}

impl<S: Store + Drop> Stepped<S> {
    // Where memory is short the letter is missing.
    fn note(&mut self, letter: char)
        ensures { (self.new.store ≡ self.old.store) × (self.new.steps ≡ self.old.steps) }
    {
        let _ = self.calls.push(letter);
    }
}

impl<S: Store + Drop> Seat for Stepped<S> {
    ghost use Rattle.std.specs.Prelude.{◌≡◌};

    ghost child = { λ stepped. S.child stepped.store };

    ghost told = { λ stepped. S.told stepped.store };

    ghost rests = { λ before now. now.store ≡ before.store };
}

impl<S: Store + Drop> Store for Stepped<S> {
    ghost use Rattle.std.proofs.Common.{[], ap, subst, sym};

    type Pass = S::Pass;

    ghost notes = { λ entries before now. S.notes entries before.store now.store };

    ghost admits = { λ stepped. S.admits stepped.store };

    ghost view = { S.view };

    ghost stamp = { λ stepped. S.stamp stepped.store };

    ghost met = { λ stepped. S.met stepped.store };

    ghost learned = { λ stepped. S.learned stepped.store };

    fn enter(&mut self, pid: u32, generation: u32) -> Result<S::Pass, StoreNo> {
        self.store.enter(pid, generation)
    }

    fn run(&mut self, pass: &mut S::Pass, script: &Script) -> Result<Staged, StoreNo> {
        self.store.run(pass, script)
    }

    fn seen(&mut self, pass: &mut S::Pass, front: u64) -> Result<Seen, StoreNo> {
        self.store.seen(pass, front)
    }

    fn flush(&mut self, pass: &mut S::Pass) -> Result<u64, StoreNo> {
        self.store.flush(pass)
    }

    fn redo(&mut self, pass: &mut S::Pass) -> Result<u64, StoreNo> {
        self.store.redo(pass)
    }

    fn checkpoint(&mut self, pass: &mut S::Pass, clean: bool) -> Result<Checkpointed, StoreNo> {
        self.note(if clean { 'l' } else { 'c' });
        self.store.checkpoint(pass, clean)
    }

    fn checkpoint_step(&mut self, pass: &mut S::Pass) -> Result<Stepping, StoreNo> {
        if self.steps > 0 {
            self.steps -= 1;
            self.note('m');
            return Ok(Stepping::More);
        }
        self.note('c');
        self.store.checkpoint_step(pass)
    }

    fn checkpoint_drop(&mut self, pass: &mut S::Pass) {
        self.note('d');
        self.store.checkpoint_drop(pass);
    }

    fn leave(&mut self, pass: S::Pass) {
        self.store.leave(pass);
    }

    ghost at_rest = { λ stepped. S.at_rest stepped.store };

    ghost apart = { λ before now same. subst (λ store. S.notes [] before.store store) (sym same) (S.at_rest before.store) };

    ghost admits_still = { λ before now pass same admits. subst (λ store. S.admits store pass) (sym same) admits };

    ghost met_still = { λ before now same. ap S.met same };

    ghost in_turn = { λ before between now. S.in_turn before.store between.store now.store };

    ghost stays = { λ before now. S.stays before.store now.store };

    ghost rises = { λ before now. S.rises before.store now.store };

    ghost keeps = { λ before now. S.keeps before.store now.store };
}

/// Counts its pauses, and lets no time pass.
#[derive(Drop)]
struct PauseCounts<R> {
    brief: AtomicU64,
    others: AtomicU64,
    rt: R,
}

impl<R> PauseCounts<R> {
    fn new(rt: R) -> Self {
        PauseCounts {
            brief: AtomicU64::new(0),
            others: AtomicU64::new(0),
            rt,
        }
    }
}

impl<R: Wait + Copy + Drop> Clock for PauseCounts<R> {
    type Runtime = R;

    ghost gives = { λ _ _. ⊤ };

    fn now(&self) -> u64 {
        0
    }

    fn pause(&self) {
        self.others.fetch_add(1, Ordering::SeqCst);
    }

    fn pause_briefly(&self) {
        self.brief.fetch_add(1, Ordering::SeqCst);
    }

    fn ring(&self) {}

    fn call(&self, _slot: u32) {}

    fn another(&self, _slot: u32) -> Result<Self, AllocError> {
        Ok(PauseCounts::new(self.rt))
    }
}

// What a run comes to whose next checkpoint takes so many steps more, and that is given this.
fn run<R: Wait + Copy + Drop>(
    rt: &R,
    alloc: Global,
    steps: &str,
    signals: &str,
) -> Result<String, Fail> {
    let store = Stepped {
        store: MemStore::new(alloc, Forgotten::new()),
        steps: steps.parse::<u64>().ok().ok_or("a number")?,
        calls: String::new(alloc),
    };
    let mut work = Work {
        life: ScriptedLife::quiet(alloc, 1, GENERATION),
        store,
    };
    startup(&mut work);
    let store = work.store;
    let script = script_of(alloc, signals)?;
    let life = ScriptedLife::new(2, false, script, Ok(GENERATION), Cancelled::NoSuchPid);
    let clock = PauseCounts::new(*rt);
    let mut work = Work { life, store };
    let status = checkpointer(rt, &mut work, &clock).status;
    let brief = clock.brief.load(Ordering::SeqCst);
    let others = clock.others.load(Ordering::SeqCst);
    let calls = work.store.calls.as_str();
    Ok(format!(in alloc; "{status:?} {calls} {brief} {others}")?)
}

#[test]
fn signals_are_taken_between_two_steps(rt: HostRuntime) -> Result<(), Fail> {
    for line in TABLE.lines() {
        if let Some((_, rest)) = line.split_once(" | ") {
            let (steps, rest) = rest.split_once(" | ").ok_or("what it is given")?;
            let (signals, end) = rest.split_once(" | ").ok_or("what it comes to")?;
            let came = run(&rt, rt.alloc(), steps, signals)?;
            assert_eq!(rt; came.as_str(), end, "{line}");
        }
    }
    Ok(())
}
