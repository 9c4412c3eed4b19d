// A work that a thread of its own does.
ghost use Rattle.std.specs.Prelude.{◌≡◌, IfOk, IfErr, IfSome, IsErr, Option, None, Some};
ghost use Rattle.pm_disk.specs.Cause.{IsCounted};
ghost use Rattle.pm_spawn.specs.Works.{work_of};

use crate::spawner::Spawner;
use crate::task::Task;
use std::alloc::Global;
use std::marker::{Brand, PhantomData};
use std::snapshot::Snapshot;
use std::sync::{Arc, Condvar, Mutex, Wait};
use std::thread;
use std::thread::{Promise, PromisedHandle};

/// What a thread promises: its output is one that this work gives.
#[derive(Drop)]
pub struct OutputOf<W>(Snapshot<W>);

impl<W: Task> Promise<W::Output> for OutputOf<W> {
    ghost kept_by = { λ p output. W.gives p.0.value output };
}

/// A thread that does a work. One that isn't joined goes on, and is cut off where the program ends.
#[derive(Drop)]
pub struct Running<R, W: Task> {
    rt: R,
    thread: PromisedHandle<W::Output, OutputOf<W>>,
}

impl<R: thread::Threads + Drop, W: Task> Running<R, W> {
    /// Waits for the end of the work, and gives its output.
    pub fn join(self) -> W::Output
        ensures { W.gives (work_of self) result }
    {
        let Running { rt, thread } = self;
        thread.join(&rt)
    }
}

// Names the work that a thread is to do, for contracts alone.
trait Known<W> {
    ghost work: { Option W };
}

impl<W> Known<W> for Brand {
    ghost work = { None };
}

// A work that is the named one.
#[derive(Drop)]
struct Handed<W: Task, J: Known<W>> {
    work: W,
    of: PhantomData<J>,
    ghost is: { J.work ≡ Some work },
}

// Where a work is handed to its thread. The closure of a thread that couldn't be made is lost, so it doesn't have the work.
#[derive(Drop)]
struct Desk<W: Task, J: Known<W>> {
    slot: Mutex<Option<Handed<W, J>>>,
    filled: Condvar,
}

// Waits for the work on the desk.
fn receive<W: Task + Drop, J: Known<W>, R: Wait>(rt: &R, desk: &Desk<W, J>) -> Handed<W, J> {
    let mut slot = desk
        .filled
        .wait_while(rt, desk.slot.lock(rt), |slot| slot.is_none());
    slot.take().unwrap()
}

// Waits for the work, and does it.
fn do_work<W: Task + Drop, J: Known<W>, R: Wait>(rt: &R, desk: Arc<Desk<W, J>, Global>) -> W::Output
    requires { IfSome J.work W.can_work }
    ensures { IfSome J.work (λ work. W.gives work result) }
{
    let Handed { work, of: _ } = receive(rt, &desk);
    work.work()
}

// Puts the work on the desk.
fn give<W: Task + Drop, J: Known<W>, R: Wait>(rt: &R, desk: &Desk<W, J>, work: W)
    requires { J.work ≡ Some work }
{
    let mut slot = desk.slot.lock(rt);
    *slot = Some(Handed {
        work,
        of: PhantomData,
    });
    desk.filled.notify_one();
}

// Starts a thread that waits for the work, and hands the work over to it.
fn start_by<
    W: Task + Send + Drop + 'static,
    J: Known<W> + Send + 'static,
    R: thread::Threads + Wait + Copy + Send + 'static,
>(rt: R, alloc: Global, work: W) -> Result<PromisedHandle<W::Output, OutputOf<W>>, W>
where
    W::Output: Send + Drop + 'static,
    W::Runtime: 'static,
    requires is { J.work ≡ Some work }
    requires can { W.can_work work }
    ensures started { IfOk result (λ thread. thread.promise.0.value ≡ work) }
    ensures refused { IfErr result (λ back. back ≡ work) }
{
    let desk = Desk::<W, J> {
        slot: Mutex::new(None),
        filled: Condvar::new(),
    };
    let Ok(ours) = Arc::new(alloc, desk) else {
        return Err(work);
    };
    let Ok(theirs) = Arc::try_clone(&ours) else {
        return Err(work);
    };
    let promise = OutputOf(Snapshot::of(&work));
    let started = thread::spawn_with(
        &rt,
        promise,
        move || -> W::Output
            requires { IfSome J.work W.can_work }
            ensures { IfSome J.work (λ work. W.gives work result) }
        { do_work::<W, J, R>(&rt, theirs) },
    );
    match started {
        Ok(thread) => {
            give(&rt, &ours, work);
            Ok(thread)
        }
        Err(_) => Err(work),
    }
}

/// Has a thread of its own do the work. Hands the work back where there is no thread for it, or no memory to hand it over,
/// which counts as a thread that wasn't made.
pub fn start<S: Spawner, W: Task + Send + Drop + 'static>(
    spawner: &mut S,
    alloc: Global,
    work: W,
) -> Result<Running<S::Runtime, W>, W>
where
    S::Runtime: Copy + Drop + Send + 'static,
    W::Output: Send + Drop + 'static,
    W::Runtime: 'static,
    requires { W.can_work work }
    ensures started { IfOk result (λ running. work_of running ≡ work) }
    ensures refused { IfErr result (λ back. back ≡ work) }
    ensures cause { IsCounted (S.faults spawner.old) (S.faults spawner.new) (IsErr result) }
{
    let Some(rt) = spawner.leave() else {
        return Err(work);
    };
    match start_by::<W, Brand, S::Runtime>(rt, alloc, work) {
        Ok(thread) => Ok(Running { rt, thread }),
        Err(work) => {
            spawner.count();
            Err(work)
        }
    }
}
