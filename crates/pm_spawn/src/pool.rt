// Many works at once.
ghost use Rattle.std.specs.Prelude.{◌≡◌, ◌≢◌, ◌++◌, [], All, map, IfOk, IfErr, OnErr};
ghost use Rattle.pm_disk.specs.Cause.{Rose};
ghost use Rattle.pm_spawn.specs.Works.{work_of, EachGives};

use crate::running::{Running, start};
use crate::spawner::Spawner;
use crate::task::Task;
use std::alloc::{AllocError, Global};
use std::collections::VecDeque;
use std::thread;

/// Starts the works in order, up to the first for which there is no thread. It and those after it are left.
#[tactic(auto, using(crate::proofs::Works::started_more))]
pub fn start_all<S: Spawner, W: Task + Send + Drop + 'static>(
    spawner: &mut S,
    alloc: Global,
    works: &mut VecDeque<W>,
) -> Result<VecDeque<Running<S::Runtime, W>>, AllocError>
where
    S::Runtime: Copy + Drop + Send + 'static,
    W::Output: Send + Drop + 'static,
    W::Runtime: 'static,
    requires { All W.can_work works.old.items }
    ensures started { IfOk result (λ running. map work_of running.items ++ works.new.items ≡ works.old.items) }
    ensures cause { IfOk result (λ running. works.new.items ≢ [] → Rose (S.faults spawner.old) (S.faults spawner.new)) }
    ensures memory { OnErr result (works.new.items ≡ works.old.items) }
{
    let mut running = VecDeque::with_capacity(alloc, works.len())?;
    while let Some(work) = works.pop_front() {
        match start(spawner, alloc, work) {
            Ok(started) => running.push_back_reserved(started),
            Err(work) => {
                works.push_front_reserved(work);
                return Ok(running);
            }
        }
    }
    Ok(running)
}

/// Waits for the end of all works, in the order in which they were started. Hands them back where there is no memory.
pub fn join_all<R: thread::Threads + Drop, W: Task + Drop>(
    alloc: Global,
    running: VecDeque<Running<R, W>>,
) -> Result<Vec<W::Output>, VecDeque<Running<R, W>>>
where
    W::Output: Drop,
    ensures outputs { IfOk result (λ outputs. EachGives W.gives (map work_of running.items)
        outputs.items) }
    ensures memory { IfErr result (λ back. back.items ≡ running.items) }
{
    let mut running = running;
    let Ok(mut outputs) = Vec::with_capacity(alloc, running.len()) else {
        return Err(running);
    };
    while let Some(thread) = running.pop_front() {
        outputs.push_reserved(thread.join());
    }
    Ok(outputs)
}
