// Works that square a number, each on a thread of its own.
ghost use Rattle.std.specs.Prelude.{◌≡◌, ◌*◌, ◌<◌, All, IfOk};

use pm_spawn::{FewThreads, Spawner, Task, Threads, join_all, start_all};
use std::alloc::{AllocError, Global};
use std::collections::VecDeque;
use std::marker::PhantomData;
use std::sync::Wait;
use std::test::Fail;

#[derive(Drop)]
struct Square<R> {
    number: u32,
    of: PhantomData<R>,
}

impl<R: Wait> Task for Square<R> {
    type Runtime = R;

    type Output = u64;

    ghost can_work = { λ square. square.number < 1000 };

    ghost gives = { λ square output. output ≡ square.number * square.number };

    fn work(self) -> u64 {
        u64::from(self.number) * u64::from(self.number)
    }
}

// The works for the numbers below so many.
fn squares<R>(alloc: Global, count: u32) -> Result<VecDeque<Square<R>>, AllocError>
    requires { count < 1000 }
    ensures { IfOk result (λ works. All (λ (square : Square R). square.number < 1000) works.items) }
{
    (0..count)
        .map(|number| Square {
            number,
            of: PhantomData,
        })
        .collect(alloc)
}

#[test]
fn outputs_come_in_the_order_of_the_works(rt: HostRuntime) -> Result<(), Fail> {
    let alloc = rt.alloc();
    let mut spawner = Threads::new(rt);
    let mut left = squares::<HostRuntime>(alloc, 47)?;
    let running = start_all(&mut spawner, alloc, &mut left)?;
    assert_eq!(rt; (running.len(), left.len()), (47, 0));
    let Ok(outputs) = join_all(alloc, running) else {
        panic!(rt; "no memory");
    };
    let want: Vec<u64> = (0..47).map(|n| n * n).collect(alloc)?;
    assert_eq!(rt; outputs, want);
    assert_eq!(rt; spawner.faults(), 0);
    Ok(())
}

#[test]
fn the_fourth_of_seven_is_refused(rt: HostRuntime) -> Result<(), Fail> {
    let alloc = rt.alloc();
    let mut spawner = FewThreads::new(rt, 3);
    let mut left = squares::<HostRuntime>(alloc, 7)?;
    let running = start_all(&mut spawner, alloc, &mut left)?;
    assert_eq!(rt; (running.len(), left.len()), (3, 4));
    assert_eq!(rt; spawner.faults(), 1);
    assert_eq!(rt; left.front().map(|square| square.number), Some(3));
    let Ok(outputs) = join_all(alloc, running) else {
        panic!(rt; "no memory");
    };
    assert_eq!(rt; outputs.as_slice(), [0, 1, 4].as_slice());
    Ok(())
}
