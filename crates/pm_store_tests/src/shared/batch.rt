//! The commits of three children in one batch, at which the disk fails.
ghost use Rattle.std.specs.Prelude.{IfOk};
ghost use Rattle.pm_segment.specs.{pm_query.Calls.HasReached, Passes.view_of};
ghost use Rattle.pm_store_shared.specs.Passes.{Among};

use crate::shared::world::{Book, cluster, insert};
use pm_disk::{FailingDisk, MemDisk};
use pm_outside::Kept;
use pm_query::StoreNo;
use pm_segment::Pass;
use pm_store_shared::{Shared, Token};
use std::alloc::Global;
use std::sync::Wait;
use std::test::Fail;

type Child = Token<FailingDisk<MemDisk>, Book>;

// A child comes in after a redo, and stages a row. It answers its pass, and the front that it waits for.
fn stage<R: Wait>(rt: &R, alloc: Global, child: &mut Child, pid: u32) -> Result<(Pass, u64), Fail>
    ensures { IfOk result (λ staged. Among staged.0 child.new.passes
        × HasReached (view_of staged.0) staged.1) }
{
    let mut pass = child.enter(rt, pid, 1)?;
    let _read = child.redo(rt, &mut pass);
    let script = insert(alloc, pid).ok_or("a script")?;
    let staged = child.run(rt, &mut pass, &script)?;
    Ok((pass, staged.front))
}

/// Which call of the disk fails: a redo takes six, and a batch writes its body, syncs it, opens its gate and syncs that.
const FAULTS: [u64; 4] = [7, 8, 9, 10];

#[test]
fn none_is_released_of_a_batch_that_failed(rt: HostRuntime) -> Result<(), Fail> {
    let alloc = rt.alloc();
    for at in FAULTS {
        let disk = FailingDisk::blip(cluster(alloc)?, at);
        let (_shared, mut tokens) = Shared::new(alloc, disk, Kept::new(alloc), 3)
            .ok()
            .ok_or("there is memory")?;
        let mut one = tokens.take().ok_or("a token")?;
        let mut two = tokens.take().ok_or("a token")?;
        let mut three = tokens.take().ok_or("a token")?;
        let (mut first, reached) = stage(&rt, alloc, &mut one, 4)?;
        let (mut second, further) = stage(&rt, alloc, &mut two, 5)?;
        let (mut third, last) = stage(&rt, alloc, &mut three, 6)?;
        assert_eq!(rt; (reached, further, last), (1, 2, 3));
        assert_eq!(rt; two.flush(&rt, &mut second), Err(StoreNo::Disk));
        let broken = one.seen(&rt, &mut first, reached);
        assert!(rt; matches!(broken, Err(StoreNo::Broken { .. })));
        assert_eq!(rt; two.seen(&rt, &mut second, further), broken);
        assert_eq!(rt; three.seen(&rt, &mut third, last), broken);
    }
    Ok(())
}
