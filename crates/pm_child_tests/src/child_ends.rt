//! Each status of a child that serves no connection, with its cause.
use crate::children::run;
use std::test::Fail;

/// A case, its child, what that is given at its asks, and what its run comes to.
const ENDS: &str = "
# a startup child
it reads the log | startup unread | 0 | Code(0) [ARD] None Some(0) None
told to terminate | startup unread | terminate | Code(1) [] None None None
told to quit | startup unread | quit | Code(2) [] None None None
killed | startup unread | kill+stop+terminate+cancel+checkpoint | Signal(9) [] None None None
turned away | startup unread gate crash | 0 | Code(2) [] None None None
another generation | startup unread gate 2 | 0 | Signal(6) [] Some(Stale { mine: 2, found: 1 }) None Some(2)
no memory to enter | startup unread short 1 | 0 | Code(1) [] Some(NoMemory) None None
no memory for the log | startup unread short 2 | 0 | Code(1) [AD] Some(Redo(NoMemory)) None None
# a writer, mostly told to terminate at its second ask, which comes inside the gate
told to terminate inside | writer | 1 terminate | Code(0) [AD] None None None
told to terminate before it is attached | writer | terminate | Code(0) [AD] None None None
a checkpoint isn't its own | writer | checkpoint 1 terminate | Code(0) [AD] None None None
told to quit outside | writer | quit | Code(2) [] None None None
turned away | writer gate crash | 1 terminate | Code(2) [] None None None
told to quit inside | writer | 2 quit | Code(2) [A] None None Some(1)
killed inside | writer | 1 kill+stop+terminate+cancel+checkpoint | Signal(9) [A] None None Some(1)
killed between its last flushes | writer | terminate kill | Signal(9) [A] None None Some(1)
another generation | writer gate 2 | 1 terminate | Signal(6) [] Some(Stale { mine: 2, found: 1 }) None Some(2)
a broken log | writer broken | 1 terminate | Signal(6) [AB] Some(Broken { since: 12 }) None Some(1)
no memory to enter, and none to flush | writer short 1 2 4 5 | terminate | Code(0) [AD] None None None
# a checkpointer, mostly asked for the last checkpoint there
asked inside | checkpointer | 1 checkpoint | Code(0) [ALD] None None None
asked before it is attached | checkpointer | checkpoint | Code(0) [ALD] None None None
a checkpoint is due | checkpointer due | 1 checkpoint | Code(0) [ACLD] None None None
a Terminate isn't for it | checkpointer | terminate 1 checkpoint | Code(0) [ALD] None None None
before the end of redo | checkpointer unread | checkpoint | Code(0) [AlD] None None None
told to quit outside | checkpointer | quit | Code(2) [] None None None
turned away | checkpointer gate crash | 1 checkpoint | Code(2) [] None None None
told to quit inside | checkpointer | 2 quit | Code(2) [A] None None Some(1)
killed where it is asked, too | checkpointer | 1 kill+stop+terminate+cancel+checkpoint | Signal(9) [A] None None Some(1)
another generation | checkpointer gate 2 | 1 checkpoint | Signal(6) [] Some(Stale { mine: 2, found: 1 }) None Some(2)
a broken log | checkpointer broken | 1 checkpoint | Signal(6) [AB] Some(Broken { since: 12 }) None Some(1)
no memory to enter for the last checkpoint | checkpointer short 1 | checkpoint | Code(1) [] Some(NoMemory) None None
no memory for the last checkpoint | checkpointer short 2 | checkpoint | Code(1) [AD] Some(NoMemory) None None
# one that is refused twice to enter and once for the checkpoint that is due, each time a pause before the next call: then that checkpoint is made, and after it the last one
no memory to enter, and none for a checkpoint | checkpointer due short 1 2 4 | 4 checkpoint | Code(0) [ACLD] None None None";

#[test]
fn children_end_as_the_table_says(rt: HostRuntime) -> Result<(), Fail> {
    for line in ENDS.lines() {
        if let Some((_, rest)) = line.split_once(" | ") {
            let (child, rest) = rest.split_once(" | ").ok_or("what it is given")?;
            let (signals, end) = rest.split_once(" | ").ok_or("what it comes to")?;
            let met = run(&rt, rt.alloc(), child, signals)?;
            assert_eq!(rt; met.end.as_str(), end, "{line}");
        }
    }
    Ok(())
}
