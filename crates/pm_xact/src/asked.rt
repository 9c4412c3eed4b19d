//! What a query's text asks for.
ghost use Rattle.std.specs.Prelude.{IfOk, IfErr};
ghost use Rattle.pm_sql.specs.Faults.{IsFaultOf};
ghost use Rattle.pm_xact.specs.{declared.asked.Asked.Asked, Control.{Asks, IsTold}};

use crate::access::Access;
use crate::control::control_of;
use pm_sql::{Script, SqlFault, parse};
use std::alloc::Global;

/// What a query's text asks for.
#[derive(Debug, Drop)]
pub enum Asked {
    /// That this script is run.
    Script(Script),
    /// That a block begins: `BEGIN` or `START TRANSACTION`, with modes.
    Begin(Access),
    /// That the block is committed: `COMMIT` or `END`.
    Commit,
    /// That the block is dropped: `ROLLBACK` or `ABORT`.
    Rollback,
}

/// What a text asks for, or else its fault as a script. It takes memory for a script alone.
pub fn read(alloc: Global, text: &str) -> Result<Asked, SqlFault>
    ensures asked { IfOk result (Asks text.now) }
    ensures every { (asked : Asked) → Asks text.now asked → IsTold asked result }
    ensures fault { IfErr result (IsFaultOf text.now) }
{
    match control_of(text.as_bytes()) {
        Some(asked) => Ok(asked),
        None => Ok(Asked::Script(parse(alloc, text)?)),
    }
}
