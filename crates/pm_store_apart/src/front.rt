//! At which number a script is answered that commits nothing.

ghost use Rattle.std.specs.{Prelude.◌≡◌, List.list_all};
ghost use Rattle.pm_store_apart.specs.ReadsApart.{read_front, reads_apart};

use crate::live::Live;
use crate::pass::Pass;
use pm_sql::{Script, Stmt};
use pm_stage::Stage;

// The number of what is flushed, where the script shows nothing of what is staged and the pass has seen no later one: its
// reply needn't wait. Else that of all commits. It takes time of the order of the number of statements times the logarithm
// of the keys that are staged.
pub(crate) fn read_front(stage: &Stage, pass: &Pass, live: Live, script: &Script) -> u64
    ensures { result ≡ read_front stage.now.commits pass.now.front live script.now }
{
    if pass.front.unwrap_or(0) <= live.log.count && all_apart(stage, script) {
        live.log.count
    } else {
        live.front
    }
}

// Whether no statement shows anything of what is staged.
fn all_apart(stage: &Stage, script: &Script) -> bool
    ensures { result ≡ list_all (reads_apart stage.now.commits) script.now }
{
    script.stmts().iter().all(|stmt| is_apart(stage, stmt))
}

// Whether a statement reads one row, which no staged commit changes, or none.
fn is_apart(stage: &Stage, stmt: &Stmt) -> bool
    ensures { result ≡ reads_apart stage.now.commits stmt.now }
{
    match stmt {
        Stmt::Select { key: Some(key) } => !stage.names(*key),
        Stmt::Sleep { .. } => true,
        _ => false,
    }
}
