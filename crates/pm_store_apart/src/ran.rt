//! A script that was run, before it is noted.

ghost use Rattle.std.specs.Prelude.{◌≡◌, IfOk};
ghost use Rattle.pm_store_apart.specs.Answers.{IsAnswerOn};

use pm_query::{Outcome, Reply, answer, only_writes_commit};
use pm_rows::{Commit, Rows};
use pm_sql::Script;
use std::alloc::{AllocError, Global};

/// All that an answer and its entry in the book hold. No more memory is needed for them.
#[derive(Debug, Drop)]
pub struct Ran {
    pub script: Script,
    pub reply: Reply,
    /// The same reply, for the entry.
    pub noted: Reply,
    pub commit: Commit,
}

impl Ran {
    /// Runs a script over the rows.
    pub fn of(alloc: Global, rows: &Rows, script: &Script) -> Result<Ran, AllocError>
        ensures script { IfOk result (λ ran. ran.script ≡ script.now) }
        ensures answer { IfOk result (IsAnswerOn rows.now) }
    {
        only_writes_commit();
        let Outcome { reply, commit } = answer(alloc, rows, script)?;
        let noted = reply.copy()?;
        Ok(Ran {
            script: script.copy()?,
            reply,
            noted,
            commit,
        })
    }
}
