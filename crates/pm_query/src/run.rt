//! The answer of a script.
ghost use Rattle.std.specs.Prelude.{◌≡◌, [], cond, IfOk, IsTrue, OnOk};
ghost use Rattle.pm_query.specs.{Answer.{after_statement, start_on, has_error, items_of, commit_of}, Laws.ErrorsComeLast, Limits.{IsWithinCommitLimits, KeepsRowLimits, KeepsShortRows, ShowsShortValues}};

use crate::draft::Draft;
use crate::effect::{Effect, effect_of};
use crate::item::Item;
use crate::reply::Reply;
use pm_rows::{Change, Commit, Rows};
use pm_sql::{Script, Stmt};
use std::alloc::{AllocError, Global};

/// What a script answers and what it leaves to commit.
#[derive(Debug, Drop)]
pub struct Outcome {
    /// An item for each statement up to the first error.
    pub reply: Reply,
    /// The changes of the statements, in order, and none after an error.
    pub commit: Commit,
}

/// Runs a script over the rows of the table, which stay as they are. It fails only where memory is short.
///
/// A statement takes time of the order of the logarithm of the rows, and more only for the rows that it shows.
pub fn answer(alloc: Global, rows: &Rows, script: &Script) -> Result<Outcome, AllocError>
    ensures reply { IfOk result (λ outcome. outcome.reply ≡ items_of rows.now script.now) }
    ensures commit { IfOk result (λ outcome. outcome.commit ≡ commit_of rows.now script.now) }

    // An error ends the reply, and nothing is committed.
    ensures last { IfOk result (λ outcome. ErrorsComeLast outcome.reply) }
    ensures failed { IfOk result (λ outcome. IsTrue (has_error outcome.reply)
        → outcome.commit ≡ []) }

    // The limits are kept.
    ensures commit_limits { IfOk result (λ outcome. IsWithinCommitLimits outcome.commit) }
    ensures row_limits { IfOk result (λ outcome. KeepsRowLimits rows.now outcome.commit) }
    ensures short_rows { IfOk result (λ outcome. KeepsShortRows rows.now outcome.commit) }
    ensures short { IfOk result (λ outcome. ShowsShortValues rows.now outcome.reply) }
{
    let run = Run::of(alloc, rows, script.stmts())?;
    Ok(run.outcome())
}

// How far a script has come.
#[derive(Drop)]
struct Run<'a> {
    alloc: Global,
    draft: Draft<'a>,
    reply: Reply,
    commit: Commit,
    failed: bool,
}

impl<'a> Run<'a> {
    ghost use Rattle.pm_query.specs.Run.{progress_of, left_with, KnowsFailure};

    fn on(alloc: Global, rows: &'a Rows) -> Result<Run<'a>, AllocError>
        ensures start { IfOk result (λ run. progress_of run ≡ start_on rows.now) }
        ensures failure { IfOk result KnowsFailure }
    {
        Ok(Run {
            alloc,
            draft: Draft::of(alloc, rows)?,
            reply: Reply::new(alloc),
            commit: Commit::new(alloc),
            failed: false,
        })
    }

    // Runs the statements of a script.
    fn of(alloc: Global, rows: &'a Rows, stmts: &[Stmt]) -> Result<Run<'a>, AllocError>
        ensures items { IfOk result (λ run. run.reply ≡ items_of rows.now stmts.now) }
        ensures changes { IfOk result (λ run. cond run.failed [] run.commit ≡ commit_of rows.now
            stmts.now) }
    {
        let mut run = Run::on(alloc, rows)?;
        let Some((last, before)) = stmts.split_last() else {
            run.reply.push(Item::Empty)?;
            return Ok(run);
        };
        for stmt in before {
            run.step(stmt)?;
        }
        run.finish(last)?;
        Ok(run)
    }

    // Runs a statement that others follow, unless an error was answered.
    fn step(&mut self, stmt: &Stmt) -> Result<(), AllocError>
        requires { KnowsFailure self.old }
        ensures progress { OnOk result (progress_of self.new ≡ after_statement
            (progress_of self.old) stmt.now) }
        ensures failure { OnOk result (KnowsFailure self.new) }
    {
        if let Some(change) = self.reply_to(stmt)? {
            self.draft.make(&change)?;
            self.commit.push(change)?;
        }
        Ok(())
    }

    // Runs the last statement, unless an error was answered. Nobody asks for the rows after it, so they aren't made.
    fn finish(&mut self, stmt: &Stmt) -> Result<(), AllocError>
        requires { KnowsFailure self.old }
        ensures items { OnOk result (self.new.reply ≡ (after_statement
            (progress_of self.old) stmt.now).items) }
        ensures changes { OnOk result (self.new.commit ≡ (after_statement
            (progress_of self.old) stmt.now).changes) }
        ensures failure { OnOk result (KnowsFailure self.new) }
    {
        match self.reply_to(stmt)? {
            Some(change) => self.commit.push(change),
            None => Ok(()),
        }
    }

    // Answers a statement, unless an error was answered, and tells the change that is left to make, if any.
    fn reply_to(&mut self, stmt: &Stmt) -> Result<Option<Change>, AllocError>
        requires { KnowsFailure self.old }
        ensures progress { IfOk result (λ change. left_with self.new change ≡ after_statement
            (progress_of self.old) stmt.now) }
        ensures failure { OnOk result (KnowsFailure self.new) }
    {
        if self.failed {
            return Ok(None);
        }
        let Effect { item, change } = effect_of(self.alloc, &mut self.draft, stmt)?;
        self.failed = item.is_error();
        self.reply.push(item)?;
        Ok(change)
    }

    // Nothing is committed after an error.
    fn outcome(self) -> Outcome
        ensures reply { result.reply ≡ self.entry.reply }
        ensures commit { result.commit ≡ cond self.entry.failed [] self.entry.commit }
    {
        let Run {
            alloc,
            draft: _,
            reply,
            commit,
            failed,
        } = self;
        if failed {
            Outcome {
                reply,
                commit: Commit::new(alloc),
            }
        } else {
            Outcome { reply, commit }
        }
    }
}
