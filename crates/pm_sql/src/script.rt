//! Statements that are run together.
ghost use Rattle.std.specs.Prelude.{◌≡◌, ◌^◌, ◌-◌, [], ◌∷◌, ◌++◌, min, IfOk, OnOk, OnErr};
ghost use Rattle.pm_sql.specs.Limits.{IsWithinScriptLimits, sleep_seconds};

use crate::stmt::Stmt;
use std::alloc::{AllocError, Global};
use std::marker::Model;

/// Statements, in order: at most [`MAX_CHANGES`](pm_rows::MAX_CHANGES) of them write, and no value that they write is longer than
/// [`MAX_VALUE_BYTES`](pm_rows::MAX_VALUE_BYTES). Contracts see a script as that list.
#[derive(Debug, Drop)]
pub struct Script {
    stmts: Vec<Stmt>,
}

impl Model for Script {
    ghost use Rattle.std.specs.Prelude.{List};
    ghost use Rattle.pm_sql.specs.declared.stmt.Stmt.{Stmt};

    ghost Value = { List Stmt };

    ghost use Rattle.pm_sql.specs.Limits.{IsWithinScriptLimits};

    ghost view = { λ script. script.stmts.items };

    ghost invariant = { λ script. IsWithinScriptLimits script.stmts.items };
}

impl Script {
    /// A script of no statement. It takes no memory.
    pub fn new(alloc: Global) -> Script
        ensures { result ≡ [] }
    {
        Script {
            stmts: Vec::new(alloc),
        }
    }

    /// Adds a statement after the others. Where memory is short the script stays as it was.
    pub fn push(&mut self, stmt: Stmt) -> Result<(), AllocError>
        requires { IsWithinScriptLimits (self.old ++ stmt ∷ []) }
        ensures ok { OnOk result (self.new ≡ self.old ++ stmt ∷ []) }
        ensures err { OnErr result (self.new ≡ self.old) }
    {
        self.stmts.push(stmt)?;
        Ok(())
    }

    /// The statements, in order.
    pub fn stmts(&self) -> &[Stmt]
        ensures list { result.now ≡ self.now }
        ensures limits { IsWithinScriptLimits self.now }
    {
        &self.stmts
    }

    /// How many seconds the statements sleep, all together, or the largest `u64` where it is more. A script of a query text has
    /// at most 86,400 seconds for each of its statements, so that it would need 2^47 of them to reach that.
    pub fn sleep_seconds(&self) -> u64
        ensures { result ≡ min (sleep_seconds self.now) (2 ^ 64 - 1) }
    {
        let mut seconds: u64 = 0;
        for stmt in &self.stmts {
            seconds = seconds.saturating_add(stmt.sleep_seconds());
        }
        seconds
    }

    /// An equal script. It fails only where memory is short.
    pub fn copy(&self) -> Result<Script, AllocError>
        ensures { IfOk result (λ script. script ≡ self.now) }
    {
        let mut copied = Vec::with_capacity(*self.stmts.allocator(), self.stmts.len())?;
        for stmt in &self.stmts {
            copied.push(stmt.copy()?)?;
        }
        Ok(Script { stmts: copied })
    }
}
