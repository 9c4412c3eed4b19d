//! The statements of a transaction block so far.
ghost use Rattle.std.specs.Prelude.{◌≡◌, ◌≤◌, ◌↔◌, ◌++◌, IsTrue, IfErr, IfOk, OnOk, length};
ghost use Rattle.pm_sql.specs.Limits.{IsWithinScriptLimits};
ghost use Rattle.pm_xact.specs.Block.{max_block_statements, opened, with_script, with_failure, Fits, IsWhyRefused, Allows};

use crate::access::Access;
use pm_sql::{Script, Stmt};
use std::alloc::{AllocError, Global};
use std::marker::Model;
use std::mem;
use thiserror::Error;

/// How many statements a block has at most, so that its script keeps every limit of a script.
pub const MAX_BLOCK_STATEMENTS: usize = 1_000;

/// Why a block takes no more statements.
#[derive(Clone, Copy, Debug, PartialEq, Eq, Error)]
pub enum BlockNo {
    #[error("the block has failed")]
    Failed,
    #[error("a block has at most 1000 statements")]
    Many,
    #[error("out of memory")]
    NoMemory,
}

impl From<AllocError> for BlockNo {
    ghost use Rattle.std.specs.Prelude.{◌≡◌};
    ghost use Rattle.pm_xact.specs.declared.block.BlockNo.TheVariants.{NoMemory};

    ghost from_gives = { λ _ e. e ≡ NoMemory };

    fn from(_error: AllocError) -> BlockNo {
        BlockNo::NoMemory
    }
}

/// A transaction block. Contracts see what it may do, all its statements, in order, and whether it has failed.
#[derive(Debug, Drop)]
pub struct Block {
    alloc: Global,
    access: Access,
    script: Script,
    // The first statements of `script`. A script can't lose statements again, so those that are added are put after these, and
    // where memory is short `script` is as it was. Each statement is copied twice, however many stand before it.
    earlier: Script,
    failed: bool,
}

impl Model for Block {
    ghost use Rattle.std.specs.Prelude.{◌≡◌, ◌≤◌, length, take};
    ghost use Rattle.pm_xact.specs.Block.{BlockView, max_block_statements};

    ghost Value = { BlockView };

    ghost view = { λ block. record {
      access = block.access;
      script = block.script;
      failed = block.failed;
    } };

    ghost invariant = { λ block. (length block.script ≤ max_block_statements)
        × (take (length block.earlier) block.script ≡ block.earlier) };
}

impl Block {
    /// A block that has just begun. It takes no memory.
    pub fn new(alloc: Global, access: Access) -> Block
        ensures { result ≡ opened access }
    {
        Block {
            alloc,
            access,
            script: Script::new(alloc),
            earlier: Script::new(alloc),
            failed: false,
        }
    }

    /// Adds the statements of a script after the others. A refused block is as it was.
    pub fn add(&mut self, script: Script) -> Result<(), BlockNo>
        ensures ok { OnOk result (Fits script self.old × (self.new ≡ with_script script self.old)) }
        ensures err { IfErr result (λ no. IsWhyRefused no script self.old
            × (self.new ≡ self.old)) }
    {
        if self.failed {
            return Err(BlockNo::Failed);
        }
        if MAX_BLOCK_STATEMENTS - self.script.stmts().len() < script.stmts().len() {
            return Err(BlockNo::Many);
        }
        let earlier = mem::replace(&mut self.earlier, Script::new(self.alloc));
        let missing = &self.script.stmts()[earlier.stmts().len()..];
        let next = extended(earlier, missing, script.stmts())?;
        self.earlier = mem::replace(&mut self.script, next);
        Ok(())
    }

    /// The block has failed: it can only be ended.
    pub fn fail(&mut self)
        ensures { self.new ≡ with_failure self.old }
    {
        self.failed = true;
    }

    /// Whether it has failed.
    pub fn failed(&self) -> bool
        ensures { result ≡ self.now.failed }
    {
        self.failed
    }

    /// Whether it allows these statements: a block that only reads allows none that writes.
    pub fn allows(&self, script: &Script) -> bool
        ensures { IsTrue result ↔ Allows self.now.access script.now }
    {
        match self.access {
            Access::ReadWrite => true,
            Access::ReadOnly => script.stmts().iter().all(|stmt| !stmt.is_writing()),
        }
    }

    /// All its statements, in order.
    pub fn script(&self) -> &Script
        ensures list { result.now ≡ self.now.script }
        ensures few { length self.now.script ≤ max_block_statements }
    {
        &self.script
    }
}

// A script with these statements after its own.
fn extended(front: Script, missing: &[Stmt], more: &[Stmt]) -> Result<Script, AllocError>
    requires { IsWithinScriptLimits (front ++ missing.now ++ more.now) }
    ensures { IfOk result (λ script. script ≡ front ++ missing.now ++ more.now) }
{
    let mut script = front;
    extend(&mut script, missing)?;
    extend(&mut script, more)?;
    Ok(script)
}

// Adds statements after those of a script. Where memory is short nothing is said of the script.
fn extend(script: &mut Script, stmts: &[Stmt]) -> Result<(), AllocError>
    requires { IsWithinScriptLimits (script.old ++ stmts.now) }
    ensures { OnOk result (script.new ≡ script.old ++ stmts.now) }
{
    for stmt in stmts {
        script.push(stmt.copy()?)?;
    }
    Ok(())
}
