//! The children inside a store.

ghost use Rattle.std.specs.Prelude.{◌≡◌, ◌≤◌, ◌+◌, ◌-◌, ◌++◌, ◌∷◌, [], ℕ, length, cond, nat_eq, IfOk, OnOk, OnErr};
ghost use Rattle.pm_store_apart.specs.Children.{AreOthers, times_in, with_other};

use std::alloc::{AllocError, Global};
use std::marker::Model;

/// The pids of the children that have entered and not left, one for each time. Contracts see them as a list.
#[derive(Debug, Drop)]
pub struct Children {
    pids: Vec<u32>,
}

impl Model for Children {
    ghost use Rattle.std.specs.Prelude.{ℕ, List};

    ghost Value = { List ℕ };

    ghost view = { λ children. children.pids.items };
}

impl Children {
    /// None. It takes no memory.
    pub(crate) fn new(alloc: Global) -> Children
        ensures { result ≡ [] }
    {
        Children {
            pids: Vec::new(alloc),
        }
    }

    /// How many entries a book needs room for: these, and one for the leave of each child inside.
    pub(crate) fn entries_for(&self, more: usize) -> usize
        requires { more ≤ 3 }
        ensures { result ≡ length self.now + more }
    {
        self.pids.len() + more
    }

    /// One more. Where memory is short they stay as they were.
    pub(crate) fn add(&mut self, pid: u32) -> Result<(), AllocError>
        ensures ok { OnOk result (self.new ≡ self.old ++ pid ∷ []) }
        ensures err { OnErr result (self.new ≡ self.old) }
    {
        self.pids.push(pid)?;
        Ok(())
    }

    /// Those that aren't among these, each once. It takes time of the order of their number times that of these.
    pub(crate) fn others(&self, alloc: Global, gone: &[u32]) -> Result<Vec<u32>, AllocError>
        ensures { IfOk result (λ others. AreOthers self.now gone.now others.items) }
    {
        let mut others: Vec<u32> = Vec::new(alloc);
        for at in 0..self.pids.len() {
            add_other(&mut others, gone, self.pids[at])?;
        }
        Ok(others)
    }

    /// One less of this pid, where there is one. It takes no memory.
    pub(crate) fn remove(&mut self, pid: u32)
        ensures times { (who : ℕ) → times_in who self.new
            ≡ cond (nat_eq who pid) (times_in who self.old - 1) (times_in who self.old) }
        ensures fewer { 1 ≤ times_in pid self.old → length self.new + 1 ≡ length self.old }
    {
        for at in 0..self.pids.len() {
            if self.pids[at] == pid {
                self.pids.swap_remove(at);
                return;
            }
        }
    }
}

// Adds a pid, unless it is among these or those already.
fn add_other(others: &mut Vec<u32>, gone: &[u32], pid: u32) -> Result<(), AllocError>
    ensures { OnOk result (others.new.items ≡ with_other others.old.items gone.now pid) }
{
    if gone.contains(&pid) {
        return Ok(());
    }
    if others.contains(&pid) {
        return Ok(());
    }
    others.push(pid)?;
    Ok(())
}
