//! The children that are there.

ghost use Rattle.std.specs.{Prelude.{◌+◌, ◌≤◌}, Vec.{vec_len, vec_capacity}};

use pm_exit::Kind;
use std::alloc::{AllocError, Global};

/// A child that is there.
#[derive(Clone, Copy, Debug, PartialEq, Eq)]
pub struct Enrolled {
    /// Its number.
    pub pid: u32,
    /// What it is for.
    pub kind: Kind,
}

// The roll of the children, in room that is reserved before. The one that was started last comes first.
#[derive(Drop)]
pub(crate) struct Roll {
    pub(crate) children: Vec<Enrolled>,
    pub(crate) room: usize,
    ghost fits: { vec_len children + room ≤ vec_capacity children },
}

impl Roll {
    ghost use Rattle.std.specs.Prelude.{◌≡◌, ◌≤◌, ◌+◌, ◌==◌, [], ◌∷◌, OnOk, position};
    ghost use Rattle.pm_supervisor_journal.specs.Roll.{kind_in, without};

    pub(crate) fn new(alloc: Global) -> Self
        ensures children { result.children.items ≡ [] }
        ensures room { result.room ≡ 0 }
    {
        Roll {
            children: Vec::new(alloc),
            room: 0,
        }
    }

    // Makes room for at least so many more.
    pub(crate) fn reserve(&mut self, count: usize) -> Result<(), AllocError>
        ensures room { OnOk result (count ≤ self.new.room) }
        ensures keeps_room { self.old.room ≤ self.new.room }
        ensures children { self.new.children.items ≡ self.old.children.items }
    {
        if self.room < count {
            self.children.reserve(count)?;
            self.room = count;
        }
        Ok(())
    }

    // Puts a child on the roll, into room that stands.
    pub(crate) fn add(&mut self, child: Enrolled)
        requires { 1 ≤ self.old.room }
        ensures children { self.new.children.items ≡ child ∷ self.old.children.items }
        ensures room { self.new.room + 1 ≡ self.old.room }
    {
        self.room -= 1;
        self.children.insert(0, child).unwrap();
    }

    // The place of the child with this pid.
    fn place_of(&self, pid: u32) -> Option<usize>
        ensures { result ≡ position (λ c. c.pid == pid) self.now.children.items }
    {
        self.children.iter().position(|child| child.pid == pid)
    }

    // Takes the child with this pid off the roll, if it is there.
    pub(crate) fn remove(&mut self, pid: u32)
        ensures children { self.new.children.items ≡ without pid self.old.children.items }
        ensures room { self.new.room ≡ self.old.room }
    {
        if let Some(place) = self.place_of(pid) {
            self.children.remove(place);
        }
    }

    // What the child with this pid is for, if it is there.
    pub(crate) fn kind_of(&self, pid: u32) -> Option<Kind>
        ensures { result ≡ kind_in pid self.now.children.items }
    {
        for child in &self.children {
            if child.pid == pid {
                return Some(child.kind);
            }
        }
        None
    }
}
