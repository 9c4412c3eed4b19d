//! What a script answers.
ghost use Rattle.std.specs.Prelude.{◌≡◌, [], ◌∷◌, ◌++◌, IfOk, OnOk};

use crate::item::Item;
use std::alloc::{AllocError, Global};
use std::marker::Model;

/// The items of a script, in order. Contracts see a reply as that list.
#[derive(Debug, Drop)]
pub struct Reply {
    items: Vec<Item>,
}

impl Model for Reply {
    ghost use Rattle.std.specs.Prelude.{List};
    ghost use Rattle.pm_query.specs.declared.item.Item.{Item};

    ghost Value = { List Item };

    ghost view = { λ reply. reply.items.items };
}

impl Reply {
    pub(crate) fn new(alloc: Global) -> Reply
        ensures { result ≡ [] }
    {
        Reply {
            items: Vec::new(alloc),
        }
    }

    pub(crate) fn push(&mut self, item: Item) -> Result<(), AllocError>
        ensures { OnOk result (self.new ≡ self.old ++ item ∷ []) }
    {
        self.items.push(item)?;
        Ok(())
    }

    /// The items, in order.
    pub fn items(&self) -> &[Item]
        ensures { result.now ≡ self.now }
    {
        &self.items
    }

    /// An equal reply. It fails only where memory is short.
    pub fn copy(&self) -> Result<Reply, AllocError>
        ensures { IfOk result (λ reply. reply ≡ self.now) }
    {
        let mut copied = Vec::with_capacity(*self.items.allocator(), self.items.len())?;
        for item in &self.items {
            copied.push(item.copy()?)?;
        }
        Ok(Reply { items: copied })
    }
}
