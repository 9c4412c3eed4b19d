//! What a server sends for the items of a reply.
ghost use Rattle.std.specs.{Prelude.{◌≡◌, ◌≤◌, ◌∷◌, ◌++◌, [], OnOk, length}, List.flat_map};
ghost use Rattle.pm_wire.specs.Backend.{Complete, Fields, One};
ghost use Rattle.pm_wire.specs.declared.back.Tag.TheVariants as tags;
ghost use Rattle.pm_session_exchange.specs.pm_query.declared.item.Item.TheVariants as items;
ghost use Rattle.pm_session_exchange.specs.Sent.{bytes_of, item_messages};

use crate::refusal::ReplayNo;
use crate::say::say;
use itoa::Buffer;
use pm_query::Item;
use pm_wire::{Back, Bytes, Shape, Tag};
use std::alloc::AllocError;

/// Appends the messages of some items.
pub(crate) fn put_items(out: &mut Bytes, items: &[Item]) -> Result<(), ReplayNo>
    ensures { OnOk result (out.new ≡ out.old ++ bytes_of (flat_map item_messages items.now)) }
{
    for item in items {
        put_item(out, item)?;
    }
    Ok(())
}

// Appends the messages of an item.
fn put_item(out: &mut Bytes, item: &Item) -> Result<(), ReplayNo>
    ensures { OnOk result (out.new ≡ out.old ++ bytes_of (item_messages item.now)) }
{
    match item {
        Item::Insert => say(out, &Back::Complete(Tag::Insert(1)))?,
        Item::Delete(count) => say(out, &Back::Complete(Tag::Delete(*count)))?,
        Item::Count(count) => put_count(out, *count)?,
        Item::Empty
        | Item::Update(_)
        | Item::Rows(_)
        | Item::Slept
        | Item::Duplicate { .. }
        | Item::TableFull
        | Item::RowsTooLarge => return Err(ReplayNo::OtherAnswer),
    }
    Ok(())
}

// Appends the messages of a number of rows.
fn put_count(out: &mut Bytes, count: u64) -> Result<(), AllocError>
    ensures { OnOk result (out.new ≡ out.old ++ bytes_of (item_messages (items.Count count))) }
{
    let mut digits = Buffer::new();
    put_one(out, Shape::Count, digits.format(count))
}

// Appends a row of one column, with its column and its tag.
fn put_one(out: &mut Bytes, shape: Shape, text: &str) -> Result<(), AllocError>
    requires { length text.now ≤ 40 }
    ensures { OnOk result (out.new ≡ out.old ++ bytes_of (Fields shape ∷ One text.now ∷ Complete
        (tags.Select 1) ∷ [])) }
{
    say(out, &Back::Fields(shape))?;
    say(out, &Back::One { text })?;
    say(out, &Back::Complete(Tag::Select(1)))?;
    Ok(())
}
