//! What one statement does.
ghost use Rattle.std.specs.Prelude.{◌≡◌, Some, None, IfOk};
ghost use Rattle.std.specs.FinMap as map;
ghost use Rattle.pm_query.specs.Answer.{answers, makes, insertion, replacement, deletion, effect_of, row_at};

use crate::draft::Draft;
use crate::item::Item;
use crate::pairs::{Listing, Pairs};
use pm_rows::{Change, MAX_ROWS, Text};
use pm_sql::Stmt;
use std::alloc::{AllocError, Global};

/// What one statement answers, and the change that it makes, if any.
#[derive(Drop)]
pub(crate) struct Effect {
    pub(crate) item: Item,
    pub(crate) change: Option<Change>,
}

impl Effect {
    pub(crate) fn answers(item: Item) -> Effect
        ensures { result ≡ answers item }
    {
        Effect { item, change: None }
    }

    pub(crate) fn makes(item: Item, change: Change) -> Effect
        ensures { result ≡ makes item change }
    {
        Effect {
            item,
            change: Some(change),
        }
    }
}

/// What a statement does on the rows of a draft.
pub(crate) fn effect_of(
    alloc: Global,
    draft: &mut Draft<'_>,
    stmt: &Stmt,
) -> Result<Effect, AllocError>
    ensures effect { IfOk result (λ effect. effect ≡ effect_of draft.old stmt.now) }
    ensures unchanged { draft.new ≡ draft.old }
{
    match stmt {
        Stmt::Insert { key, value } => insertion(draft, *key, value),
        Stmt::Update { key, value } => replacement(draft, *key, value),
        Stmt::Delete { key } => Ok(deletion(draft, *key)),
        Stmt::Select { key: None } => Ok(Effect::answers(Item::Rows(draft.pairs(alloc)?))),
        Stmt::Select { key: Some(key) } => Ok(Effect::answers(Item::Rows(row_at(
            alloc, draft, *key,
        )?))),
        Stmt::Count => Ok(Effect::answers(Item::Count(draft.len() as u64))),
        Stmt::Sleep { .. } => Ok(Effect::answers(Item::Slept)),
    }
}

// A row that isn't there is added, within the limits.
fn insertion(draft: &Draft<'_>, key: i64, value: &Text) -> Result<Effect, AllocError>
    ensures { IfOk result (λ effect. effect ≡ insertion draft.now key value.now) }
{
    if draft.get(key).is_some() {
        return Ok(Effect::answers(Item::Duplicate { key }));
    }
    if draft.len() >= MAX_ROWS {
        return Ok(Effect::answers(Item::TableFull));
    }
    if !draft.fits(key, value) {
        return Ok(Effect::answers(Item::RowsTooLarge));
    }
    let value = value.copy()?;
    Ok(Effect::makes(Item::Insert, Change::Put { key, value }))
}

// A row that is there gets the value, within the limit.
fn replacement(draft: &Draft<'_>, key: i64, value: &Text) -> Result<Effect, AllocError>
    ensures { IfOk result (λ effect. effect ≡ replacement draft.now key value.now) }
{
    if draft.get(key).is_none() {
        return Ok(Effect::answers(Item::Update(0)));
    }
    if !draft.fits(key, value) {
        return Ok(Effect::answers(Item::RowsTooLarge));
    }
    let value = value.copy()?;
    Ok(Effect::makes(Item::Update(1), Change::Put { key, value }))
}

// A row that is there goes.
fn deletion(draft: &Draft<'_>, key: i64) -> Effect
    ensures { result ≡ deletion draft.now key }
{
    if draft.get(key).is_some() {
        Effect::makes(Item::Delete(1), Change::Del { key })
    } else {
        Effect::answers(Item::Delete(0))
    }
}

// The row of a key, if it has one.
fn row_at(alloc: Global, draft: &Draft<'_>, key: i64) -> Result<Pairs, AllocError>
    ensures { IfOk result (λ pairs. pairs ≡ row_at key (map.get draft.now key)) }
{
    let mut listing = Listing::with_room(alloc, 1)?;
    if let Some(value) = draft.get(key) {
        listing.push((key, value))?;
    }
    listing.shared()
}
