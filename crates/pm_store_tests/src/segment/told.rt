//! What a store answers and notes, as text.

use pm_outside::Kept;
use pm_query::{BookEntry, Seen, Staged, Store};
use pm_sql::parse;
use std::alloc::Global;
use std::test::Fail;

/// What a script gets for an answer, and whether it may be sent; or why it gets none.
pub fn answer<S: Store>(
    alloc: Global,
    store: &mut S,
    pass: &mut S::Pass,
    text: &str,
) -> Result<String, Fail>
    requires { S.admits store.old pass.old }
    ensures { S.admits store.new pass.new }
{
    let script = parse(alloc, text).ok().ok_or("a script")?;
    let staged = match store.run(pass, &script) {
        Ok(staged) => staged,
        Err(refusal) => return Ok(format!(in alloc; "{refusal}")?),
    };
    let Staged { reply, front, .. } = staged;
    match store.seen(pass, front) {
        Ok(Seen::Released) => Ok(format!(in alloc; "{:?} front {front}", reply.items())?),
        Ok(Seen::NotFlushed { flushed }) => Ok(format!(in alloc; "flushed {flushed}")?),
        Err(refusal) => Ok(format!(in alloc; "{refusal}")?),
    }
}

// What an entry of a book is of, and its number.
fn kind_and_number(entry: &BookEntry) -> (&'static str, u64) {
    match entry {
        BookEntry::Opened { generation } => ("opened", u64::from(*generation)),
        BookEntry::Attached { pid, .. } => ("attached", u64::from(*pid)),
        BookEntry::Redone { kept, .. } => ("redone", *kept),
        BookEntry::Answered { front, .. } => ("answered", *front),
        BookEntry::Released { front, .. } => ("released", *front),
        BookEntry::Detached { pid } => ("detached", u64::from(*pid)),
        BookEntry::Gone { pid } => ("gone", u64::from(*pid)),
        BookEntry::CheckpointEnded { done, .. } => ("checkpoint", u64::from(*done)),
        BookEntry::Broke { faults, .. } => ("broke", *faults),
        BookEntry::LogFull { need, .. } => ("full", *need),
    }
}

/// The kinds and numbers of the entries of a book, in one line.
pub fn noted(alloc: Global, book: &Kept<BookEntry>) -> Result<String, Fail> {
    let mut text = String::new(alloc);
    for entry in book.entries() {
        let (kind, number) = kind_and_number(entry);
        let comma = if text.is_empty() { "" } else { "; " };
        text.push_str(format!(in alloc; "{comma}{kind} {number}")?.as_str())?;
    }
    Ok(text)
}
