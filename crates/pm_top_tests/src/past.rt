//! What the runs of a scene have told of its rows, each of which was inserted in it by a query of its own.
use crate::names::spelled;
use crate::runs::Left;
use bstr::ByteSlice;
use pm_disk::{MemDisk, Which};
use pm_rows::Change;
use pm_top::{BookEntry, Top};
use std::alloc::Global;
use std::test::Fail;

/// The keys of the rows, in order, and the words for them.
const ROWS: [(i64, &str); 3] = [(7, "SEVEN"), (8, "EIGHT"), (9, "NINE")];

/// What is known of the rows by what was told.
#[derive(Drop)]
pub struct Past {
    /// The key of each commit, in order, by the books.
    keys: Vec<i64>,
    /// How many of them are acknowledged, by the books.
    pub acked: usize,
    /// The keys whose INSERT was answered on a link.
    answered: Vec<i64>,
    /// Whether a command has told that there is a cluster.
    pub is_made: bool,
}

// The key of the row that a word inserts.
fn key_of(word: &str) -> Option<i64> {
    let name = word.strip_prefix("INSERT_")?;
    let (key, _) = ROWS.iter().find(|row| row.1 == name)?;
    Some(*key)
}

// What a SELECT sends where these rows stand.
fn shown(alloc: Global, keys: &[i64]) -> Result<Vec<u8>, Fail> {
    let mut words = String::from_str(alloc, "COLUMNS")?;
    for (key, name) in ROWS {
        if keys.contains(&key) {
            words.push_str(" ")?;
            words.push_str(name)?;
        }
    }
    words.push_str(match keys.len() {
        0 => " ABSENT",
        1 => " FOUND",
        2 => " FOUND_2",
        _ => " FOUND_3",
    })?;
    spelled(alloc, words.as_str())
}

impl Past {
    /// Nothing yet, on this disk.
    pub fn new(alloc: Global, disk: &MemDisk) -> Past {
        Past {
            keys: Vec::new(alloc),
            acked: 0,
            answered: Vec::new(alloc),
            is_made: !disk.file(Which::A).is_empty(),
        }
    }

    /// Adds what a book tells up to its last entry by this tick: a redo keeps the first commits, a script that writes adds one, and
    /// all up to the one that is released are acknowledged.
    pub fn note_until(&mut self, book: &[BookEntry], stop: u64) -> Result<(), Fail> {
        let last = book.iter().rposition(|entry| match entry {
            BookEntry::Answered { tick, .. } | BookEntry::Released { tick, .. } => *tick <= stop,
            _ => false,
        });
        let count = last.map_or(0, |last| last.saturating_add(1));
        for entry in book.iter().take(count) {
            match entry {
                BookEntry::Redone { kept, .. } => self.keys.truncate(*kept as usize),
                BookEntry::Answered { commit, .. } => {
                    if let Some(Change::Put { key, .. }) = commit.changes().first() {
                        self.keys.push(*key)?;
                    }
                }
                BookEntry::Released { front, .. } => self.acked = self.acked.max(*front as usize),
                _ => {}
            }
        }
        Ok(())
    }

    /// Adds what a run has told, by its book and by its links, on each of which the first INSERTs are answered.
    pub fn read(&mut self, left: &Left) -> Result<(), Fail> {
        self.is_made |= matches!(left.status, Top::Done | Top::Exists);
        self.note_until(left.book.entries(), u64::MAX)?;
        for (place, asked) in left.asked.iter().enumerate() {
            let sent = left.sent((place as u64).saturating_add(1)).unwrap_or(b"");
            let answers = sent.find_iter(b"INSERT 0 1").count();
            let words = asked.as_str().split_whitespace();
            self.answered
                .extend(words.filter_map(key_of).take(answers))?;
        }
        Ok(())
    }

    /// How many commits stand at least: all up to the last one that a client was told of.
    pub fn told(&self) -> usize {
        let mut least = 0;
        for key in &self.answered {
            match self.keys.iter().position(|one| one == key) {
                Some(place) => least = least.max(place.saturating_add(1)),
                None => return usize::MAX,
            }
        }
        least
    }

    /// Whether the last that was sent shows the rows of the first commits, and of so many at least.
    pub fn is_shown(&self, alloc: Global, sent: &[u8], least: usize) -> Result<bool, Fail> {
        for count in least..=self.keys.len() {
            let keys = self.keys.get(..count).unwrap_or(&[]);
            if sent.ends_with(&shown(alloc, keys)?) {
                return Ok(true);
            }
        }
        Ok(false)
    }
}
