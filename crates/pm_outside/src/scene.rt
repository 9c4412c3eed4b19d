// What the forms in memory have seen, shared among them, so that a script can wait for it.
use std::alloc::{AllocError, Global};
use std::sync::Arc;
use std::sync::atomic::{AtomicU64, Ordering};

/// What a script waits for.
#[derive(Clone, Copy, Debug, PartialEq, Eq)]
pub enum Cue {
    /// The link of this number was sent at least so many bytes.
    Sent { link: u64, bytes: u64 },
    /// The console has given at least so many lines.
    Lines(u64),
}

/// How many bytes went out on each link of a port, up to a number of links, and how many lines a console has given.
/// Other threads may note more at any time, so no clause speaks of what it holds.
#[derive(Drop)]
pub struct Scene {
    seen: Arc<Seen, Global>,
}

#[derive(Drop)]
struct Seen {
    sent: Vec<AtomicU64>,
    lines: AtomicU64,
}

impl Scene {
    /// A scene for so many links, on which nothing was seen yet.
    pub fn new(alloc: Global, links: usize) -> Result<Scene, AllocError> {
        let seen = Seen {
            sent: (0..links).map(|_| AtomicU64::new(0)).collect(alloc)?,
            lines: AtomicU64::new(0),
        };
        Ok(Scene {
            seen: Arc::new(alloc, seen)?,
        })
    }

    /// The same scene for another form.
    pub fn another(&self) -> Result<Scene, AllocError> {
        Ok(Scene {
            seen: Arc::try_clone(&self.seen)?,
        })
    }

    /// Notes that so many bytes more went out on a link. One of a greater number isn't noted.
    pub fn note_sent(&self, link: u64, bytes: usize) {
        if let Some(sent) = self.sent_on(link) {
            add(sent, bytes as u64);
        }
    }

    /// Notes that the console has given one line more.
    pub fn note_line(&self) {
        add(&self.seen.lines, 1);
    }

    /// Whether it was seen.
    pub fn has_come(&self, cue: Cue) -> bool {
        match cue {
            Cue::Sent { link, bytes } => match self.sent_on(link) {
                Some(sent) => sent.load(Ordering::SeqCst) >= bytes,
                None => false,
            },
            Cue::Lines(lines) => self.seen.lines.load(Ordering::SeqCst) >= lines,
        }
    }

    // The links number from 1 on.
    fn sent_on(&self, link: u64) -> Option<&AtomicU64> {
        self.seen.sent.get(link.checked_sub(1)? as usize)
    }
}

// Counts so many more, up to 2^64 - 1.
fn add(count: &AtomicU64, more: u64) {
    let _ = count.fetch_update(Ordering::SeqCst, Ordering::SeqCst, |before| {
        Some(before.saturating_add(more))
    });
}
