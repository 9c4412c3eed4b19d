//! Scenes: runs of the program over memory, line by line.
//!
//! `files A | B` makes a disk by four calls. `$ once --data=folder < WORDS & WORDS` runs that command on the disk as it stands, with a link
//! for each of these WORDS, over which they come in, and with what the lines in front of it say:
//!
//! | line | what it says |
//! |---|---|
//! | `fail disk 7` | the seventh call of the disk from here on fails, whichever run makes it; at 0 none does |
//! | `fail from 7` | each call of the disk fails from the seventh on |
//! | `fail read 2` | that read of each link fails; or that `write`, `accept` of the port, or write of a `line` |
//! | `threads 9` | so many threads can be made, and not 407 |
//! | `time runs` | a millisecond passes with each pause of the supervisor: else the clock stands still. Where it `races`, one does with each of a child, too |
//! | `read CUE`, `write CUE` | the disk's first read or write waits for that |
//! | `link CUE : WORDS` | a link over which this comes in, before which the port waits for the cue |
//! | `end CUE` | the port's end waits for that |
//! | `line CUE : TEXT` | a line of the console |
//!
//! Each other line says what then is to stand somewhere, with ` | ` between what may stand there:
//!
//! | word | what it is of |
//! |---|---|
//! | `ends` | the status and the exit code; where no such follow, these and the log are among those of docs/OPERATING.md |
//! | `says` | the sink |
//! | `links` | how many links came back |
//! | `sends 2` | what was sent on the link of that number |
//! | `notes` | fronts of entries of the journal, with ` ; ` between two, in this order among the others |
//! | `entries` | how many entries the journal has |
//! | `book` | all entries of the book, each on a line |
//! | `a`, `b` | that file |
//! | `calls` | how many calls the disk has seen |
//! | `keeps 3` | the next `once`, on the disk without faults, shows each row whose INSERT was answered on a link so far, and the rows of the first commits alone. So was the link of this number shown before, if it came back |
//! | `stops \xff` | after each tick of the last run, which inserted all rows, a stop leaves the first commits, and those at least that were acknowledged by then. What isn't durable then is these bytes, over and over, and nothing at `..0` |
//!
//! A scene with lines `row A | B` is gone through once for each, with A in place of `{0}` and B in that of `{1}`. One with `{0}` and no
//! rows is gone through once for each call of the disk that it makes where none fails, with the call's number in that place.
use crate::logs::ends_so;
use crate::names::{disk_of, number, spelled};
use crate::past::Past;
use crate::runs::{Left, ran};
use crate::scripts::{Setup, plain};
use bstr::ByteSlice;
use pm_disk::{Disk, MemDisk, Which};
use pm_outside::Kept;
use pm_top::{BookEntry, PmEvent, RedoFault, StartWhy, Top, Why};
use std::alloc::Global;
use std::mem;
use std::process::Abort;
use std::sync::Wait;
use std::test::Fail;
use std::thread::Threads;
use std::time::Clock;

/// It shows all rows on its first link.
const ONCE: &str = "once --data=folder < PACKET PSQL_SELECT TERMINATE";

/// How it ends where there is no cluster.
const NO_CLUSTER: Top = Top::Abnormal(Why::StartupFailed(StartWhy::Redo(RedoFault::NoCluster)));

// Each entry as it prints, on a line of its own.
fn noted(alloc: Global, book: &Kept<BookEntry>) -> Result<Vec<u8>, Fail> {
    let mut all = Vec::new(alloc);
    for entry in book.entries() {
        all.extend_from_slice(format!(in alloc; "{entry:?}\n")?.as_bytes())?;
    }
    Ok(all)
}

// Whether entries with these fronts stand in the journal, in this order among the others.
fn has_noted(alloc: Global, journal: &Kept<PmEvent>, fronts: &str) -> Result<bool, Fail> {
    let mut rest = fronts.split(" ; ").peekable();
    for entry in journal.entries() {
        let text = format!(in alloc; "{entry:?}")?;
        let shown = text.as_str();
        if rest.peek().is_some_and(|next| shown.starts_with(*next)) {
            rest.next();
        }
    }
    Ok(rest.next().is_none())
}

// What stands where this word says. Each other word is the number of a link.
fn told(alloc: Global, left: &Left, what: &str) -> Result<Vec<u8>, Fail> {
    let bytes = match what {
        "book" => return noted(alloc, &left.book),
        "says" => left.sink.bytes(),
        "a" => left.disk.file(Which::A),
        "b" => left.disk.file(Which::B),
        _ => left
            .sent(number(what)? as u64)
            .unwrap_or(b"(it didn't come back)"),
    };
    let mut all = Vec::new(alloc);
    all.extend_from_slice(bytes)?;
    Ok(all)
}

fn is_one_of(alloc: Global, found: &[u8], wanted: &str) -> Result<bool, Fail> {
    for words in wanted.split(" | ") {
        if spelled(alloc, words)?.as_slice() == found {
            return Ok(true);
        }
    }
    Ok(false)
}

fn check<R: Abort>(
    rt: &R,
    alloc: Global,
    title: &str,
    left: &Left,
    line: &str,
) -> Result<(), Fail> {
    let (what, want) = line.split_once(' ').unwrap_or((line, ""));
    let count = match what {
        "ends" => {
            let fits = ends_so(alloc, left, want)?;
            assert!(rt;
                fits,
                "{title}: {line}: {:?} {:?} {:?}",
                left.status,
                left.sink.bytes().as_bstr(),
                left.journal.entries()
            );
            return Ok(());
        }
        "notes" => {
            let noted = has_noted(alloc, &left.journal, want)?;
            assert!(rt; noted, "{title}: {line}: {:?}", left.journal.entries());
            return Ok(());
        }
        "links" => left.port.links().len(),
        "entries" => left.journal.entries().len(),
        "calls" => left.disk.ticks() as usize,
        _ => {
            let (of, words) = match what {
                "sends" => want.split_once(' ').unwrap_or((want, "")),
                _ => (what, want),
            };
            let found = told(alloc, left, of)?;
            let fits = is_one_of(alloc, &found, words)?;
            assert!(rt; fits, "{title}: {line}: {:?}", found.as_slice().as_bstr());
            return Ok(());
        }
    };
    assert_eq!(rt; count, number(want)?, "{title}: {line}");
    Ok(())
}

/// A scene as it goes on: what its next run works on, what the last one left, and what its runs have told of the rows.
#[derive(Drop)]
pub struct Stage {
    setup: Setup,
    pub left: Left,
    past: Past,
}

impl Stage {
    // Before the first run on a disk.
    fn new(alloc: Global, disk: MemDisk) -> Result<Stage, Fail> {
        Ok(Stage {
            setup: plain(alloc),
            past: Past::new(alloc, &disk),
            left: Left::untouched(alloc, disk)?,
        })
    }

    // Runs a command on the disk as it stands.
    fn run<R: Threads + Wait + Clock + Copy + Drop + Send + 'static>(
        &mut self,
        rt: R,
        alloc: Global,
        line: &str,
    ) -> Result<(), Fail> {
        let mut setup = mem::replace(&mut self.setup, plain(alloc));
        let mut faults = setup.faults;
        let command = setup.take_links(alloc, line)?;
        let none = Left::untouched(alloc, MemDisk::new(alloc))?;
        let last = mem::replace(&mut self.left, none);
        let Left { disk, .. } = last;
        self.left = ran(rt, alloc, disk, command, setup)?;
        faults.calls = faults.calls.saturating_add(self.left.calls);
        self.setup.faults = faults;
        self.past.read(&self.left)
    }

    // Whether the link of this number was shown what stands, if it came back.
    fn was_shown(&self, alloc: Global, link: &str) -> Result<bool, Fail> {
        match self.left.sent(number(link)? as u64) {
            Some(sent) => self.past.is_shown(alloc, sent, self.past.told()),
            None => Ok(true),
        }
    }

    // Looks at what this link was shown, if any, and at what the next `once` shows.
    fn keep<R: Threads + Wait + Clock + Copy + Drop + Abort + Send + 'static>(
        &mut self,
        rt: R,
        alloc: Global,
        title: &str,
        link: &str,
    ) -> Result<(), Fail> {
        if !link.is_empty() {
            let was_shown = self.was_shown(alloc, link)?;
            assert!(rt; was_shown, "{title}: keeps {link}");
        }
        let may_be_none = !self.past.is_made;
        self.setup = plain(alloc);
        self.run(rt, alloc, ONCE)?;
        let status = self.left.status;
        let is_kept = match status {
            Top::Done => self.left.port.links().len() == 1 && self.was_shown(alloc, "1")?,
            _ => may_be_none && status == NO_CLUSTER,
        };
        assert!(rt; is_kept, "{title}: keeps: {status:?}");
        Ok(())
    }

    // Looks at what a stop leaves after each tick of the last run.
    fn stop<R: Threads + Wait + Clock + Copy + Drop + Abort + Send + 'static>(
        &self,
        rt: R,
        alloc: Global,
        title: &str,
        fill: &str,
    ) -> Result<(), Fail> {
        let bytes = spelled(alloc, fill)?;
        let beyond = if bytes.is_empty() { 0 } else { u64::MAX };
        for tick in self.left.began..=self.left.disk.ticks() {
            let disk = self.left.disk.after_stop(tick, &bytes, beyond)?;
            let mut past = Past::new(alloc, &disk);
            past.note_until(self.left.book.entries(), tick)?;
            let mut next = Stage::new(alloc, disk)?;
            next.run(rt, alloc, ONCE)?;
            let sent = next.left.sent(1).unwrap_or(b"");
            let is_shown = past.is_shown(alloc, sent, past.acked)?;
            let status = next.left.status;
            assert!(rt;
                is_shown && status == Top::Done,
                "{title}: stops {fill} after {tick}: {status:?} {:?}",
                sent.as_bstr()
            );
        }
        Ok(())
    }
}

// Goes through the lines of a scene after the first, which is its title, and looks at what is to stand, or doesn't.
fn play_lines<R: Threads + Wait + Clock + Copy + Drop + Abort + Send + 'static>(
    rt: R,
    alloc: Global,
    scene: &str,
    looks: bool,
) -> Result<Stage, Fail> {
    let (title, lines) = scene.split_once('\n').unwrap_or((scene, ""));
    let mut stage = Stage::new(alloc, MemDisk::new(alloc))?;
    for line in lines.lines() {
        let (word, rest) = line.split_once(' ').unwrap_or((line, ""));
        match word {
            "files" => {
                let (a, b) = rest.split_once(" | ").ok_or("file B")?;
                stage = Stage::new(alloc, disk_of(alloc, a, b)?)?;
            }
            "$" => stage.run(rt, alloc, rest)?,
            "row" => {}
            "keeps" if looks => stage.keep(rt, alloc, title, rest)?,
            "stops" if looks => stage.stop(rt, alloc, title, rest)?,
            _ => {
                if !stage.setup.add(alloc, word, rest)? && looks {
                    check(&rt, alloc, title, &stage.left, line)?;
                }
            }
        }
    }
    Ok(stage)
}

/// Goes through the lines of a scene after the first, which is its title, with the parts of a row in place of `{0}`, `{1}` and so on.
pub fn play_row<R: Threads + Wait + Clock + Copy + Drop + Abort + Send + 'static>(
    rt: R,
    alloc: Global,
    scene: &str,
    row: &str,
) -> Result<Stage, Fail> {
    let mut text = String::from_str(alloc, scene)?;
    for (place, part) in row.split(" | ").enumerate() {
        let place = format!(in alloc; "{{{place}}}")?;
        text = text.as_str().replace(alloc, place.as_str(), part)?;
    }
    play_lines(rt, alloc, text.as_str(), true)
}

// Goes through a scene for each call of the disk that a run makes of which none fails.
fn play_calls<R: Threads + Wait + Clock + Copy + Drop + Abort + Send + 'static>(
    rt: R,
    alloc: Global,
    scene: &str,
) -> Result<(), Fail> {
    let clean = scene.replace(alloc, "{0}", "0")?;
    let Stage { setup, .. } = play_lines(rt, alloc, clean.as_str(), false)?;
    assert!(rt; setup.faults.calls > 0, "{clean}");
    for call in 1..=setup.faults.calls {
        let row = format!(in alloc; "{call}")?;
        let _stage = play_row(rt, alloc, scene, row.as_str())?;
    }
    Ok(())
}

// Goes through a scene, once for each of its rows, if it has some.
fn play_scene<R: Threads + Wait + Clock + Copy + Drop + Abort + Send + 'static>(
    rt: R,
    alloc: Global,
    scene: &str,
) -> Result<(), Fail> {
    if !scene.contains("{0}") {
        let _stage = play_lines(rt, alloc, scene, true)?;
        return Ok(());
    }
    if !scene.contains("\nrow ") {
        return play_calls(rt, alloc, scene);
    }
    for row in scene.lines().filter_map(|line| line.strip_prefix("row ")) {
        let _stage = play_row(rt, alloc, scene, row)?;
    }
    Ok(())
}

/// Goes through the scenes, each of which begins with a line of its own after `# `.
pub fn play<R: Threads + Wait + Clock + Copy + Drop + Abort + Send + 'static>(
    rt: R,
    alloc: Global,
    scenes: &str,
) -> Result<(), Fail> {
    for scene in scenes.split("# ") {
        play_scene(rt, alloc, scene)?;
    }
    Ok(())
}
