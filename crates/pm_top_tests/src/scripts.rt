//! What a run works on, by words.
//!
//! A cue is `@2>WORD,WORD` where it is what these words stand for that the link of that number was sent, or more; `@log>WORD` for
//! the log; `@lines>1` for so many lines of the console; `@reads>1` and `@writes>1` for so many reads and writes of the disk, begun;
//! `@never` for what doesn't come.
use crate::names::{number, spelled};
use crate::noted::{LOG, READS, WRITES};
use pm_disk::{Disk, FailingDisk};
use pm_outside::{Cue, Hold, LinkScript, ScriptLine, Withheld};
use pm_rows::Text;
use std::alloc::Global;
use std::test::Fail;

/// Which calls of the disk fail, over one run or more.
#[derive(Clone, Copy)]
pub struct Faults {
    /// The number of the one that does; at 0 none does.
    pub at: u64,
    /// Whether each after it does too.
    pub breaks: bool,
    /// How many calls there were since this was said.
    pub calls: u64,
}

impl Faults {
    /// A disk over another one, of whose calls these fail.
    pub fn over<D: Disk>(self, disk: D) -> FailingDisk<D> {
        if self.breaks && self.at > 0 {
            return FailingDisk::fuse(disk, self.at.saturating_sub(1).saturating_sub(self.calls));
        }
        FailingDisk::blip(disk, self.at.saturating_sub(self.calls))
    }
}

/// With whose pauses a millisecond passes.
#[derive(Clone, Copy)]
pub enum Time {
    /// With nobody's.
    Stands,
    /// With the supervisor's.
    Runs,
    /// With those of its children, too.
    Races,
}

/// What the next run works on. Calls that fail count from 1, so at 0 none does.
#[derive(Drop)]
pub struct Setup {
    pub threads: u64,
    pub time: Time,
    /// Which call of the disk waits, and for what.
    pub withheld: Withheld,
    pub until: Cue,
    pub faults: Faults,
    /// Which accept of the port fails, which read and which write of each link, and which write of the sink.
    pub accept: u64,
    pub read: u64,
    pub write: u64,
    pub line: u64,
    pub links: Vec<LinkScript>,
    /// The words of each link.
    pub asked: Vec<Text>,
    /// Where the port waits.
    pub holds: Vec<Hold>,
    pub lines: Vec<ScriptLine>,
}

/// As many threads as any server has, and nothing else.
pub fn plain(alloc: Global) -> Setup {
    Setup {
        threads: 407,
        time: Time::Stands,
        withheld: Withheld::FirstRead,
        until: Cue::Lines(0),
        faults: Faults {
            at: 0,
            breaks: false,
            calls: 0,
        },
        accept: 0,
        read: 0,
        write: 0,
        line: 0,
        links: Vec::new(alloc),
        asked: Vec::new(alloc),
        holds: Vec::new(alloc),
        lines: Vec::new(alloc),
    }
}

fn cue_of(alloc: Global, word: &str) -> Result<Cue, Fail> {
    let Some((of, seen)) = word.split_once('>') else {
        return Ok(Cue::Sent { link: 0, bytes: 1 });
    };
    let (link, bytes) = match of {
        "@lines" => return Ok(Cue::Lines(number(seen)? as u64)),
        "@reads" => (READS, number(seen)?),
        "@writes" => (WRITES, number(seen)?),
        "@log" => (LOG, spelled(alloc, seen)?.len()),
        _ => (
            number(of.trim_start_matches('@'))? as u64,
            spelled(alloc, seen)?.len(),
        ),
    };
    Ok(Cue::Sent {
        link,
        bytes: bytes as u64,
    })
}

impl Setup {
    // A link over which this comes in, with a hold at each cue. A call of it moves at most 64 bytes.
    fn add_link(&mut self, alloc: Global, words: &str) -> Result<(), Fail> {
        let mut incoming = Vec::new(alloc);
        let mut holds = Vec::new(alloc);
        for word in words.split_whitespace() {
            if word.starts_with('@') {
                let cue = cue_of(alloc, word)?;
                let at = incoming.len();
                holds.push(Hold { at, cue })?;
            } else {
                incoming.extend_from_slice(&spelled(alloc, word)?)?;
            }
        }
        let link = LinkScript {
            incoming,
            per_call: 64,
            failing_reads: vec![in alloc; self.read]?,
            failing_writes: vec![in alloc; self.write]?,
            holds,
        };
        self.links.push(link)?;
        self.asked.push(Text::of(alloc, words)?)?;
        Ok(())
    }

    // The port waits for this before its next link, or its end.
    fn hold(&mut self, alloc: Global, cue: &str) -> Result<(), Fail> {
        let cue = cue_of(alloc, cue)?;
        let at = self.links.len();
        self.holds.push(Hold { at, cue })?;
        Ok(())
    }

    fn add_line(&mut self, alloc: Global, words: &str) -> Result<(), Fail> {
        let (cue, line) = words.split_once(": ").ok_or("a line")?;
        let mut text = Vec::new(alloc);
        text.extend_from_slice(line.as_bytes())?;
        self.lines.push(ScriptLine {
            text,
            behind: Some(cue_of(alloc, cue.trim_end())?),
        })?;
        Ok(())
    }

    // That call fails of the disk, or each from there on; or that one of the port, of each link that is added after it, or of the sink.
    fn let_fail(&mut self, words: &str) -> Result<(), Fail> {
        let (what, at) = words.split_once(' ').ok_or("which one fails")?;
        let at = number(at)? as u64;
        match what {
            "disk" | "from" => {
                let breaks = what == "from";
                self.faults = Faults {
                    at,
                    breaks,
                    calls: 0,
                };
            }
            "accept" => self.accept = at,
            "read" => self.read = at,
            "write" => self.write = at,
            _ => self.line = at,
        }
        Ok(())
    }

    /// Adds the links of a command line, for none of which the port waits, and answers the command.
    pub fn take_links<'a>(&mut self, alloc: Global, line: &'a str) -> Result<&'a str, Fail> {
        let Some((command, links)) = line.split_once(" < ") else {
            return Ok(line);
        };
        for words in links.split(" & ") {
            self.add_link(alloc, words)?;
        }
        Ok(command)
    }

    /// Adds what a line says. It tells whether the line says something of what is run, and not of what has come of it.
    pub fn add(&mut self, alloc: Global, word: &str, rest: &str) -> Result<bool, Fail> {
        match word {
            "threads" => self.threads = number(rest)? as u64,
            "time" if rest == "runs" => self.time = Time::Runs,
            "time" => self.time = Time::Races,
            "fail" => self.let_fail(rest)?,
            "read" | "write" => {
                self.withheld = match word {
                    "read" => Withheld::FirstRead,
                    _ => Withheld::FirstWrite,
                };
                self.until = cue_of(alloc, rest)?;
            }
            "end" => self.hold(alloc, rest)?,
            "link" => {
                let (cue, words) = rest.split_once(": ").ok_or("what comes in")?;
                if !cue.is_empty() {
                    self.hold(alloc, cue.trim_end())?;
                }
                self.add_link(alloc, words)?;
            }
            "line" => self.add_line(alloc, rest)?,
            "20" => {
                for _ in 0..20 {
                    self.add_line(alloc, rest.trim_start_matches("lines "))?;
                }
            }
            _ => return Ok(false),
        }
        Ok(true)
    }
}
