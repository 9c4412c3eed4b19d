// A console whose lines are given beforehand.
ghost use Rattle.std.specs.Prelude.{◌≤◌, length};

use crate::console::{Asked, Console};
use crate::failing_calls::FailingCalls;
use crate::holds::MOST_ASKS;
use crate::scene::{Cue, Scene};

/// A line of a console, without its line feed.
#[derive(Drop)]
pub struct ScriptLine {
    pub text: Vec<u8>,
    /// What has to be seen before it is given, if anything.
    pub behind: Option<Cue>,
}

/// Gives its lines in order, each cut at 64 bytes, and then the end. It notes on its scene how many it gave. Where a
/// line's cue hasn't come it answers that none stands there yet, and once it was asked 10,000 times in vain it does so
/// for good.
#[derive(Drop)]
pub struct MemConsole {
    lines: Vec<ScriptLine>,
    given: usize,
    asks: u64,
    calls: FailingCalls,
    scene: Option<Scene>,
    ghost in_range: { given ≤ length lines.items },
}

impl MemConsole {
    ghost use Rattle.std.specs.Prelude.{◌≡◌, ◌<◌, ◌∷◌, ◌++◌, [], take, true};
    ghost use Rattle.pm_outside.specs.{Calls.no_calls, MemConsole.{lines_given, lines_left, console_calls, FirstWaits, GivesFirst}};

    /// A console for these lines. The calls with these numbers, counted from 1, fail. Without a scene no cue comes.
    pub fn new(lines: Vec<ScriptLine>, failing: Vec<u64>, scene: Option<Scene>) -> Self
        ensures given { lines_given result ≡ [] }
        ensures left { lines_left result ≡ lines.items }
        ensures calls { console_calls result ≡ no_calls failing.items }
    {
        MemConsole {
            lines,
            given: 0,
            asks: 0,
            calls: FailingCalls::new(failing),
            scene,
        }
    }

    // Whether the first line that is left waits for something.
    fn waits(&mut self) -> bool
        requires { self.old.given < length self.old.lines.items }
        ensures waits { result ≡ true → FirstWaits (lines_left self.old) }
        ensures lines { self.new.lines ≡ self.old.lines }
        ensures given { self.new.given ≡ self.old.given }
        ensures calls { self.new.calls ≡ self.old.calls }
    {
        match self.lines[self.given].behind {
            Some(cue) => !self.has_come(cue),
            None => false,
        }
    }

    // Whether a line may be given that waits for this.
    fn has_come(&mut self, cue: Cue) -> bool
        ensures lines { self.new.lines ≡ self.old.lines }
        ensures given { self.new.given ≡ self.old.given }
        ensures calls { self.new.calls ≡ self.old.calls }
    {
        let Some(scene) = &self.scene else {
            return false;
        };
        if self.asks >= MOST_ASKS {
            return false;
        }
        let has_come = scene.has_come(cue);
        if !has_come {
            self.asks += 1;
        }
        has_come
    }

    // Gives the first line that is left, and tells how many bytes of the array are its own.
    fn give(&mut self, into: &mut [u8; 64]) -> usize
        requires { self.old.given < length self.old.lines.items }
        ensures within { result ≤ 64 }
        ensures first { GivesFirst (lines_left self.old) (take result into.new)
            (lines_left self.new) }
        ensures given { lines_given self.new ≡ lines_given self.old ++ take result into.new ∷ [] }
        ensures calls { self.new.calls ≡ self.old.calls }
    {
        let line = &self.lines[self.given].text;
        let count = line.len().min(into.len());
        into[..count].copy_from_slice(&line[..count]);
        self.given += 1;
        self.note_line();
        count
    }

    // Notes on the scene that a line was given.
    fn note_line(&self) {
        if let Some(scene) = &self.scene {
            scene.note_line();
        }
    }
}

impl Console for MemConsole {
    ghost use Rattle.std.specs.Prelude.{◌≡◌, ◌↔◌, IsTrue, Some};
    ghost use Rattle.pm_disk.specs.Cause.{IsCounted};
    ghost use Rattle.pm_outside.specs.{Calls.{is_next_listed, after_call}, Lines.{AskedWithin, after_next}, MemConsole.{lines_given, lines_left, console_calls, is_asked_failed, GivesLine}};

    ghost lines = { λ c. Some (lines_given c) };

    ghost faults = { λ c. (console_calls c).failed };

    fn next(&mut self, into: &mut [u8; 64]) -> Asked
        ensures within { AskedWithin result }
        ensures lines { lines_given self.new ≡ after_next (lines_given self.old) result into.new }
        ensures cause { IsCounted (console_calls self.old).failed (console_calls self.new).failed
            (result ≡ Asked.Failed) }

        ensures listed { (result ≡ Asked.Failed) ↔ IsTrue (is_next_listed
            (console_calls self.old)) }
        ensures line { GivesLine (lines_left self.old) result into.new (lines_left self.new) }
        ensures counts { console_calls self.new ≡ after_call (console_calls self.old)
            (is_asked_failed result) }
    {
        if self.calls.begin() {
            self.calls.fail();
            return Asked::Failed;
        }
        if self.given == self.lines.len() {
            return Asked::End;
        }
        if self.waits() {
            return Asked::NotYet;
        }
        Asked::Line(self.give(into))
    }

    fn faults(&self) -> u64 {
        self.calls.failed()
    }
}
