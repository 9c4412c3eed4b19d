//! What a script that was run does to the store.

ghost use Rattle.std.specs.Prelude.{◌≡◌, ◌≢◌, ◌+◌, ◌≤◌, [], ◌∷◌, length, Some};
ghost use Rattle.pm_query.specs.{declared.{book.BookEntry.TheVariants.{Answered, Broke, LogFull}, store.StoreNo.StoreNo}, Calls.NotesStaged};
ghost use Rattle.pm_outside.specs.Added.{Added};

use crate::apart::Apart;
use crate::commits::Commits;
use crate::front::read_front;
use crate::history::history_laws;
use crate::live::Live;
use crate::pass::Pass;
use crate::ran::Ran;
use pm_disk::Disk;
use pm_outside::Chronicle;
use pm_query::{BookEntry, Reply, Staged, StoreNo};
use pm_record::body_length;
use pm_sql::Script;
use std::slice;

/// What a script comes to, before the log is asked to take its commit.
#[derive(Drop)]
pub enum Begun {
    /// It was answered, and commits nothing.
    Answered(Staged),
    /// It has a commit, which this log may take.
    Commits(Live, Ran),
}

impl<D: Disk, B: Chronicle<BookEntry>> Apart<D, B> {
    ghost use Rattle.std.specs.Prelude.{◌^◌, ◌-◌, List, None, Err, cond};
    ghost use Rattle.pm_query.specs.{declared.book.BookEntry.BookEntry, Calls.{MetLater, ReachesNoLess, RunNotes, with_front}};
    ghost use Rattle.pm_store_apart.specs.{Answers.IsAnswerOn, Apart.Grows, Begun.{HasBegun, HasRun}, Causes.RunCause, Moment.{KeepsLog, alone}, declared.commits.Commits.Commits, Passes.{Admits, user_in, view_of}, ReadsApart.AnswersEarly};

    /// Runs a script, and stages its commit.
    pub fn run(&mut self, pass: &mut Pass, script: &Script) -> Result<Staged, StoreNo>
        requires { Admits pass.old (alone self.old) }
        ensures run { HasRun Commits.Staged self.old self.new pass.old pass.new script.now result }
        ensures admits { Admits pass.new (alone self.new) }
        ensures stale { MetLater (alone self.new).generation pass.old.generation result }
    {
        let begun = self.begin(pass, script, Commits::Staged)?;
        match begun {
            Begun::Answered(staged) => Ok(staged),
            Begun::Commits(_, _) => unreachable!(),
        }
    }

    /// Runs a script, and answers it, but for a commit that is to be written at once. After a clean checkpoint, and after the last
    /// number, a commit is refused.
    pub fn begin(
        &mut self,
        pass: &mut Pass,
        script: &Script,
        ways: Commits,
    ) -> Result<Begun, StoreNo>
        requires { Admits pass.old (alone self.old) }
        ensures begun { HasBegun ways self.old self.new pass.old pass.new script.now result }
        ensures admits { Admits pass.new (alone self.new) }
        ensures stale { MetLater (alone self.new).generation pass.old.generation result }
    {
        let Some(live) = self.live else {
            return Err(StoreNo::NoMemory);
        };
        let room = self.entries_for(2);
        if self.book.reserve(room).is_err() {
            return Err(StoreNo::NoMemory);
        }
        if let Some(since) = live.log.since {
            return Err(self.broken(*pass, live, since));
        }
        let Ok(ran) = Ran::of(self.alloc, &self.rows, script) else {
            return Err(StoreNo::NoMemory);
        };
        if ran.commit.changes().is_empty() {
            return Ok(Begun::Answered(self.read(pass, live, ran)));
        }
        if live.closed {
            return Err(StoreNo::NoMemory);
        }
        if live.front == u64::MAX {
            return Err(self.refuse_spent(*pass, live, ran));
        }
        match ways {
            Commits::AtOnce => Ok(Begun::Commits(live, ran)),
            Commits::Staged => match self.stage(pass, live, ran) {
                Ok(staged) => Ok(Begun::Answered(staged)),
                Err(refusal) => Err(refusal),
            },
        }
    }

    // Answers a script that commits nothing. One that shows nothing of what is staged is answered at the flushed number.
    fn read(&mut self, pass: &mut Pass, live: Live, ran: Ran) -> Staged
        requires admits { Admits pass.old (alone self.old) }
        requires room { length self.old.inside + cond self.old.lent 1 0 + 1 ≤ B.spare self.old.book }
        requires live { self.old.live ≡ Some live }
        requires unbroken { live.log.since ≡ None }
        requires answer { IsAnswerOn self.old.rows ran }
        requires nothing { ran.commit ≡ [] }
        ensures notes { (entries : List BookEntry) × Grows entries self.old self.new
            × NotesStaged pass.old.pid ran.script result entries }
        ensures admits { Admits pass.new (alone self.new) }
        ensures reply { result.reply ≡ ran.reply }
        ensures fresh { ReachesNoLess (view_of pass.old) result.front }
        ensures view { view_of pass.new ≡ with_front result.front (view_of pass.old) }
        ensures early { AnswersEarly (alone self.old) pass.old.front ran.script result.front }
        ensures rest { KeepsLog self.old self.new }
    {
        history_laws();
        let front = read_front(&self.stage, pass, live, &ran.script);
        answer(&mut self.book, pass, ran, front, live.mark)
    }

    // Refuses a commit after the last number.
    fn refuse_spent(&mut self, pass: Pass, live: Live, ran: Ran) -> StoreNo
        requires admits { Admits pass (alone self.old) }
        requires room { length self.old.inside + cond self.old.lent 1 0 + 2 ≤ B.spare self.old.book }
        requires live { self.old.live ≡ Some live }
        requires unbroken { live.log.since ≡ None }
        requires answer { IsAnswerOn self.old.rows ran }
        requires some { ran.commit ≢ [] }
        requires spent { live.front ≡ 2 ^ 64 - 1 }
        ensures notes { (entries : List BookEntry) × Grows entries self.old self.new
            × RunNotes (user_in (alone self.old) pass) ran.script (Err result) entries }
        ensures admits { Admits pass (alone self.new) }
        ensures cause { RunCause (alone self.old) ran.script (Err result) }
        ensures rest { KeepsLog self.old self.new }
    {
        history_laws();
        let need = 5 + body_length(slice::from_ref(&ran.commit));
        note_full(&mut self.book, pass.pid, ran, need, 0)
    }
}

// Gives an answer, which is noted. The pass has seen this front from now on.
pub(crate) fn answer<B: Chronicle<BookEntry>>(
    book: &mut B,
    pass: &mut Pass,
    ran: Ran,
    front: u64,
    tick: u64,
) -> Staged
    requires room { 1 ≤ B.spare book.old }
    requires noted { ran.noted ≡ ran.reply }
    ensures entries { Added (Answered pass.old.pid ran.script ran.reply ran.commit front tick
        ∷ []) (B.entries book.old) (B.entries book.new) }
    ensures room { B.spare book.new + 1 ≡ B.spare book.old }
    ensures staged { NotesStaged pass.old.pid ran.script result
        (Answered pass.old.pid ran.script ran.reply ran.commit front tick ∷ []) }
    ensures given { (result.reply ≡ ran.reply) × (result.front ≡ front) }
    ensures seen { pass.new ≡ record pass.old { front = Some front } }
{
    let wrote = !ran.commit.changes().is_empty();
    let reply = note_answer(book, pass.pid, ran, front, tick);
    pass.front = Some(front);
    Staged {
        reply,
        front,
        wrote,
    }
}

// Notes an answer, and hands its reply back.
pub(crate) fn note_answer<B: Chronicle<BookEntry>>(
    book: &mut B,
    pid: u32,
    ran: Ran,
    front: u64,
    tick: u64,
) -> Reply
    requires room { 1 ≤ B.spare book.old }
    requires noted { ran.noted ≡ ran.reply }
    ensures entries { Added (Answered pid ran.script ran.reply ran.commit front tick ∷ [])
        (B.entries book.old) (B.entries book.new) }
    ensures room { B.spare book.new + 1 ≡ B.spare book.old }
    ensures reply { result ≡ ran.reply }
{
    let Ran {
        script,
        reply,
        noted,
        commit,
    } = ran;
    book.note(BookEntry::Answered {
        pid,
        script,
        reply: noted,
        commit,
        front,
        tick,
    });
    reply
}

// Notes the disk's last fault.
pub(crate) fn note_fault<D: Disk, B: Chronicle<BookEntry>>(book: &mut B, pid: u32, disk: &D)
    requires { 1 ≤ B.spare book.old }
    ensures entries { Added (Broke pid (D.ticks disk.now) (D.faults disk.now) ∷ [])
        (B.entries book.old) (B.entries book.new) }
    ensures room { B.spare book.new + 1 ≡ B.spare book.old }
{
    book.note(BookEntry::Broke {
        pid,
        since: disk.ticks(),
        faults: disk.faults(),
    });
}

// Notes that the log has no room for a commit, and says so.
pub(crate) fn note_full<B: Chronicle<BookEntry>>(
    book: &mut B,
    pid: u32,
    ran: Ran,
    need: u64,
    room: u64,
) -> StoreNo
    requires { 1 ≤ B.spare book.old }
    ensures entries { Added (LogFull pid ran.script need room ∷ [])
        (B.entries book.old) (B.entries book.new) }
    ensures room { B.spare book.new + 1 ≡ B.spare book.old }
    ensures full { result ≡ StoreNo.Full need room }
{
    book.note(BookEntry::LogFull {
        pid,
        script: ran.script,
        need,
        room,
    });
    StoreNo::Full { need, room }
}
