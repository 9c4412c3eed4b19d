//! One run of the program over memory, and what it leaves.
use crate::names::SEED;
use crate::noted::{NotedDisk, NotedSink, WRITES};
use crate::scripts::{Setup, Time};
use pm_disk::{Disk, MemDisk};
use pm_outside::{Held, Kept, MemClock, MemConsole, MemPort, Scene};
use pm_rows::Text;
use pm_spawn::FewThreads;
use pm_top::{BookEntry, Ended, Outside, PmEvent, Top, run};
use std::alloc::Global;
use std::sync::Wait;
use std::test::Fail;
use std::thread::Threads;
use std::time::Clock;

/// What a run left.
#[derive(Drop)]
pub struct Left {
    pub status: Top,
    pub port: MemPort,
    pub sink: NotedSink,
    pub journal: Kept<PmEvent>,
    pub book: Kept<BookEntry>,
    pub disk: MemDisk,
    /// The disk's tick at its beginning.
    pub began: u64,
    /// How many calls of the disk it made.
    pub calls: u64,
    /// The words of each link.
    pub asked: Vec<Text>,
}

impl Left {
    /// What stands there before a run.
    pub fn untouched(alloc: Global, disk: MemDisk) -> Result<Left, Fail> {
        Ok(Left {
            status: Top::NoMemory,
            port: MemPort::new(alloc, Vec::new(alloc), Vec::new(alloc)),
            sink: NotedSink::new(alloc, Vec::new(alloc), Scene::new(alloc, 0)?),
            journal: Kept::new(alloc),
            book: Kept::new(alloc),
            disk,
            began: 0,
            calls: 0,
            asked: Vec::new(alloc),
        })
    }

    /// What was sent on the link of a number, if it came back.
    pub fn sent(&self, number: u64) -> Option<&[u8]> {
        let mut links = self.port.links().iter();
        Some(links.find(|link| link.number() == number)?.sent())
    }
}

fn clock_of<R: Wait + Clock + Copy + Drop>(
    rt: R,
    alloc: Global,
    time: Time,
) -> Result<MemClock<R>, Fail> {
    match time {
        Time::Stands => Ok(MemClock::still(0, rt)),
        Time::Runs => Ok(MemClock::leading(alloc, 0, rt)?),
        Time::Races => Ok(MemClock::new(alloc, 0, rt)?),
    }
}

/// The words of a command line.
pub fn words_of(alloc: Global, line: &str) -> Result<Vec<Text>, Fail> {
    let mut words = Vec::new(alloc);
    for word in line.split_whitespace() {
        words.push(Text::of(alloc, word)?)?;
    }
    Ok(words)
}

/// Runs a command on a disk.
pub fn ran<R: Threads + Wait + Clock + Copy + Drop + Send + 'static>(
    rt: R,
    alloc: Global,
    disk: MemDisk,
    command: &str,
    setup: Setup,
) -> Result<Left, Fail> {
    let words = words_of(alloc, command)?;
    let began = disk.ticks();
    let scene = Scene::new(alloc, WRITES as usize)?;
    let disk = Held::new(disk, setup.withheld, setup.until, scene.another()?, rt);
    let outside = Outside {
        port: MemPort::held(
            alloc,
            Some(scene.another()?),
            setup.links,
            setup.holds,
            vec![in alloc; setup.accept]?,
        ),
        sink: NotedSink::new(alloc, vec![in alloc; setup.line]?, scene.another()?),
        disk: NotedDisk {
            disk: setup.faults.over(disk),
            scene: scene.another()?,
        },
        clock: clock_of(rt, alloc, setup.time)?,
        journal: Kept::new(alloc),
        book: Kept::new(alloc),
        seed: SEED,
    };
    let console = MemConsole::new(setup.lines, Vec::new(alloc), Some(scene));
    let mut spawner = FewThreads::new(rt, setup.threads);
    let Ended {
        status,
        outside,
        ..
    } = run(&mut spawner, rt, alloc, &words, outside, console);
    let disk = outside.disk;
    Ok(Left {
        status,
        port: outside.port,
        sink: outside.sink,
        journal: outside.journal,
        book: outside.book,
        began,
        calls: disk.ticks().saturating_sub(began),
        disk: disk.disk.into_inner().into_inner(),
        asked: setup.asked,
    })
}
