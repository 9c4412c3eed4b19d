//! Every run has the journal that is written out for it.
ghost use Rattle.std.specs.Prelude.{◌≤◌};
ghost use Rattle.pm_supervisor_journal.specs.pm_state.pm_supervisor.Limits.{IsWithinLimits};

use crate::server::{happen, new_server, number, parted};
use crate::{admission, crashes, scene, shutdowns, startups};
use pm_outside::Kept;
use pm_state::{Limits, PmEvent};
use std::alloc::Global;
use std::process::Abort;
use std::test::Fail;

pub fn limits(max_connections: u32, restart_after_crash: bool) -> Limits
    ensures { max_connections ≤ 200 → IsWithinLimits result }
{
    Limits {
        max_connections,
        max_worker_processes: 0,
        reserved: 0,
        restart_after_crash,
    }
}

// A line tells what happens where it begins with the moment: `2 connect`.
fn is_happening(line: &str) -> bool {
    line.starts_with(|c: char| c.is_ascii_digit())
}

/// The journal of a server for one connection, to which all happens that these lines tell of.
pub fn journal_of(alloc: Global, restarts: bool, lines: &str) -> Result<Kept<PmEvent>, Fail> {
    let mut server = new_server(alloc, limits(1, restarts));
    for line in lines.lines() {
        if is_happening(line) {
            let (at, what) = parted(line);
            happen(&mut server, number(at)?, what)?;
        }
    }
    Ok(server.into_journal())
}

// The scene of this name, without its first line.
fn scene_of<'a>(scenes: &'a str, name: &str) -> Option<&'a str> {
    for scene in scenes.split("\n\n") {
        let (head, lines) = scene.trim_start().split_once('\n')?;
        if head.split_once(':').unwrap_or((head, "")).0 == name {
            return Some(lines);
        }
    }
    None
}

// The lines of the scenes of these names, one behind the other.
fn lines_of(alloc: Global, scenes: &str, names: &str) -> Result<String, Fail> {
    let mut lines = String::new(alloc);
    for name in names.split_whitespace() {
        let of_all = scene_of(scene::SCENES, name);
        let scene = of_all.or(scene_of(scenes, name)).ok_or("a scene")?;
        lines.push_str(scene)?;
        lines.push_str("\n")?;
    }
    Ok(lines)
}

// The entries that are wanted, a line each.
fn wanted(alloc: Global, lines: &str) -> Result<String, Fail> {
    let mut text = String::new(alloc);
    for line in lines.lines() {
        if !is_happening(line) {
            text.push_str(line.trim_start())?;
            text.push_str("\n")?;
        }
    }
    Ok(text)
}

// The entries of a journal, a line each.
fn told(alloc: Global, journal: &[PmEvent]) -> Result<String, Fail> {
    let mut text = String::new(alloc);
    for entry in journal {
        text.push_str(format!(in alloc; "{entry:?}\n")?.as_str())?;
    }
    Ok(text)
}

// Goes through the runs of a table.
fn play(rt: &impl Abort, alloc: Global, scenes: &str, runs: &str) -> Result<(), Fail> {
    for run in runs.lines() {
        if let Some((name, rest)) = run.split_once(" | ") {
            let (restarts, names) = rest.split_once(" | ").ok_or("its scenes")?;
            let lines = lines_of(alloc, scenes, names)?;
            let journal = journal_of(alloc, restarts == "on", lines.as_str())?;
            assert_eq!(rt;
                told(alloc, journal.entries())?.as_str(),
                wanted(alloc, lines.as_str())?.as_str(),
                "{name}"
            );
        }
    }
    Ok(())
}

#[test]
fn each_run_has_its_journal(rt: HostRuntime) -> Result<(), Fail> {
    for (scenes, runs) in [
        (startups::SCENES, startups::RUNS),
        (shutdowns::SCENES, shutdowns::RUNS),
        (crashes::SCENES, crashes::RUNS),
        (admission::SCENES, admission::RUNS),
    ] {
        play(&rt, rt.alloc(), scenes, runs)?;
    }
    Ok(())
}
