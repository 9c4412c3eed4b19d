//! A server without processes, over the servers' machine: it tells its supervisor what happens, and an act is done once it is noted.
ghost use Rattle.std.specs.Prelude.{IfSome, IsTrue, OnOk};
ghost use Rattle.pm_supervisor_journal.specs.{pm_state.pm_supervisor.Limits.IsWithinLimits, Stands.{HasPast, IsSettled}, Supervision.{at_work, standing}};
ghost use Rattle.pm_supervisor_tests.specs.Serving.{IsServing, IsUnowed};

use pm_exit::Status;
use pm_modes::Mode;
use pm_outside::Kept;
use pm_state::{Limits, PmEvent};
use pm_supervisor_journal::{ChildExit, Supervision};
use std::alloc::Global;
use std::test::Fail;

/// A supervisor at work, which keeps its journal.
pub type Server = Supervision<Kept<PmEvent>>;

/// A server before its start.
pub fn new_server(alloc: Global, limits: Limits) -> Server
    requires { IsWithinLimits limits }
    ensures { IsServing (at_work result) }
{
    Supervision::new(alloc, limits, Kept::new(alloc))
}

/// What happens at a moment, by its words, and what the machine does of itself then; a connection comes behind that.
pub fn happen(server: &mut Server, at: u64, what: &str) -> Result<(), Fail>
    requires { IsServing (at_work server.old) }
    ensures { OnOk result (IsServing (at_work server.new)) }
{
    tell(server, at, what)?;
    tick(server, at)?;
    if goes_on(server) {
        turn(server)?;
        if what == "connect" && !server.has_ended() && server.may_accept() {
            server.accept()?;
            act_all(server).ok_or("an act")?;
        }
    }
    Ok(())
}

/// A word, and what stands behind it.
pub fn parted(words: &str) -> (&str, &str) {
    words.split_once(' ').unwrap_or((words, ""))
}

pub fn number(word: &str) -> Result<u64, Fail> {
    Ok(word.parse::<u64>().ok().ok_or("a number")?)
}

// Whether calls may be made: the server hasn't ended, and pids are left.
fn goes_on(server: &Server) -> bool
    ensures { IsTrue result → IsUnowed (standing server.now) }
{
    !server.has_ended() && !server.owes_smart()
}

// Does the acts that are due, one after the other.
fn act_all(server: &mut Server) -> Option<()>
    requires { HasPast (at_work server.old) }
    ensures serving { IfSome result (λ _. IsServing (at_work server.new)) }
    ensures settled { IsSettled (standing server.old)
        → IfSome result (λ _. IsSettled (standing server.new)) }
{
    for _ in 0..10u32 {
        match server.next() {
            Ok(Some(_)) => {}
            Ok(None) => return Some(()),
            Err(_) => return None,
        }
    }
    None
}

fn tick(server: &mut Server, at: u64) -> Result<(), Fail>
    requires { IsServing (at_work server.old) }
    ensures { OnOk result (IsServing (at_work server.new)) }
{
    if goes_on(server) {
        server.tick(at)?;
        act_all(server).ok_or("an act")?;
    }
    Ok(())
}

fn turn(server: &mut Server) -> Result<(), Fail>
    requires serving { IsServing (at_work server.old) }
    requires unowed { IsUnowed (standing server.old) }
    ensures serving { OnOk result (IsServing (at_work server.new)) }
    ensures settled { OnOk result (IsSettled (standing server.new)) }
{
    server.turn()?;
    act_all(server).ok_or("an act")?;
    Ok(())
}

// Tells of an end of a child, a request or a kill: `exit 4 signal 9 active`, `fast`, `kill 4`. Of time and of a connection there is
// nothing to tell.
fn tell(server: &mut Server, at: u64, what: &str) -> Result<(), Fail>
    requires { IsServing (at_work server.old) }
    ensures { OnOk result (IsServing (at_work server.new)) }
{
    let (word, rest) = parted(what);
    match word {
        "time" | "connect" => Ok(()),
        "exit" => exit(server, at, rest),
        "kill" => kill(server, rest),
        mode => ask(server, at, mode),
    }
}

// A child has ended, if it is there: `4 signal 9 active`. Redo has kept no commits, since there is no log.
fn exit(server: &mut Server, at: u64, words: &str) -> Result<(), Fail>
    requires { IsServing (at_work server.old) }
    ensures { OnOk result (IsServing (at_work server.new)) }
{
    let (pid, rest) = parted(words);
    let (how, rest) = parted(rest);
    let (code, mark) = parted(rest);
    let pid = pid.parse::<u32>().ok().ok_or("a pid")?;
    let status = status_of(how, code)?;
    let Some(kind) = server.kind_of(pid) else {
        return Ok(());
    };
    let exit = ChildExit {
        pid,
        kind,
        status,
        was_active: mark == "active",
        kept: Some(0),
    };
    if goes_on(server) {
        server.exited(exit, at)?;
        act_all(server).ok_or("an act")?;
    }
    Ok(())
}

fn status_of(how: &str, code: &str) -> Result<Status, Fail> {
    let code = code.parse::<u8>().ok().ok_or("a code")?;
    match how {
        "code" => Ok(Status::Code(code)),
        _ => Ok(Status::Signal(code)),
    }
}

// It is asked to kill a child, if it is there.
fn kill(server: &mut Server, pid: &str) -> Result<(), Fail>
    requires { IsServing (at_work server.old) }
    ensures { OnOk result (IsServing (at_work server.new)) }
{
    let pid = pid.parse::<u32>().ok().ok_or("a pid")?;
    if server.kind_of(pid).is_some() && goes_on(server) {
        server.kill(pid)?;
    }
    Ok(())
}

// A shutdown is asked for.
fn ask(server: &mut Server, at: u64, mode: &str) -> Result<(), Fail>
    requires { IsServing (at_work server.old) }
    ensures { OnOk result (IsServing (at_work server.new)) }
{
    let mode = mode_of(mode).ok_or("a mode")?;
    if goes_on(server) {
        server.ask(mode, at)?;
        act_all(server).ok_or("an act")?;
    }
    Ok(())
}

fn mode_of(word: &str) -> Option<Mode> {
    match word {
        "smart" => Some(Mode::Smart),
        "fast" => Some(Mode::Fast),
        "immediate" => Some(Mode::Immediate),
        _ => None,
    }
}
