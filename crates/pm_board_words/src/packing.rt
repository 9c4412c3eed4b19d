//! How the words of slots, gate and latches are packed. All bounds of their parts stand here.
ghost use Rattle.std.specs.Prelude.{◌≡◌, ◌^◌, ◌/◌, ◌%◌, ◌<◌, ◌≤◌};
ghost use Rattle.pm_supervisor.specs.Children.{is_session};
ghost use Rattle.pm_board_words.specs.{GateWords.{notice_bits, notice_in, open_in, generation_in, place_of, gate_answer, reserve_by, MayQuit, quit_step, ready_step, new_gate}, Latch.{armed_word, signal_number, quit_of, signals_at, latch_pid}, Words.{offered_word, exit_step, stage_in, active_in, kind_in, status_in, pid_in, flag, kind_number, status_number}};

use crate::views::{SessionLimit, Signal};
use pm_child_life::{GateNo, Signals};
use pm_exit::{Kind, Status};
use pm_supervisor::Reason;

/// The word of a slot that is unused.
pub const UNUSED: u64 = 0;

/// The word of a home at which nothing ever lies.
pub const NEVER_HOME: u64 = 1;

/// Of one at which nothing lies yet.
pub const EMPTY_HOME: u64 = 0;

/// What a start and a release add to a slot's word: one stage.
pub const NEXT_STAGE: u64 = 1;

/// The stage of a slot whose child is offered.
pub const OFFERED: u64 = 1;

/// And that of one whose child has exited.
pub const EXITED: u64 = 3;

/// What marks a slot as active.
pub const ACTIVE: u64 = 8;

/// The gate's word at first: generation 1, not open, no notice, nobody counted.
pub const FIRST_GATE: u64 = GENERATION;

const OPEN: u64 = 16_777_216;

const NOTICE: u64 = 33_554_432;

const GENERATION: u64 = 134_217_728;

fn number_of(kind: Kind) -> u64
    ensures is { result ≡ kind_number kind }
    ensures small { result < 8 }
{
    match kind {
        Kind::Startup => 0,
        Kind::Checkpointer => 1,
        Kind::Writer => 2,
        Kind::Worker => 3,
        Kind::Backend => 4,
        Kind::DeadEnd => 5,
    }
}

/// The word that offers a child.
pub fn offered(pid: u32, kind: Kind) -> u64
    requires { pid < 2147483648 }
    ensures { result ≡ offered_word pid kind }
{
    OFFERED + 16 * number_of(kind) + 65536 * u64::from(pid)
}

/// What the end of a child adds to its slot's word.
pub fn ended(status: Status) -> u64
    requires { status_number status < 256 }
    ensures { result ≡ exit_step status }
{
    match status {
        Status::Code(code) => NEXT_STAGE + 256 * u64::from(code),
        Status::Signal(signal) => NEXT_STAGE + 128 + 256 * u64::from(signal),
    }
}

/// The stage that a slot's word tells.
pub fn stage(word: u64) -> u64
    ensures { result ≡ stage_in word }
{
    word % 8
}

/// The low 32 bits, by which a thread that waits for a change of the word tells it. The stage is among them.
pub fn low_half(word: u64) -> u32 {
    (word % 4_294_967_296) as u32
}

/// Whether it is marked as active.
pub fn is_active(word: u64) -> bool
    ensures { result ≡ active_in word }
{
    word / 8 % 2 != 0
}

/// The kind of its child.
pub fn kind(word: u64) -> Kind
    ensures { result ≡ kind_in word }
{
    match word / 16 % 8 {
        0 => Kind::Startup,
        1 => Kind::Checkpointer,
        2 => Kind::Writer,
        3 => Kind::Worker,
        4 => Kind::Backend,
        _ => Kind::DeadEnd,
    }
}

/// How its child exited.
pub fn status(word: u64) -> Status
    ensures { result ≡ status_in word }
{
    let number = (word / 256 % 256) as u8;
    if word / 128 % 2 == 0 {
        Status::Code(number)
    } else {
        Status::Signal(number)
    }
}

/// The pid of its child.
pub fn pid(word: u64) -> u32
    requires { pid_in word < 4294967296 }
    ensures { result ≡ pid_in word }
{
    (word / 65536) as u32
}

fn serves_sessions(kind: Kind) -> bool
    ensures { result ≡ is_session kind }
{
    matches!(kind, Kind::Backend | Kind::Worker)
}

/// What a child adds to the gate's word: one to the count of sessions, or to that of all others.
pub fn place(kind: Kind) -> u64
    ensures { result ≡ place_of (is_session kind) }
{
    if serves_sessions(kind) { 1 } else { 4096 }
}

fn notice_at(word: u64) -> Option<Reason>
    ensures { result ≡ notice_in word }
{
    match word / NOTICE % 4 {
        0 => None,
        1 => Some(Reason::Crash),
        _ => Some(Reason::Stop),
    }
}

fn is_open(word: u64) -> bool
    ensures { result ≡ open_in word }
{
    word / OPEN % 2 != 0
}

/// So many places are kept from a child: those that are reserved from an ordinary one, and none from another.
fn reserve_for(is_ordinary: bool, limit: SessionLimit) -> u32
    ensures { result ≡ reserve_by is_ordinary limit }
{
    if is_ordinary { limit.reserved } else { 0 }
}

/// Whether a child of this kind, an ordinary one or not, is let in that meets this word of the gate, where so many sessions may be
/// attached.
pub fn answer_at(
    kind: Kind,
    is_ordinary: bool,
    limit: SessionLimit,
    word: u64,
) -> Result<u32, GateNo>
    requires { generation_in word < 4294967296 }
    ensures { result ≡ gate_answer kind is_ordinary limit word }
{
    let generation = (word / GENERATION) as u32;
    if let Some(reason) = notice_at(word) {
        return Err(GateNo::Quit { generation, reason });
    }
    if !serves_sessions(kind) {
        return Ok(generation);
    }
    if !is_open(word) {
        return Err(GateNo::NotReady { generation });
    }
    let count = (word % 4096) as u32;
    let wanted = u64::from(count) + u64::from(reserve_for(is_ordinary, limit));
    if wanted < u64::from(limit.most) {
        Ok(generation)
    } else if count < limit.most {
        Err(GateNo::Reserved { count })
    } else {
        Err(GateNo::TooMany { count })
    }
}

fn notice_number(noticed: Option<Reason>) -> u64
    ensures is { result ≡ notice_bits noticed }
    ensures small { result ≤ 3 }
{
    match noticed {
        None => 0,
        Some(Reason::Crash) => 1,
        Some(Reason::Stop) => 3,
    }
}

/// What a notice adds to the gate's word.
pub fn quit_adds(noticed: Option<Reason>, why: Reason) -> u64
    requires { MayQuit noticed why }
    ensures { result ≡ quit_step noticed why }
{
    NOTICE * (notice_number(Some(why)) - notice_number(noticed))
}

/// What opening the gate adds to its word.
pub fn ready_adds(noticed: Option<Reason>) -> u64
    ensures { result ≡ ready_step noticed }
{
    OPEN.wrapping_sub(NOTICE * notice_number(noticed))
}

/// The word of a latch that is armed for this pid, in which no signal stands.
pub fn armed(pid: u32) -> u64
    ensures { result ≡ armed_word pid }
{
    32 * u64::from(pid)
}

/// Clears the signals of a latch's word, and leaves its pid.
pub const NO_SIGNALS: u64 = 18_446_744_073_709_551_584;

/// The bit of a signal in a latch's word.
pub fn signal_bit(signal: Signal) -> u64
    ensures { result ≡ 2 ^ signal_number signal }
{
    match signal {
        Signal::Quit(Reason::Crash) => 1,
        Signal::Quit(Reason::Stop) => 2,
        Signal::Terminate => 4,
        Signal::Kill => 8,
        Signal::Checkpoint => 16,
    }
}

fn quit_among(stop: bool, crash: bool) -> Option<Reason>
    ensures { result ≡ quit_of stop crash }
{
    if stop {
        Some(Reason::Stop)
    } else if crash {
        Some(Reason::Crash)
    } else {
        None
    }
}

fn has_bit(word: u64, bit: u64) -> bool
    requires { 0 < bit }
    ensures { result ≡ flag (word / bit % 2) }
{
    word / bit % 2 != 0
}

/// What stands in a latch's word, beside a cancel that was heeded or not.
pub fn signals(word: u64, cancel: bool) -> Signals
    ensures { result ≡ signals_at word cancel }
{
    Signals {
        kill: has_bit(word, 8),
        quit: quit_among(has_bit(word, 2), has_bit(word, 1)),
        terminate: has_bit(word, 4),
        cancel,
        checkpoint: has_bit(word, 16),
    }
}

/// The pid that a latch's word is armed for.
pub fn armed_for(word: u64) -> u32
    requires { latch_pid word < 4294967296 }
    ensures { result ≡ latch_pid word }
{
    (word / 32) as u32
}

/// The gate's word in a new generation: not open, no notice, nobody counted.
pub fn new_word(generation: u32) -> u64
    ensures { result ≡ new_gate generation }
{
    GENERATION * u64::from(generation)
}
