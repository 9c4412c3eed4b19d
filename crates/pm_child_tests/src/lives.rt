//! What a child's life gives it, by words.
use pm_child_life::{GateNo, Reason, Signals};
use pm_rows_tests::GENERATION;
use std::alloc::Global;
use std::test::Fail;

const NO_SIGNALS: Signals = Signals {
    kill: false,
    quit: None,
    terminate: false,
    cancel: false,
    checkpoint: false,
};

// The signals of one ask, as `kill+terminate`. A Quit is `quit` for a crash, and `stop` for an immediate shutdown.
fn signals_of(words: &str) -> Option<Signals> {
    let mut signals = NO_SIGNALS;
    for word in words.split('+') {
        match word {
            "kill" => signals.kill = true,
            "quit" => signals.quit = Some(Reason::Crash),
            "stop" => signals.quit = Some(Reason::Stop),
            "terminate" => signals.terminate = true,
            "cancel" => signals.cancel = true,
            "checkpoint" => signals.checkpoint = true,
            _ => return None,
        }
    }
    Some(signals)
}

/// What it is given at its asks, one after the other. A number stands for so many asks at which there is no signal.
pub fn script_of(alloc: Global, words: &str) -> Result<Vec<Signals>, Fail> {
    let mut script = Vec::new(alloc);
    for word in words.split_whitespace() {
        match word.parse::<u32>().ok() {
            Some(quiet) => {
                for _ in 0..quiet {
                    script.push(NO_SIGNALS)?;
                }
            }
            None => script.push(signals_of(word).ok_or("a signal")?)?,
        }
    }
    Ok(script)
}

/// What the gate answers: a generation, or why it lets nobody in.
pub fn gate_of(word: &str) -> Result<u32, GateNo> {
    let generation = GENERATION;
    match word {
        "2" => Ok(2),
        "unready" => Err(GateNo::NotReady { generation }),
        "full" => Err(GateNo::TooMany { count: 100 }),
        "reserved" => Err(GateNo::Reserved { count: 97 }),
        "crash" => Err(GateNo::Quit {
            generation,
            reason: Reason::Crash,
        }),
        "stop" => Err(GateNo::Quit {
            generation,
            reason: Reason::Stop,
        }),
        _ => Ok(generation),
    }
}
