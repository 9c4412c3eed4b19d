//! What a line of the console asks a server for.
#![tactic(auto)]

ghost use Rattle.std.specs.Prelude.{◌≡◌, ◌≢◌, ℕ, IfSome, IfNone};
ghost use Rattle.pm_board_acts.specs.Chained.{AsksFor, mode_word};
ghost use Rattle.pm_serve_requests.specs.Requests.{IsNumber, meant};

use pm_modes::Mode;

/// The most digits that a number of a line has.
const MOST_DIGITS: usize = 10;

/// What a line of the console asks for.
#[derive(Clone, Copy, Debug, PartialEq, Eq)]
pub enum Request {
    Nothing,
    /// Shuts the server down.
    Stop(Mode),
    /// Kills the child with this pid.
    Kill(u64),
}

/// Reads one line, without its end: `smart`, `fast`, `immediate` or `kill N`, where N has one to ten digits. Any other
/// line asks for nothing.
pub fn read_request(line: &[u8]) -> Request
    ensures { AsksFor IsNumber line.now (meant result) }
{
    if let Some(mode) = mode_named(line) {
        return Request::Stop(mode);
    }
    let Some(digits) = line.strip_prefix(b"kill ") else {
        return Request::Nothing;
    };
    match number(digits) {
        Some(pid) => Request::Kill(pid),
        None => Request::Nothing,
    }
}

fn mode_named(word: &[u8]) -> Option<Mode>
    ensures found { IfSome result (λ mode. word.now ≡ mode_word mode) }
    ensures none { IfNone result ((mode : Mode) → word.now ≢ mode_word mode) }
{
    match word {
        b"smart" => Some(Mode::Smart),
        b"fast" => Some(Mode::Fast),
        b"immediate" => Some(Mode::Immediate),
        _ => None,
    }
}

// `parse` alone would read a sign, and any number of zeros.
fn number(digits: &[u8]) -> Option<u64>
    ensures found { IfSome result (λ number. IsNumber digits.now number) }
    ensures none { IfNone result ((number : ℕ) → ¬ (IsNumber digits.now number)) }
{
    if digits.len() > MOST_DIGITS || digits.first() == Some(&b'+') {
        return None;
    }
    let Ok(text) = str::from_utf8(digits) else {
        return None;
    };
    text.parse::<u64>().ok()
}
