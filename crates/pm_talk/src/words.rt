//! The words of the command line.
ghost use Rattle.std.specs.Prelude.{◌≢◌, ℕ, [], IfNone, IfOk, IfSome};
ghost use Rattle.pm_wire_front.specs.Requests.{IsSayable};
ghost use Rattle.pm_talk.specs.Port.{IsPort};

use crate::fault::Fault;
use clap::error::ErrorKind;
use clap::{Arg, ArgAction, Command};
use pm_wire_front::can_say;
use std::alloc::Global;

/// With whom the program talks, and as whom.
#[derive(Clone, Copy, Debug)]
pub struct Asked<'a> {
    /// A port of 127.0.0.1.
    pub port: u16,
    pub user: &'a str,
}

/// Reads `--port N` and `--user NAME`, after the program's name. Both are required.
pub fn read_words(alloc: Global, words: &[String]) -> Result<Asked<'_>, Fault>
    ensures user { IfOk result (λ asked. IsSayable asked.user.now) }
    ensures named { IfOk result (λ asked. asked.user.now ≢ []) }
{
    let port = Arg::new(alloc, "port")
        .long("port")
        .required(true)
        .action(ArgAction::Set);
    let user = Arg::new(alloc, "user")
        .long("user")
        .required(true)
        .action(ArgAction::Set);
    let command = Command::new(alloc, "pgtalk")
        .disable_help_flag(true)
        .disable_version_flag(true)
        .arg(port)?
        .arg(user)?;
    let matches = match command.try_get_matches_from(words) {
        Ok(matches) => matches,
        Err(error) if error.kind() == ErrorKind::OutOfMemory => return Err(Fault::NoMemory),
        Err(_) => return Err(Fault::Usage),
    };
    asked_by(matches.get_str("port"), matches.get_str("user"))
}

fn asked_by<'a>(port: Option<&'a str>, user: Option<&'a str>) -> Result<Asked<'a>, Fault>
    ensures user { IfOk result (λ asked. IsSayable asked.user.now) }
    ensures named { IfOk result (λ asked. asked.user.now ≢ []) }
{
    let (Some(port), Some(user)) = (port, user) else {
        return Err(Fault::Usage);
    };
    let Some(port) = port_of(port) else {
        return Err(Fault::Usage);
    };
    if user.is_empty() || !can_say(user) {
        return Err(Fault::Usage);
    }
    Ok(Asked { port, user })
}

// The port that the word says.
fn port_of(word: &str) -> Option<u16>
    ensures found { IfSome result (λ port. IsPort port word.now) }
    ensures none { IfNone result ((port : ℕ) → ¬ (IsPort port word.now)) }
{
    if word.len() > 10 || word.as_bytes().first() == Some(&b'+') {
        return None;
    }
    match word.parse::<u16>() {
        Ok(port) if 1 <= port => Some(port),
        _ => None,
    }
}
