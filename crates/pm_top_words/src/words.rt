//! The words of the command line.

ghost use Rattle.std.specs.Prelude.{◌≡◌, ◌≢◌, IfOk, OnErr, IfSome, IfNone};
ghost use Rattle.pm_top_words.specs.{declared.words.Verb.Verb, Words.{AreNoLine, IsLineWith, IsOnlyLine, verb_word}};

use crate::options::read_settings;
use pm_rows::Text;
use pm_server::Conf;
use thiserror::Error;

/// The first word.
#[derive(Clone, Copy, Debug, PartialEq, Eq)]
pub enum Verb {
    Initdb,
    Once,
    Serve,
    Controldata,
    Workload,
}

/// What the program is asked to do.
#[derive(Clone, Copy, Debug, PartialEq, Eq)]
pub enum Command {
    /// Makes a cluster.
    Initdb,
    /// Serves one connection after another.
    Once,
    /// Serves many connections at once, at this port.
    Serve { port: u16 },
    /// Tells what the files of a cluster stand for.
    Controldata,
    /// Asks a server in memory so many queries, and checks its answers.
    Workload { number: u32 },
}

/// A command line that is in the grammar.
#[derive(Clone, Copy, Debug, PartialEq, Eq)]
pub struct Line<'a> {
    pub command: Command,
    /// The folder of the cluster. Empty for a workload, which has none.
    pub dir: &'a str,
    /// What a server goes by; the other commands have no use for it.
    pub conf: Conf,
}

#[derive(Clone, Copy, Debug, PartialEq, Eq, Error)]
pub enum WordsNo {
    #[error("the words are no command line")]
    Usage,
}

/// Reads `initdb`, `once`, `serve`, `controldata` or `workload` and then options in any order, each at most once, as
/// `--name value` or `--name=value`. A value isn't empty, and as a word of its own it doesn't begin with `-`.
///
/// - `--data`: the folder of the cluster. Each command wants it but `workload`, which has none.
/// - `--port`: 1 to 65535. For `serve` alone, which wants it.
/// - `--max-connections`: 1 to 200, and 20 by default.
/// - `--superuser-reserved`: how many of them are kept for user `postgres`: fewer than there may be, and none by default.
/// - `--restart-after-crash`: `on`, the default, or `off`.
/// - `--authentication-timeout`: 1 to 600 seconds, and 60 by default.
/// - `--number`: 0 to 100000. For `workload` alone, which wants it.
///
/// The third to sixth are for `once` and `serve` alone. A number has one to ten digits.
pub fn read_words<'a>(words: &'a [Text]) -> Result<Line<'a>, WordsNo>
    ensures line { IfOk result (λ line. IsLineWith words.now line.command line.dir.now line.conf) }
    ensures only { IfOk result (λ line. IsOnlyLine words.now line.command line.dir.now line.conf) }
    ensures usage { OnErr result (AreNoLine words.now) }
{
    let [first, options @ ..] = words else {
        return Err(WordsNo::Usage);
    };
    let Some(verb) = verb_named(first.as_str()) else {
        return Err(WordsNo::Usage);
    };
    let Some(settings) = read_settings(verb, options) else {
        return Err(WordsNo::Usage);
    };
    let Some(command) = settings.command(verb) else {
        return Err(WordsNo::Usage);
    };
    let conf = settings.conf();
    if conf.limits.reserved >= conf.limits.max_connections {
        return Err(WordsNo::Usage);
    }
    match settings.folder(verb) {
        Some(dir) => Ok(Line { command, dir, conf }),
        None => Err(WordsNo::Usage),
    }
}

pub(crate) fn verb_named(word: &str) -> Option<Verb>
    ensures found { IfSome result (λ verb. word.now ≡ verb_word verb) }
    ensures none { IfNone result ((verb : Verb) → word.now ≢ verb_word verb) }
{
    match word {
        "initdb" => Some(Verb::Initdb),
        "once" => Some(Verb::Once),
        "serve" => Some(Verb::Serve),
        "controldata" => Some(Verb::Controldata),
        "workload" => Some(Verb::Workload),
        _ => None,
    }
}
