//! The options of the command line.

ghost use Rattle.std.specs.Prelude.{◌≡◌, ◌↔◌, ℕ, List, ◌∷◌, IfSome, IfNone, IsTrue, option_map};
ghost use Rattle.pm_top_words.specs.{Words.{Choice, Chosen, IsNumberIn, MayChoose, Says, command_of, conf_of, folder_of, nothing, option_name, with_choice}, Options.{BeginsWith, BeginsWithOption, CanReserve, IsPlain, Leaves, choice_of, chosen_of}};

use crate::words::{Command, Verb};
use pm_rows::Text;
use pm_server::Conf;
use pm_session::SessionConf;
use pm_supervisor::Limits;

/// The last port that there is.
const LAST_PORT: u32 = 65_535;

/// How many sessions may be attached at once, by default.
const DEFAULT_CONNECTIONS: u32 = 20;

/// The same, at most.
const MOST_CONNECTIONS: u32 = 200;

/// How many of them may be reserved at most. They are fewer than there may be.
const MOST_RESERVED: u32 = 199;

/// How many seconds a client may take up to its startup packet, by default.
const DEFAULT_SECONDS: u32 = 60;

/// The same, at most.
const MOST_SECONDS: u32 = 600;

/// How many queries a workload has, at most.
const MOST_QUERIES: u32 = 100_000;

// An option, with what its value says.
#[derive(Clone, Copy)]
pub(crate) enum Setting<'a> {
    Data(&'a str),
    Port(u16),
    MaxConnections(u32),
    SuperuserReserved(u32),
    RestartAfterCrash(bool),
    AuthenticationTimeout(u32),
    Number(u32),
}

// The options that were given.
#[derive(Clone, Copy)]
pub(crate) struct Settings<'a> {
    pub(crate) dir: Option<&'a str>,
    pub(crate) port: Option<u16>,
    pub(crate) max_connections: Option<u32>,
    pub(crate) reserved: Option<u32>,
    pub(crate) restart_after_crash: Option<bool>,
    pub(crate) authentication_seconds: Option<u32>,
    pub(crate) number: Option<u32>,
}

impl<'a> Settings<'a> {
    pub(crate) fn new() -> Self
        ensures { chosen_of result ≡ nothing }
    {
        Settings {
            dir: None,
            port: None,
            max_connections: None,
            reserved: None,
            restart_after_crash: None,
            authentication_seconds: None,
            number: None,
        }
    }

    // Whether this option may come next: it is one of the command, and wasn't given yet.
    pub(crate) fn may_take(&self, verb: Verb, setting: Setting<'a>) -> bool
        ensures { IsTrue result ↔ MayChoose verb (choice_of setting.entry) (chosen_of self.now) }
    {
        let of_server = verb == Verb::Once || verb == Verb::Serve;
        match setting {
            Setting::Data(_) => verb != Verb::Workload && self.dir.is_none(),
            Setting::Port(_) => verb == Verb::Serve && self.port.is_none(),
            Setting::MaxConnections(_) => of_server && self.max_connections.is_none(),
            Setting::SuperuserReserved(_) => of_server && self.reserved.is_none(),
            Setting::RestartAfterCrash(_) => of_server && self.restart_after_crash.is_none(),
            Setting::AuthenticationTimeout(_) => {
                of_server && self.authentication_seconds.is_none()
            }
            Setting::Number(_) => verb == Verb::Workload && self.number.is_none(),
        }
    }

    // With one option more.
    pub(crate) fn with(mut self, setting: Setting<'a>) -> Settings<'a>
        ensures { chosen_of result ≡ with_choice (choice_of setting.entry) (chosen_of self.entry) }
    {
        match setting {
            Setting::Data(dir) => self.dir = Some(dir),
            Setting::Port(port) => self.port = Some(port),
            Setting::MaxConnections(count) => self.max_connections = Some(count),
            Setting::SuperuserReserved(count) => self.reserved = Some(count),
            Setting::RestartAfterCrash(restarts) => self.restart_after_crash = Some(restarts),
            Setting::AuthenticationTimeout(seconds) => {
                self.authentication_seconds = Some(seconds);
            }
            Setting::Number(number) => self.number = Some(number),
        }
        self
    }

    // Whether fewer connections are reserved than there may still be.
    pub(crate) fn can_reserve(&self, verb: Verb) -> bool
        ensures { IsTrue result ↔ CanReserve verb (chosen_of self.now) }
    {
        let most = match verb {
            Verb::Once | Verb::Serve => MOST_CONNECTIONS,
            Verb::Initdb | Verb::Controldata | Verb::Workload => DEFAULT_CONNECTIONS,
        };
        self.reserved.unwrap_or(0) < self.max_connections.unwrap_or(most)
    }

    // What the program is asked to do. None where an option is missing that the command wants.
    pub(crate) fn command(&self, verb: Verb) -> Option<Command>
        ensures { result ≡ command_of verb (chosen_of self.now) }
    {
        match verb {
            Verb::Initdb => Some(Command::Initdb),
            Verb::Once => Some(Command::Once),
            Verb::Serve => match self.port {
                Some(port) => Some(Command::Serve { port }),
                None => None,
            },
            Verb::Controldata => Some(Command::Controldata),
            Verb::Workload => match self.number {
                Some(number) => Some(Command::Workload { number }),
                None => None,
            },
        }
    }

    // The folder of the cluster, where the command has one.
    pub(crate) fn folder(&self, verb: Verb) -> Option<&'a str>
        ensures { option_map (λ dir. dir.now) result ≡ folder_of verb (chosen_of self.now) }
    {
        match verb {
            Verb::Workload => Some(""),
            Verb::Initdb | Verb::Once | Verb::Serve | Verb::Controldata => self.dir,
        }
    }

    // What a server goes by.
    pub(crate) fn conf(&self) -> Conf
        ensures { result ≡ conf_of (chosen_of self.now) }
    {
        let seconds = self.authentication_seconds.unwrap_or(DEFAULT_SECONDS);
        Conf {
            limits: Limits {
                max_connections: self.max_connections.unwrap_or(DEFAULT_CONNECTIONS),
                max_worker_processes: 0,
                reserved: self.reserved.unwrap_or(0),
                restart_after_crash: self.restart_after_crash.unwrap_or(true),
            },
            session: SessionConf {
                authentication_ms: u64::from(seconds) * 1000,
            },
        }
    }
}

// The options of the words after the command.
pub(crate) fn read_settings<'a>(verb: Verb, words: &'a [Text]) -> Option<Settings<'a>>
    ensures found { IfSome result (λ settings. Leaves verb nothing words.now
        (chosen_of settings)) }
    ensures only { IfSome result (λ settings. (after : Chosen)
        → Leaves verb nothing words.now after → after ≡ chosen_of settings) }
    ensures none { IfNone result ((after : Chosen) → ¬ (Leaves verb nothing words.now after)) }
{
    read_on(verb, Settings::new(), words)
}

// The same after the options that were given before, of which each is given once.
fn read_on<'a>(verb: Verb, before: Settings<'a>, words: &'a [Text]) -> Option<Settings<'a>>
    ensures found { IfSome result (λ settings. Leaves verb (chosen_of before.entry) words.now
        (chosen_of settings)) }
    ensures only { IfSome result (λ settings. (after : Chosen)
        → Leaves verb (chosen_of before.entry) words.now after → after ≡ chosen_of settings) }
    ensures none { IfNone result ((after : Chosen)
        → ¬ (Leaves verb (chosen_of before.entry) words.now after)) }
{
    if words.is_empty() {
        return Some(before);
    }
    let Some(next) = next_option(words) else {
        return None;
    };
    if before.may_take(verb, next.setting) {
        read_on(verb, before.with(next.setting), next.behind)
    } else {
        None
    }
}

// The first option of some words, and the words after it.
#[derive(Clone, Copy)]
pub(crate) struct Next<'a> {
    pub(crate) setting: Setting<'a>,
    pub(crate) behind: &'a [Text],
}

pub(crate) fn next_option<'a>(words: &'a [Text]) -> Option<Next<'a>>
    ensures found { IfSome result (λ next. BeginsWithOption words.now (choice_of next.setting)
        next.behind.now) }
    ensures none { IfNone result ((choice : Choice) (behind : List (List ℕ))
        → ¬ (BeginsWithOption words.now choice behind)) }
{
    let Some(given) = named_value(words) else {
        return None;
    };
    match setting_named(given.name, given.value) {
        Some(setting) => Some(Next {
            setting,
            behind: given.behind,
        }),
        None => None,
    }
}

// A value with its name, and the words after it.
#[derive(Clone, Copy)]
struct Given<'a> {
    name: &'a str,
    value: &'a str,
    behind: &'a [Text],
}

// What the words begin with: the name is cut off at the first `=`, or the value is the next word.
fn named_value<'a>(words: &'a [Text]) -> Option<Given<'a>>
    ensures found { IfSome result (λ given. BeginsWith words.now given.name.now given.value.now
        given.behind.now) }
    ensures none { IfNone result ((name value : List ℕ) (behind : List (List ℕ))
        → ¬ (BeginsWith words.now name value behind)) }
{
    let [first, behind @ ..] = words else {
        return None;
    };
    match first.as_str().split_once('=') {
        Some((name, value)) => {
            if value.is_empty() {
                None
            } else {
                Some(Given {
                    name,
                    value,
                    behind,
                })
            }
        }
        None => word_value(first.as_str(), behind),
    }
}

// A value in a word of its own, after the word of its name.
fn word_value<'a>(name: &'a str, words: &'a [Text]) -> Option<Given<'a>>
    ensures found { IfSome result (λ given. (given.name.now ≡ name.now) × IsPlain given.value.now
        × (words.now ≡ given.value.now ∷ given.behind.now)) }
    ensures none { IfNone result ((value : List ℕ) (behind : List (List ℕ))
        → words.now ≡ value ∷ behind → ¬ (IsPlain value)) }
{
    let [second, behind @ ..] = words else {
        return None;
    };
    let value = second.as_str();
    if is_plain(value) {
        Some(Given {
            name,
            value,
            behind,
        })
    } else {
        None
    }
}

// Whether a word may stand as a value of its own.
fn is_plain(word: &str) -> bool
    ensures { IsTrue result ↔ IsPlain word.now }
{
    match word.as_bytes() {
        [] => false,
        [first, ..] => *first != b'-',
    }
}

// The option of this name, where the value says something of it.
fn setting_named<'a>(name: &str, value: &'a str) -> Option<Setting<'a>>
    ensures found { IfSome result (λ setting. (name.now ≡ option_name (choice_of setting))
        × Says (choice_of setting) value.now) }
    ensures none { IfNone result ((choice : Choice) → name.now ≡ option_name choice
        → ¬ (Says choice value.now)) }
{
    match name {
        "--data" => Some(Setting::Data(value)),
        "--port" => match number(value, 1, LAST_PORT) {
            Some(port) => Some(Setting::Port(port as u16)),
            None => None,
        },
        "--max-connections" => match number(value, 1, MOST_CONNECTIONS) {
            Some(count) => Some(Setting::MaxConnections(count)),
            None => None,
        },
        "--superuser-reserved" => match number(value, 0, MOST_RESERVED) {
            Some(count) => Some(Setting::SuperuserReserved(count)),
            None => None,
        },
        "--restart-after-crash" => match value {
            "on" => Some(Setting::RestartAfterCrash(true)),
            "off" => Some(Setting::RestartAfterCrash(false)),
            _ => None,
        },
        "--authentication-timeout" => match number(value, 1, MOST_SECONDS) {
            Some(seconds) => Some(Setting::AuthenticationTimeout(seconds)),
            None => None,
        },
        "--number" => match number(value, 0, MOST_QUERIES) {
            Some(number) => Some(Setting::Number(number)),
            None => None,
        },
        _ => None,
    }
}

// A number of these limits.
fn number(value: &str, least: u32, most: u32) -> Option<u32>
    ensures found { IfSome result (λ number. IsNumberIn least most number value.now) }
    ensures none { IfNone result ((number : ℕ) → ¬ (IsNumberIn least most number value.now)) }
{
    if value.len() > 10 || value.as_bytes().first() == Some(&b'+') {
        return None;
    }
    match value.parse::<u32>() {
        Ok(number) if least <= number && number <= most => Some(number),
        _ => None,
    }
}
