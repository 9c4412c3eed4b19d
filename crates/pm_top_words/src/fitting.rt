//! Which word of a command line doesn't fit.

ghost use Rattle.std.specs.Prelude.{◌<◌, ◌↔◌, ℕ, List, length, IfNone, IfSome, IsTrue};
ghost use Rattle.pm_top_words.specs.{Words.Choice, Options.{BeginsWithOption, CanReserve, chosen_of}, Begins.{BeginsLine, BeginsOptions, IsMisfit, IsOpenName, IsOptionMisfit}};

use crate::options::{Setting, Settings, next_option};
use crate::words::{Verb, verb_named};
use pm_rows::Text;

/// The place of the first word that doesn't fit, from 0 on: the words before it begin a command line, and with it they begin
/// none. Where there is none the words are a command line, or some are missing after them.
pub fn misfit(words: &[Text]) -> Option<usize>
    ensures found { IfSome result (IsMisfit words.now) }
    ensures none { IfNone result (BeginsLine words.now) }
{
    let [first, options @ ..] = words else {
        return None;
    };
    let Some(verb) = verb_named(first.as_str()) else {
        return Some(0);
    };
    match option_misfit(verb, Settings::new(), options) {
        Some(at) => Some(at + 1),
        None => None,
    }
}

// The same of options after those that were given before.
fn option_misfit<'a>(verb: Verb, before: Settings<'a>, words: &'a [Text]) -> Option<usize>
    requires { CanReserve verb (chosen_of before) }
    ensures found { IfSome result (IsOptionMisfit verb (chosen_of before.entry) words.now) }
    ensures none { IfNone result (BeginsOptions verb (chosen_of before.entry) words.now) }
{
    if words.is_empty() {
        return None;
    }
    let Some(next) = next_option(words) else {
        return place_of_misfit(verb, &before, words);
    };
    if !before.may_take(verb, next.setting) {
        return Some(0);
    }
    let chosen = before.with(next.setting);
    if !chosen.can_reserve(verb) {
        return Some(words.len() - next.behind.len() - 1);
    }
    match option_misfit(verb, chosen, next.behind) {
        Some(at) => Some(words.len() - next.behind.len() + at),
        None => None,
    }
}

// The same of words that begin with no option: a name of one, after which its value is missing or is none, or a word that is
// no name.
fn place_of_misfit(verb: Verb, before: &Settings<'_>, words: &[Text]) -> Option<usize>
    requires can { CanReserve verb (chosen_of before.now) }
    requires some { 0 < length words.now }
    requires none { (choice : Choice) (behind : List (List ℕ))
        → ¬ (BeginsWithOption words.now choice behind) }
    ensures found { IfSome result (IsOptionMisfit verb (chosen_of before.now) words.now) }
    ensures none { IfNone result (BeginsOptions verb (chosen_of before.now) words.now) }
{
    if !may_name(verb, before, words[0].as_str()) {
        Some(0)
    } else if words.len() == 1 {
        None
    } else {
        Some(1)
    }
}

// Whether this is the name of an option that may come next.
fn may_name(verb: Verb, before: &Settings<'_>, name: &str) -> bool
    ensures { IsTrue result ↔ IsOpenName verb (chosen_of before.now) name.now }
{
    let named = match name {
        "--data" => Setting::Data(""),
        "--port" => Setting::Port(1),
        "--max-connections" => Setting::MaxConnections(1),
        "--superuser-reserved" => Setting::SuperuserReserved(0),
        "--restart-after-crash" => Setting::RestartAfterCrash(true),
        "--authentication-timeout" => Setting::AuthenticationTimeout(1),
        "--number" => Setting::Number(0),
        _ => return false,
    };
    before.may_take(verb, named)
}
