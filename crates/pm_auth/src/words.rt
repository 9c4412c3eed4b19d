//! Rules, as words give them.

ghost use Rattle.std.specs.Prelude.{◌≡◌, ◌≢◌, IfOk, IfErr, IfSome, IfNone};
ghost use Rattle.pm_auth.specs.{Cuts.IsFreeOf, Rules.{IsNoField, IsNoRule, IsRuleMisfit, Names, RulesSay, SaysRule, method_word}};

use crate::cuts::cut;
use crate::fault::{AuthNo, WordNo};
use crate::rules::{Method, Rule};
use pm_rows::Text;
use std::alloc::Global;

/// The rules that words say.
pub fn rules_of(alloc: Global, words: &[Text]) -> Result<Vec<Rule>, AuthNo>
    ensures said { IfOk result (λ rules. RulesSay words.now rules.items) }
    ensures misfit { IfErr result (IsRuleMisfit words.now) }
{
    let mut rules: Vec<Rule> = Vec::new(alloc);
    for (index, word) in words.iter().enumerate() {
        let rule = match rule_in(alloc, word.as_str()) {
            Ok(rule) => rule,
            Err(WordNo::Form) => return Err(AuthNo::NoRule { index }),
            Err(WordNo::NoMemory) => return Err(AuthNo::NoMemory),
        };
        rules.push(rule)?;
    }
    Ok(rules)
}

// The rule that a word says.
fn rule_in(alloc: Global, word: &str) -> Result<Rule, WordNo>
    ensures said { IfOk result (λ rule. SaysRule word.now rule) }
    ensures none { IfErr result (IsNoRule word.now) }
{
    let Some((database, rest)) = cut(word, ' ') else {
        return Err(WordNo::Form);
    };
    let Some((user, method)) = cut(rest, ' ') else {
        return Err(WordNo::Form);
    };
    let Some(method) = method_named(method) else {
        return Err(WordNo::Form);
    };
    Ok(Rule {
        database: field_in(alloc, database)?,
        user: field_in(alloc, user)?,
        method,
    })
}

// What a field of a rule names: nothing, where it is `all`.
fn field_in(alloc: Global, word: &str) -> Result<Option<Text>, WordNo>
    requires { IsFreeOf 32 word.now }
    ensures said { IfOk result (λ named. Names named word.now) }
    ensures none { IfErr result (IsNoField word.now) }
{
    match word {
        "" => Err(WordNo::Form),
        "all" => Ok(None),
        name => Ok(Some(Text::of(alloc, name)?)),
    }
}

fn method_named(word: &str) -> Option<Method>
    ensures found { IfSome result (λ method. word.now ≡ method_word method) }
    ensures none { IfNone result ((method : Method) → word.now ≢ method_word method) }
{
    match word {
        "trust" => Some(Method::Trust),
        "reject" => Some(Method::Reject),
        "scram-sha-256" => Some(Method::ScramSha256),
        _ => None,
    }
}
