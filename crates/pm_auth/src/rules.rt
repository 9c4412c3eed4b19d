//! The rules that a server goes by, with the secrets of its users.

ghost use Rattle.std.specs.{Prelude.{◌≡◌, ◌≤◌, ◌<◌, [], ◌∷◌, IfOk, IfErr, IfSome, Some, length, position}, Option.option_map};
ghost use Rattle.pm_auth.specs.{Access.{IsKnown, IsMisfit, IsRead, rule_words}, Rules.{IsRuleMisfit, RulesSay, first, fits, is_for, method_for}};

use crate::fault::AuthNo;
use crate::secrets::{Known, Secret, key_of, known_of, secrets_of};
use crate::words::rules_of;
use pm_rows::Text;
use std::alloc::Global;
use std::marker::Model;

/// The most rules, and the most secrets.
const MOST: usize = 64;

/// How a connection under a rule is let in.
#[derive(Clone, Copy, Debug, PartialEq, Eq)]
pub enum Method {
    /// Without a password.
    Trust,
    /// Not at all.
    Reject,
    /// By an exchange in which the client shows that it knows the user's password.
    ScramSha256,
}

/// Which connections are under a rule, and how they are let in. A field that names nothing is for all names.
#[derive(Drop)]
pub struct Rule {
    pub database: Option<Text>,
    pub user: Option<Text>,
    pub method: Method,
}

/// The rule that a connection is under.
#[derive(Clone, Copy, Debug, PartialEq, Eq)]
pub struct Ruling {
    /// Its number, from 1 on.
    pub number: u32,
    pub method: Method,
}

/// Rules and secrets, at most 64 of each, and at least one rule. They have no text: a secret isn't shown.
#[derive(Drop)]
pub struct Rules {
    rules: Vec<Rule>,
    secrets: Vec<Secret>,
    key: [u8; 32],
}

impl Model for Rules {
    ghost use Rattle.std.specs.Prelude.{◌≤◌, length};
    ghost use Rattle.pm_auth.specs.Access.{Access};

    ghost Value = { Access };

    ghost view = { λ r. record { rules = r.rules.items; secrets = r.secrets.items; key = r.key } };

    ghost invariant = { λ r. length r.rules.items ≤ 64 };
}

impl Rule {
    // What holds where no rule is given.
    fn without_any(secrets: &[Text]) -> Rule
        ensures { RulesSay (rule_words [] secrets.now) (result ∷ []) }
    {
        Rule {
            database: None,
            user: None,
            method: if secrets.is_empty() {
                Method::Trust
            } else {
                Method::ScramSha256
            },
        }
    }

    // Whether a connection to this database as this user is under it.
    fn fits(&self, database: &[u8], user: &[u8]) -> bool
        ensures { result ≡ fits database.now user.now self.now }
    {
        is_for(&self.database, database) && is_for(&self.user, user)
    }
}

// Whether a field of a rule is for this name.
fn is_for(field: &Option<Text>, name: &[u8]) -> bool
    ensures { result ≡ is_for field.now name.now }
{
    match field {
        Some(named) => named.as_str().as_bytes() == name,
        None => true,
    }
}

// The place of the first rule that fits.
fn place_of(rules: &[Rule], database: &[u8], user: &[u8]) -> Option<usize>
    ensures place { result ≡ position (fits database.now user.now) rules.now }
    ensures within { IfSome result (λ at. at < length rules.now) }
{
    rules.iter().position(|rule| rule.fits(database, user))
}

// The rules that words say, or what holds without any.
fn rules_given(alloc: Global, rules: &[Text], secrets: &[Text]) -> Result<Vec<Rule>, AuthNo>
    requires { length rules.now ≤ 64 }
    ensures said { IfOk result (λ said. RulesSay (rule_words rules.now secrets.now) said.items) }
    ensures few { IfOk result (λ said. length said.items ≤ 64) }
    ensures misfit { IfErr result (IsRuleMisfit rules.now) }
{
    if rules.is_empty() {
        let mut one = Vec::new(alloc);
        one.push(Rule::without_any(secrets))?;
        return Ok(one);
    }
    rules_of(alloc, rules)
}

impl Rules {
    /// Reads rules and secrets from their words.
    ///
    /// A rule is `DATABASE USER METHOD`, with single spaces. The first two are `all` or a name without spaces, the method is `trust`,
    /// `reject` or `scram-sha-256`. A secret is `USER=SCRAM-SHA-256$4096:SALT$STORED:SERVER`, as PostgreSQL keeps it: the name isn't
    /// empty and has no `=`, SALT is standard base64 of 16 bytes, the other two of 32. Each is of another user.
    ///
    /// Secrets without any rule mean `all all scram-sha-256`, and neither means `all all trust`.
    pub fn read(alloc: Global, rules: &[Text], secrets: &[Text]) -> Result<Rules, AuthNo>
        ensures read { IfOk result (IsRead rules.now secrets.now) }
        ensures misfit { IfErr result (IsMisfit rules.now secrets.now) }
    {
        if rules.len() > MOST {
            return Err(AuthNo::ManyRules);
        }
        if secrets.len() > MOST {
            return Err(AuthNo::ManySecrets);
        }
        let rules_said = rules_given(alloc, rules, secrets)?;
        let secrets_said = secrets_of(alloc, secrets)?;
        Ok(Rules {
            rules: rules_said,
            secrets: secrets_said,
            key: key_of(secrets),
        })
    }

    /// The first rule that a connection to this database as this user is under. Names are compared byte by byte.
    pub fn first(&self, database: &[u8], user: &[u8]) -> Option<Ruling>
        ensures number { option_map (λ ruling. ruling.number) result
            ≡ first self.now.rules database.now user.now }
        ensures method { option_map (λ ruling. ruling.method) result
            ≡ method_for self.now.rules database.now user.now }
        ensures few { IfSome result (λ ruling. (1 ≤ ruling.number) × (ruling.number ≤ 64)) }
    {
        let at = place_of(self.rules.as_slice(), database, user)?;
        Some(Ruling {
            number: at as u32 + 1,
            method: self.rules[at].method,
        })
    }

    /// What is known of a user in an exchange.
    pub(crate) fn known(&self, user: &[u8]) -> Known
        ensures { IsKnown self.now.secrets self.now.key user.now result }
    {
        known_of(self.secrets.as_slice(), &self.key, user)
    }
}
