//! Secrets of users, as words give them, and what a server knows of a user by them.

ghost use Rattle.std.specs.{Prelude.{◌≡◌, ◌<◌, ℕ, IfOk, IfErr, IfSome, length}, List.list_any};
ghost use Rattle.pm_auth.specs.{Access.{IsKnown, key_of}, Secrets.{IsNoSecret, IsSecretMisfit, SaysSecret, SecretsSay, is_of, place_of}};

use crate::cuts::cut;
use crate::fault::{AuthNo, WordNo};
use crate::kept::{Kept, kept_in};
use pm_hmac::hmac;
use pm_rows::Text;
use sha2::{Digest, Sha256};
use std::alloc::Global;

/// What is kept of a user's password.
#[derive(Drop)]
pub struct Secret {
    pub user: Text,
    pub kept: Kept,
}

/// What a server knows of a user in an exchange.
#[derive(Clone, Copy)]
pub struct Known {
    pub kept: Kept,
    /// Without a secret nothing proves anything, whatever is kept.
    pub has_secret: bool,
}

/// The secrets that words say, each of another user.
pub fn secrets_of(alloc: Global, words: &[Text]) -> Result<Vec<Secret>, AuthNo>
    ensures said { IfOk result (λ secrets. SecretsSay words.now secrets.items) }
    ensures misfit { IfErr result (IsSecretMisfit words.now) }
{
    let mut secrets: Vec<Secret> = Vec::new(alloc);
    for (index, word) in words.iter().enumerate() {
        let secret = match secret_in(alloc, word.as_str()) {
            Ok(secret) => secret,
            Err(WordNo::Form) => return Err(AuthNo::NoSecret { index }),
            Err(WordNo::NoMemory) => return Err(AuthNo::NoMemory),
        };
        if is_taken(secrets.as_slice(), &secret.user) {
            return Err(AuthNo::SecondSecret { index });
        }
        secrets.push(secret)?;
    }
    Ok(secrets)
}

// The secret that a word says.
fn secret_in(alloc: Global, word: &str) -> Result<Secret, WordNo>
    ensures said { IfOk result (λ secret. SaysSecret word.now secret) }
    ensures none { IfErr result (IsNoSecret word.now) }
{
    let Some((user, kept)) = cut(word, '=') else {
        return Err(WordNo::Form);
    };
    if user.is_empty() {
        return Err(WordNo::Form);
    }
    let kept = kept_in(alloc, kept.as_bytes())?;
    Ok(Secret {
        user: Text::of(alloc, user)?,
        kept,
    })
}

// Whether one of the secrets is of this user.
fn is_taken(secrets: &[Secret], user: &Text) -> bool
    ensures { result ≡ list_any (is_of user.now) secrets.now }
{
    let name = user.as_str();
    secrets.iter().any(|secret| secret.user.as_str() == name)
}

// The place of the user's secret.
fn place_of(secrets: &[Secret], user: &[u8]) -> Option<usize>
    ensures place { result ≡ place_of secrets.now user.now }
    ensures within { IfSome result (λ at. at < length secrets.now) }
{
    secrets
        .iter()
        .position(|secret| secret.user.as_str().as_bytes() == user)
}

/// What is known of a user: by a secret, or by the key of those who have none.
pub fn known_of(secrets: &[Secret], key: &[u8; 32], user: &[u8]) -> Known
    ensures { IsKnown secrets.now key.now user.now result }
{
    match place_of(secrets, user) {
        Some(at) => Known {
            kept: secrets[at].kept,
            has_secret: true,
        },
        None => {
            let digest = hmac(key, user);
            let mut salt = [0; 16];
            salt.copy_from_slice(&digest[..16]);
            Known {
                kept: Kept {
                    salt,
                    stored: digest,
                    server: digest,
                },
                has_secret: false,
            }
        }
    }
}

/// The key of the salts of users who have no secret: the digest of all secrets as they were given.
pub fn key_of(words: &[Text]) -> [u8; 32]
    ensures { result ≡ key_of words.now }
{
    let mut digest = Sha256::new();
    for word in words {
        digest.update(word.as_str());
    }
    digest.finalize()
}
