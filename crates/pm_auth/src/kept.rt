//! What is kept of a password, and how it is spelled.

ghost use Rattle.std.specs.{Prelude.{◌≡◌, ◌↔◌, ◌++◌, IfOk, IfErr, IsTrue}, String.string_bytes};
ghost use Rattle.pm_auth.specs.{Base64.{IsBase64, IsNoBase64}, Kept.{IsNoKept, SaysKept, kept_of, kept_text}, Secrets.{IsUser, SaysSecret, secret_said}};

use crate::cuts::{after, cut, cut_after};
use crate::fault::WordNo;
use base64::DecodeAllocError;
use base64::engine::general_purpose::STANDARD;
use pm_hmac::{hmac, salted_password};
use sha2::{Digest, Sha256};
use std::alloc::{AllocError, Global};

/// What the text of something that is kept begins with: mechanism and rounds.
const FRONT: &str = "SCRAM-SHA-256$4096:";

const ROUNDS: u32 = 4096;

/// What is kept of a password. It doesn't let in, but who has it may try passwords against it, and play the server.
#[derive(Clone, Copy)]
pub struct Kept {
    pub salt: [u8; 16],
    /// The digest of the client's key.
    pub stored: [u8; 32],
    /// The server's key.
    pub server: [u8; 32],
}

/// Whether a secret may be of a user of this name: it isn't empty and has no `=`.
pub fn is_user(name: &str) -> bool
    ensures { IsTrue result ↔ IsUser name.now }
{
    !name.is_empty() && cut(name, '=').is_none()
}

/// The secret of a user with this password: a word that [`Rules::read`](crate::Rules::read) takes.
///
/// It makes 4,096 rounds, some five milliseconds. The salt is to be new and of the system's random bytes.
pub fn secret_line(
    alloc: Global,
    user: &str,
    password: &[u8],
    salt: &[u8; 16],
) -> Result<String, AllocError>
    requires { IsUser user.now }
    ensures { IfOk result (λ line. SaysSecret (string_bytes line)
        (secret_said user.now (kept_of password.now salt.now))) }
{
    let kept = Kept::of(password, salt);
    let mut line = String::from_str(alloc, user)?;
    line.push_str("=")?;
    kept.put(&mut line)?;
    Ok(line)
}

impl Kept {
    fn of(password: &[u8], salt: &[u8; 16]) -> Kept
        ensures { result ≡ kept_of password.now salt.now }
    {
        let salted = salted_password(password, salt, ROUNDS);
        Kept {
            salt: *salt,
            stored: Sha256::digest(&hmac(&salted, b"Client Key")),
            server: hmac(&salted, b"Server Key"),
        }
    }

    // Puts its text after what stands in `line`.
    fn put(&self, line: &mut String) -> Result<(), AllocError>
        ensures { IfOk result (λ _. string_bytes line.new ≡ string_bytes line.old ++ kept_text self.now) }
    {
        line.push_str(FRONT)?;
        STANDARD.encode_string(&self.salt, line)?;
        line.push_str("$")?;
        STANDARD.encode_string(&self.stored, line)?;
        line.push_str(":")?;
        STANDARD.encode_string(&self.server, line)
    }
}

/// What a text says to be kept.
pub fn kept_in(alloc: Global, text: &[u8]) -> Result<Kept, WordNo>
    ensures said { IfOk result (λ kept. SaysKept text.now kept) }
    ensures none { IfErr result (IsNoKept text.now) }
{
    let Some(keys) = after(text, FRONT.as_bytes()) else {
        return Err(WordNo::Form);
    };
    let Some((salt, rest)) = cut_after(keys, 24, b'$') else {
        return Err(WordNo::Form);
    };
    let Some((stored, server)) = cut_after(rest, 44, b':') else {
        return Err(WordNo::Form);
    };
    Ok(Kept {
        salt: salt_in(alloc, salt)?,
        stored: digest_in(alloc, stored)?,
        server: digest_in(alloc, server)?,
    })
}

// The 16 bytes that a text is the base64 of.
fn salt_in(alloc: Global, text: &[u8]) -> Result<[u8; 16], WordNo>
    ensures found { IfOk result (λ salt. IsBase64 16 text.now salt) }
    ensures none { IfErr result (IsNoBase64 16 text.now) }
{
    let bytes = decoded(alloc, text, 16)?;
    let mut salt = [0; 16];
    salt.copy_from_slice(&bytes);
    Ok(salt)
}

/// The 32 bytes that a text is the base64 of.
pub fn digest_in(alloc: Global, text: &[u8]) -> Result<[u8; 32], WordNo>
    ensures found { IfOk result (λ digest. IsBase64 32 text.now digest) }
    ensures none { IfErr result (IsNoBase64 32 text.now) }
{
    let bytes = decoded(alloc, text, 32)?;
    let mut digest = [0; 32];
    digest.copy_from_slice(&bytes);
    Ok(digest)
}

// The bytes that a text is the base64 of, if they are so many.
fn decoded(alloc: Global, text: &[u8], count: usize) -> Result<Vec<u8>, WordNo>
    ensures found { IfOk result (λ bytes. IsBase64 count text.now bytes.items) }
    ensures none { IfErr result (IsNoBase64 count text.now) }
{
    match STANDARD.decode(alloc, text) {
        Ok(bytes) if bytes.len() == count => Ok(bytes),
        Ok(_) | Err(DecodeAllocError::DecodeError(_)) => Err(WordNo::Form),
        Err(DecodeAllocError::OutOfMemory) => Err(WordNo::NoMemory),
    }
}
