//! The server's side of the exchange.

ghost use Rattle.std.specs.Prelude.{◌≡◌, ◌∷◌, ◌++◌, codes, IfOk, IfErr};
ghost use Rattle.pm_hmac.specs.Hmac.{hmac};
ghost use Rattle.pm_auth.specs.{Base64.base64_of, Scram.{Exchange, server_first_of, without_proof_of}, Served.{HasNoProof, IsNotBegun, IsProof, IsRefused, IsTaken, Serves, Starts}};

use crate::cuts::after;
use crate::fault::WordNo;
use crate::first_message::{Binding, read_first};
use crate::kept::digest_in;
use crate::rules::Rules;
use base64::engine::general_purpose::STANDARD;
use pm_hmac::{Mac, same, xor};
use sha2::{Digest, Sha256};
use std::alloc::{AllocError, Global};
use thiserror::Error;

/// Why a message of the client is refused.
#[derive(Clone, Copy, Debug, PartialEq, Eq, Error)]
pub enum ScramNo {
    /// It is no message that a client sends there.
    #[error("invalid SASL message")]
    Form,
    /// It doesn't show that the client knows the password.
    #[error("password authentication failed")]
    Proof,
    #[error("out of memory")]
    NoMemory,
}

impl From<AllocError> for ScramNo {
    ghost use Rattle.pm_auth.specs.declared.exchange.ScramNo.TheVariants.{NoMemory};

    ghost from_gives = { λ _ no. no ≡ NoMemory };

    fn from(_error: AllocError) -> ScramNo {
        ScramNo::NoMemory
    }
}

/// An exchange after the server's first message. All that its end compares was computed with it.
#[derive(Drop)]
pub struct Server {
    // The client's last message up to its proof.
    expected: Vec<u8>,
    // By which the client hides its key.
    signature: [u8; 32],
    stored: [u8; 32],
    has_secret: bool,
    // The server's last message.
    answer: Vec<u8>,
}

impl Server {
    /// Takes the client's first message, and answers the server's: both nonces as one, the user's salt, and the number of rounds.
    ///
    /// `nonce` is the server's: printable characters without a comma, which were never used before. A user without a secret gets a
    /// salt too, always the same by the same secrets, and an exchange that no message ends well.
    pub fn start(
        alloc: Global,
        rules: &Rules,
        user: &[u8],
        nonce: &[u8],
        message: &[u8],
    ) -> Result<(Server, Vec<u8>), ScramNo>
        ensures ok { IfOk result (Starts rules.now user.now nonce.now message.now) }
        ensures err { IfErr result (IsNotBegun message.now) }
    {
        let Some(said) = read_first(message) else {
            return Err(ScramNo::Form);
        };
        let known = rules.known(user);
        let first = first_text(alloc, said.nonce, nonce, &known.kept.salt)?;
        let expected = expected_text(alloc, said.binding, said.nonce, nonce)?;
        let shown = signed_by(&known.kept.server, said.bare, &first, &expected);
        let server = Server {
            signature: signed_by(&known.kept.stored, said.bare, &first, &expected),
            stored: known.kept.stored,
            has_secret: known.has_secret,
            answer: last_text(alloc, &shown)?,
            expected,
        };
        Ok((server, first))
    }

    /// Takes the client's last message, and answers the server's.
    ///
    /// All is computed for a user without a secret too, and nothing is compared up to a difference. That is how it is written;
    /// nothing is claimed of its time.
    pub fn finish(self, alloc: Global, message: &[u8]) -> Result<Vec<u8>, ScramNo>
        ensures ok { (x : Exchange) → Serves self x
            → IfOk result (λ answer. IsTaken x message.now answer.items) }
        ensures err { (x : Exchange) → Serves self x → IfErr result (IsRefused x message.now) }
    {
        let proof = match proof_in(alloc, &self.expected, message) {
            Ok(proof) => proof,
            Err(WordNo::Form) => return Err(ScramNo::Form),
            Err(WordNo::NoMemory) => return Err(ScramNo::NoMemory),
        };
        let key = xor(&proof, &self.signature);
        let is_shown = same(&Sha256::digest(&key), &self.stored);
        if is_shown && self.has_secret {
            Ok(self.answer)
        } else {
            Err(ScramNo::Proof)
        }
    }
}

// The server's first message.
fn first_text(
    alloc: Global,
    client_nonce: &[u8],
    nonce: &[u8],
    salt: &[u8; 16],
) -> Result<Vec<u8>, AllocError>
    ensures { IfOk result (λ text. text.items
        ≡ server_first_of (client_nonce.now ++ nonce.now) salt.now) }
{
    let mut text = Vec::new(alloc);
    text.extend_from_slice(b"r=")?;
    text.extend_from_slice(client_nonce)?;
    text.extend_from_slice(nonce)?;
    text.extend_from_slice(b",s=")?;
    text.extend_from_slice(STANDARD.encode(alloc, salt)?.as_bytes())?;
    text.extend_from_slice(b",i=4096")?;
    Ok(text)
}

// The client's last message up to its proof.
fn expected_text(
    alloc: Global,
    binding: Binding,
    client_nonce: &[u8],
    nonce: &[u8],
) -> Result<Vec<u8>, AllocError>
    ensures { IfOk result (λ text. text.items
        ≡ without_proof_of binding (client_nonce.now ++ nonce.now)) }
{
    let mut text = Vec::new(alloc);
    text.extend_from_slice(b"c=")?;
    text.extend_from_slice(STANDARD.encode(alloc, binding.header())?.as_bytes())?;
    text.extend_from_slice(b",r=")?;
    text.extend_from_slice(client_nonce)?;
    text.extend_from_slice(nonce)?;
    Ok(text)
}

// The server's last message.
fn last_text(alloc: Global, signature: &[u8; 32]) -> Result<Vec<u8>, AllocError>
    ensures { IfOk result (λ text. text.items ≡ codes "v=" ++ base64_of signature.now) }
{
    let mut text = Vec::new(alloc);
    text.extend_from_slice(b"v=")?;
    text.extend_from_slice(STANDARD.encode(alloc, signature)?.as_bytes())?;
    Ok(text)
}

// What both sides sign: three texts with commas between them.
fn signed_by(key: &[u8; 32], bare: &[u8], first: &[u8], expected: &[u8]) -> [u8; 32]
    ensures { result ≡ hmac key.now (bare.now ++ 44 ∷ first.now ++ 44 ∷ expected.now) }
{
    let mut mac = Mac::keyed(key);
    mac.update(bare);
    mac.update(b",");
    mac.update(first);
    mac.update(b",");
    mac.update(expected);
    mac.finalize()
}

// The proof after what a last message begins with.
fn proof_in(alloc: Global, expected: &[u8], message: &[u8]) -> Result<[u8; 32], WordNo>
    ensures found { IfOk result (IsProof expected.now message.now) }
    ensures none { IfErr result (HasNoProof expected.now message.now) }
{
    let Some(last) = after(message, expected) else {
        return Err(WordNo::Form);
    };
    match after(last, b",p=") {
        Some(text) => digest_in(alloc, text),
        None => Err(WordNo::Form),
    }
}
