//! Keyed digests, HMAC over SHA-256, and what many rounds of them make of a password.
#![tactic(auto)]

ghost use Rattle.std.specs.Prelude.{◌≡◌, ◌↔◌, ◌≤◌, ◌-◌, ℕ, List, [], ◌++◌, length, replicate, IsTrue};
ghost use Rattle.pm_hmac.specs.Hmac.{IsMac, hmac, key_block, masked, salted_password, xored};

use sha2::{Digest, Sha256};

/// The bytes of a block of SHA-256.
const BLOCK: usize = 64;

/// A keyed digest that takes its message piece by piece: what it gives at its end is that of the pieces as one message.
#[derive(Drop)]
pub struct Mac {
    inner: Sha256,
    // The key as a block, as it goes before the digest of the message.
    outer: [u8; BLOCK],
}

impl Mac {
    /// With this key, of any length, and no message yet.
    pub fn keyed(key: &[u8]) -> Mac
        ensures { IsMac result key.now [] }
    {
        let block = block_of(key);
        let mut inner = Sha256::new();
        inner.update(&masked_with(&block, 0x36));
        Mac {
            inner,
            outer: masked_with(&block, 0x5c),
        }
    }

    /// Takes in a piece of the message.
    pub fn update(&mut self, piece: &[u8])
        ensures { (key before : List ℕ) → IsMac self.old key before
            → IsMac self.new key (before ++ piece.now) }
    {
        self.inner.update(piece);
    }

    /// The keyed digest of what was taken in.
    pub fn finalize(self) -> [u8; 32]
        ensures { (key message : List ℕ) → IsMac self key message → result ≡ hmac key message }
    {
        let within = self.inner.finalize();
        let mut outer = Sha256::new();
        outer.update(&self.outer);
        outer.update(&within);
        outer.finalize()
    }
}

/// The keyed digest of a message, HMAC-SHA-256 of RFC 2104.
pub fn hmac(key: &[u8], message: &[u8]) -> [u8; 32]
    ensures { result ≡ hmac key.now message.now }
{
    let mut mac = Mac::keyed(key);
    mac.update(message);
    mac.finalize()
}

// The key as a block: as it is, with zero bytes after it, or its digest where it is longer.
fn block_of(key: &[u8]) -> [u8; BLOCK]
    ensures { result ≡ key_block key.now }
{
    if key.len() <= BLOCK {
        with_zeros(key)
    } else {
        with_zeros(&Sha256::digest(key))
    }
}

fn with_zeros(bytes: &[u8]) -> [u8; BLOCK]
    requires { length bytes.now ≤ BLOCK }
    ensures { result ≡ bytes.now ++ replicate (BLOCK - length bytes.now) 0 }
{
    let mut block = [0; BLOCK];
    block[..bytes.len()].copy_from_slice(bytes);
    block
}

fn masked_with(block: &[u8; BLOCK], mask: u8) -> [u8; BLOCK]
    ensures { result ≡ masked mask block.now }
{
    let mut out = [0; BLOCK];
    for i in 0..BLOCK {
        out[i] = block[i] ^ mask;
    }
    out
}

/// Both digests joined by exclusive or, byte by byte.
pub fn xor(one: &[u8; 32], other: &[u8; 32]) -> [u8; 32]
    ensures { result ≡ xored one.now other.now }
{
    let mut out = [0; 32];
    for i in 0..32 {
        out[i] = one[i] ^ other[i];
    }
    out
}

/// What so many rounds make of a password and a salt: the first block of PBKDF2 of RFC 8018, which RFC 5802 calls the salted
/// password.
///
/// A round costs two keyed digests of 32 bytes: 4,096 of them some five milliseconds.
pub fn salted_password(password: &[u8], salt: &[u8], rounds: u32) -> [u8; 32]
    requires { 1 ≤ rounds }
    ensures { result ≡ salted_password password.now salt.now rounds }
{
    let mut first = Mac::keyed(password);
    first.update(salt);
    first.update(&[0, 0, 0, 1]);
    let mut last = first.finalize();
    let mut joined = last;
    for _i in 1..rounds {
        last = hmac(password, &last);
        joined = xor(&joined, &last);
    }
    joined
}

/// Whether both are the same.
///
/// It reads every byte of both, whatever they are, so that how long it takes needn't tell where they differ. That is how it is
/// written; nothing is claimed of its time.
pub fn same(one: &[u8; 32], other: &[u8; 32]) -> bool
    ensures { IsTrue result ↔ (one.now ≡ other.now) }
{
    let mut differing = 0;
    for i in 0..32 {
        differing |= one[i] ^ other[i];
    }
    differing == 0
}
