//! Cancel keys: the secret that goes with a session's pid.
//!
//! A frontend learns its session's pid and key at the session's start (BackendKeyData), and a
//! CancelRequest has to show both. The key of a pid is a word of a ChaCha20 generator, so nothing
//! has to be kept for it: whoever has the seed computes it again.
#![tactic(auto)]

ghost use Rattle.std.specs.Prelude.{◌≡◌, ◌≤◌, ◌↔◌, IsTrue};
ghost use Rattle.pm_keys.specs.CancelKey.{cancel_key};

use rand_chacha::ChaCha20Rng;
use rand_core::SeedableRng;
use rand_core::utils::NextWord;

#[cfg(test)]
mod tests;

/// The cancel key of the child with this pid: the word of that number on stream 0 of the ChaCha20
/// generator made from the seed, where the first word has number 0.
///
/// It computes one block of the generator's output, wherever the word stands.
pub fn key(seed: &[u8; 32], pid: u32) -> u32
    requires { 1 ≤ pid }
    ensures { result ≡ cancel_key seed.now pid }
{
    let mut generator = ChaCha20Rng::from_seed(*seed);
    generator.set_word_pos(pid as u128);
    generator.next_word()
}

/// Whether this is the cancel key of the child with this pid.
pub fn matches(seed: &[u8; 32], pid: u32, shown: u32) -> bool
    requires { 1 ≤ pid }
    ensures { IsTrue result ↔ (shown ≡ cancel_key seed.now pid) }
{
    shown == key(seed, pid)
}
