use super::*;
use std::test::*;

const SEED: [u8; 32] = [0; 32];

/// Words 0 to 11 of ChaCha20 at a seed of 32 zero bytes, stream 0.
const WORDS: [u32; 12] = [
    0xade0_b876,
    0x903d_f1a0,
    0xe56a_5d40,
    0x28bd_8653,
    0xb819_d2bd,
    0x1aed_8da0,
    0xccef_36a8,
    0xc70d_778b,
    0x7c59_41da,
    0x8d48_5751,
    0x3fe0_2477,
    0x374a_d8b8,
];

#[test]
fn first_word_has_number_0(rt: HostRuntime) {
    let mut generator = ChaCha20Rng::from_seed(SEED);
    for word in WORDS {
        assert_eq!(rt; generator.next_word(), word);
    }
}

#[test]
fn keys_are_the_words_of_their_pids(rt: HostRuntime) {
    for pid in 1..12u32 {
        assert_eq!(rt; key(&SEED, pid), WORDS[pid as usize], "pid {pid}");
        assert!(rt; matches(&SEED, pid, WORDS[pid as usize]), "pid {pid}");
        assert!(rt; !matches(&SEED, pid, WORDS[pid as usize - 1]), "pid {pid}");
    }
    assert_eq!(rt; key(&SEED, 4).to_be_bytes(), [0xb8, 0x19, 0xd2, 0xbd]);
}
