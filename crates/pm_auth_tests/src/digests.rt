//! Keyed digests and salted passwords, against values from outside.

use pm_hmac::{Mac, hmac, salted_password, same};
use std::alloc::Global;
use std::test::*;

/// Key, message and keyed digest: RFC 4231, cases 1 to 4, 6 and 7.
const DIGESTS: &str = "\
0b0b0b0b0b0b0b0b0b0b0b0b0b0b0b0b0b0b0b0b 4869205468657265 b0344c61d8db38535ca8afceaf0bf12b881dc200c9833da726e9376c2e32cff7
4a656665 7768617420646f2079612077616e7420666f72206e6f7468696e673f 5bdcc146bf60754e6a042426089575c75a003f089d2739839dec58b964ec3843
aaaaaaaaaaaaaaaaaaaaaaaaaaaaaaaaaaaaaaaa dddddddddddddddddddddddddddddddddddddddddddddddddddddddddddddddddddddddddddddddddddddddddddddddddddd 773ea91e36800e46854db8ebd09181a72959098b3ef8c122d9635514ced565fe
0102030405060708090a0b0c0d0e0f10111213141516171819 cdcdcdcdcdcdcdcdcdcdcdcdcdcdcdcdcdcdcdcdcdcdcdcdcdcdcdcdcdcdcdcdcdcdcdcdcdcdcdcdcdcdcdcdcdcdcdcdcdcd 82558a389a443c0ea4cc819899f2083a85f0faa3e578f8077a2e3ff46729665b
aaaaaaaaaaaaaaaaaaaaaaaaaaaaaaaaaaaaaaaaaaaaaaaaaaaaaaaaaaaaaaaaaaaaaaaaaaaaaaaaaaaaaaaaaaaaaaaaaaaaaaaaaaaaaaaaaaaaaaaaaaaaaaaaaaaaaaaaaaaaaaaaaaaaaaaaaaaaaaaaaaaaaaaaaaaaaaaaaaaaaaaaaaaaaaaaaaaaaaaaaaaaaaaaaaaaaaaaaaaaaaaaaaaaaaaaaaaaaaaaaaaaaaaaaaaaaaaaaaaaaa 54657374205573696e67204c6172676572205468616e20426c6f636b2d53697a65204b6579202d2048617368204b6579204669727374 60e431591ee0b67f0d8a26aacbf5b77f8e0bc6213728c5140546040f0ee37f54
aaaaaaaaaaaaaaaaaaaaaaaaaaaaaaaaaaaaaaaaaaaaaaaaaaaaaaaaaaaaaaaaaaaaaaaaaaaaaaaaaaaaaaaaaaaaaaaaaaaaaaaaaaaaaaaaaaaaaaaaaaaaaaaaaaaaaaaaaaaaaaaaaaaaaaaaaaaaaaaaaaaaaaaaaaaaaaaaaaaaaaaaaaaaaaaaaaaaaaaaaaaaaaaaaaaaaaaaaaaaaaaaaaaaaaaaaaaaaaaaaaaaaaaaaaaaaaaaaaaaaa 5468697320697320612074657374207573696e672061206c6172676572207468616e20626c6f636b2d73697a65206b657920616e642061206c6172676572207468616e20626c6f636b2d73697a6520646174612e20546865206b6579206e6565647320746f20626520686173686564206265666f7265206265696e6720757365642062792074686520484d414320616c676f726974686d2e 9b09ffa71b942fcb27635fbcd5b0e944bfdc63644f0713938a7f51535c3a35e2";

/// Rounds, and what they make of the password and the salt of RFC 7677, by Python's hashlib. The RFC has the last ones.
const SALTED: &str = "\
1 fcfc563c4b0220bf424e06d9117416df9c73092e7fabe25a0aad51586527408e
2 dfa991a6c2725659ae5f5d73579e02e10f5d295f8700c4db23a76c1ff0739216
7 7a31f06d8e4e81779124ea1e0b41e0f2d6fdb0dde4c80ac4ff04899f96896b7a
4096 c4a49510323ab4f952cac1fa99441939e78ea74d6be81ddf7096e87513dc615d";

const SALT: &str = "5b6d99689d12358eeca04b141236fa81";

/// A keyed digest of a message that comes in two pieces, the first of at most so many bytes.
fn in_pieces(key: &[u8], message: &[u8], at: usize) -> [u8; 32] {
    let (first, rest) = message.split_at(at.min(message.len()));
    let mut mac = Mac::keyed(key);
    mac.update(first);
    mac.update(rest);
    mac.finalize()
}

fn hex_of(alloc: Global, digest: &[u8; 32]) -> Result<String, Fail> {
    Ok(hex::encode(alloc, digest.as_slice())?)
}

#[test]
fn keyed_digests_are_those_of_the_rfc(rt: HostRuntime) -> Result<(), Fail> {
    let alloc = rt.alloc();
    for line in DIGESTS.lines() {
        let (key, rest) = line.split_once(' ').ok_or("a key")?;
        let (message, want) = rest.split_once(' ').ok_or("a message")?;
        let key = hex::decode(alloc, key)?;
        let message = hex::decode(alloc, message)?;
        let digest = hmac(&key, &message);
        assert_eq!(rt; hex_of(alloc, &digest)?.as_str(), want);
        for at in [0, 1, 8, 64] {
            assert!(rt;
                same(&in_pieces(&key, &message, at), &digest),
                "{want} at {at}"
            );
        }
    }
    Ok(())
}

#[test]
fn passwords_are_salted_as_by_hashlib(rt: HostRuntime) -> Result<(), Fail> {
    let alloc = rt.alloc();
    let salt = hex::decode(alloc, SALT)?;
    for line in SALTED.lines() {
        let (rounds, want) = line.split_once(' ').ok_or("rounds")?;
        let rounds = rounds.parse::<u32>()?;
        assert!(rt; rounds >= 1);
        let salted = salted_password(b"pencil", &salt, rounds);
        assert_eq!(rt; hex_of(alloc, &salted)?.as_str(), want, "{rounds} rounds");
    }
    Ok(())
}
