//! The exchange: that of RFC 7677, others like it, and what isn't taken.

use crate::words::read;
use pm_auth::{Rules, ScramNo, Server, secret_line};
use std::alloc::Global;
use std::process::Abort;
use std::test::*;

/// The secret of the password `pencil` with the RFC's salt.
const SECRET: &str =
    "user=SCRAM-SHA-256$4096:W22ZaJ0SNY7soEsUEjb6gQ==$WG5d8oPm3OtcPnkdi4Uo7BkeZkBFzpcXkuLmtbsT4qY=:wfPLwcE6nTWhTAmQ7tl2KeoiWGPlZqQxSrmfPwDl2dU=";

const SALT: &str = "5b6d99689d12358eeca04b141236fa81";

/// The server's nonce.
const NONCE: &[u8] = b"%hvYDpWUa2RaTCAfuxFIlj)hNlF$k0";

/// User, the client's messages, and what the server answers to each: the RFC's exchange, and others by Python's hashlib. The header
/// that knows of no channel binding here, no name, another nonce, and a user without a secret, whose salt is always the same.
const EXCHANGES: &str = "\
user n,,n=user,r=rOprNGfwEbeRWgbNEkqO c=biws,r=rOprNGfwEbeRWgbNEkqO%hvYDpWUa2RaTCAfuxFIlj)hNlF$k0,p=dHzbZapWIk4jUhN+Ute9ytag9zjfMHgsqmmiz7AndVQ= r=rOprNGfwEbeRWgbNEkqO%hvYDpWUa2RaTCAfuxFIlj)hNlF$k0,s=W22ZaJ0SNY7soEsUEjb6gQ==,i=4096 v=6rriTRBi23WpRR/wtup+mMhUZUn/dB5nLTJRsjl95G4=
user y,,n=,r=rOprNGfwEbeRWgbNEkqO c=eSws,r=rOprNGfwEbeRWgbNEkqO%hvYDpWUa2RaTCAfuxFIlj)hNlF$k0,p=VpuC5DGQa5ro9tXE9MnKs69NH1nxnuregZZcclqIGfM= r=rOprNGfwEbeRWgbNEkqO%hvYDpWUa2RaTCAfuxFIlj)hNlF$k0,s=W22ZaJ0SNY7soEsUEjb6gQ==,i=4096 v=FOmOj9BpTGwvnzwBtWQjBaPmVxT9I8IeHBOhcIPu3us=
user n,,n=*,r=W&j:4s:.qQ28U=2F\\#&qr=vc c=biws,r=W&j:4s:.qQ28U=2F\\#&qr=vc%hvYDpWUa2RaTCAfuxFIlj)hNlF$k0,p=Mx7Pg3XYJrJKaUNbWqfMcI9qntkptQdz3nyq68/5fdc= r=W&j:4s:.qQ28U=2F\\#&qr=vc%hvYDpWUa2RaTCAfuxFIlj)hNlF$k0,s=W22ZaJ0SNY7soEsUEjb6gQ==,i=4096 v=eza8gvzZp/G6nfMvU4H8W3k3XxEDXCQf8sHZGaGN3no=
user n,,n=user,r=rOprNGfwEbeRWgbNEkqO c=eSws,r=rOprNGfwEbeRWgbNEkqO%hvYDpWUa2RaTCAfuxFIlj)hNlF$k0,p=FoqiHTtQEDE8lz1CdaEe3tK4mS+iMDTl77SPyDS53DY= r=rOprNGfwEbeRWgbNEkqO%hvYDpWUa2RaTCAfuxFIlj)hNlF$k0,s=W22ZaJ0SNY7soEsUEjb6gQ==,i=4096 invalid SASL message
user n,,n=user,r=rOprNGfwEbeRWgbNEkqO c=biws,r=rOprNGfwEbeRWgbNEkqO%hvYDpWUa2RaTCAfuxFIlj)hNlF$k0,p=AvS0Ba+ludq0NiF5dxo0hs+j5VaoBH5uqR5AbGhp85Y= r=rOprNGfwEbeRWgbNEkqO%hvYDpWUa2RaTCAfuxFIlj)hNlF$k0,s=W22ZaJ0SNY7soEsUEjb6gQ==,i=4096 password authentication failed
user n,,n=user,r=rOprNGfwEbeRWgbNEkqO c=biws,r=rOprNGfwEbeRWgbNEkqO,p=OpAw+ii0JnFTmfw7WeHNYmsuQBA2js28MfVjzfEyTp0= r=rOprNGfwEbeRWgbNEkqO%hvYDpWUa2RaTCAfuxFIlj)hNlF$k0,s=W22ZaJ0SNY7soEsUEjb6gQ==,i=4096 invalid SASL message
ann n,,n=ann,r=rOprNGfwEbeRWgbNEkqO c=biws,r=rOprNGfwEbeRWgbNEkqO%hvYDpWUa2RaTCAfuxFIlj)hNlF$k0,p=DQcUNkAWE8BAjvWwxv5mtZk3DpZe7aOhbHduPG22U7Y= r=rOprNGfwEbeRWgbNEkqO%hvYDpWUa2RaTCAfuxFIlj)hNlF$k0,s=Tv7562qAK4AupT/GvaBerg==,i=4096 password authentication failed
bob n,,n=bob,r=rOprNGfwEbeRWgbNEkqO c=biws,r=rOprNGfwEbeRWgbNEkqO%hvYDpWUa2RaTCAfuxFIlj)hNlF$k0,p=Qnj3JF0bJIXVA2fP/u7k5zJ2zN6U4fXtPKAdWKE3o0M= r=rOprNGfwEbeRWgbNEkqO%hvYDpWUa2RaTCAfuxFIlj)hNlF$k0,s=Xu2DJvapbw9jaKjUbwiuNg==,i=4096 password authentication failed";

/// First messages that no client sends.
const NO_FIRST: &str = "\
p=tls-server-end-point,,n=user,r=abc
n,a=ann,n=user,r=abc
n,,m=1,n=user,r=abc
n,,n=user,r=
n,,n=user,r=a,b
n,,n=user,r=abc,x=1
n,,n=user,r=a b
n,,n=user,r=é
n,,n=user,
n,,n=user
n,,r=abc
n,,N=user,r=abc
N,,n=user,r=abc
,,n=user,r=abc";

/// What the server answers to a client's messages.
fn answers(
    alloc: Global,
    rules: &Rules,
    user: &str,
    first: &[u8],
    last: &[u8],
) -> Result<String, Fail> {
    let (server, said) = match Server::start(alloc, rules, user.as_bytes(), NONCE, first) {
        Ok(both) => both,
        Err(no) => return Ok(format!(in alloc; "{no}")?),
    };
    let said = str::from_utf8(said.as_slice()).ok().ok_or("UTF-8")?;
    Ok(match server.finish(alloc, last) {
        Ok(shown) => format!(in alloc;
            "{said} {}",
            str::from_utf8(shown.as_slice()).ok().ok_or("UTF-8")?
        )?,
        Err(no) => format!(in alloc; "{said} {no}")?,
    })
}

/// Whether both messages are taken.
fn is_let_in(alloc: Global, rules: &Rules, first: &[u8], last: &[u8]) -> Result<bool, Fail> {
    match Server::start(alloc, rules, b"user", NONCE, first) {
        Ok((server, _said)) => match server.finish(alloc, last) {
            Ok(_shown) => Ok(true),
            Err(ScramNo::NoMemory) => Err("memory")?,
            Err(_refused) => Ok(false),
        },
        Err(_refused) => Ok(false),
    }
}

#[test]
fn the_secret_of_a_password_is_spelled_as_postgresql_keeps_it(rt: HostRuntime) -> Result<(), Fail> {
    let alloc = rt.alloc();
    let mut salt = [0; 16];
    hex::decode_to_slice(SALT, &mut salt)?;
    let line = secret_line(alloc, "user", b"pencil", &salt)?;
    assert_eq!(rt; line.as_str(), SECRET);
    Ok(())
}

#[test]
fn exchanges_are_those_of_the_rfc(rt: HostRuntime) -> Result<(), Fail> {
    let alloc = rt.alloc();
    let rules = read(alloc, "", SECRET)??;
    for line in EXCHANGES.lines() {
        let (user, rest) = line.split_once(' ').ok_or("a user")?;
        let (first, rest) = rest.split_once(' ').ok_or("a first message")?;
        let (last, want) = rest.split_once(' ').ok_or("a last message")?;
        let found = answers(alloc, &rules, user, first.as_bytes(), last.as_bytes())?;
        assert_eq!(rt; found.as_str(), want, "{line}");
    }
    for first in NO_FIRST.lines() {
        let found = answers(alloc, &rules, "user", first.as_bytes(), b"")?;
        assert_eq!(rt; found.as_str(), "invalid SASL message", "{first}");
    }
    Ok(())
}

/// No front of these messages is taken for them, nor are they with any byte changed.
fn stays_out(
    rt: &impl Abort,
    alloc: Global,
    rules: &Rules,
    first: &[u8],
    last: &[u8],
) -> Result<(), Fail> {
    for cut in 0..first.len() {
        let front = first.get(..cut).ok_or("a front")?;
        assert!(rt;
            !is_let_in(alloc, rules, front, last)?,
            "first message cut at {cut}"
        );
    }
    for cut in 0..last.len() {
        let front = last.get(..cut).ok_or("a front")?;
        assert!(rt;
            !is_let_in(alloc, rules, first, front)?,
            "last message cut at {cut}"
        );
    }
    for mask in [1u8, 2, 0x20, 0x80] {
        for at in 0..first.len() {
            let mut changed = Vec::from_slice(alloc, first)?;
            if let Some(byte) = changed.get_mut(at) {
                *byte ^= mask;
            }
            assert!(rt;
                !is_let_in(alloc, rules, &changed, last)?,
                "first message changed at {at}"
            );
        }
        for at in 0..last.len() {
            let mut changed = Vec::from_slice(alloc, last)?;
            if let Some(byte) = changed.get_mut(at) {
                *byte ^= mask;
            }
            assert!(rt;
                !is_let_in(alloc, rules, first, &changed)?,
                "last message changed at {at}"
            );
        }
    }
    Ok(())
}

#[test]
fn nothing_else_is_taken(rt: HostRuntime) -> Result<(), Fail> {
    let alloc = rt.alloc();
    let rules = read(alloc, "", SECRET)??;
    let line = EXCHANGES.lines().next().ok_or("an exchange")?;
    let (_user, rest) = line.split_once(' ').ok_or("a user")?;
    let (first, rest) = rest.split_once(' ').ok_or("a first message")?;
    let (last, _answers) = rest.split_once(' ').ok_or("a last message")?;
    assert!(rt; is_let_in(alloc, &rules, first.as_bytes(), last.as_bytes())?);
    stays_out(&rt, alloc, &rules, first.as_bytes(), last.as_bytes())
}
