//! Which rule a connection is under, and which words are refused.

use crate::words::read;
use pm_auth::{AuthNo, Method};
use std::alloc::Global;
use std::process::Abort;
use std::test::*;

/// Rules, secrets, database and user, and the rule that the connection is under.
const UNDER: &str = "\
||test ann|1 trust
all ann reject;all all trust||test ann|1 reject
all ann reject;all all trust||test bob|2 trust
all ann reject;all all trust||test anna|2 trust
all ann reject;all all trust||test Ann|2 trust
test all trust;all all scram-sha-256||test ann|1 trust
test all trust;all all scram-sha-256||kv ann|2 scram-sha-256
kv ann scram-sha-256||kv ann|1 scram-sha-256
kv ann scram-sha-256||kv bob|none
kv ann scram-sha-256||ann ann|none
ALL all trust||ALL ann|1 trust
ALL all trust||kv ann|none
|ann=SCRAM-SHA-256$4096:W22ZaJ0SNY7soEsUEjb6gQ==$WG5d8oPm3OtcPnkdi4Uo7BkeZkBFzpcXkuLmtbsT4qY=:wfPLwcE6nTWhTAmQ7tl2KeoiWGPlZqQxSrmfPwDl2dU=|kv ann|1 scram-sha-256
all all trust|ann=SCRAM-SHA-256$4096:W22ZaJ0SNY7soEsUEjb6gQ==$WG5d8oPm3OtcPnkdi4Uo7BkeZkBFzpcXkuLmtbsT4qY=:wfPLwcE6nTWhTAmQ7tl2KeoiWGPlZqQxSrmfPwDl2dU=|kv ann|1 trust";

/// Rules and secrets, and why they are refused.
const REFUSED: &str = "\
all all trust;all all||NoRule { index: 1 }: a rule is DATABASE USER METHOD
all all trust;all all md5||NoRule { index: 1 }: a rule is DATABASE USER METHOD
all all Trust||NoRule { index: 0 }: a rule is DATABASE USER METHOD
all all trust ||NoRule { index: 0 }: a rule is DATABASE USER METHOD
 all all trust||NoRule { index: 0 }: a rule is DATABASE USER METHOD
all  all trust||NoRule { index: 0 }: a rule is DATABASE USER METHOD
all  trust||NoRule { index: 0 }: a rule is DATABASE USER METHOD
 all trust||NoRule { index: 0 }: a rule is DATABASE USER METHOD
all all all trust||NoRule { index: 0 }: a rule is DATABASE USER METHOD
;||NoRule { index: 0 }: a rule is DATABASE USER METHOD
|ann=SCRAM-SHA-256$4096:W22ZaJ0SNY7soEsUEjb6gQ==$WG5d8oPm3OtcPnkdi4Uo7BkeZkBFzpcXkuLmtbsT4qY=:wfPLwcE6nTWhTAmQ7tl2KeoiWGPlZqQxSrmfPwDl2dU=;ann=SCRAM-SHA-256$4096:W22ZaJ0SNY7soEsUEjb6gQ==$WG5d8oPm3OtcPnkdi4Uo7BkeZkBFzpcXkuLmtbsT4qY=:wfPLwcE6nTWhTAmQ7tl2KeoiWGPlZqQxSrmfPwDl2dU=|SecondSecret { index: 1 }: a second secret of its user
|ann=SCRAM-SHA-256$4096:W22ZaJ0SNY7soEsUEjb6gQ==$WG5d8oPm3OtcPnkdi4Uo7BkeZkBFzpcXkuLmtbsT4qY=:wfPLwcE6nTWhTAmQ7tl2KeoiWGPlZqQxSrmfPwDl2dU=;uann=SCRAM-SHA-256$4096:W22ZaJ0SNY7soEsUEjb6gQ==$WG5d8oPm3OtcPnkdi4Uo7BkeZkBFzpcXkuLmtbsT4qY=:wfPLwcE6nTWhTAmQ7tl2KeoiWGPlZqQxSrmfPwDl2dU=;ann=SCRAM-SHA-256$4096:W22ZaJ0SNY7soEsUEjb6gQ==$WG5d8oPm3OtcPnkdi4Uo7BkeZkBFzpcXkuLmtbsT4qY=:wfPLwcE6nTWhTAmQ7tl2KeoiWGPlZqQxSrmfPwDl2dU=|SecondSecret { index: 2 }: a second secret of its user
|ann=SCRAM-SHA-256$4096:W22ZaJ0SNY7soEsUEjb6gQ==$WG5d8oPm3OtcPnkdi4Uo7BkeZkBFzpcXkuLmtbsT4qY=:wfPLwcE6nTWhTAmQ7tl2KeoiWGPlZqQxSrmfPwDl2dU=;ann|NoSecret { index: 1 }: a secret is USER=SCRAM-SHA-256$4096:SALT$STORED:SERVER
|=SCRAM-SHA-256$4096:W22ZaJ0SNY7soEsUEjb6gQ==$WG5d8oPm3OtcPnkdi4Uo7BkeZkBFzpcXkuLmtbsT4qY=:wfPLwcE6nTWhTAmQ7tl2KeoiWGPlZqQxSrmfPwDl2dU=|NoSecret { index: 0 }: a secret is USER=SCRAM-SHA-256$4096:SALT$STORED:SERVER
|ann=SCRAM-SHA-256$4096:W22ZaJ0SNY7soEsUEjb6gQ==$WG5d8oPm3OtcPnkdi4Uo7BkeZkBFzpcXkuLmtbsT4qY=:wfPLwcE6nTWhTAmQ7tl2KeoiWGPlZqQxSrmfPwDl2dU=x|NoSecret { index: 0 }: a secret is USER=SCRAM-SHA-256$4096:SALT$STORED:SERVER
|ann=SCRAM-SHA-256$4096:W22ZaJ0SNY7soEsUEjb6gQ==$WG5d8oPm3OtcPnkdi4Uo7BkeZkBFzpcXkuLmtbsT4qY=:wfPLwcE6nTWhTAmQ7tl2KeoiWGPlZqQxSrmfPwDl2dU==|NoSecret { index: 0 }: a secret is USER=SCRAM-SHA-256$4096:SALT$STORED:SERVER
|ann= SCRAM-SHA-256$4096:W22ZaJ0SNY7soEsUEjb6gQ==$WG5d8oPm3OtcPnkdi4Uo7BkeZkBFzpcXkuLmtbsT4qY=:wfPLwcE6nTWhTAmQ7tl2KeoiWGPlZqQxSrmfPwDl2dU=|NoSecret { index: 0 }: a secret is USER=SCRAM-SHA-256$4096:SALT$STORED:SERVER
|ann=SCRAM-SHA-1$4096:W22ZaJ0SNY7soEsUEjb6gQ==$WG5d8oPm3OtcPnkdi4Uo7BkeZkBFzpcXkuLmtbsT4qY=:wfPLwcE6nTWhTAmQ7tl2KeoiWGPlZqQxSrmfPwDl2dU=|NoSecret { index: 0 }: a secret is USER=SCRAM-SHA-256$4096:SALT$STORED:SERVER
|ann=SCRAM-SHA-256$4095:W22ZaJ0SNY7soEsUEjb6gQ==$WG5d8oPm3OtcPnkdi4Uo7BkeZkBFzpcXkuLmtbsT4qY=:wfPLwcE6nTWhTAmQ7tl2KeoiWGPlZqQxSrmfPwDl2dU=|NoSecret { index: 0 }: a secret is USER=SCRAM-SHA-256$4096:SALT$STORED:SERVER
|ann=SCRAM-SHA-256$4096:W22ZaJ0SNY7soEsUEjb6$WG5d8oPm3OtcPnkdi4Uo7BkeZkBFzpcXkuLmtbsT4qY=:wfPLwcE6nTWhTAmQ7tl2KeoiWGPlZqQxSrmfPwDl2dU=|NoSecret { index: 0 }: a secret is USER=SCRAM-SHA-256$4096:SALT$STORED:SERVER
|ann=SCRAM-SHA-256$4096:W22ZaJ0SNY7soEsUEjb6gh==$WG5d8oPm3OtcPnkdi4Uo7BkeZkBFzpcXkuLmtbsT4qY=:wfPLwcE6nTWhTAmQ7tl2KeoiWGPlZqQxSrmfPwDl2dU=|NoSecret { index: 0 }: a secret is USER=SCRAM-SHA-256$4096:SALT$STORED:SERVER
|ann=SCRAM-SHA-256$4096:W22ZaJ0SNY7soEsUEjb6gQ==:WG5d8oPm3OtcPnkdi4Uo7BkeZkBFzpcXkuLmtbsT4qY=$wfPLwcE6nTWhTAmQ7tl2KeoiWGPlZqQxSrmfPwDl2dU=|NoSecret { index: 0 }: a secret is USER=SCRAM-SHA-256$4096:SALT$STORED:SERVER
|ann=md5d41d8cd98f00b204e9800998ecf8427e|NoSecret { index: 0 }: a secret is USER=SCRAM-SHA-256$4096:SALT$STORED:SERVER
all all|ann=SCRAM-SHA-256$4096:W22ZaJ0SNY7soEsUEjb6gQ==$WG5d8oPm3OtcPnkdi4Uo7BkeZkBFzpcXkuLmtbsT4qY=:wfPLwcE6nTWhTAmQ7tl2KeoiWGPlZqQxSrmfPwDl2dU=;ann=SCRAM-SHA-256$4096:W22ZaJ0SNY7soEsUEjb6gQ==$WG5d8oPm3OtcPnkdi4Uo7BkeZkBFzpcXkuLmtbsT4qY=:wfPLwcE6nTWhTAmQ7tl2KeoiWGPlZqQxSrmfPwDl2dU=|NoRule { index: 0 }: a rule is DATABASE USER METHOD";

fn word_of(method: Method) -> &'static str {
    match method {
        Method::Trust => "trust",
        Method::Reject => "reject",
        Method::ScramSha256 => "scram-sha-256",
    }
}

fn under(rt: &impl Abort, alloc: Global, line: &str) -> Result<(), Fail> {
    let (rules, rest) = line.split_once('|').ok_or("rules")?;
    let (secrets, rest) = rest.split_once('|').ok_or("secrets")?;
    let (connection, want) = rest.split_once('|').ok_or("a connection")?;
    let (database, user) = connection.split_once(' ').ok_or("a user")?;
    let rules = read(alloc, rules, secrets)??;
    let found = match rules.first(database.as_bytes(), user.as_bytes()) {
        Some(ruling) => format!(in alloc; "{} {}", ruling.number, word_of(ruling.method))?,
        None => format!(in alloc; "none")?,
    };
    assert_eq!(rt; found.as_str(), want, "{line}");
    Ok(())
}

#[test]
fn connections_are_under_the_first_rule_that_fits(rt: HostRuntime) -> Result<(), Fail> {
    let alloc = rt.alloc();
    for line in UNDER.lines() {
        under(&rt, alloc, line)?;
    }
    Ok(())
}

fn refused(rt: &impl Abort, alloc: Global, line: &str) -> Result<(), Fail> {
    let (rules, rest) = line.split_once('|').ok_or("rules")?;
    let (secrets, want) = rest.split_once('|').ok_or("secrets")?;
    let found = match read(alloc, rules, secrets)? {
        Ok(_) => format!(in alloc; "read")?,
        Err(no) => format!(in alloc; "{no:?}: {no}")?,
    };
    assert_eq!(rt; found.as_str(), want, "{line}");
    Ok(())
}

/// A word so many times, with `;` between.
fn times(alloc: Global, word: &str, count: usize) -> Result<String, Fail> {
    let mut all = String::from_str(alloc, word)?;
    for _time in 1..count {
        all.push_str(";")?;
        all.push_str(word)?;
    }
    Ok(all)
}

#[test]
fn more_than_64_words_are_refused(rt: HostRuntime) -> Result<(), Fail> {
    let alloc = rt.alloc();
    let rules = times(alloc, "all all trust", 64)?;
    assert!(rt; read(alloc, rules.as_str(), "")?.is_ok());
    for (rules, secrets, want) in [(65, 65, AuthNo::ManyRules), (64, 65, AuthNo::ManySecrets)] {
        let rules = times(alloc, "all all trust", rules)?;
        let secrets = times(alloc, "ann", secrets)?;
        let found = read(alloc, rules.as_str(), secrets.as_str())?;
        assert_eq!(rt; found.err(), Some(want));
    }
    Ok(())
}

#[test]
fn other_words_are_refused(rt: HostRuntime) -> Result<(), Fail> {
    let alloc = rt.alloc();
    for line in REFUSED.lines() {
        refused(&rt, alloc, line)?;
    }
    Ok(())
}
