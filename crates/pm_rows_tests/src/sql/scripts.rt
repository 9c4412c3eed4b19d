//! Scripts that are made statement by statement, copies of them, and the sum of their pauses.
use pm_rows::Text;
use pm_sql::{Script, Stmt, parse};
use std::test::Fail;

#[test]
fn a_script_is_what_was_pushed(rt: HostRuntime) -> Result<(), Fail> {
    let alloc = rt.alloc();
    let mut script = Script::new(alloc);
    script.push(Stmt::Delete { key: 7 })?;
    let value = Text::of(alloc, "seven")?;
    script.push(Stmt::Insert { key: 7, value })?;
    let told = match script.copy()?.stmts() {
        [Stmt::Delete { key: 7 }, Stmt::Insert { key: 7, value }] => value.copy()?,
        _ => Text::of(alloc, "another script")?,
    };
    assert_eq!(rt; told.as_str(), "seven");
    Ok(())
}

#[test]
fn the_pauses_of_a_script(rt: HostRuntime) -> Result<(), Fail> {
    let alloc = rt.alloc();
    for (text, want) in [
        ("", 0),
        ("SELECT * FROM kv; DELETE FROM kv WHERE k = 1", 0),
        ("SELECT pg_sleep(7)", 7),
        (
            "SELECT pg_sleep(86400); SELECT count(*) FROM kv; SELECT pg_sleep(86400)",
            172_800,
        ),
    ] {
        let seconds = match parse(alloc, text) {
            Ok(script) => script.sleep_seconds(),
            Err(_) => u64::MAX,
        };
        assert_eq!(rt; seconds, want, "of {text}");
    }
    Ok(())
}
