// Session statements and their answers: one script.
use bstr::ByteVec;
use pm_rows::Text;
use pm_settings::{Answer, MAX_SETTING_BYTES, ReadNo, Refusal, Setting, Settings, read};
use std::alloc::Global;
use std::test::Fail;

/// Texts that a session reads, one after the other, and after `->` its answers up to the first error: a tag, or in parentheses the
/// column of a row, the number of its type and its text, and then the tag. A text that is none of session statements is `none`.
/// `new` begins another session.
const SCRIPT: &str = r#"
# what each setting is from the beginning
new
SHOW application_name -> (application_name 25 ) SHOW
SHOW client_min_messages -> (client_min_messages 25 notice) SHOW
SHOW DateStyle -> (DateStyle 25 ISO, MDY) SHOW
SHOW extra_float_digits -> (extra_float_digits 25 1) SHOW
SHOW IntervalStyle -> (IntervalStyle 25 postgres) SHOW
SHOW search_path -> (search_path 25 "$user", public) SHOW
SHOW TimeZone -> (TimeZone 25 GMT) SHOW
SHOW client_encoding -> (client_encoding 25 UTF8) SHOW
SHOW standard_conforming_strings -> (standard_conforming_strings 25 on) SHOW
SHOW statement_timeout -> (statement_timeout 25 0) SHOW
SHOW lock_timeout -> (lock_timeout 25 0) SHOW
SHOW idle_in_transaction_session_timeout -> (idle_in_transaction_session_timeout 25 0) SHOW
SHOW default_transaction_read_only -> (default_transaction_read_only 25 off) SHOW
SHOW server_version -> (server_version 25 16.0) SHOW
SHOW server_encoding -> (server_encoding 25 UTF8) SHOW
SHOW integer_datetimes -> (integer_datetimes 25 on) SHOW
SHOW transaction_isolation -> (transaction_isolation 25 serializable) SHOW
# kept as they are told
SET application_name = 'it''s mine'; SHOW application_name -> SET; (application_name 25 it's mine) SHOW
SET SESSION client_min_messages TO warning; show CLIENT_MIN_MESSAGES -> SET; (client_min_messages 25 warning) SHOW
SET DateStyle TO ISO, DMY; SHOW datestyle -> SET; (DateStyle 25 iso, dmy) SHOW
SET LOCAL extra_float_digits = 3; SHOW extra_float_digits -> SET; (extra_float_digits 25 3) SHOW
set extra_float_digits to - 15;show extra_float_digits -> SET; (extra_float_digits 25 -15) SHOW
SET extra_float_digits = +2; SHOW extra_float_digits -> SET; (extra_float_digits 25 2) SHOW
SET IntervalStyle = iso_8601; SHOW IntervalStyle -> SET; (IntervalStyle 25 iso_8601) SHOW
SET search_path TO kv , 'Public',x; SHOW search_path -> SET; (search_path 25 kv, Public, x) SHOW
SET TIME ZONE 'Europe/Zurich'; SHOW TIME ZONE -> SET; (TimeZone 25 Europe/Zurich) SHOW
SET TimeZone TO -7; SHOW timezone -> SET; (TimeZone 25 -7) SHOW
SHOW application_name -> (application_name 25 it's mine) SHOW
# one value alone
SET client_encoding TO 'UTF8'; SET client_encoding = utf8; SET client_encoding = 'utf-8'; SET NAMES 'UNICODE'; SHOW client_encoding -> SET; SET; SET; SET; (client_encoding 25 UTF8) SHOW
SET standard_conforming_strings = on; SET statement_timeout = 0; SET lock_timeout TO '0'; SET idle_in_transaction_session_timeout = 0; SET default_transaction_read_only = OFF -> SET; SET; SET; SET; SET
SET client_encoding = 'LATIN1' -> ERROR 22023 invalid value for parameter "client_encoding": "LATIN1"
SET NAMES SQL_ASCII -> ERROR 22023 invalid value for parameter "client_encoding": "sql_ascii"
SET standard_conforming_strings = off -> ERROR 22023 invalid value for parameter "standard_conforming_strings": "off"
SET statement_timeout = 1000 -> ERROR 22023 invalid value for parameter "statement_timeout": "1000"
SET LOCK_TIMEOUT = '5s' -> ERROR 22023 invalid value for parameter "lock_timeout": "5s"
SET default_transaction_read_only TO on -> ERROR 22023 invalid value for parameter "default_transaction_read_only": "on"
SET DateStyle = 'SQL, DMY' -> ERROR 22023 invalid value for parameter "DateStyle": "SQL, DMY"
SET client_encoding = utf8, utf8 -> ERROR 22023 invalid value for parameter "client_encoding": "utf8, utf8"
# only shown, and not there
SET server_version = '17.0' -> ERROR 55P02 parameter "server_version" cannot be changed
RESET Integer_Datetimes -> ERROR 55P02 parameter "integer_datetimes" cannot be changed
SET transaction_isolation TO DEFAULT -> ERROR 55P02 parameter "transaction_isolation" cannot be changed
SET Work_Mem = '4MB' -> ERROR 42704 unrecognized configuration parameter "work_mem"
RESET nothing -> ERROR 42704 unrecognized configuration parameter "nothing"
SHOW all -> ERROR 42704 unrecognized configuration parameter "all"
SET time = 1; SHOW application_name -> ERROR 42704 unrecognized configuration parameter "time"
# an error ends them
SET application_name = a; SET work_mem = 1; SET application_name = b -> SET; ERROR 42704 unrecognized configuration parameter "work_mem"
SHOW application_name -> (application_name 25 a) SHOW
SET application_name = default, x; SHOW application_name -> SET; (application_name 25 default, x) SHOW
# back to the beginning
SET application_name TO DEFAULT; SHOW application_name -> SET; (application_name 25 ) SHOW
RESET search_path; SHOW search_path; SHOW TimeZone -> RESET; (search_path 25 "$user", public) SHOW; (TimeZone 25 -7) SHOW
SET TIME ZONE DEFAULT; SHOW TIME ZONE -> SET; (TimeZone 25 GMT) SHOW
RESET ALL; SHOW DateStyle -> RESET; (DateStyle 25 ISO, MDY) SHOW
SET application_name = b; DISCARD ALL; SHOW application_name -> SET; DISCARD ALL; (application_name 25 ) SHOW
RESET client_encoding; SET NAMES DEFAULT -> RESET; SET
# modes of transactions
SHOW TRANSACTION ISOLATION LEVEL -> (transaction_isolation 25 serializable) SHOW
SET TRANSACTION ISOLATION LEVEL SERIALIZABLE -> SET
SET TRANSACTION ISOLATION LEVEL REPEATABLE READ, READ WRITE -> SET
SET SESSION CHARACTERISTICS AS TRANSACTION ISOLATION LEVEL READ COMMITTED READ WRITE -> SET
set session characteristics as transaction isolation level read uncommitted -> SET
SET TRANSACTION READ ONLY -> ERROR 0A000 read-only is set by BEGIN READ ONLY alone
SET SESSION CHARACTERISTICS AS TRANSACTION READ WRITE, ISOLATION LEVEL SERIALIZABLE READ ONLY -> ERROR 0A000 read-only is set by BEGIN READ ONLY alone
# what drivers send
SET extra_float_digits = 3 -> SET
SET application_name = 'PostgreSQL JDBC Driver' -> SET
SHOW TRANSACTION ISOLATION LEVEL -> (transaction_isolation 25 serializable) SHOW
SELECT pg_advisory_unlock_all();\nCLOSE ALL;\nUNLISTEN *;\nRESET ALL; -> (pg_advisory_unlock_all 2278 ) SELECT 1; CLOSE CURSOR ALL; UNLISTEN; RESET
DISCARD ALL -> DISCARD ALL
SELECT 1 -> (?column? 23 1) SELECT 1
select 1; -> (?column? 23 1) SELECT 1
SELECT version() -> (version 25 PostgreSQL 16.0 (Wonthik)) SELECT 1
show standard_conforming_strings -> (standard_conforming_strings 25 on) SHOW
SELECT 2147483647;;select 007 -> (?column? 23 2147483647) SELECT 1; (?column? 23 7) SELECT 1
 ; \t; SELECT\nVersion ( ) ; -> (version 25 PostgreSQL 16.0 (Wonthik)) SELECT 1
# names that other forms begin with
SET SESSION session = 1 -> ERROR 42704 unrecognized configuration parameter "session"
SET session TO 1 -> ERROR 42704 unrecognized configuration parameter "session"
SET local = 1 -> ERROR 42704 unrecognized configuration parameter "local"
SET names = 1 -> ERROR 42704 unrecognized configuration parameter "names"
SET NAMES to -> ERROR 22023 invalid value for parameter "client_encoding": "to"
SET transaction = 1 -> ERROR 42704 unrecognized configuration parameter "transaction"
SET SESSION characteristics TO 1 -> ERROR 42704 unrecognized configuration parameter "characteristics"
# no session statements
 -> none
; -> none
SELECT 2147483648 -> none
SELECT -1 -> none
SELECT 1, 2 -> none
SELECT 1a -> none
SELECT * FROM kv -> none
SELECT count(*) FROM kv -> none
SELECT pg_sleep(1) -> none
INSERT INTO kv VALUES (1, 'a') -> none
SET application_name = a; SELECT * FROM kv -> none
BEGIN -> none
SET -> none
SET application_name -> none
SET application_name = -> none
SET application_name = , -> none
SET application_name = a b -> none
SET application_name = a, -> none
SET application_name = "a" -> none
SET application_name = 'a -> none
SET application_name = -a -> none
SET application_name == a -> none
SET LOCAL TIME ZONE 'UTC' -> none
SET TIME ZONE 'UTC', 'UTC' -> none
SET TRANSACTION -> none
SET TRANSACTION READ -> none
SET TRANSACTION READ WRITE, -> none
SET TRANSACTION READ WRITE,, READ WRITE -> none
SET SESSION TRANSACTION READ WRITE -> none
SET TRANSACTION ISOLATION LEVEL READ -> none
RESET -> none
RESET ALL ALL -> none
SHOW -> none
SHOW TIME -> ERROR 42704 unrecognized configuration parameter "time"
DISCARD -> none
DISCARD TEMP -> none
CLOSE ALL 1 -> none
UNLISTEN all -> none
SELECT version -> none
SELECT version(1) -> none
-- ping -> none
"#;

// Adds what a client is told of an answer.
fn push_answer(
    alloc: Global,
    told: &mut String,
    settings: &Settings,
    answer: Answer,
) -> Result<(), Fail> {
    if let Answer::Row(cell) = answer {
        let text = settings.text(alloc, cell)?;
        let row = format!(in alloc;
            "({} {} {}) ",
            cell.column(),
            cell.type_number(),
            text.as_str()
        )?;
        told.push_str(row.as_str())?;
    }
    told.push_str(answer.tag())?;
    Ok(())
}

// Adds what a client is told of a refusal. None may come for want of memory.
fn push_refusal(alloc: Global, told: &mut String, refusal: &Refusal) -> Result<(), Fail> {
    if let Refusal::NoMemory = refusal {
        Err("memory was short")?;
    }
    let code = refusal.code();
    let code = str::from_utf8(&code).ok().ok_or("a code")?;
    let message = refusal.message(alloc)?;
    let error = format!(in alloc; "ERROR {} {}", code, message.as_str())?;
    told.push_str(error.as_str())?;
    Ok(())
}

// The answers to a text.
fn answers(alloc: Global, settings: &mut Settings, text: &str) -> Result<String, Fail> {
    let mut told = String::new(alloc);
    let statements = match read(alloc, text) {
        Ok(statements) => statements,
        Err(ReadNo::Other) => {
            told.push_str("none")?;
            return Ok(told);
        }
        Err(ReadNo::NoMemory) => Err("memory was short")?,
    };
    for statement in &statements {
        if !told.is_empty() {
            told.push_str("; ")?;
        }
        match settings.answer(statement) {
            Ok(answer) => push_answer(alloc, &mut told, settings, answer)?,
            Err(refusal) => {
                push_refusal(alloc, &mut told, &refusal)?;
                return Ok(told);
            }
        }
    }
    Ok(told)
}

// What the settings answer to a text that is written with escapes.
fn answered(alloc: Global, settings: &mut Settings, escaped: &str) -> Result<String, Fail> {
    let bytes = Vec::unescape_bytes(alloc, escaped)?;
    let text = str::from_utf8(&bytes).ok().ok_or("UTF-8")?;
    answers(alloc, settings, text)
}

#[test]
fn texts_are_answered_as_the_script_says(rt: HostRuntime) -> Result<(), Fail> {
    let alloc = rt.alloc();
    let mut settings = Settings::new();
    for line in SCRIPT.lines() {
        if line == "new" {
            settings = Settings::new();
        }
        if let Some((escaped, want)) = line.split_once(" -> ") {
            let told = answered(alloc, &mut settings, escaped)?;
            assert_eq!(rt; told.as_str(), want, "{escaped}");
        }
    }
    Ok(())
}

// A text of this many bytes.
fn text_of(alloc: Global, length: usize) -> Result<Text, Fail> {
    let mut text = String::new(alloc);
    for _ in 0..length {
        text.push('x')?;
    }
    Ok(Text::of(alloc, text.as_str())?)
}

#[test]
fn a_value_has_256_bytes_at_most(rt: HostRuntime) -> Result<(), Fail> {
    let alloc = rt.alloc();
    let setting = Setting::named("Application_Name").ok_or("a setting")?;
    let mut settings = Settings::new();
    let longest = text_of(alloc, MAX_SETTING_BYTES)?;
    assert!(rt; settings.set(setting, &longest).is_ok());
    let refused = settings.set(setting, &text_of(alloc, MAX_SETTING_BYTES + 1)?);
    assert!(rt; matches!(refused, Err(Refusal::Value { .. })));
    assert_eq!(rt; settings.show(setting), longest.as_str());
    assert!(rt; settings.reset(setting).is_ok());
    assert_eq!(rt; settings.show(setting), "");
    assert!(rt; settings.set(setting, &longest).is_ok());
    settings.reset_all();
    assert_eq!(rt; settings.show(setting), setting.own_value());
    Ok(())
}
