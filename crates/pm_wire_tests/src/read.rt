//! What is read byte by byte, and how the server's messages are written again: one table.

use bstr::ByteVec;
use pm_startup::{Packet, Read, read};
use pm_wire::{Back, Bytes, Front, Take};
use pm_wire_back::read_back;
use std::alloc::Global;
use std::process::Abort;
use std::test::Fail;

/// Who sends, some bytes, and what is read of their fronts from none up to all, each answer after the number of bytes
/// from which on it is given. In a server's messages and in packets the bytes of a code and of a kind are numbers.
const TABLE: &str = r#"# lengths of a client's messages
client | Q\0\0\0\0 | 0 wants 1, 1 wants 5, 5 BadLength { seen: 0 }
client | Q\0\0\0\x03 | 0 wants 1, 1 wants 5, 5 BadLength { seen: 3 }
client | Q\0\0\0\x04 | 0 wants 1, 1 wants 5, 5 BadQuery used 5
client | Q\0\0\0\x05 | 0 wants 1, 1 wants 5, 5 wants 6
client | Q\0\x01\0\x05 | 0 wants 1, 1 wants 5, 5 wants 65542
client | Q\0\x01\0\x06 | 0 wants 1, 1 wants 5, 5 LongQuery { seen: 65542 } used 5
client | Q\xff\xff\xff\xff | 0 wants 1, 1 wants 5, 5 LongQuery { seen: 4294967295 } used 5
client | X\0\0\0\0 | 0 wants 1, 1 wants 5, 5 BadLength { seen: 0 }
client | X\0\0\0\x03 | 0 wants 1, 1 wants 5, 5 BadLength { seen: 3 }
client | X\0\0\0\x04 | 0 wants 1, 1 wants 5, 5 Terminate used 5
client | X\0\x01\0\x05 | 0 wants 1, 1 wants 5, 5 BadLength { seen: 65541 }
client | X\0\x01\0\x06 | 0 wants 1, 1 wants 5, 5 BadLength { seen: 65542 }
client | X\xff\xff\xff\xff | 0 wants 1, 1 wants 5, 5 BadLength { seen: 4294967295 }
# their types
client | P | 0 wants 1, 1 Extended(80) used 1
client | B | 0 wants 1, 1 Extended(66) used 1
client | D | 0 wants 1, 1 Extended(68) used 1
client | E | 0 wants 1, 1 Extended(69) used 1
client | C | 0 wants 1, 1 Extended(67) used 1
client | S | 0 wants 1, 1 Extended(83) used 1
client | H | 0 wants 1, 1 Extended(72) used 1
client | d\0 | 0 wants 1, 1 Other(100) used 1
client | c\0 | 0 wants 1, 1 Other(99) used 1
client | f\0 | 0 wants 1, 1 Other(102) used 1
client | p\0 | 0 wants 1, 1 Other(112) used 1
client | F\0 | 0 wants 1, 1 Other(70) used 1
client | q\0 | 0 wants 1, 1 Other(113) used 1
client | z\0 | 0 wants 1, 1 Other(122) used 1
client | x\0 | 0 wants 1, 1 Other(120) used 1
client | \0\0 | 0 wants 1, 1 Other(0) used 1
# whole ones
client | Q\0\0\0'INSERT INTO kv VALUES (7, 'seven')\0 | 0 wants 1, 1 wants 5, 5 wants 40, 40 query `INSERT INTO kv VALUES (7, 'seven')` used 40
client | Q\0\0\0$SELECT k, v FROM kv WHERE k = 7\0 | 0 wants 1, 1 wants 5, 5 wants 37, 37 query `SELECT k, v FROM kv WHERE k = 7` used 37
client | Q\0\0\0\x05\0 | 0 wants 1, 1 wants 5, 5 wants 6, 6 query `` used 6
client | Q\0\0\0\x05; | 0 wants 1, 1 wants 5, 5 wants 6, 6 BadQuery used 6
client | Q\0\0\0\x07;\0\0 | 0 wants 1, 1 wants 5, 5 wants 8, 8 BadQuery used 8
# a greeting
server | R\0\0\0\x08\0\0\0\0 | 0 wants 5, 5 wants 9, 9 Auth used 9
server | S\0\0\0\x18server_version\016.0\0 | 0 wants 5, 5 wants 25, 25 Param { name: "server_version", value: "16.0" } used 25
server | S\0\0\0\x19server_encoding\0UTF8\0 | 0 wants 5, 5 wants 26, 26 Param { name: "server_encoding", value: "UTF8" } used 26
server | S\0\0\0\x19client_encoding\0UTF8\0 | 0 wants 5, 5 wants 26, 26 Param { name: "client_encoding", value: "UTF8" } used 26
server | S\0\0\0\x17DateStyle\0ISO, MDY\0 | 0 wants 5, 5 wants 24, 24 Param { name: "DateStyle", value: "ISO, MDY" } used 24
server | S\0\0\0\x19integer_datetimes\0on\0 | 0 wants 5, 5 wants 26, 26 Param { name: "integer_datetimes", value: "on" } used 26
server | S\0\0\0#standard_conforming_strings\0on\0 | 0 wants 5, 5 wants 36, 36 Param { name: "standard_conforming_strings", value: "on" } used 36
server | S\0\0\0\x0b\xc3\xa9\0\xe2\x82\xac\0 | 0 wants 5, 5 wants 12, 12 Param { name: "é", value: "€" } used 12
server | K\0\0\0\x0c\0\0\0\x04\xb8\x19\xd2\xbd | 0 wants 5, 5 wants 13, 13 Key { pid: 4, key: 3088700093 } used 13
server | Z\0\0\0\x05I | 0 wants 5, 5 wants 6, 6 Ready used 6
# answers
server | T\0\0\0.\0\x02k\0\0\0\0\0\0\0\0\0\0\x14\0\x08\xff\xff\xff\xff\0\0v\0\0\0\0\0\0\0\0\0\0\x19\xff\xff\xff\xff\xff\xff\0\0 | 0 wants 5, 5 wants 47, 47 Fields(Pair) used 47
server | T\0\0\0\x1e\0\x01count\0\0\0\0\0\0\0\0\0\0\x14\0\x08\xff\xff\xff\xff\0\0 | 0 wants 5, 5 wants 31, 31 Fields(Count) used 31
server | T\0\0\0!\0\x01pg_sleep\0\0\0\0\0\0\0\0\0\0\x19\xff\xff\xff\xff\xff\xff\0\0 | 0 wants 5, 5 wants 34, 34 Fields(Sleep) used 34
server | D\0\0\0\x14\0\x02\0\0\0\x017\0\0\0\x05seven | 0 wants 5, 5 wants 21, 21 Pair { key: 7, value: "seven" } used 21
server | D\0\0\0"\0\x02\0\0\0\x14-9223372036854775808\0\0\0\0 | 0 wants 5, 5 wants 35, 35 Pair { key: -9223372036854775808, value: "" } used 35
server | D\0\0\0#\0\x02\0\0\0\x14-9223372036854775808\0\0\0\x01\0 | 0 wants 5, 5 wants 36, 36 Pair { key: -9223372036854775808, value: "\0" } used 36
server | D\0\0\0\x0b\0\x01\0\0\0\x010 | 0 wants 5, 5 wants 12, 12 One { text: "0" } used 12
server | D\0\0\0\x0a\0\x01\0\0\0\0 | 0 wants 5, 5 wants 11, 11 One { text: "" } used 11
server | C\0\0\0\x0fINSERT 0 1\0 | 0 wants 5, 5 wants 16, 16 Complete(Insert(1)) used 16
server | C\0\0\0\x0dUPDATE 0\0 | 0 wants 5, 5 wants 14, 14 Complete(Update(0)) used 14
server | C\0\0\0\x0eDELETE 10\0 | 0 wants 5, 5 wants 15, 15 Complete(Delete(10)) used 15
server | C\0\0\0 DELETE 18446744073709551615\0 | 0 wants 5, 5 wants 33, 33 Complete(Delete(18446744073709551615)) used 33
server | C\0\0\0\x0dSELECT 1\0 | 0 wants 5, 5 wants 14, 14 Complete(Select(1)) used 14
server | C\0\0\0 SELECT 18446744073709551615\0 | 0 wants 5, 5 wants 33, 33 Complete(Select(18446744073709551615)) used 33
server | I\0\0\0\x04 | 0 wants 5, 5 Empty used 5
# errors and notices
server | E\0\0\0)SERROR\0VERROR\0C53200\0Mout of memory\0\0 | 0 wants 5, 5 wants 42, 42 Fault(Report { severity: Error, code: [53, 51, 50, 48, 48], text: "out of memory", detail: None }) used 42
server | E\0\0\0\x1cSFATAL\0VFATAL\0C\xff\xff\xff\xff\xff\0M\0\0 | 0 wants 5, 5 wants 29, 29 Fault(Report { severity: Fatal, code: [255, 255, 255, 255, 255], text: "", detail: None }) used 29
server | E\0\0\0\x1eSPANIC\0VPANIC\0C58030\0M\0D\0\0 | 0 wants 5, 5 wants 31, 31 Fault(Report { severity: Panic, code: [53, 56, 48, 51, 48], text: "", detail: Some("") }) used 31
server | N\0\0\0"SWARNING\0VWARNING\0C57P01\0Mhi\0\0 | 0 wants 5, 5 wants 35, 35 Notice(Report { severity: Warning, code: [53, 55, 80, 48, 49], text: "hi", detail: None }) used 35
server | E\0\0\0qSERROR\0VERROR\0C23505\0Mduplicate key value violates unique constraint "kv_pkey"\0DKey (k)=(1) already exists.\0\0 | 0 wants 5, 5 wants 114, 114 Fault(Report { severity: Error, code: [50, 51, 53, 48, 53], text: "duplicate key value violates unique constraint \"kv_pkey\"", detail: Some("Key (k)=(1) already exists.") }) used 114
server | E\0\0\0_SFATAL\0VFATAL\0C0A000\0Munsupported frontend protocol 1234.5679: server supports 3.0 to 3.0\0\0 | 0 wants 5, 5 wants 96, 96 Fault(Report { severity: Fatal, code: [48, 65, 48, 48, 48], text: "unsupported frontend protocol 1234.5679: server supports 3.0 to 3.0", detail: None }) used 96
server | E\0\0\0OSFATAL\0VFATAL\0C28000\0Mno PostgreSQL user name specified in startup packet\0\0 | 0 wants 5, 5 wants 80, 80 Fault(Report { severity: Fatal, code: [50, 56, 48, 48, 48], text: "no PostgreSQL user name specified in startup packet", detail: None }) used 80
server | E\0\0\0;SFATAL\0VFATAL\0C53300\0Msorry, too many clients already\0\0 | 0 wants 5, 5 wants 60, 60 Fault(Report { severity: Fatal, code: [53, 51, 51, 48, 48], text: "sorry, too many clients already", detail: None }) used 60
server | E\0\0\0>SFATAL\0VFATAL\0C57P03\0Mthe database system is starting up\0\0 | 0 wants 5, 5 wants 63, 63 Fault(Report { severity: Fatal, code: [53, 55, 80, 48, 51], text: "the database system is starting up", detail: None }) used 63
# what no server sends
server | Q | 0 wants 5, 1 BadForm { at: 0 }
server | R\xff\xff\xff | 0 wants 5
server | R\0\0\0\x09 | 0 wants 5, 5 BadLength { seen: 9 }
server | S\0\0\0\x05 | 0 wants 5, 5 BadLength { seen: 5 }
server | S\x80\0\0\0 | 0 wants 5, 5 BadLength { seen: 2147483648 }
server | S\x7f\xff\xff\xff | 0 wants 5, 5 wants 2147483648
server | C\0\0\0\x0c | 0 wants 5, 5 BadLength { seen: 12 }
server | C\0\0\0# | 0 wants 5, 5 BadLength { seen: 35 }
server | C\0\0\0"UPDATE | 0 wants 5, 5 wants 35, 6 BadForm { at: 5 }
server | C\0\0\0\x0eUPDATE 01 | 0 wants 5, 5 wants 15, 13 BadForm { at: 12 }
server | C\0\0\0 SELECT 18446744073709551616 | 0 wants 5, 5 wants 33, 32 BadForm { at: 31 }
server | T\0\0\0\x1f | 0 wants 5, 5 BadLength { seen: 31 }
server | D\0\0\0\x0e\0\x02 | 0 wants 5, 5 wants 15, 7 BadForm { at: 6 }
server | D\0\0\0\x0f\0\x02\0\0\0\x02 | 0 wants 5, 5 wants 16, 11 BadForm { at: 10 }
server | D\0\0\0\x10\0\x02\0\0\0\x02-0 | 0 wants 5, 5 wants 17, 13 BadForm { at: 12 }
server | D\0\0\0!\0\x02\0\0\0\x139223372036854775808 | 0 wants 5, 5 wants 34, 30 BadForm { at: 29 }
server | D\0\0\0\x0c\0\x01\0\0\0\x02\xed\xa0 | 0 wants 5, 5 wants 13, 12 BadForm { at: 11 }
server | D\0\0\0\x0d\0\x01\0\0\0\x03\xed\xa0 | 0 wants 5, 5 wants 14, 13 BadForm { at: 12 }
server | S\0\0\0\x06\0a | 0 wants 5, 5 wants 7, 7 BadForm { at: 6 }
server | S\0\0\0\x07a\0b | 0 wants 5, 5 wants 8, 8 BadForm { at: 7 }
server | E\0\0\0\x1cSW | 0 wants 5, 5 wants 29, 7 BadForm { at: 6 }
server | E\0\0\0\x1dSERROR\0VERROR\0C53200\0M\0 | 0 wants 5, 5 wants 30, 28 BadForm { at: 27 }
server | E\0\0\0\x1cSERROR\0VFATAL | 0 wants 5, 5 wants 29, 14 BadForm { at: 13 }
server | Z\0\0\0\x05T | 0 wants 5, 5 wants 6, 6 BadForm { at: 5 }
# startup packets
packet | \0\0\0\x08\x04\xd2\x16/ | 0 short, 8 Ssl used 8
packet | \0\0\0\x08\x04\xd2\x160 | 0 short, 8 Gss used 8
packet | \0\0\0\x0a\x04\xd2\x16/hi | 0 short, 10 Ssl used 10
packet | \0\0\0\x08\x04\xd2\x16/\0\0\0\x08\x04\xd2\x160 | 0 short, 8 Ssl used 8
packet | \0\0\0\x10\x04\xd2\x16.\0\0\0\x04\xb8\x19\xd2\xbd | 0 short, 16 Cancel { pid: 4, key: 3088700093 } used 16
packet | \0\0\0\x12\0\x03\0\0user\0ann\0\0 | 0 short, 18 start of ann used 18
packet | \0\0\0T\0\x03\0\0user\0postgres\0database\0postgres\0application_name\0psql\0client_encoding\0UTF8\0\0 | 0 short, 84 start of postgres used 84
packet | \0\0\0\x1b\0\x03\0\0user\0ann\0user\0bob\0\0 | 0 short, 27 start of bob used 27
packet | \0\0\05\0\x03\0\0user\0ann\0replication\0true\0replication\0false\0\0 | 0 short, 53 start of ann used 53
packet | \0\0\0"\0\x03\0\0user\0ann\0replication\0off\0\0 | 0 short, 34 start of ann used 34
packet | \0\0\0!\0\x03\0\0user\0ann\0replication\0no\0\0 | 0 short, 33 start of ann used 33
packet | \0\0\0 \0\x03\0\0user\0ann\0replication\00\0\0 | 0 short, 32 start of ann used 32
# refused ones, by the order of the checks
packet | \0\0\0\0 | 0 short, 4 Length { seen: 0 }: invalid length of startup packet: 0
packet | \0\0\0\x07 | 0 short, 4 Length { seen: 7 }: invalid length of startup packet: 7
packet | \0\0\0\x08 | 0 short
packet | \0\0'\x14 | 0 short
packet | \0\0'\x15 | 0 short, 4 Length { seen: 10005 }: invalid length of startup packet: 10005
packet | \xff\xff\xff\xff | 0 short, 4 Length { seen: 4294967295 }: invalid length of startup packet: 4294967295
packet | \0\0\0\x08\0\x02\0\0 | 0 short, 8 Version { major: 2, minor: 0 }: unsupported frontend protocol 2.0: server supports 3.0 to 3.0
packet | \0\0\0\x08\0\x03\0\x01 | 0 short, 8 Version { major: 3, minor: 1 }: unsupported frontend protocol 3.1: server supports 3.0 to 3.0
packet | \0\0\0\x08\x04\xd2\x16- | 0 short, 8 Version { major: 1234, minor: 5677 }: unsupported frontend protocol 1234.5677: server supports 3.0 to 3.0
packet | \0\0\0\x07\0\x02\0\0 | 0 short, 4 Length { seen: 7 }: invalid length of startup packet: 7
packet | \0\0\0\x0c\x04\xd2\x16.\0\0\0\x04 | 0 short, 12 Length { seen: 12 }: invalid length of startup packet: 12
packet | \0\0\0\x14\x04\xd2\x16.\0\0\0\x04\xb8\x19\xd2\xbd\0\0\0\0 | 0 short, 20 Length { seen: 20 }: invalid length of startup packet: 20
packet | \0\0\0\x08\0\x03\0\0 | 0 short, 8 Malformed { at: 8 }: invalid startup packet layout: expected terminator as last byte
packet | \0\0\0\x0c\0\x03\0\0user | 0 short, 12 Malformed { at: 8 }: invalid startup packet layout: expected terminator as last byte
packet | \0\0\0\x11\0\x03\0\0user\0ann\0 | 0 short, 17 Malformed { at: 17 }: invalid startup packet layout: expected terminator as last byte
packet | \0\0\0\x13\0\x03\0\0user\0ann\0db | 0 short, 19 Malformed { at: 17 }: invalid startup packet layout: expected terminator as last byte
packet | \0\0\0\x10\0\x03\0\0user\0ann | 0 short, 16 Malformed { at: 13 }: invalid startup packet layout: expected terminator as last byte
packet | \0\0\0\x13\0\x03\0\0user\0ann\0\0x | 0 short, 19 Malformed { at: 18 }: invalid startup packet layout: expected terminator as last byte
packet | \0\0\0\x09\0\x03\0\0\0 | 0 short, 9 NoUser: no PostgreSQL user name specified in startup packet
packet | \0\0\0\x0f\0\x03\0\0user\0\0\0 | 0 short, 15 NoUser: no PostgreSQL user name specified in startup packet
packet | \0\0\0\x18\0\x03\0\0user\0ann\0user\0\0\0 | 0 short, 24 NoUser: no PostgreSQL user name specified in startup packet
packet | \0\0\0\x12\0\x03\0\0_pq_.x\0y\0\0 | 0 short, 18 NoUser: no PostgreSQL user name specified in startup packet
packet | \0\0\0\x1b\0\x03\0\0user\0ann\0_pq_.x\0y\0\0 | 0 short, 27 PqOption: protocol options are not supported
packet | \0\0\0,\0\x03\0\0user\0ann\0_pq_.x\0y\0replication\0true\0\0 | 0 short, 44 PqOption: protocol options are not supported
packet | \0\0\0#\0\x03\0\0user\0ann\0replication\0true\0\0 | 0 short, 35 Replication: replication connections are not supported
packet | \0\0\0\x1f\0\x03\0\0user\0ann\0replication\0\0\0 | 0 short, 31 Replication: replication connections are not supported"#;

fn text_of(bytes: &[u8]) -> Result<&str, Fail> {
    Ok(str::from_utf8(bytes).ok().ok_or("UTF-8")?)
}

fn client(alloc: Global, bytes: &[u8]) -> Result<String, Fail> {
    Ok(match Front::read(bytes) {
        Take::Whole {
            value: Front::Query(text),
            used,
        } => format!(in alloc; "query `{}` used {used}", text_of(text)?)?,
        Take::Whole { value, used } => format!(in alloc; "{value:?} used {used}")?,
        Take::Short { wanted } => format!(in alloc; "wants {wanted}")?,
        Take::Bad(fault) => format!(in alloc; "{fault:?}")?,
    })
}

// A message that is read is written as it stood there.
fn server(alloc: Global, bytes: &[u8]) -> Result<String, Fail> {
    let (value, used) = match read_back(bytes) {
        Take::Whole { value, used } => (value, used),
        Take::Short { wanted } => return Ok(format!(in alloc; "wants {wanted}")?),
        Take::Bad(fault) => return Ok(format!(in alloc; "{fault:?}")?),
    };
    let mut out = Bytes::new(alloc);
    value.write(&mut out)?;
    let as_it_stood = bytes.get(..used) == Some(out.as_slice());
    let otherwise = if as_it_stood {
        ""
    } else {
        ", written otherwise"
    };
    Ok(format!(in alloc; "{value:?} used {used}{otherwise}")?)
}

fn packet(alloc: Global, bytes: &[u8]) -> Result<String, Fail> {
    Ok(match read(bytes) {
        Read::Whole {
            packet: Packet::Start { user },
            used,
        } => format!(in alloc; "start of {} used {used}", text_of(user)?)?,
        Read::Whole { packet, used } => format!(in alloc; "{packet:?} used {used}")?,
        Read::Short => format!(in alloc; "short")?,
        Read::Bad(fault) => format!(in alloc; "{fault:?}: {fault}")?,
    })
}

fn told(alloc: Global, sender: &str, bytes: &[u8]) -> Result<String, Fail> {
    match sender {
        "client" => client(alloc, bytes),
        "server" => server(alloc, bytes),
        _ => packet(alloc, bytes),
    }
}

// What each front is read as, where that changes.
fn fronts(alloc: Global, sender: &str, bytes: &[u8]) -> Result<String, Fail> {
    let mut all = String::new(alloc);
    let mut last = String::new(alloc);
    for cut in 0..=bytes.len() {
        let front = bytes.get(..cut).ok_or("a front")?;
        let found = told(alloc, sender, front)?;
        if found.as_str() != last.as_str() {
            let comma = if cut > 0 { ", " } else { "" };
            all.push_str(format!(in alloc; "{comma}{cut} {}", found.as_str())?.as_str())?;
            last = found;
        }
    }
    Ok(all)
}

fn check(rt: &impl Abort, alloc: Global, line: &str) -> Result<(), Fail> {
    let (sender, rest) = line.split_once(" | ").ok_or("a sender")?;
    let (escaped, want) = rest.split_once(" | ").ok_or("some bytes")?;
    let bytes = Vec::unescape_bytes(alloc, escaped)?;
    let found = fronts(alloc, sender, &bytes)?;
    assert_eq!(rt; found.as_str(), want, "{line}");
    Ok(())
}

#[test]
fn bytes_are_read_as_they_come(rt: HostRuntime) -> Result<(), Fail> {
    let alloc = rt.alloc();
    for line in TABLE.lines() {
        if !line.starts_with('#') {
            check(&rt, alloc, line)?;
        }
    }
    Ok(())
}
