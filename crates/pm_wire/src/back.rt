//! What the server sends.

use crate::condition::Condition;

/// A message of the server (Frontend/Backend Protocol, Message Formats).
#[derive(Clone, Copy, Debug, PartialEq, Eq)]
pub enum Back<'a> {
    /// AuthenticationOk.
    Auth,
    /// ParameterStatus: a setting that the client should know.
    Param { name: &'a str, value: &'a str },
    /// BackendKeyData: what a request to cancel has to name.
    Key { pid: u32, key: u32 },
    /// ReadyForQuery, outside of a transaction.
    Ready,
    /// RowDescription.
    Fields(Shape),
    /// DataRow of a key and its value.
    Pair { key: i64, value: &'a str },
    /// DataRow of one column.
    One { text: &'a str },
    /// CommandComplete.
    Complete(Tag),
    /// EmptyQueryResponse.
    Empty,
    /// ErrorResponse.
    Fault(Report<'a>),
    /// NoticeResponse.
    Notice(Report<'a>),
    /// An error or a notice of the table. Read again, it is a `Fault` or a `Notice`.
    Told(Condition<'a>),
}

/// The columns of a result.
#[derive(Clone, Copy, Debug, PartialEq, Eq)]
pub enum Shape {
    /// `k` bigint and `v` text.
    Pair,
    /// `count` bigint.
    Count,
    /// `pg_sleep` text.
    Sleep,
}

/// What a statement did, with the number of its rows.
#[derive(Clone, Copy, Debug, PartialEq, Eq)]
pub enum Tag {
    Insert(u64),
    Update(u64),
    Delete(u64),
    Select(u64),
}

/// The fields of an error or a notice (Frontend/Backend Protocol, Error and Notice Message Fields).
#[derive(Clone, Copy, Debug, PartialEq, Eq)]
pub struct Report<'a> {
    pub severity: Severity,
    /// SQLSTATE.
    pub code: [u8; 5],
    pub text: &'a str,
    pub detail: Option<&'a str>,
}

#[derive(Clone, Copy, Debug, PartialEq, Eq)]
pub enum Severity {
    Error,
    Fatal,
    Panic,
    Warning,
}
