//! The settings, each with its name, what it takes and the value that it has from the beginning.
ghost use Rattle.std.specs.Prelude.{◌≡◌, ◌<◌, IfSome};
ghost use Rattle.pm_settings.specs.{Names.{fits, is_fixed, is_named, is_short, row_of, is_taken, setting_named, starts_iso}, Told.place_of, pm_sql.Tokens.is_same_word};

use pm_rows::Text;

/// The longest value of a setting, in bytes.
pub const MAX_SETTING_BYTES: usize = 256;

/// A setting. Those up to `TimeZone` are kept as they are told.
#[derive(Clone, Copy, Debug, PartialEq, Eq)]
pub enum Setting {
    ApplicationName,
    ClientMinMessages,
    DateStyle,
    ExtraFloatDigits,
    IntervalStyle,
    SearchPath,
    TimeZone,
    ClientEncoding,
    StandardConformingStrings,
    StatementTimeout,
    LockTimeout,
    IdleInTransactionSessionTimeout,
    DefaultTransactionReadOnly,
    ServerVersion,
    ServerEncoding,
    IntegerDatetimes,
    TransactionIsolation,
}

/// What a setting takes.
#[derive(Clone, Copy, Debug, PartialEq, Eq)]
pub(crate) enum Takes {
    /// Any value that isn't too long.
    Any,
    /// A value that isn't too long and begins with ISO.
    Iso,
    /// Its own value alone.
    Own,
    /// Its own value, UTF8, under each of its names.
    Utf8,
    /// None: it is only shown.
    Nothing,
}

/// A setting as the table has it.
#[derive(Clone, Copy)]
pub(crate) struct Row {
    pub(crate) name: &'static str,
    pub(crate) takes: Takes,
    pub(crate) value: &'static str,
}

/// All settings.
const ALL: [Setting; 17] = [
    Setting::ApplicationName,
    Setting::ClientMinMessages,
    Setting::DateStyle,
    Setting::ExtraFloatDigits,
    Setting::IntervalStyle,
    Setting::SearchPath,
    Setting::TimeZone,
    Setting::ClientEncoding,
    Setting::StandardConformingStrings,
    Setting::StatementTimeout,
    Setting::LockTimeout,
    Setting::IdleInTransactionSessionTimeout,
    Setting::DefaultTransactionReadOnly,
    Setting::ServerVersion,
    Setting::ServerEncoding,
    Setting::IntegerDatetimes,
    Setting::TransactionIsolation,
];

impl Takes {
    // Whether it takes this value, where its own is `own`.
    fn fits(self, own: &str, value: &str) -> bool
        ensures { result ≡ fits self own.now value.now }
    {
        match self {
            Takes::Any => is_short(value),
            Takes::Iso => is_short(value) && starts_iso(value),
            Takes::Own => is_same(value, own),
            Takes::Utf8 => {
                is_same(value, own) || is_same(value, "utf-8") || is_same(value, "unicode")
            }
            Takes::Nothing => false,
        }
    }
}

fn is_short(value: &str) -> bool
    ensures { result ≡ is_short value.now }
{
    value.len() <= MAX_SETTING_BYTES
}

// Whether texts differ in ASCII case alone.
fn is_same(first: &str, second: &str) -> bool
    ensures { result ≡ is_same_word first.now second.now }
{
    first.eq_ignore_ascii_case(second)
}

fn starts_iso(value: &str) -> bool
    ensures { result ≡ starts_iso value.now }
{
    let bytes = value.as_bytes();
    bytes[..bytes.len().min(3)].eq_ignore_ascii_case(b"iso")
}

impl Setting {
    /// The setting of a name, in any case.
    pub fn named(name: &str) -> Option<Setting>
        ensures { result ≡ setting_named name.now }
    {
        ALL.iter().copied().find(|setting| setting.is_named(name))
    }

    fn is_named(self, name: &str) -> bool
        ensures { result ≡ is_named name.now self }
    {
        is_same(name, self.name())
    }

    /// The name as it is shown.
    pub fn name(self) -> &'static str
        ensures { result.now ≡ (row_of self).name }
    {
        self.row().name
    }

    /// The value that it has from the beginning.
    pub fn own_value(self) -> &'static str
        ensures { result.now ≡ (row_of self).value }
    {
        self.row().value
    }

    /// Whether it is only shown.
    pub fn is_fixed(self) -> bool
        ensures { result ≡ is_fixed self }
    {
        matches!(self.row().takes, Takes::Nothing)
    }

    /// Whether it may be given this value.
    pub fn fits(self, value: &str) -> bool
        ensures { result ≡ is_taken self value.now }
    {
        let row = self.row();
        row.takes.fits(row.value, value)
    }

    // The table.
    fn row(self) -> Row
        ensures name { result.name.now ≡ (row_of self).name }
        ensures takes { result.takes ≡ (row_of self).takes }
        ensures value { result.value.now ≡ (row_of self).value }
    {
        use Takes::{Any, Iso, Nothing, Own, Utf8};
        match self {
            Setting::ApplicationName => Row::of("application_name", Any, ""),
            Setting::ClientMinMessages => Row::of("client_min_messages", Any, "notice"),
            Setting::DateStyle => Row::of("DateStyle", Iso, "ISO, MDY"),
            Setting::ExtraFloatDigits => Row::of("extra_float_digits", Any, "1"),
            Setting::IntervalStyle => Row::of("IntervalStyle", Any, "postgres"),
            Setting::SearchPath => Row::of("search_path", Any, "\"$user\", public"),
            Setting::TimeZone => Row::of("TimeZone", Any, "GMT"),
            Setting::ClientEncoding => Row::of("client_encoding", Utf8, "UTF8"),
            Setting::StandardConformingStrings => Row::of("standard_conforming_strings", Own, "on"),
            Setting::StatementTimeout => Row::of("statement_timeout", Own, "0"),
            Setting::LockTimeout => Row::of("lock_timeout", Own, "0"),
            Setting::IdleInTransactionSessionTimeout => {
                Row::of("idle_in_transaction_session_timeout", Own, "0")
            }
            Setting::DefaultTransactionReadOnly => {
                Row::of("default_transaction_read_only", Own, "off")
            }
            Setting::ServerVersion => Row::of("server_version", Nothing, "16.0"),
            Setting::ServerEncoding => Row::of("server_encoding", Nothing, "UTF8"),
            Setting::IntegerDatetimes => Row::of("integer_datetimes", Nothing, "on"),
            Setting::TransactionIsolation => Row::of(
                "transaction_isolation",
                Nothing,
                "serializable",
            ),
        }
    }

    // Its place among those that are kept as they are told.
    pub(crate) fn place(self) -> Option<usize>
        ensures place { result ≡ place_of self }
        ensures few { IfSome result (λ place. place < 7) }
    {
        match self {
            Setting::ApplicationName => Some(0),
            Setting::ClientMinMessages => Some(1),
            Setting::DateStyle => Some(2),
            Setting::ExtraFloatDigits => Some(3),
            Setting::IntervalStyle => Some(4),
            Setting::SearchPath => Some(5),
            Setting::TimeZone => Some(6),
            _ => None,
        }
    }
}

impl Row {
    fn of(name: &'static str, takes: Takes, value: &'static str) -> Row
        ensures name { result.name.now ≡ name.now }
        ensures takes { result.takes ≡ takes }
        ensures value { result.value.now ≡ value.now }
    {
        Row { name, takes, value }
    }
}
