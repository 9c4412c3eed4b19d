//! What a session answers to its statements.
ghost use Rattle.std.specs.Prelude.{◌≡◌, ◌++◌, IfOk};
ghost use Rattle.pm_settings.specs.Answers.{code_of, column_of, message_of, row_tag, tag_of, type_of};

use crate::setting::Setting;
use pm_rows::Text;
use std::alloc::{AllocError, Global};

/// An answer that isn't an error. Each has a tag, and one has a row of one column before it.
#[derive(Clone, Copy, Debug, PartialEq, Eq)]
pub enum Answer {
    Set,
    Reset,
    DiscardAll,
    CloseAll,
    UnlistenAll,
    Row(Cell),
}

/// The one value that a row shows.
#[derive(Clone, Copy, Debug, PartialEq, Eq)]
pub enum Cell {
    /// The value of a setting.
    Setting(Setting),
    /// Nothing, of a call that has no result.
    Unlocked,
    /// What the server is.
    Version,
    /// A number.
    Number(u32),
}

/// Why a statement is refused.
#[derive(Debug, Drop)]
pub enum Refusal {
    /// There is no setting of this name.
    Unknown { name: Text },
    /// The setting doesn't take this value.
    Value { setting: Setting, value: Text },
    /// The setting is only shown.
    Fixed { setting: Setting },
    /// A mode is READ ONLY.
    ReadOnly,
    NoMemory,
}

impl Answer {
    /// The tag of CommandComplete.
    pub fn tag(self) -> &'static str
        ensures { result.now ≡ tag_of self }
    {
        match self {
            Answer::Set => "SET",
            Answer::Reset => "RESET",
            Answer::DiscardAll => "DISCARD ALL",
            Answer::CloseAll => "CLOSE CURSOR ALL",
            Answer::UnlistenAll => "UNLISTEN",
            Answer::Row(cell) => cell.tag(),
        }
    }
}

impl Cell {
    // The tag of its row.
    fn tag(self) -> &'static str
        ensures { result.now ≡ row_tag self }
    {
        match self {
            Cell::Setting(_) => "SHOW",
            Cell::Unlocked | Cell::Version | Cell::Number(_) => "SELECT 1",
        }
    }

    /// The name of its column.
    pub fn column(self) -> &'static str
        ensures { result.now ≡ column_of self }
    {
        match self {
            Cell::Setting(setting) => setting.name(),
            Cell::Unlocked => "pg_advisory_unlock_all",
            Cell::Version => "version",
            Cell::Number(_) => "?column?",
        }
    }

    /// The number of its type: `text`, `void` or `int4`.
    pub fn type_number(self) -> u32
        ensures { result ≡ type_of self }
    {
        match self {
            Cell::Setting(_) | Cell::Version => 25,
            Cell::Unlocked => 2278,
            Cell::Number(_) => 23,
        }
    }
}

impl Refusal {
    /// The five characters of its SQLSTATE code.
    pub fn code(&self) -> [u8; 5]
        ensures { result ≡ code_of self.now }
    {
        match self {
            Refusal::Unknown { .. } => *b"42704",
            Refusal::Value { .. } => *b"22023",
            Refusal::Fixed { .. } => *b"55P02",
            Refusal::ReadOnly => *b"0A000",
            Refusal::NoMemory => *b"53200",
        }
    }

    /// What a client is told.
    pub fn message(&self, alloc: Global) -> Result<Text, AllocError>
        ensures { IfOk result (λ message. message ≡ message_of self.now) }
    {
        match self {
            Refusal::Unknown { name } => joined(
                alloc,
                "unrecognized configuration parameter \"",
                name.as_str(),
                "\"",
            ),
            Refusal::Value { setting, value } => {
                let start = joined(
                    alloc,
                    "invalid value for parameter \"",
                    setting.name(),
                    "\": \"",
                )?;
                joined(alloc, start.as_str(), value.as_str(), "\"")
            }
            Refusal::Fixed { setting } => {
                joined(
                    alloc,
                    "parameter \"",
                    setting.name(),
                    "\" cannot be changed",
                )
            }
            Refusal::ReadOnly => Text::of(alloc, "read-only is set by BEGIN READ ONLY alone"),
            Refusal::NoMemory => Text::of(alloc, "out of memory"),
        }
    }
}

// Three texts, one after another.
fn joined(alloc: Global, first: &str, second: &str, third: &str) -> Result<Text, AllocError>
    ensures { IfOk result (λ text. text ≡ (first.now ++ second.now) ++ third.now) }
{
    let mut text = String::from_str(alloc, first)?;
    text.push_str(second)?;
    text.push_str(third)?;
    Text::of(alloc, text.as_str())
}

impl From<AllocError> for Refusal {
    ghost use Rattle.pm_settings.specs.declared.answer.Refusal.TheVariants.{NoMemory};

    ghost from_gives = { λ _ refusal. refusal ≡ NoMemory };

    fn from(_error: AllocError) -> Refusal {
        Refusal::NoMemory
    }
}
