//! Text that a row keeps.
ghost use Rattle.std.specs.{Prelude.{◌≡◌, IfOk}, Str.IsUtf8};

use std::alloc::{AllocError, Global};
use std::marker::Model;
use std::sync::ArcStr;

/// UTF-8 text that isn't changed. Contracts see it as the list of its bytes.
///
/// Its copies share the bytes, so a text that goes from a statement into a commit, the table and the book is kept once.
#[derive(Debug, Drop)]
pub struct Text {
    content: ArcStr,
}

impl Model for Text {
    ghost use Rattle.std.specs.{Prelude.{ℕ, List}, Arc.arc_str_bytes, Str.IsUtf8};

    ghost Value = { List ℕ };

    ghost view = { λ text. arc_str_bytes text.content };

    ghost invariant = { λ text. IsUtf8 (arc_str_bytes text.content) };
}

impl Text {
    /// A text with the bytes of `content`, which are copied. It fails only where memory is short.
    pub fn of(alloc: Global, content: &str) -> Result<Text, AllocError>
        ensures { IfOk result (λ text. text ≡ content.now) }
    {
        Ok(Text {
            content: ArcStr::from_str(alloc, content)?,
        })
    }

    /// The text as a string slice, which has the same bytes.
    pub fn as_str(&self) -> &str
        ensures bytes { result.now ≡ self.now }
        ensures utf8 { IsUtf8 self.now }
    {
        self.content.as_str()
    }

    /// An equal text, which shares the bytes. It fails only where there are as many copies as can be counted.
    pub fn copy(&self) -> Result<Text, AllocError>
        ensures { IfOk result (λ text. text ≡ self.now) }
    {
        Ok(Text {
            content: self.content.clone()?,
        })
    }
}

// The table of rows copies its values by this.
impl Clone for Text {
    ghost is_clone = { λ text copied. copied ≡ text };

    fn clone(&self) -> Result<Text, AllocError> {
        self.copy()
    }
}
