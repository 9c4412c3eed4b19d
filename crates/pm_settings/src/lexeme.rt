//! The lexemes of a text.
ghost use Rattle.std.specs.{Prelude.{◌≡◌, ◌∷◌, [], MatchOption}, Option.option_copied};
ghost use Rattle.pm_settings.specs.{Lexemes.{is_mark, is_word, words_in}, Reading.{are_words, after_words, is_empty, only_word, word_in}};

use pm_rows::Text;

/// A token of a text, a word in lower case.
#[derive(Debug, Drop)]
pub(crate) enum Lexeme {
    Word(Text),
    Digits(Text),
    Quoted(Text),
    Mark(u8),
}

impl Lexeme {
    /// Whether it is this word.
    pub(crate) fn is_word(&self, letters: &str) -> bool
        ensures { result ≡ is_word letters.now self.now }
    {
        match self {
            Lexeme::Word(own) => own.as_str() == letters,
            _ => false,
        }
    }

    /// Whether it is this character.
    pub(crate) fn is_mark(&self, byte: u8) -> bool
        ensures { result ≡ is_mark byte self.now }
    {
        match self {
            Lexeme::Mark(own) => *own == byte,
            _ => false,
        }
    }

    /// Its letters, where it is a word.
    pub(crate) fn word(&self) -> Option<&Text>
        ensures { option_copied result ≡ word_in self.now }
    {
        match self {
            Lexeme::Word(letters) => Some(letters),
            _ => None,
        }
    }
}

/// The first lexeme, and what comes after it.
pub(crate) fn first_of(lexemes: &[Lexeme]) -> Option<(&Lexeme, &[Lexeme])>
    ensures { MatchOption result (lexemes.now ≡ []) (λ p. lexemes.now ≡ p.0.now ∷ p.1.now) }
{
    lexemes.split_first()
}

pub(crate) fn is_empty(lexemes: &[Lexeme]) -> bool
    ensures { result ≡ is_empty lexemes.now }
{
    match first_of(lexemes) {
        Some(_) => false,
        None => true,
    }
}

/// The only lexeme, where it is a word.
pub(crate) fn only_word(lexemes: &[Lexeme]) -> Option<&Text>
    ensures { option_copied result ≡ only_word lexemes.now }
{
    let (first, rest) = first_of(lexemes)?;
    if is_empty(rest) { first.word() } else { None }
}

// What comes after this word, where it is the first lexeme.
fn after_word<'a>(lexemes: &'a [Lexeme], word: &str) -> Option<&'a [Lexeme]>
    ensures { option_copied result ≡ after_words (word.now ∷ []) lexemes.now }
{
    let (first, rest) = first_of(lexemes)?;
    if first.is_word(word) {
        Some(rest)
    } else {
        None
    }
}

/// What comes after these words, which have single spaces between them, where they are the first lexemes.
pub(crate) fn after_words<'a>(lexemes: &'a [Lexeme], words: &str) -> Option<&'a [Lexeme]>
    ensures { option_copied result ≡ after_words (words_in words.now) lexemes.now }
{
    let mut rest = lexemes;
    for word in words.split(' ') {
        rest = after_word(rest, word)?;
    }
    Some(rest)
}

/// Whether these words, which have single spaces between them, are all the lexemes.
pub(crate) fn are_words(lexemes: &[Lexeme], words: &str) -> bool
    ensures { result ≡ are_words (words_in words.now) lexemes.now }
{
    match after_words(lexemes, words) {
        Some(rest) => is_empty(rest),
        None => false,
    }
}
