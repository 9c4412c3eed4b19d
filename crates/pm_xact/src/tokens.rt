//! The tokens at the front of a text.
ghost use Rattle.std.specs.{Prelude.{◌≡◌, IsTrue}, List.prefix_len, Option.{option_copied, option_map}};
ghost use Rattle.pm_sql.specs.Tokens.{is_word_byte};
ghost use Rattle.pm_xact.specs.Reading.{tokens_of, is_blank, is_keyword, after_word, after_comma, after_semicolons, is_end};

fn is_word_byte(byte: u8) -> bool
    ensures { result ≡ is_word_byte byte }
{
    byte.is_ascii_alphanumeric() || byte == b'_'
}

fn is_blank(byte: u8) -> bool
    ensures { result ≡ is_blank byte }
{
    byte.is_ascii_whitespace() || byte == b';'
}

// The number of letters, digits and `_` at the front.
fn run_len(here: &[u8]) -> usize
    ensures { result ≡ prefix_len is_word_byte here.now }
{
    here.iter().take_while(|byte| is_word_byte(**byte)).count()
}

// The number of semicolons and of white space at the front.
fn blank_len(input: &[u8]) -> usize
    ensures { result ≡ prefix_len is_blank input.now }
{
    input.iter().take_while(|byte| is_blank(**byte)).count()
}

/// What stands after this word, in any case, where it comes next.
pub(crate) fn after_word<'a>(input: &'a [u8], word: &str) -> Option<&'a [u8]>
    requires { IsTrue (is_keyword word.now) }
    ensures { option_map tokens_of (option_copied result) ≡ after_word word.now (tokens_of input.now) }
{
    let here = input.trim_ascii_start();
    let (first, rest) = here.split_at(run_len(here));
    if first.eq_ignore_ascii_case(word.as_bytes()) {
        Some(rest)
    } else {
        None
    }
}

/// What stands after a comma, where one comes next, or else the text.
pub(crate) fn after_comma(input: &[u8]) -> &[u8]
    ensures { tokens_of result.now ≡ after_comma (tokens_of input.now) }
{
    let here = input.trim_ascii_start();
    match here.split_first() {
        Some((first, rest)) => { if *first == b',' { rest } else { here } }
        None => here,
    }
}

/// What stands after all semicolons that come next.
pub(crate) fn after_semicolons(input: &[u8]) -> &[u8]
    ensures { tokens_of result.now ≡ after_semicolons (tokens_of input.now) }
{
    let (_blank, rest) = input.split_at(blank_len(input));
    rest
}

/// Whether nothing comes but semicolons.
pub(crate) fn is_end(input: &[u8]) -> bool
    ensures { result ≡ is_end (tokens_of input.now) }
{
    blank_len(input) == input.len()
}
