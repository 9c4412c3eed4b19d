//! Where texts are cut in two.

ghost use Rattle.std.specs.Prelude.{◌≡◌, ◌==◌, ◌++◌, ◌<◌, ℕ, List, IfSome, IfNone, position};
ghost use Rattle.pm_auth.specs.Cuts.{IsCut, IsCutAt, IsFreeOf};

/// The text before the first such character, and the text after it.
pub fn cut(text: &str, at: char) -> Option<(&str, &str)>
    requires { at < 128 }
    ensures found { IfSome result (λ parts. IsCut at text.now parts.0.now parts.1.now) }
    ensures none { IfNone result (IsFreeOf at text.now) }
{
    text.split_once(at)
}

/// The bytes before the first such byte, and the bytes after it.
pub fn cut_bytes(bytes: &[u8], at: u8) -> Option<(&[u8], &[u8])>
    ensures found { IfSome result (λ parts. IsCut at bytes.now parts.0.now parts.1.now) }
    ensures none { IfNone result (IsFreeOf at bytes.now) }
{
    let end = place_of(bytes, at)?;
    Some((&bytes[..end], &bytes[end + 1..]))
}

// The place of the first such byte.
fn place_of(bytes: &[u8], at: u8) -> Option<usize>
    ensures { result ≡ position (λ byte. byte == at) bytes.now }
{
    bytes.iter().position(|byte| *byte == at)
}

/// So many bytes before this byte, and the bytes after it, if it stands there.
pub fn cut_after(bytes: &[u8], count: usize, at: u8) -> Option<(&[u8], &[u8])>
    ensures found { IfSome result (λ parts. IsCutAt count at bytes.now parts.0.now parts.1.now) }
    ensures none { IfNone result ((front rest : List ℕ) → ¬ IsCutAt count at bytes.now front rest) }
{
    if count < bytes.len() && bytes[count] == at {
        Some((&bytes[..count], &bytes[count + 1..]))
    } else {
        None
    }
}

/// What stands after this front, if the bytes begin with it.
pub fn after<'a>(bytes: &'a [u8], front: &[u8]) -> Option<&'a [u8]>
    ensures found { IfSome result (λ rest. bytes.now ≡ front.now ++ rest.now) }
    ensures none { IfNone result ((rest : List ℕ) → ¬ (bytes.now ≡ front.now ++ rest)) }
{
    bytes.strip_prefix(front)
}
