//! How the rule on bytes and UTF-8 belong together. The functions do nothing: each stands for the law in
//! its contract.

ghost use Rattle.std.specs.{Prelude.{◌≡◌, ◌+◌, ◌≤◌, ◌<◌, ◌↔◌, ◌++◌, All, List, ℕ, Some, None, length}, Str.IsUtf8};
ghost use Rattle.pm_utf8.specs.{declared.Awaited.Awaited, Utf8.{boundary, run}};

/// Bytes are UTF-8 just where each may follow those before it, and the last ends a character.
pub fn text_ends_between_characters()
    ensures { (bytes : List ℕ) → IsUtf8 bytes ↔ (run boundary bytes ≡ Some boundary) }
{}

/// A text that is cut needs at least the bytes that are awaited there, and can have any greater number; one
/// with a byte that can't stand where it does is mended by no bytes after it.
pub fn text_needs_what_is_awaited()
    ensures at_least { (front rest : List ℕ) (state : Awaited) → run boundary front ≡ Some state
        → IsUtf8 (front ++ rest) → state.more ≤ length rest }
    ensures any_more { (front : List ℕ) (state : Awaited) (count : ℕ)
        → run boundary front ≡ Some state → state.more ≤ count → (rest : List ℕ)
        × (length rest ≡ count) × IsUtf8 (front ++ rest) }
    ensures no_way { (front rest : List ℕ) → run boundary front ≡ None → IsUtf8 (front ++ rest)
        → ⊥ }
{}

/// No byte of a text is above 0xF4.
pub fn text_has_no_byte_past_the_last()
    ensures { (bytes : List ℕ) (state : Awaited) → run boundary bytes ≡ Some state
        → All (λ byte. byte < 245) bytes }
{}
