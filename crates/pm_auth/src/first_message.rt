//! The first message of a client.

ghost use Rattle.std.specs.Prelude.{◌≡◌, ◌↔◌, ◌++◌, ℕ, List, IfSome, IfNone, IsTrue};
ghost use Rattle.pm_auth.specs.{Scram.{IsBare, IsFirst, IsNonce, header}, Served.IsNoFirst};

use crate::cuts::{after, cut_bytes};

/// What a client says of channel binding, which no server of passwords alone has.
#[derive(Clone, Copy)]
pub enum Binding {
    /// It has none either.
    Unsupported,
    /// It has it, and was told of none here.
    Unoffered,
}

/// What a client's first message says.
#[derive(Clone, Copy)]
pub struct FirstMessage<'a> {
    pub binding: Binding,
    /// All after the header.
    pub bare: &'a [u8],
    pub nonce: &'a [u8],
}

impl Binding {
    /// The header that says it.
    pub fn header(self) -> &'static [u8]
        ensures { result.now ≡ header self }
    {
        match self {
            Binding::Unsupported => b"n,,",
            Binding::Unoffered => b"y,,",
        }
    }
}

/// What a first message says.
pub fn read_first(message: &[u8]) -> Option<FirstMessage<'_>>
    ensures found { IfSome result (λ said. IsFirst message.now said.binding said.bare.now said.nonce.now) }
    ensures none { IfNone result (IsNoFirst message.now) }
{
    let (binding, bare) = binding_in(message)?;
    let nonce = nonce_in(bare)?;
    Some(FirstMessage {
        binding,
        bare,
        nonce,
    })
}

// What the header says, and what stands after it.
fn binding_in(message: &[u8]) -> Option<(Binding, &[u8])>
    ensures found { IfSome result (λ said. message.now ≡ header said.0 ++ said.1.now) }
    ensures none { IfNone result ((binding : Binding) (rest : List ℕ)
        → ¬ (message.now ≡ header binding ++ rest)) }
{
    if let Some(bare) = after(message, b"n,,") {
        return Some((Binding::Unsupported, bare));
    }
    let bare = after(message, b"y,,")?;
    Some((Binding::Unoffered, bare))
}

// The client's nonce. The name before it isn't looked at.
fn nonce_in(bare: &[u8]) -> Option<&[u8]>
    ensures found { IfSome result (λ nonce. IsBare bare.now nonce.now) }
    ensures none { IfNone result ((nonce : List ℕ) → ¬ IsBare bare.now nonce) }
{
    let named = after(bare, b"n=")?;
    let (_name, rest) = cut_bytes(named, b',')?;
    let nonce = after(rest, b"r=")?;
    if is_nonce(nonce) { Some(nonce) } else { None }
}

// Whether these bytes may be a nonce: printable ones without a comma, and at least one.
fn is_nonce(bytes: &[u8]) -> bool
    ensures { IsTrue result ↔ IsNonce bytes.now }
{
    !bytes.is_empty()
        && bytes
            .iter()
            .all(|byte| byte.is_ascii_graphic() && *byte != b',')
}
