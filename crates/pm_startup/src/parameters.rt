//! The body of a StartupMessage.

ghost use Rattle.std.specs.{Prelude.{◌≡◌, ◌≤◌, ◌==◌, ◌||◌, ◌++◌, List, length, position, IfSome, IfNone, IfOk, IfErr, Some, codes, nat_eq, not, if◌then◌else◌}, List.starts_with, Option.option_map, Str.bytes_eq};
ghost use Rattle.pm_startup.specs.{Parameters.{IsString, string, Parameter, is_off, IsLaidOut, IsMalformed}, Reading.{IsItem, IsWithin, Tells}};

/// The mark of a protocol option, at the front of its name.
const PROTOCOL_OPTION: &[u8] = b"_pq_.";

/// What the pairs so far ask for.
#[derive(Clone, Copy)]
pub struct Settings<'a> {
    pub user: Option<&'a [u8]>,
    pub asks_option: bool,
    pub asks_replication: bool,
}

/// What stands at the front of the rest of a body.
enum Item<'a> {
    Pair {
        name: &'a [u8],
        value: &'a [u8],
        rest: &'a [u8],
    },
    /// The zero byte that ends the body.
    End,
    /// None of these. `at` is the place in the rest where it fails.
    Malformed {
        at: usize,
    },
}

/// The place of the first zero byte.
fn zero_at(bytes: &[u8]) -> Option<usize>
    ensures { result ≡ position (λ b. b == 0) bytes.now }
{
    bytes.iter().position(|b| *b == 0)
}

/// The string at the front, and what comes after its zero byte. `None` where it doesn't end.
fn string_at(bytes: &[u8]) -> Option<(&[u8], &[u8])>
    ensures found { IfSome result (λ s. IsString s.0.now
        × (bytes.now ≡ string s.0.now ++ s.1.now)) }
    ensures unended { IfNone result (IsString bytes.now) }
{
    let end = zero_at(bytes)?;
    Some((&bytes[..end], &bytes[end + 1..]))
}

/// Whether the value of `replication` turns it off.
fn is_off(value: &[u8]) -> bool
    ensures { result ≡ is_off value.now }
{
    value == b"false".as_slice()
        || value == b"off".as_slice()
        || value == b"no".as_slice()
        || value == b"0".as_slice()
}

impl<'a> Settings<'a> {
    const NONE: Settings<'static> = Settings {
        user: None,
        asks_option: false,
        asks_replication: false,
    };

    /// These settings after one more pair, which counts before the earlier ones of its name.
    fn with(self, name: &'a [u8], value: &'a [u8]) -> Settings<'a>
        ensures user { option_map (λ user. user.now) result.user
            ≡ (if bytes_eq name.entry.now (codes "user") then Some value.entry.now
            else option_map (λ user. user.now) self.entry.user) }
        ensures option { result.asks_option
            ≡ (self.entry.asks_option || starts_with nat_eq name.entry.now (codes "_pq_.")) }
        ensures replication { result.asks_replication
            ≡ (if bytes_eq name.entry.now (codes "replication") then not (is_off value.entry.now)
            else self.entry.asks_replication) }
    {
        let mut settings = self;
        if name == b"user".as_slice() {
            settings.user = Some(value);
        }
        if name == b"replication".as_slice() {
            settings.asks_replication = !is_off(value);
        }
        if name.starts_with(PROTOCOL_OPTION) {
            settings.asks_option = true;
        }
        settings
    }
}

/// What stands at the front of the rest of a body.
fn item_at(rest: &[u8]) -> Item<'_>
    ensures item { IsItem rest.now result }
    ensures within { IsWithin rest.now result }
{
    let Some((name, after)) = string_at(rest) else {
        return Item::Malformed { at: 0 };
    };
    if name.is_empty() {
        return if after.is_empty() {
            Item::End
        } else {
            Item::Malformed { at: 1 }
        };
    }
    match string_at(after) {
        Some((value, rest)) => Item::Pair { name, value, rest },
        None => Item::Malformed { at: name.len() + 1 },
    }
}

/// What the pairs of a body ask for. `Err` has the place where it isn't laid out.
pub fn settings_of(body: &[u8]) -> Result<Settings<'_>, usize>
    ensures laid_out { IfOk result (λ settings. (ps : List Parameter) × IsLaidOut body.now ps
        × Tells settings ps) }
    ensures malformed { IfErr result (IsMalformed body.now) }
    ensures within { IfErr result (λ at. at ≤ length body.now) }
{
    let mut settings = Settings::NONE;
    let mut rest = body;
    'pairs: loop {
        match item_at(rest) {
            Item::Pair {
                name,
                value,
                rest: after,
            } => {
                settings = settings.with(name, value);
                rest = after;
            }
            Item::End => return Ok(settings),
            Item::Malformed { at } => return Err(body.len() - rest.len() + at),
        }
    }
}
