//! What reading the next message of a stream can give.

/// What the bytes at hand begin with.
#[derive(Clone, Copy, Debug, PartialEq, Eq)]
pub enum Take<T> {
    /// A message, and how many bytes it takes.
    Whole { value: T, used: usize },
    /// Too little to tell: it takes `wanted` bytes, counted from the message's first.
    Short { wanted: usize },
    /// No message, however the bytes go on.
    Bad(WireFault),
}

/// Why bytes are no message.
#[derive(Clone, Copy, Debug, PartialEq, Eq)]
pub enum WireFault {
    /// The length field holds `seen`, which is no length of a message of this type.
    BadLength { seen: u32 },
    /// The byte at `at`, counted from the message's first, is in no message that begins as this one.
    BadForm { at: usize },
}
