//! Faults of a source.

use crate::bytes::Name;

/// The kinds of lexical faults.
#[derive(Clone, Copy, Debug, PartialEq, Eq)]
pub enum LexKind {
    /// A byte that begins no token, or isn't allowed in a text.
    Stray,
    /// A text that isn't closed on its line.
    OpenText,
    /// A text of more than 65,536 bytes.
    LongText,
    /// A comment that isn't closed.
    OpenComment,
    /// A `\` in a text before anything but `n`, `t`, `"` and `\`.
    BadEscape,
    /// An integer that no `i64` holds.
    IntRange,
    /// A number with a fraction.
    Real,
    /// A byte of 128 or more.
    NotAscii,
    /// An opening bracket or block inside 200 others.
    TooDeep,
}

/// The first fault of a source: of its bytes, of its tokens, or of its names.
#[derive(Debug, PartialEq, Drop)]
pub enum SourceFault {
    /// `place` is the byte of the source, from 0.
    Lexical { kind: LexKind, place: u32 },
    /// `token` is the first token, from 0, that no program has there.
    Syntax { token: u32 },
    /// The name that nothing binds; `place` is the byte of the source, from 0, at which it begins.
    Unbound { name: Name, place: u32 },
}
