//! The flags of an object.

ghost use Rattle.std.specs.Prelude.{◌≡◌, ◌<◌, length};
ghost use Rattle.obq_parts.specs.Objects.{BothHead, FlaggedHead, HeadOf, IsShorterHead};

use crate::steps::{Word, take_word};
use crate::words::{CLOSE_BRACE, COMMA};
use obq_base::{Flags, Token};
use obq_tables::rows::{KW_PROTECTED, KW_SERIALIZED};

/// What an object begins with, behind its opening brace.
pub enum ObjectHead<'a> {
    /// The flags alone; the tokens are those behind the closing brace.
    Closed(Flags, &'a [Token]),
    /// The flags; the tokens are those of the fields.
    Fields(Flags, &'a [Token]),
    /// The tokens where no object goes on.
    Fault(&'a [Token]),
}

/// Behind both flags.
fn read_both_flags(tokens: &[Token]) -> ObjectHead<'_>
    ensures head { BothHead tokens.now result }
    ensures shorter { IsShorterHead tokens.now result }
{
    let both = Flags {
        protected: true,
        serialized: true,
    };
    if let Some((_, rest)) = take_word(CLOSE_BRACE, tokens) {
        return ObjectHead::Closed(both, rest);
    }
    match take_word(COMMA, tokens) {
        Some((_, rest)) => ObjectHead::Fields(both, rest),
        None => ObjectHead::Fault(tokens),
    }
}

/// Behind the first flag; `other` is the other one, which may follow.
fn read_flagged(one: Flags, other: u32, tokens: &[Token]) -> ObjectHead<'_>
    ensures head { FlaggedHead other one tokens.now result }
    ensures shorter { IsShorterHead tokens.now result }
{
    if let Some((_, rest)) = take_word(CLOSE_BRACE, tokens) {
        return ObjectHead::Closed(one, rest);
    }
    let Some((_, rest)) = take_word(COMMA, tokens) else {
        return ObjectHead::Fault(tokens);
    };
    match take_word(Word::Keyword(other), rest) {
        Some((_, behind)) => read_both_flags(behind),
        None => ObjectHead::Fields(one, rest),
    }
}

/// What an object begins with.
pub fn read_object_head(tokens: &[Token]) -> ObjectHead<'_>
    ensures head { HeadOf tokens.now result }
    ensures shorter { IsShorterHead tokens.now result }
{
    let none = Flags {
        protected: false,
        serialized: false,
    };
    if let Some((_, rest)) = take_word(CLOSE_BRACE, tokens) {
        return ObjectHead::Closed(none, rest);
    }
    if let Some((_, rest)) = take_word(Word::Keyword(KW_PROTECTED), tokens) {
        let one = Flags {
            protected: true,
            serialized: false,
        };
        return read_flagged(one, KW_SERIALIZED, rest);
    }
    if let Some((_, rest)) = take_word(Word::Keyword(KW_SERIALIZED), tokens) {
        let one = Flags {
            protected: false,
            serialized: true,
        };
        return read_flagged(one, KW_PROTECTED, rest);
    }
    ObjectHead::Fields(none, tokens)
}
