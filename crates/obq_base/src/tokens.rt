//! Tokens.

use crate::bytes::{Name, Text};

/// What a token is.
#[derive(Debug, PartialEq, Drop)]
pub enum TokenKind {
    Name(Name),
    Int(i64),
    /// The text that a literal stands for, its escapes read.
    Text(Text),
    /// The row of a keyword in the table of keywords.
    Keyword(u32),
    /// The row of a symbol in the table of symbols.
    Symbol(u32),
    EndOfSource,
}

/// A token and the byte of its source, from 0, at which it begins.
#[derive(Debug, PartialEq, Drop)]
pub struct Token {
    pub kind: TokenKind,
    pub place: u32,
}
