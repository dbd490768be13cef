//! The lexer: from the bytes of a source to its tokens, or to its first lexical fault.
#![tactic(auto)]

mod comments;
mod lexer;
mod numbers;
mod pieces;
mod stops;
mod texts;

pub use lexer::{LexRefused, lex};
pub use obq_base::LexKind;
