//! The words that open an expression of several parts.

ghost use Rattle.std.specs.Prelude.{◌≡◌, ◌∷◌, ◌<◌, IfSome, MatchOption, length};
ghost use Rattle.obq_model.specs.Nodes.{next, token};
ghost use Rattle.obq_model.specs.Words.{kw_proc};
ghost use Rattle.obq_grammar.specs.Follow.{among, is_word, No};
ghost use Rattle.obq_parts.specs.Openings.{opening_kind, openings};

use crate::steps::take_word;
use crate::words::PROC;
use obq_base::{Token, TokenKind};
use obq_tables::rows::{
    KW_CLONE, KW_FOR, KW_FOREACH, KW_IF, KW_LOOP, KW_PROC, KW_RAISE, KW_REDIRECT, KW_TRY, KW_WATCH,
    SYM_OPEN, SYM_OPEN_BRACE, SYM_OPEN_BRACKET,
};

/// A word that opens an expression of several parts.
#[derive(Clone, Copy, Debug, PartialEq, Eq)]
pub enum Opening {
    Clone,
    For,
    Foreach,
    If,
    Loop,
    Procedure,
    Raise,
    Redirect,
    Try,
    Watch,
    Paren,
    Bracket,
    Brace,
}

fn opening_of(kind: &TokenKind) -> Option<Opening>
    ensures { MatchOption result (No (among openings kind.now)) (λ o. kind.now ≡ opening_kind o) }
{
    match kind {
        TokenKind::Keyword(KW_CLONE) => Some(Opening::Clone),
        TokenKind::Keyword(KW_FOR) => Some(Opening::For),
        TokenKind::Keyword(KW_FOREACH) => Some(Opening::Foreach),
        TokenKind::Keyword(KW_IF) => Some(Opening::If),
        TokenKind::Keyword(KW_LOOP) => Some(Opening::Loop),
        TokenKind::Keyword(KW_PROC) => Some(Opening::Procedure),
        TokenKind::Keyword(KW_RAISE) => Some(Opening::Raise),
        TokenKind::Keyword(KW_REDIRECT) => Some(Opening::Redirect),
        TokenKind::Keyword(KW_TRY) => Some(Opening::Try),
        TokenKind::Keyword(KW_WATCH) => Some(Opening::Watch),
        TokenKind::Symbol(SYM_OPEN) => Some(Opening::Paren),
        TokenKind::Symbol(SYM_OPEN_BRACKET) => Some(Opening::Bracket),
        TokenKind::Symbol(SYM_OPEN_BRACE) => Some(Opening::Brace),
        _ => None,
    }
}

/// A word that opens an expression, its place and the tokens behind it.
pub fn take_opening(tokens: &[Token]) -> Option<(Opening, u32, &[Token])>
    ensures found { MatchOption result (No (among openings (next tokens.now))) (λ found. tokens.now ≡ token (opening_kind found.0) found.1 ∷ found.2.now) }
    ensures shorter { IfSome result (λ found. length found.2.now < length tokens.now) }
{
    let (token, rest) = tokens.split_first()?;
    match opening_of(&token.kind) {
        Some(opening) => Some((opening, token.place, rest)),
        None => None,
    }
}

/// The place of the `proc` that a procedure begins with and the tokens behind it.
pub fn take_procedure(tokens: &[Token]) -> Option<(u32, &[Token])>
    ensures found { MatchOption result (No (is_word kw_proc (next tokens.now))) (λ found. tokens.now ≡ token kw_proc found.0 ∷ found.1.now) }
    ensures shorter { IfSome result (λ found. length found.1.now < length tokens.now) }
{
    take_word(PROC, tokens)
}
