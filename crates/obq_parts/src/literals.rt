//! Literals and names, the expressions of one token.

ghost use Rattle.obq_model.specs.Grammar.{IsPrim};
ghost use Rattle.obq_model.specs.Nodes.{next};
ghost use Rattle.obq_grammar.specs.Follow.{among, Anything, No};
ghost use Rattle.std.specs.Prelude.{◌<◌, IfOk, length};
ghost use Rattle.obq_parts.specs.Openings.{openings, IsWordLiteral};
ghost use Rattle.obq_parts.specs.Reads.{Reads};

use crate::steps::{Refused, take_any};
use obq_base::{Expr, Token, TokenKind};
use obq_tables::rows::{KW_EXIT, KW_FALSE, KW_OK, KW_TRUE};
use std::alloc::Global;

/// The expression that a keyword is alone.
fn keyword_literal(row: u32, place: u32) -> Option<Expr>
    ensures { IsWordLiteral row place result }
{
    match row {
        KW_TRUE => Some(Expr::Truth { value: true, place }),
        KW_FALSE => Some(Expr::Truth {
            value: false,
            place,
        }),
        KW_OK => Some(Expr::Okay { place }),
        KW_EXIT => Some(Expr::Exit { place }),
        _ => None,
    }
}

/// An expression of one token, where none of several parts is opened.
pub fn read_literal(alloc: Global, tokens: &[Token]) -> Result<(Expr, &[Token]), Refused<'_>>
    requires { No (among openings (next tokens.now)) }
    ensures read { Reads IsPrim Anything tokens.now result }
    ensures shorter { IfOk result (λ p. length p.1.now < length tokens.now) }
{
    let Some((kind, place, rest)) = take_any(tokens) else {
        return Err(Refused::Syntax(tokens));
    };
    match kind {
        TokenKind::Int(value) => Ok((
            Expr::Int {
                value: *value,
                place,
            },
            rest,
        )),
        TokenKind::Text(text) => match text.copy(alloc) {
            Ok(text) => Ok((Expr::Str { text, place }, rest)),
            Err(_) => Err(Refused::NoMemory),
        },
        TokenKind::Name(name) => match name.copy(alloc) {
            Ok(name) => Ok((Expr::Use { name, place }, rest)),
            Err(_) => Err(Refused::NoMemory),
        },
        TokenKind::Keyword(row) => match keyword_literal(*row, place) {
            Some(value) => Ok((value, rest)),
            None => Err(Refused::Syntax(tokens)),
        },
        _ => Err(Refused::Syntax(tokens)),
    }
}
