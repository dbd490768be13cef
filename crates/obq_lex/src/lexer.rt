//! The tokens of a source.

ghost use Rattle.std.specs.Prelude.{◌+◌, ◌≡◌, ◌≤◌, IfOk, length};
ghost use Rattle.obq_model.specs.Tokens.{IsEnded, nested, token_nesting};
ghost use Rattle.obq_lex.specs.Lexes.{Lexes, refused_at};

use crate::pieces::{Piece, piece_at};
use crate::stops::Stop;
use obq_base::limits::{NESTING_LIMIT, SOURCE_LIMIT};
use obq_base::{LexKind, Token, TokenKind};
use obq_tables::{Nesting, keyword_rows, symbol_rows};
use std::alloc::Global;

/// Why a source has no tokens.
#[derive(Clone, Copy, Debug, PartialEq, Eq)]
pub enum LexRefused {
    /// The first fault of the source; `place` is the byte, from 0, at which it stands.
    Fault { kind: LexKind, place: u32 },
    NoMemory,
}

fn token_nesting(kind: &TokenKind) -> Nesting
    ensures { result ≡ token_nesting kind.now }
{
    match kind {
        TokenKind::Keyword(row) => match keyword_rows().get(*row as usize) {
            Some(keyword) => keyword.nesting,
            None => Nesting::Stays,
        },
        TokenKind::Symbol(row) => match symbol_rows().get(*row as usize) {
            Some(symbol) => symbol.nesting,
            None => Nesting::Stays,
        },
        _ => Nesting::Stays,
    }
}

fn nested(nesting: Nesting, depth: u32) -> u32
    requires { depth ≤ NESTING_LIMIT }
    ensures { result ≡ nested nesting depth }
{
    match nesting {
        Nesting::Opens => depth + 1,
        Nesting::Closes => depth.saturating_sub(1),
        Nesting::Stays => depth,
    }
}

/// The answer for what stopped the reading of a source of so many bytes.
fn refused(len: usize, stop: Stop) -> LexRefused
    requires { len ≤ SOURCE_LIMIT }
    ensures { result ≡ refused_at len stop }
{
    match stop {
        Stop::Fault { kind, left } => LexRefused::Fault {
            kind,
            place: len.saturating_sub(left) as u32,
        },
        Stop::NoMemory => LexRefused::NoMemory,
    }
}

/// The tokens of a source, with the end token behind them at the place of the source's end.
pub fn lex(alloc: Global, source: &[u8]) -> Result<Vec<Token>, LexRefused>
    requires { length source.now ≤ SOURCE_LIMIT }
    ensures exact { Lexes source.now result }
    ensures ended { IfOk result (λ tokens. IsEnded tokens.items) }
    ensures few { IfOk result (λ tokens. length tokens.items ≤ length source.now + 1) }
{
    let mut tokens = Vec::new(alloc);
    let mut depth: u32 = 0;
    let mut rest = source;
    while !rest.is_empty() {
        let place = (source.len() - rest.len()) as u32;
        match piece_at(alloc, rest) {
            Ok(piece) => match piece {
                Piece::Blank(after) => rest = after,
                Piece::Token(kind, after) => {
                    let deeper = nested(token_nesting(&kind), depth);
                    if deeper > NESTING_LIMIT {
                        return Err(LexRefused::Fault {
                            kind: LexKind::TooDeep,
                            place,
                        });
                    }
                    match tokens.push(Token { kind, place }) {
                        Ok(()) => {
                            depth = deeper;
                            rest = after;
                        }
                        Err(_) => return Err(LexRefused::NoMemory),
                    }
                }
            },
            Err(stop) => return Err(refused(source.len(), stop)),
        }
    }
    let end = Token {
        kind: TokenKind::EndOfSource,
        place: source.len() as u32,
    };
    match tokens.push(end) {
        Ok(()) => Ok(tokens),
        Err(_) => Err(LexRefused::NoMemory),
    }
}
