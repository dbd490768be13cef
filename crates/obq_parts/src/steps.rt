//! What stands next.

ghost use Rattle.std.specs.Prelude.{◌≡◌, [], ◌∷◌, ◌<◌, ◌↔◌, IfSome, IsTrue, MatchOption, length};
ghost use Rattle.obq_base.specs.declared.tokens.TokenKind.TheVariants as kind;
ghost use Rattle.obq_model.specs.Nodes.{next, place, token};
ghost use Rattle.obq_grammar.specs.Follow.{among, is_word, suffix_words, BeginsName, EndsBlock, EndsExpr, EndsItem, EndsProgram, EndsSuffixed, No};
ghost use Rattle.obq_parts.specs.Reads.{kind_of, Ended};

use obq_base::{Name, Token, TokenKind};
use obq_tables::rows::{
    KW_ANDIF, KW_ELSE, KW_ELSIF, KW_END, KW_EXCEPT, KW_FINALLY, KW_IS, KW_ISNOT, KW_ORIF,
    SYM_AMPERSAND, SYM_DOT, SYM_GREATER, SYM_GREATER_EQUAL, SYM_LESS, SYM_LESS_EQUAL, SYM_MINUS,
    SYM_OPEN, SYM_OPEN_BRACKET, SYM_PERCENT, SYM_PLUS, SYM_SEMICOLON, SYM_SLASH, SYM_STAR,
};

/// Why nothing was read.
#[derive(Drop)]
pub enum Refused<'a> {
    /// No program goes on with the first of these tokens.
    Syntax(&'a [Token]),
    NoMemory,
}

/// A keyword or a symbol by the row of its table.
#[derive(Clone, Copy, Debug, PartialEq, Eq)]
pub enum Word {
    Keyword(u32),
    Symbol(u32),
}

/// The kind of the next token, its place and the tokens behind it.
pub fn take_any(tokens: &[Token]) -> Option<(&TokenKind, u32, &[Token])>
    ensures found { MatchOption result (tokens.now ≡ []) (λ found. tokens.now ≡ token found.0.now found.1 ∷ found.2.now) }
    ensures shorter { IfSome result (λ found. length found.2.now < length tokens.now) }
{
    let (token, rest) = tokens.split_first()?;
    Some((&token.kind, token.place, rest))
}

/// The place of a word and the tokens behind it.
pub fn take_word(word: Word, tokens: &[Token]) -> Option<(u32, &[Token])>
    ensures found { MatchOption result (No (is_word (kind_of word) (next tokens.now))) (λ found. tokens.now ≡ token (kind_of word) found.0 ∷ found.1.now) }
    ensures shorter { IfSome result (λ found. length found.1.now < length tokens.now) }
{
    let (token, rest) = tokens.split_first()?;
    match (word, &token.kind) {
        (Word::Keyword(row), TokenKind::Keyword(found)) if *found == row => Some((
            token.place,
            rest,
        )),
        (Word::Symbol(row), TokenKind::Symbol(found)) if *found == row => Some((token.place, rest)),
        _ => None,
    }
}

/// A name, its place and the tokens behind it.
pub fn take_name(tokens: &[Token]) -> Option<(&Name, u32, &[Token])>
    ensures found { MatchOption result (BeginsName (next tokens.now) → ⊥) (λ found. tokens.now ≡ token (kind.Name found.0.now) found.1 ∷ found.2.now) }
    ensures shorter { IfSome result (λ found. length found.2.now < length tokens.now) }
{
    let (token, rest) = tokens.split_first()?;
    match &token.kind {
        TokenKind::Name(name) => Some((name, token.place, rest)),
        _ => None,
    }
}

/// The place of the next token.
pub fn place_of(tokens: &[Token]) -> u32
    ensures { result ≡ place tokens.now }
{
    match tokens.first() {
        Some(token) => token.place,
        None => 0,
    }
}

/// Whether the next token ends a block.
pub fn ends_block(tokens: &[Token]) -> bool
    ensures { IsTrue result ↔ EndsBlock (next tokens.now) }
{
    match tokens.first() {
        Some(token) => match &token.kind {
            TokenKind::Keyword(row) => matches!(
                *row,
                KW_ELSE | KW_ELSIF | KW_END | KW_EXCEPT | KW_FINALLY
            ),
            TokenKind::EndOfSource => true,
            _ => false,
        },
        None => true,
    }
}

/// Whether the next token ends an item.
pub fn ends_item(tokens: &[Token]) -> bool
    ensures { IsTrue result ↔ EndsItem (next tokens.now) }
{
    match tokens.first() {
        Some(token) => match &token.kind {
            TokenKind::Keyword(row) => matches!(
                *row,
                KW_ELSE | KW_ELSIF | KW_END | KW_EXCEPT | KW_FINALLY
            ),
            TokenKind::Symbol(row) => *row == SYM_SEMICOLON,
            TokenKind::EndOfSource => true,
            _ => false,
        },
        None => true,
    }
}

/// Whether the next token may stand behind an expression.
pub fn ends_expr(tokens: &[Token]) -> bool
    ensures { IsTrue result ↔ EndsExpr (next tokens.now) }
{
    match tokens.first() {
        Some(token) => match &token.kind {
            TokenKind::Keyword(row) => !matches!(*row, KW_ANDIF | KW_IS | KW_ISNOT | KW_ORIF),
            TokenKind::Symbol(row) => !matches!(
                *row,
                SYM_PERCENT
                    | SYM_AMPERSAND
                    | SYM_OPEN
                    | SYM_STAR
                    | SYM_PLUS
                    | SYM_MINUS
                    | SYM_DOT
                    | SYM_SLASH
                    | SYM_LESS
                    | SYM_LESS_EQUAL
                    | SYM_GREATER
                    | SYM_GREATER_EQUAL
                    | SYM_OPEN_BRACKET
            ),
            _ => true,
        },
        None => true,
    }
}

/// Whether the end of the source stands next.
pub fn is_end(tokens: &[Token]) -> bool
    ensures { IsTrue result ↔ EndsProgram (next tokens.now) }
{
    match tokens.first() {
        Some(token) => matches!(&token.kind, TokenKind::EndOfSource),
        None => true,
    }
}

/// Whether the next token begins a suffix of an operand.
pub fn begins_suffix(tokens: &[Token]) -> bool
    ensures { IsTrue result ↔ IsTrue (among suffix_words (next tokens.now)) }
{
    match tokens.first() {
        Some(token) => match &token.kind {
            TokenKind::Symbol(row) => matches!(*row, SYM_OPEN | SYM_DOT | SYM_OPEN_BRACKET),
            _ => false,
        },
        None => false,
    }
}

/// What was read, where its item ends behind it.
pub fn ended<'a, T: Drop>(
    read: Result<(T, &'a [Token]), Refused<'a>>,
) -> Result<(T, &'a [Token]), Refused<'a>>
    ensures { Ended read.entry result }
{
    match read {
        Ok((value, rest)) => {
            if ends_item(rest) {
                return Ok((value, rest));
            }
            Err(Refused::Syntax(rest))
        }
        Err(e) => Err(e),
    }
}
