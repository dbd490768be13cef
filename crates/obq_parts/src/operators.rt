//! Operators.

ghost use Rattle.std.specs.Prelude.{◌≡◌, ◌<◌, ◌∷◌, IfSome, MatchOption, length};
ghost use Rattle.obq_model.specs.Grammar.{Operates};
ghost use Rattle.obq_model.specs.Nodes.{next, token};
ghost use Rattle.obq_grammar.specs.Follow.{among, operators, No};
ghost use Rattle.obq_base.specs.declared.tokens.TokenKind.TheVariants as kind;
ghost use Rattle.obq_parts.specs.Reads.{TakesOperator};

use obq_base::{Operator, Token, TokenKind};
use obq_tables::rows::{
    KW_ANDIF, KW_IS, KW_ISNOT, KW_ORIF, SYM_AMPERSAND, SYM_GREATER, SYM_GREATER_EQUAL, SYM_LESS,
    SYM_LESS_EQUAL, SYM_MINUS, SYM_PERCENT, SYM_PLUS, SYM_SLASH, SYM_STAR,
};

fn symbol_operator(level: u32, row: u32) -> Option<Operator>
    ensures { MatchOption result (No (among (operators level) (kind.Symbol row))) (λ o. Operates level (kind.Symbol row) o) }
{
    match (level, row) {
        (0, SYM_STAR) => Some(Operator::Multiply),
        (0, SYM_SLASH) => Some(Operator::Divide),
        (0, SYM_PERCENT) => Some(Operator::Remainder),
        (1, SYM_PLUS) => Some(Operator::Add),
        (1, SYM_MINUS) => Some(Operator::Subtract),
        (1, SYM_AMPERSAND) => Some(Operator::Join),
        (2, SYM_LESS) => Some(Operator::Less),
        (2, SYM_LESS_EQUAL) => Some(Operator::LessEqual),
        (2, SYM_GREATER) => Some(Operator::Greater),
        (2, SYM_GREATER_EQUAL) => Some(Operator::GreaterEqual),
        _ => None,
    }
}

fn keyword_operator(level: u32, row: u32) -> Option<Operator>
    ensures { MatchOption result (No (among (operators level) (kind.Keyword row))) (λ o. Operates level (kind.Keyword row) o) }
{
    match (level, row) {
        (2, KW_IS) => Some(Operator::Is),
        (2, KW_ISNOT) => Some(Operator::IsNot),
        (3, KW_ANDIF) => Some(Operator::Andif),
        (4, KW_ORIF) => Some(Operator::Orif),
        _ => None,
    }
}

/// The operator of a level that a token is.
fn operator_of(level: u32, kind: &TokenKind) -> Option<Operator>
    ensures { MatchOption result (No (among (operators level) kind.now)) (λ o. Operates level kind.now o) }
{
    match kind {
        TokenKind::Symbol(row) => symbol_operator(level, *row),
        TokenKind::Keyword(row) => keyword_operator(level, *row),
        _ => None,
    }
}

/// An operator of a level, its place and the tokens behind it.
pub fn take_operator(level: u32, tokens: &[Token]) -> Option<(Operator, u32, &[Token])>
    ensures found { TakesOperator level tokens.now result }
    ensures shorter { IfSome result (λ found. length found.2.now < length tokens.now) }
{
    let (token, rest) = tokens.split_first()?;
    match operator_of(level, &token.kind) {
        Some(operator) => Some((operator, token.place, rest)),
        None => None,
    }
}

/// The level of the operand behind an operator of a level, since operators of one level group to the left.
pub fn operand_level(level: u32) -> u32
    ensures { result ≡ level }
{
    level
}
