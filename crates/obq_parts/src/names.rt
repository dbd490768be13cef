//! Lists of names.

ghost use Rattle.std.specs.Prelude.{◌≡◌, ◌∷◌, ◌<◌, IfOk, length};
ghost use Rattle.obq_model.specs.Grammar.{IsNames, IsParameters};
ghost use Rattle.obq_grammar.specs.Follow.{Anything, EndsNames};
ghost use Rattle.obq_parts.specs.Reads.{Reads};
ghost use Rattle.obq_parts.specs.Closed.{ReadsClosedNames};

use crate::steps::{Refused, take_name, take_word};
use crate::words::{CLOSE, COMMA};
use obq_base::{Name, Token};
use sqlite_items::Items;
use std::alloc::Global;

fn read_names(alloc: Global, tokens: &[Token]) -> Result<(Items<Name>, &[Token]), Refused<'_>>
    ensures read { Reads IsNames EndsNames tokens.now result }
    ensures shorter { IfOk result (λ p. length p.1.now < length tokens.now) }
{
    let mut names = Items::new(alloc);
    let mut rest = tokens;
    loop {
        let Some((name, _, after)) = take_name(rest) else {
            return Err(Refused::Syntax(rest));
        };
        let name = match name.copy(alloc) {
            Ok(copy) => copy,
            Err(_) => return Err(Refused::NoMemory),
        };
        match names.push(name) {
            Ok(()) => {}
            Err(_) => return Err(Refused::NoMemory),
        }
        match take_word(COMMA, after) {
            Some((_, behind)) => rest = behind,
            None => return Ok((names, after)),
        }
    }
}

/// Names, and the tokens behind the closing mark behind them.
pub fn read_closed_names(
    alloc: Global,
    tokens: &[Token],
) -> Result<(Items<Name>, &[Token]), Refused<'_>>
    ensures read { ReadsClosedNames tokens.now result }
    ensures shorter { IfOk result (λ p. length p.1.now < length tokens.now) }
{
    match read_names(alloc, tokens) {
        Ok((names, rest)) => match take_word(CLOSE, rest) {
            Some((_, behind)) => Ok((names, behind)),
            None => Err(Refused::Syntax(rest)),
        },
        Err(e) => Err(e),
    }
}

/// Parameters, which may be none, and the tokens behind the closing mark behind them.
pub fn read_parameters(
    alloc: Global,
    tokens: &[Token],
) -> Result<(Items<Name>, &[Token]), Refused<'_>>
    ensures read { Reads IsParameters Anything tokens.now result }
    ensures shorter { IfOk result (λ p. length p.1.now < length tokens.now) }
{
    if let Some((_, behind)) = take_word(CLOSE, tokens) {
        return Ok((Items::new(alloc), behind));
    }
    read_closed_names(alloc, tokens)
}
