//! The call that parses a source.

ghost use Rattle.std.specs.Prelude.{◌≤◌, IfOk, length};
ghost use Rattle.obq_model.specs.Grammar.{IsBlock};
ghost use Rattle.obq_model.specs.Syntax.{IsEnded};
ghost use Rattle.obq_grammar.specs.Follow.{EndsProgram};
ghost use Rattle.obq_parts.specs.Reads.{Reads};
ghost use Rattle.obq_parse.specs.Answers.{Answers};

use crate::parser::read_block;
use obq_base::{Block, Token};
use obq_parts::{Refused, is_end};
use std::alloc::Global;

/// Why tokens have no tree.
#[derive(Clone, Copy, Debug, PartialEq, Eq)]
pub enum ParseRefused {
    /// The index of the first token that no program has there.
    Syntax { token: u32 },
    NoMemory,
}

/// The whole, up to the end of the source.
fn read_whole<'a>(alloc: Global, tokens: &'a [Token]) -> Result<(Block, &'a [Token]), Refused<'a>>
    ensures read { Reads IsBlock EndsProgram tokens.now result }
    ensures shorter { IfOk result (λ p. length p.1.now ≤ length tokens.now) }
{
    let (tree, rest) = match read_block(alloc, tokens) {
        Ok(found) => found,
        Err(refused) => return Err(refused),
    };
    if !is_end(rest) {
        return Err(Refused::Syntax(rest));
    }
    Ok((tree, rest))
}

/// The tree that the tokens derive, or the first token that no program has there.
pub fn parse(alloc: Global, tokens: &[Token]) -> Result<Block, ParseRefused>
    requires ended { IsEnded tokens.now }
    requires few { length tokens.now ≤ 1048577 }
    ensures { Answers tokens.now result }
{
    match read_whole(alloc, tokens) {
        Ok((tree, _)) => Ok(tree),
        Err(Refused::Syntax(rest)) => Err(ParseRefused::Syntax {
            token: (tokens.len() - rest.len()) as u32,
        }),
        Err(Refused::NoMemory) => Err(ParseRefused::NoMemory),
    }
}
