//! One source.

ghost use Rattle.std.specs.Prelude.{◌≡◌, ◌≤◌, IfErr, IfOk, List, length};
ghost use Rattle.obq_base.specs.declared.tokens.Token.{Token};
ghost use Rattle.obq_base.specs.View.{block_tree};
ghost use Rattle.obq_model.specs.Grammar.{Derives};
ghost use Rattle.obq_scope.specs.Tabled.{Tables};
ghost use Rattle.obq_model.specs.Sources.{IsAccepted, IsFault};
ghost use Rattle.obq_model.specs.Tokens.{IsReading};
ghost use Rattle.obq_front.specs.Refusals.{IfFault};

use obq_base::limits::SOURCE_LIMIT;
use obq_base::{Block, NoMemory, SourceCode, SourceFault};
use obq_lex::{LexRefused, lex};
use obq_parse::{ParseRefused, parse};
use obq_scope::{ScopeRefused, resolve};
use std::alloc::Global;

/// The tree and the code of an accepted source.
#[derive(Drop)]
pub struct Part {
    pub block: Block,
    pub code: SourceCode,
}

/// Why a source isn't accepted.
#[derive(Debug, Drop)]
pub enum SourceRefused {
    /// Its first fault.
    Fault(SourceFault),
    NoMemory,
}

impl From<NoMemory> for SourceRefused {
    ghost use Rattle.obq_front.specs.declared.single.SourceRefused.TheVariants as unaccepted;

    ghost from_gives = { λ _ e. e ≡ unaccepted.NoMemory };

    fn from(_error: NoMemory) -> SourceRefused {
        SourceRefused::NoMemory
    }
}

/// The tree that a source's tokens derive.
fn read_tree(alloc: Global, source: &[u8]) -> Result<Block, SourceRefused>
    requires { length source.now ≤ SOURCE_LIMIT }
    ensures derived { IfOk result (λ block. (tokens : List Token) × IsReading source.now tokens × Derives tokens block) }
    ensures fault { IfErr result (λ why. IfFault why (IsFault source.now)) }
{
    let tokens = match lex(alloc, source) {
        Ok(tokens) => tokens,
        Err(LexRefused::Fault { kind, place }) => {
            return Err(SourceRefused::Fault(SourceFault::Lexical { kind, place }));
        }
        Err(LexRefused::NoMemory) => return Err(SourceRefused::NoMemory),
    };
    match parse(alloc, &tokens) {
        Ok(block) => Ok(block),
        Err(ParseRefused::Syntax { token }) => {
            Err(SourceRefused::Fault(SourceFault::Syntax { token }))
        }
        Err(ParseRefused::NoMemory) => Err(SourceRefused::NoMemory),
    }
}

/// The tree and the code of the source with this number.
pub fn examine_one(alloc: Global, number: u16, source: &[u8]) -> Result<Part, SourceRefused>
    requires { length source.now ≤ SOURCE_LIMIT }
    ensures accepted { IfOk result (λ part. (tokens : List Token) × IsAccepted source.now tokens part.block) }
    ensures resolved { IfOk result (λ part. Tables number (block_tree part.block) part.code) }
    ensures fault { IfErr result (λ why. IfFault why (IsFault source.now)) }
{
    let block = read_tree(alloc, source)?;
    match resolve(alloc, number, &block) {
        Ok(code) => Ok(Part { block, code }),
        Err(ScopeRefused::Unbound { name, place }) => {
            drop(block);
            Err(SourceRefused::Fault(SourceFault::Unbound { name, place }))
        }
        Err(ScopeRefused::NoMemory) => {
            drop(block);
            Err(SourceRefused::NoMemory)
        }
    }
}
