//! What the sources that were examined give so far.

ghost use Rattle.std.specs.Prelude.{◌≡◌, ◌≤◌, ◌++◌, ◌∷◌, [], IfErr, IfOk, OnOk, length};
ghost use Rattle.obq_model.specs.Sources.{IsFault};
ghost use Rattle.obq_front.specs.Gathering.{Adds};
ghost use Rattle.obq_front.specs.Refusals.{IfFault};

use crate::program::{Program, Source};
use crate::single::{Part, SourceRefused, examine_one};
use obq_base::limits::SOURCE_LIMIT;
use obq_base::{Block, Name, NoMemory, SourceCode};
use obq_code::Codes;
use std::alloc::Global;

/// The names, trees and codes of the sources up to one, in order.
#[derive(Drop)]
pub struct Gathered {
    names: Vec<Name>,
    blocks: Vec<Block>,
    parts: Vec<SourceCode>,
}

impl Gathered {
    pub fn new(alloc: Global) -> Gathered
        ensures names { result.names.items ≡ [] }
        ensures blocks { result.blocks.items ≡ [] }
        ensures parts { result.parts.items ≡ [] }
    {
        Gathered {
            names: Vec::new(alloc),
            blocks: Vec::new(alloc),
            parts: Vec::new(alloc),
        }
    }

    fn push(&mut self, name: Name, part: Part) -> Result<(), NoMemory>
        ensures names { OnOk result (self.new.names.items ≡ self.old.names.items ++ name ∷ []) }
        ensures blocks { OnOk result (self.new.blocks.items ≡ self.old.blocks.items ++ part.block ∷ []) }
        ensures parts { OnOk result (self.new.parts.items ≡ self.old.parts.items ++ part.code ∷ []) }
    {
        let Part { block, code } = part;
        self.names.push(name)?;
        self.blocks.push(block)?;
        self.parts.push(code)?;
        Ok(())
    }

    /// Examines the source with this number, and adds what it gives.
    pub fn add(&mut self, alloc: Global, number: u16, source: &Source) -> Result<(), SourceRefused>
        requires { length source.now.bytes.items ≤ SOURCE_LIMIT }
        ensures added { OnOk result (Adds self.old number source.now self.new) }
        ensures fault { IfErr result (λ why. IfFault why (IsFault source.now.bytes.items)) }
    {
        let name = source.name.copy(alloc)?;
        let part = examine_one(alloc, number, &source.bytes)?;
        self.push(name, part)?;
        Ok(())
    }

    /// The program of these.
    pub fn into_program(self) -> Result<Program, NoMemory>
        ensures names { IfOk result (λ program. program.names.items ≡ self.names.items) }
        ensures blocks { IfOk result (λ program. program.blocks.items ≡ self.blocks.items) }
        ensures codes { IfOk result (λ program. program.codes ≡ self.parts.items) }
    {
        let Gathered {
            names,
            blocks,
            parts,
        } = self;
        Ok(Program {
            names,
            blocks,
            codes: Codes::with(parts)?,
        })
    }
}
