//! The state of the pass over a tree that makes its codes.

ghost use Rattle.std.specs.Prelude.{◌≡◌, [], IfOk, OnOk};
ghost use Rattle.obq_model.specs.Scopes.{outermost};

use crate::emitter::Emitter;
use crate::outside::Outside;
use crate::slots::{find_captured, find_slots, narrowed};
use obq_base::{Code, CodeNo, Name, NoMemory, Node, Slot};
use obq_names::Binders;
use sqlite_items::Items;
use std::alloc::Global;
use std::mem::replace;

/// What the pass knows at a place of a code, and what it has made.
#[derive(Drop)]
pub struct Coder {
    pub alloc: Global,
    pub outside: Outside,
    /// The code's own binders in force, its parameters first.
    pub locals: Binders,
    pub emitter: Emitter,
}

/// What is kept of a code while one inside it is made.
#[derive(Drop)]
pub struct Around {
    pub locals: Binders,
    pub nodes: Items<Node>,
}

impl Coder {
    ghost use Rattle.std.specs.Prelude.{length};
    ghost use Rattle.obq_scope.specs.Coded.{captured, emitter_with, past_captures};
    ghost use Rattle.obq_scope.specs.Coders.{after, around_of, begun, entered, finished, left};
    ghost use Rattle.obq_scope.specs.Narrowed.{found_slots, numbered};
    ghost use Rattle.obq_scope.specs.Outsides.{outside_of};

    /// Nothing is made yet, and no binder is in force. The lists are what the procedures to come
    /// capture.
    pub fn new(alloc: Global, source: u16, captures: Items<Items<Name>>) -> Coder
        ensures outside { outside_of result.outside ≡ outermost source }
        ensures codes { result.emitter.output.codes ≡ [] }
        ensures nodes { result.emitter.output.nodes ≡ [] }
        ensures ahead { result.emitter.ahead ≡ captures }
    {
        Coder {
            alloc,
            outside: Outside {
                source,
                members: Binders::new(alloc),
                captured: Binders::new(alloc),
            },
            locals: Binders::new(alloc),
            emitter: Emitter::new(alloc, captures),
        }
    }

    pub fn push(&mut self, node: Node) -> Result<(), NoMemory>
        ensures { OnOk result (self.new ≡ after (λ o locals. emitter_with node) self.old) }
    {
        self.emitter.push(node)
    }

    /// What the procedure, method or `let rec` that begins captures.
    pub fn take_captured(&mut self) -> Result<Binders, NoMemory>
        ensures captured { IfOk result (λ names. names ≡ captured (outside_of self.old.outside) self.old.locals self.old.emitter) }
        ensures taken { OnOk result (self.new ≡ after (λ o locals. past_captures) self.old) }
    {
        let names = self.emitter.ahead.first();
        let captured = find_captured(self.alloc, &self.outside, &self.locals, names)?;
        self.emitter.ahead.advance();
        Ok(captured)
    }

    /// The slots of these names.
    pub fn slots(&self, names: &Binders) -> Result<Items<Slot>, NoMemory>
        ensures { IfOk result (λ slots. slots ≡ found_slots (outside_of self.now.outside) self.now.locals names.now) }
    {
        find_slots(self.alloc, &self.outside, &self.locals, names.as_slice())
    }

    /// From here on codes belong to a `let rec` with these names, or to none, and capture these. It
    /// gives what was known before.
    pub fn enter(&mut self, members: Binders, captured: Binders) -> Outside
        ensures inside { self.new ≡ entered members captured self.old }
        ensures outside { result ≡ self.old.outside }
    {
        let inside = Outside {
            source: self.outside.source,
            members,
            captured,
        };
        replace(&mut self.outside, inside)
    }

    /// This is known again.
    pub fn leave(&mut self, outside: Outside)
        ensures { self.new ≡ left outside self.old }
    {
        self.outside = outside;
    }

    /// A code with these parameters begins.
    pub fn begin(&mut self, parameters: &[Name]) -> Result<Around, NoMemory>
        ensures inside { OnOk result (self.new ≡ begun parameters.now self.old) }
        ensures outside { IfOk result (λ around. around ≡ around_of self.old) }
    {
        let mut own = Binders::new(self.alloc);
        own.push_all(self.alloc, parameters)?;
        Ok(Around {
            locals: replace(&mut self.locals, own),
            nodes: replace(&mut self.emitter.output.nodes, Items::new(self.alloc)),
        })
    }

    /// It is whole, and gets the next number.
    pub fn finish(&mut self, around: Around, parameters: usize) -> Result<CodeNo, NoMemory>
        ensures whole { OnOk result (self.new ≡ finished parameters around self.old) }
        ensures number { IfOk result (λ number. number ≡ numbered self.old.outside.source self.old.emitter.output) }
    {
        let Around { locals, nodes } = around;
        self.locals = locals;
        let nodes = replace(&mut self.emitter.output.nodes, nodes);
        let number = CodeNo {
            source: self.outside.source,
            n: narrowed(self.emitter.output.codes.len()),
        };
        self.emitter.output.codes.push(Code {
            params: narrowed(parameters),
            captures: narrowed(self.outside.captured.len()),
            nodes,
        })?;
        Ok(number)
    }
}
