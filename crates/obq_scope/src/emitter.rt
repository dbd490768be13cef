//! The codes that are made, and what is known ahead for those to come.

ghost use Rattle.std.specs.Prelude.{◌≡◌, [], OnOk};
ghost use Rattle.obq_base.specs.declared.code.Node.{Node};

use crate::ahead::Ahead;
use crate::output::Output;
use obq_base::{Name, NoMemory, Node};
use sqlite_items::Items;
use std::alloc::Global;

/// What has been made so far, and the names that the procedures still to come capture.
#[derive(Drop)]
pub struct Emitter {
    pub output: Output,
    pub ahead: Ahead,
}

impl Emitter {
    ghost use Rattle.obq_scope.specs.Coded.{emitter_with};

    pub fn new(alloc: Global, captures: Items<Items<Name>>) -> Emitter
        ensures codes { result.output.codes ≡ [] }
        ensures nodes { result.output.nodes ≡ [] }
        ensures ahead { result.ahead ≡ captures }
    {
        Emitter {
            output: Output::new(alloc),
            ahead: Ahead::new(captures),
        }
    }

    pub fn push(&mut self, node: Node) -> Result<(), NoMemory>
        ensures { OnOk result (self.new ≡ emitter_with node self.old) }
    {
        self.output.push(node)
    }
}
