//! The nodes and codes that are made.

ghost use Rattle.std.specs.Prelude.{◌≡◌, [], OnOk};
ghost use Rattle.obq_base.specs.declared.code.Node.{Node};

use obq_base::{Code, NoMemory, Node};
use sqlite_items::Items;
use std::alloc::Global;

/// The codes that are whole, and the nodes so far of the one that is not.
#[derive(Drop)]
pub struct Output {
    pub codes: Items<Code>,
    pub nodes: Items<Node>,
}

impl Output {
    ghost use Rattle.obq_scope.specs.Emitted.{with_node};

    pub fn new(alloc: Global) -> Output
        ensures codes { result.codes ≡ [] }
        ensures nodes { result.nodes ≡ [] }
    {
        Output {
            codes: Items::new(alloc),
            nodes: Items::new(alloc),
        }
    }

    pub fn push(&mut self, node: Node) -> Result<(), NoMemory>
        ensures { OnOk result (self.new ≡ with_node node self.old) }
    {
        self.nodes.push(node)?;
        Ok(())
    }
}
