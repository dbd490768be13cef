//! What a walk over the block of a source finds.

ghost use Rattle.std.specs.Prelude.{◌≡◌, [], IfOk};
ghost use Rattle.obq_base.specs.View.{block_tree};
ghost use Rattle.obq_model.specs.Occurrences.{free_block};
ghost use Rattle.obq_names.specs.Captures.{captures_block};

use crate::walk::walk_block;
use crate::walker::Walker;
use obq_base::{Block, Name, NoMemory, Occurrence};
use sqlite_items::Items;
use std::alloc::Global;

/// What the names of a source's block stand for.
#[derive(Drop)]
pub struct Names {
    /// The occurrences that no binder covers, in order.
    pub free: Items<Occurrence>,
    /// What each procedure, method and `let rec` captures, in the order in which these begin: names
    /// that occur free in it and are bound outside of it, each once, by their first occurrences.
    pub captures: Items<Items<Name>>,
}

/// The free occurrences and captures of a source's block. Every block may be given.
pub fn find_names(alloc: Global, block: &Block) -> Result<Names, NoMemory>
    ensures free { IfOk result (λ names. names.free ≡ free_block [] (block_tree block.now)) }
    ensures captures { IfOk result (λ names. names.captures ≡ captures_block [] (block_tree block.now)) }
{
    let mut walker = Walker::new(alloc);
    walk_block(alloc, &mut walker, block)?;
    let Walker {
        found,
        captures,
        ..
    } = walker;
    Ok(Names {
        free: found,
        captures,
    })
}
