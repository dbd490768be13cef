//! The names that a `let rec` binds.

ghost use Rattle.std.specs.Prelude.{◌≡◌, ◌++◌, OnOk};
ghost use Rattle.obq_base.specs.View.{rec_bind_trees};
ghost use Rattle.obq_model.specs.Occurrences.{member_names};

use crate::binders::Binders;
use obq_base::{NoMemory, RecBind};
use std::alloc::Global;

/// Appends the names of a `let rec`.
pub fn push_members(alloc: Global, bound: &mut Binders, binds: &[RecBind]) -> Result<(), NoMemory>
    ensures { OnOk result (bound.new ≡ bound.old ++ member_names (rec_bind_trees binds.now)) }
{
    for bind in binds {
        bound.push(bind.name.copy(alloc)?)?;
    }
    Ok(())
}
