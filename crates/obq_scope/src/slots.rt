//! Where names are found, and what a procedure captures.

ghost use Rattle.std.specs.Prelude.{◌≡◌, IfOk, filter};
ghost use Rattle.obq_base.specs.View.{expr_tree, suffix_trees};
ghost use Rattle.obq_model.specs.Draft.{called_row, row_of_called};
ghost use Rattle.obq_model.specs.Occurrences.{builtin_row};
ghost use Rattle.obq_model.specs.Scopes.{is_covered};
ghost use Rattle.obq_scope.specs.Narrowed.{found_slot, found_slots, narrowed};
ghost use Rattle.obq_scope.specs.Outsides.{outside_of};

use crate::outside::Outside;
use obq_base::{Expr, Name, NoMemory, Slot, Suffix};
use obq_names::Binders;
use obq_tables::{builtin_rows, find};
use sqlite_items::Items;
use std::alloc::Global;

/// A number in 32 bits. All numbers of a tree of the size that `resolve` asks for have no more.
#[tactic(auto, unfolding(crate::specs::Narrowed::narrowed))]
pub fn narrowed(number: usize) -> u32
    ensures { result ≡ narrowed number }
{
    number.min(u32::MAX as usize) as u32
}

/// The slot of a name under the code's own binders.
pub fn find_slot(outside: &Outside, locals: &Binders, name: &Name) -> Slot
    ensures { result ≡ found_slot (outside_of outside.now) locals.now name.now }
{
    if let Some(k) = locals.last_place(name) {
        return Slot::Local(narrowed(k));
    }
    if let Some(k) = outside.members.last_place(name) {
        return Slot::Member(narrowed(k));
    }
    if let Some(k) = outside.captured.last_place(name) {
        return Slot::Captured(narrowed(k));
    }
    Slot::Stdout(outside.source as u32)
}

/// Whether a binder covers the name.
pub fn has_binder(outside: &Outside, locals: &Binders, name: &Name) -> bool
    ensures { result ≡ is_covered (outside_of outside.now) locals.now name.now }
{
    locals.contains(name) || outside.members.contains(name) || outside.captured.contains(name)
}

/// Those of these names that a binder covers.
pub fn find_captured(
    alloc: Global,
    outside: &Outside,
    locals: &Binders,
    names: &[Name],
) -> Result<Binders, NoMemory>
    ensures { IfOk result (λ covered. covered ≡ filter (is_covered (outside_of outside.now) locals.now) names.now) }
{
    let mut covered = Binders::new(alloc);
    for name in names {
        if has_binder(outside, locals, name) {
            covered.push(name.copy(alloc)?)?;
        }
    }
    Ok(covered)
}

/// The slots of these names.
pub fn find_slots(
    alloc: Global,
    outside: &Outside,
    locals: &Binders,
    names: &[Name],
) -> Result<Items<Slot>, NoMemory>
    ensures { IfOk result (λ slots. slots ≡ found_slots (outside_of outside.now) locals.now names.now) }
{
    let mut slots = Items::new(alloc);
    for name in names {
        slots.push(find_slot(outside, locals, name))?;
    }
    Ok(slots)
}

/// The row of a built-in.
#[tactic(auto, unfolding(obq_model::specs::Occurrences::builtin_row))]
pub fn find_builtin(name: &Name) -> Option<u32>
    ensures { result ≡ builtin_row name.now }
{
    let row = find(builtin_rows(), name.as_bytes())?;
    Some(row as u32)
}

/// The row of the built-in that a call of this name calls.
fn row_of_name(outside: &Outside, locals: &Binders, name: &Name) -> Option<u32>
    ensures { result ≡ row_of_called (outside_of outside.now) locals.now name.now }
{
    if has_binder(outside, locals, name) {
        return None;
    }
    find_builtin(name)
}

/// The row of the built-in that such a head and suffixes call.
pub fn find_row(
    outside: &Outside,
    locals: &Binders,
    head: &Expr,
    suffixes: &[Suffix],
) -> Option<u32>
    ensures { result ≡ called_row (outside_of outside.now) locals.now (expr_tree head.now) (suffix_trees suffixes.now) }
{
    match head {
        Expr::Use { name, .. } => match suffixes.first() {
            Some(Suffix::Apply { .. }) => row_of_name(outside, locals, name),
            _ => None,
        },
        _ => None,
    }
}
