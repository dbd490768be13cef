//! Acts of a window that make a cell.

ghost use Rattle.std.specs.Prelude.{◌≡◌, ◌<◌, ◌^◌, IfOk, false, is_some, length, true};
ghost use Rattle.obq_host.specs.NewCells.{MakesCell, NamesDiffer, NamesDifferIn, TriedMake, TriedNew};
ghost use Rattle.obq_model.specs.Store.{twice};
ghost use Rattle.obq_moves.specs.Views.{plain_fields, plain_focus, plain_operation, shown};
ghost use Rattle.obq_site.specs.Cells.{plain_heap};
ghost use Rattle.obq_site.specs.Making.{made};
ghost use Rattle.obq_site.specs.Outcomes.{acted};
ghost use Rattle.obq_windows.specs.Rows.{new_cell};
ghost use Rattle.obq_windows.specs.Trees.{PlainCloning, plain_names};

use crate::acting::{Tried, finish};
use crate::refused::Refused;
use obq_answers::place_of;
use obq_base::{Act, FieldBody, Flags, Name, Ref};
use obq_code::Codes;
use obq_except::{After, Focus, Operation, Window};
use obq_heap::SiteHeap;
use obq_site::{Outcome, new_array, new_clone, new_condition, new_engine, new_variable};
use std::alloc::Global;

/// The object of a literal, or a clone of objects that were all copied.
fn make_object(
    alloc: Global,
    heap: &mut SiteHeap,
    flags: Option<Flags>,
    copied: &[(Name, FieldBody)],
    rest: &[Ref],
    born: u64,
) -> Result<Outcome, Refused>
    requires room { length heap.old.cells < 2 ^ 32 }
    requires names { NamesDiffer (PlainCloning flags (plain_fields copied.now) rest.now) }
    ensures makes { IfOk result (λ outcome. is_some (new_cell (PlainCloning flags (plain_fields copied.now) rest.now)) ≡ true) }
    ensures acted { IfOk result (λ outcome. acted outcome heap.new ≡ made heap.old born (PlainCloning flags (plain_fields copied.now) rest.now)) }
{
    let Some(flags) = flags else {
        return Err(Refused::Beyond);
    };
    if !rest.is_empty() {
        return Err(Refused::Beyond);
    }
    let outcome = new_clone(alloc, heap, flags, copied, born)?;
    Ok(outcome)
}

fn make(
    alloc: Global,
    heap: &mut SiteHeap,
    operation: &Operation,
    born: u64,
) -> Result<Outcome, Refused>
    requires room { length heap.old.cells < 2 ^ 32 }
    requires names { NamesDiffer (plain_operation operation.now) }
    ensures makes { IfOk result (λ outcome. is_some (new_cell (plain_operation operation.now)) ≡ true) }
    ensures acted { IfOk result (λ outcome. acted outcome heap.new ≡ made heap.old born (plain_operation operation.now)) }
{
    match operation {
        Operation::NewCondition => Ok(new_condition(alloc, heap, born)?),
        Operation::NewVariable { value } => Ok(new_variable(alloc, heap, value, born)?),
        Operation::NewArray { items } => Ok(new_array(alloc, heap, items.as_slice(), born)?),
        Operation::NewEngine { name, namer, value } => {
            Ok(new_engine(alloc, heap, name, namer, value, born)?)
        }
        Operation::Cloning {
            flags,
            copied,
            rest,
        } => make_object(
            alloc,
            heap,
            *flags,
            copied.as_slice(),
            rest.as_slice(),
            born,
        ),
        _ => Err(Refused::Beyond),
    }
}

fn try_make(
    alloc: Global,
    heap: &mut SiteHeap,
    operation: &Operation,
    after: After,
    born: u64,
) -> Result<Tried, Refused>
    requires room { length heap.old.cells < 2 ^ 32 }
    requires names { NamesDiffer (plain_operation operation.now) }
    ensures { IfOk result (λ tried. TriedMake operation.now after born heap.old tried heap.new) }
{
    let place = place_of(operation, after);
    let outcome = make(alloc, heap, operation, born)?;
    Ok(Tried {
        outcome,
        place,
        loc: born,
    })
}

fn try_new(alloc: Global, heap: &mut SiteHeap, born: u64, w: &Window) -> Result<Tried, Refused>
    requires room { length heap.old.cells < 2 ^ 32 }
    requires names { NamesDifferIn (plain_focus w.now.focus) }
    ensures { IfOk result (λ tried. TriedNew born heap.old w.now tried heap.new) }
{
    match &w.focus {
        Focus::Act { operation, after } => try_make(alloc, heap, operation, *after, born),
        _ => Err(Refused::Beyond),
    }
}

/// Makes the cell that the operation makes at whose form the window is, with this number of its allocation. Another operation is beyond this.
pub fn make_cell(
    alloc: Global,
    codes: &Codes,
    heap: &mut SiteHeap,
    born: u64,
    w: &mut Window,
) -> Result<Act, Refused>
    requires room { length heap.old.cells < 2 ^ 32 }
    requires names { NamesDifferIn (plain_focus w.old.focus) }
    ensures { IfOk result (λ done. MakesCell codes.now heap.old born (shown w.old) done (plain_heap heap.new) (shown w.new)) }
{
    let tried = try_new(alloc, heap, born, w)?;
    let made = finish(alloc, codes, w, tried)?;
    let Some(done) = made else {
        return Err(Refused::Beyond);
    };
    Ok(done)
}
