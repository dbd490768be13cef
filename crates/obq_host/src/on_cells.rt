//! The act at whose form a window is, among all acts on cells.

ghost use Rattle.std.specs.Prelude.{◌≡◌, ◌<◌, ◌^◌, IfOk, length};
ghost use Rattle.obq_host.specs.NewCells.{NamesDifferIn};
ghost use Rattle.obq_host.specs.OnCells.{ActsOnCells, family_in, family_of, old_cells};
ghost use Rattle.obq_host.specs.declared.on_cells.CellAct.TheVariants as act;
ghost use Rattle.obq_moves.specs.Views.{plain_focus, plain_operation, shown};
ghost use Rattle.obq_site.specs.Cells.{plain_heap};

use crate::acting::act_at_one;
use crate::new_cells::make_cell;
use crate::refused::Refused;
use crate::watching::retake;
use obq_base::{Act, ThreadId};
use obq_code::Codes;
use obq_except::{Focus, Operation, Window};
use obq_heap::SiteHeap;
use std::alloc::Global;

/// What came of an act on cells.
#[derive(Clone, Copy, Debug, PartialEq, Eq)]
pub enum CellAct {
    /// It waits, and nothing has changed.
    Waits,
    Did(Act),
    /// It was done, and made a cell.
    Made(Act),
}

/// How an operation is done.
#[derive(Clone, Copy, Debug, PartialEq, Eq)]
pub(crate) enum Family {
    /// At one cell.
    One,
    /// At an object and a condition.
    Watch,
    /// By a new cell.
    New,
}

fn family_of(operation: &Operation) -> Family
    ensures { result ≡ family_of (plain_operation operation.now) }
{
    match operation {
        Operation::Again { .. } => Family::Watch,
        Operation::NewCondition => Family::New,
        Operation::NewVariable { .. } => Family::New,
        Operation::NewArray { .. } => Family::New,
        Operation::NewEngine { .. } => Family::New,
        Operation::Cloning { rest, .. } => match rest.as_slice().first() {
            Some(_) => Family::One,
            None => Family::New,
        },
        _ => Family::One,
    }
}

fn family_in(focus: &Focus) -> Family
    ensures { result ≡ family_in (plain_focus focus.now) }
{
    match focus {
        Focus::Act { operation, .. } => family_of(operation),
        _ => Family::One,
    }
}

/// An act that makes no cell.
fn old_cells(made: Option<Act>) -> CellAct
    ensures { result ≡ old_cells made }
{
    match made {
        Some(act) => CellAct::Did(act),
        None => CellAct::Waits,
    }
}

/// Does the act at whose form the window is, if it is one on cells; a new cell has this number of its allocation. Names are beyond this, and
/// what names a cell that isn't here.
pub fn act_on_cells(
    alloc: Global,
    codes: &Codes,
    heap: &mut SiteHeap,
    thread: ThreadId,
    born: u64,
    w: &mut Window,
) -> Result<CellAct, Refused>
    requires room { length heap.old.cells < 2 ^ 32 }
    requires names { NamesDifferIn (plain_focus w.old.focus) }
    ensures acted { IfOk result (λ done. ActsOnCells codes.now thread.0 heap.old born (shown w.old) (plain_heap heap.new) (shown w.new) done) }
    ensures same { IfOk result (λ done. done ≡ act.Waits → w.new ≡ w.old) }
{
    match family_in(&w.focus) {
        Family::One => Ok(old_cells(act_at_one(alloc, codes, heap, thread, w)?)),
        Family::Watch => Ok(old_cells(retake(alloc, codes, heap, thread, w)?)),
        Family::New => Ok(CellAct::Made(make_cell(alloc, codes, heap, born, w)?)),
    }
}
