//! Operations that wait, and a watch that takes its object's mutex again.

ghost use Rattle.std.specs.Prelude.{◌≡◌, IfOk, option_copied, option_map, None};
ghost use Rattle.obq_heap.specs.Heap.{cell_at};
ghost use Rattle.obq_heap.specs.Reading.{numbers};
ghost use Rattle.obq_host.specs.Watching.{ActsAgain, TriedAgain, TriedWatch, is_held, is_kept_out, is_lined, waits_in, waits_now};
ghost use Rattle.obq_model.specs.Cells.{is_object};
ghost use Rattle.obq_model.specs.Effect.{in_line};
ghost use Rattle.obq_model.specs.Step.{is_call_limit};
ghost use Rattle.obq_moves.specs.Store.{same_ref};
ghost use Rattle.obq_moves.specs.Views.{plain_operation, self_of, shown};
ghost use Rattle.obq_site.specs.Cells.{plain_cell, plain_heap};
ghost use Rattle.obq_windows.specs.Rows.{is_plain_free};

use crate::acting::{Tried, finish};
use crate::refused::Refused;
use obq_answers::place_of;
use obq_base::limits::CALL_LIMIT;
use obq_base::{Act, Ref, ThreadId};
use obq_code::Codes;
use obq_except::{After, CurrentSelf, Focus, Operation, Window};
use obq_heap::{Cell, SiteHeap};
use obq_site::again;
use std::alloc::Global;

// ---- operations that wait

/// Whether the object is the current self.
fn is_current(current: Option<Ref>, object: Ref) -> bool
    ensures { result ≡ is_object same_ref current object }
{
    match current {
        Some(own) => own == object,
        None => false,
    }
}

/// Whether it is an object whose mutex another one has than this current self.
fn is_held(cell: Option<&Cell>, current: CurrentSelf, object: Ref) -> bool
    ensures { result ≡ is_held (self_of current) object (option_copied cell.entry) }
{
    match cell {
        Some(Cell::Object { flags, owner, .. }) => {
            flags.serialized && !is_current(current.object, object) && owner.is_some()
        }
        _ => false,
    }
}

fn is_held_at(heap: &SiteHeap, current: CurrentSelf, object: Ref) -> bool
    ensures { result ≡ is_held (self_of current) object (cell_at heap.now object) }
{
    is_held(heap.get(object), current, object)
}

fn is_in_line(thread: ThreadId, line: &[ThreadId]) -> bool
    ensures { result ≡ in_line thread.0 (numbers line.now) }
{
    for other in line {
        if thread.0 == other.0 {
            return true;
        }
    }
    false
}

/// Whether the thread stands in this condition's line.
fn is_lined(cell: &Cell, thread: ThreadId) -> bool
    ensures { result ≡ is_lined thread.0 (plain_cell cell.now) }
{
    match cell {
        Cell::Condition(line) => is_in_line(thread, line.as_slice()),
        _ => false,
    }
}

/// Whether it is an object whose mutex is free.
fn is_free(cell: &Cell) -> bool
    ensures { result ≡ is_plain_free (Some (plain_cell cell.now)) }
{
    matches!(cell, Cell::Object { owner: None, .. })
}

/// Whether a watch can't take its object's mutex again.
fn is_kept_out(heap: &SiteHeap, thread: ThreadId, object: Ref, condition: Ref) -> bool
    ensures { result ≡ is_kept_out thread.0 (cell_at heap.now object) (cell_at heap.now condition) }
{
    let Some(object) = heap.get(object) else {
        return false;
    };
    let Some(condition) = heap.get(condition) else {
        return false;
    };
    is_lined(condition, thread) || !is_free(object)
}

/// Whether there may be no further activation.
fn is_call_limit(activations: u32) -> bool
    ensures { result ≡ is_call_limit activations }
{
    CALL_LIMIT <= activations
}

fn waits_now(
    heap: &SiteHeap,
    thread: ThreadId,
    current: CurrentSelf,
    activations: u32,
    operation: &Operation,
) -> bool
    ensures { result ≡ waits_now thread.0 (self_of current) activations (plain_operation operation.now) heap.now }
{
    match operation {
        Operation::Get { object, .. } => is_held_at(heap, current, *object),
        Operation::Invoke { object, .. } => {
            !is_call_limit(activations) && is_held_at(heap, current, *object)
        }
        Operation::SetValue { object, .. } => is_held_at(heap, current, *object),
        Operation::SetMethod { object, .. } => is_held_at(heap, current, *object),
        Operation::SetAlias { object, .. } => is_held_at(heap, current, *object),
        Operation::Redirect { object, .. } => is_held_at(heap, current, *object),
        Operation::Cloning { rest, .. } => match rest.as_slice().first() {
            Some(object) => is_held_at(heap, current, *object),
            None => false,
        },
        Operation::Again { object, condition } => is_kept_out(heap, thread, *object, *condition),
        _ => false,
    }
}

/// Whether the act at whose form the window is waits. It may also be told `false` of one that waits.
pub fn waits(heap: &SiteHeap, thread: ThreadId, w: &Window) -> bool
    ensures { result ≡ waits_in thread.0 (shown w.now) heap.now }
{
    match &w.focus {
        Focus::Act { operation, .. } => waits_now(
            heap,
            thread,
            w.current,
            w.activations,
            operation,
        ),
        _ => false,
    }
}

// ---- a watch that takes its object's mutex again

fn try_retake(
    heap: &mut SiteHeap,
    thread: ThreadId,
    operation: &Operation,
    after: After,
) -> Result<Tried, Refused>
    ensures { IfOk result (λ tried. TriedAgain thread.0 operation.now after heap.old tried heap.new) }
{
    let Operation::Again { object, condition } = operation else {
        return Err(Refused::Beyond);
    };
    let Some(loc) = heap.born(*object) else {
        return Err(Refused::Beyond);
    };
    let Some(line) = heap.get(*condition) else {
        return Err(Refused::Beyond);
    };
    let lined = is_lined(line, thread);
    let place = place_of(operation, after);
    let outcome = again(heap, thread, *object, lined);
    Ok(Tried {
        outcome,
        place,
        loc,
    })
}

fn try_watch(heap: &mut SiteHeap, thread: ThreadId, w: &Window) -> Result<Tried, Refused>
    ensures { IfOk result (λ tried. TriedWatch thread.0 heap.old w.now tried heap.new) }
{
    match &w.focus {
        Focus::Act { operation, after } => try_retake(heap, thread, operation, *after),
        _ => Err(Refused::Beyond),
    }
}

/// Takes the mutex of a watch's object again, at whose form the window is. None where it waits. Another operation, or a watch whose object or
/// condition isn't here, is beyond this.
pub fn retake(
    alloc: Global,
    codes: &Codes,
    heap: &mut SiteHeap,
    thread: ThreadId,
    w: &mut Window,
) -> Result<Option<Act>, Refused>
    ensures acted { IfOk result (λ made. ActsAgain codes.now thread.0 heap.old (shown w.old) made (plain_heap heap.new) (shown w.new)) }
    ensures same { IfOk result (λ made. made ≡ None → w.new ≡ w.old) }
{
    let tried = try_watch(heap, thread, w)?;
    let made = finish(alloc, codes, w, tried)?;
    Ok(made)
}
