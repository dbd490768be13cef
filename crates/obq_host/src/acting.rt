//! Acts of a window at the cells of its site.

ghost use Rattle.std.specs.Prelude.{◌≡◌, IfOk, IsTrue, None, Some};
ghost use Rattle.obq_answers.specs.Answers.{IsOfObject, place_of, plain_answer};
ghost use Rattle.obq_except.specs.declared.operations.After.{After};
ghost use Rattle.obq_except.specs.declared.operations.Operation.{Operation};
ghost use Rattle.obq_host.specs.Acting.{ActsAtOne, FinishedAs, TriedAt, TriedOne};
ghost use Rattle.obq_moves.specs.Views.{plain_after, plain_operation, self_of, shown};
ghost use Rattle.obq_site.specs.Acts.{cell_of};
ghost use Rattle.obq_site.specs.Cells.{plain_heap};
ghost use Rattle.obq_site.specs.Outcomes as site;

use crate::refused::Refused;
use obq_answers::{Answer, Place, give_answer, place_of};
use obq_base::{Act, ActKind, Kind, Ref, ThreadId};
use obq_code::Codes;
use obq_except::{After, CurrentSelf, Focus, Operation, Window};
use obq_heap::SiteHeap;
use obq_site::{Outcome, act_at_cell};
use std::alloc::Global;

/// What came of an act that was tried, before the window has its answer.
#[derive(Drop)]
pub(crate) struct Tried {
    pub(crate) outcome: Outcome,
    /// Where the answer goes.
    pub(crate) place: Place,
    /// The number of the allocation of the cell that it is done at.
    pub(crate) loc: u64,
}

// ---- the answer

/// What an act leaves at its form, in the words of windows.
fn carried(answer: obq_site::Answer) -> Answer
    ensures { plain_answer result ≡ site.plain_answer answer }
{
    match answer {
        obq_site::Answer::Value(value) => Answer::Value(value),
        obq_site::Answer::Raising(raising) => Answer::Raising(raising),
        obq_site::Answer::Test => Answer::Test,
        obq_site::Answer::Form(operation) => Answer::Form(operation),
        obq_site::Answer::Method {
            object,
            mode,
            group,
            member,
            arguments,
        } => Answer::Method {
            object,
            mode,
            group,
            member,
            arguments,
        },
        obq_site::Answer::Called { closure, arguments } => Answer::Called { closure, arguments },
    }
}

/// Whether a method is one of an object.
fn is_of_object(answer: &Answer) -> bool
    ensures { IsTrue result → IsOfObject answer.now }
{
    match answer {
        Answer::Method { object, .. } => object.kind == Kind::Object,
        _ => true,
    }
}

/// The window has the answer of an act that was done.
fn end(
    alloc: Global,
    codes: &Codes,
    w: &mut Window,
    place: Place,
    kind: ActKind,
    answer: obq_site::Answer,
    loc: u64,
) -> Result<Act, Refused>
    ensures { (op : Operation) (after : After) → place_of op after ≡ place → IfOk result (λ done. FinishedAs codes.now (plain_operation op) (plain_after after) (site.HowEnds kind (site.plain_answer answer)) loc (shown w.old) (Some done) (shown w.new)) }
{
    let answer = carried(answer);
    if !is_of_object(&answer) {
        drop(answer);
        return Err(Refused::Beyond);
    }
    give_answer(alloc, codes, w, place, answer)?;
    Ok(Act { kind, loc })
}

/// The window behind an outcome, and the act that was done, if it doesn't wait.
pub(crate) fn finish(
    alloc: Global,
    codes: &Codes,
    w: &mut Window,
    tried: Tried,
) -> Result<Option<Act>, Refused>
    ensures acted { (op : Operation) (after : After) → place_of op after ≡ tried.place → IfOk result (λ made. FinishedAs codes.now (plain_operation op) (plain_after after) (site.how tried.outcome) tried.loc (shown w.old) made (shown w.new)) }
    ensures same { IfOk result (λ made. made ≡ None → w.new ≡ w.old) }
{
    let Tried {
        outcome,
        place,
        loc,
    } = tried;
    match outcome {
        Outcome::Waits => Ok(None),
        Outcome::Ends { kind, answer } => {
            let done = end(alloc, codes, w, place, kind, answer, loc)?;
            Ok(Some(done))
        }
    }
}

// ---- an operation on one cell

/// The cell that an operation is done at, if it is done at one.
fn cell_of(operation: &Operation) -> Option<Ref>
    ensures { result ≡ cell_of (plain_operation operation.now) }
{
    match operation {
        Operation::Get { object, .. } => Some(*object),
        Operation::Invoke { object, .. } => Some(*object),
        Operation::SetValue { object, .. } => Some(*object),
        Operation::SetMethod { object, .. } => Some(*object),
        Operation::SetAlias { object, .. } => Some(*object),
        Operation::Cloning { rest, .. } => rest.as_slice().first().copied(),
        Operation::Redirect { object, .. } => Some(*object),
        Operation::Leave { object, .. } => Some(*object),
        Operation::ItemOf { array, .. } => Some(*array),
        Operation::Size { array } => Some(*array),
        Operation::EachSize { array } => Some(*array),
        Operation::EachItem { array, .. } => Some(*array),
        Operation::SetItem { array, .. } => Some(*array),
        Operation::Read { variable } => Some(*variable),
        Operation::SetVariable { variable, .. } => Some(*variable),
        Operation::Write { writer, .. } => Some(*writer),
        Operation::LineUp { condition, .. } => Some(*condition),
        Operation::GiveUp { object, .. } => Some(*object),
        Operation::Signal { condition } => Some(*condition),
        Operation::Broadcast { condition } => Some(*condition),
        Operation::RunEngine { engine, .. } => Some(*engine),
        _ => None,
    }
}

fn try_operation(
    alloc: Global,
    codes: &Codes,
    heap: &mut SiteHeap,
    thread: ThreadId,
    current: CurrentSelf,
    operation: &Operation,
    after: After,
) -> Result<Tried, Refused>
    ensures { IfOk result (λ tried. TriedOne codes.now thread.0 (self_of current) operation.now after heap.old tried heap.new) }
{
    let Some(cell) = cell_of(operation) else {
        return Err(Refused::Beyond);
    };
    let Some(loc) = heap.born(cell) else {
        return Err(Refused::Beyond);
    };
    let place = place_of(operation, after);
    let outcome = act_at_cell(alloc, codes, heap, thread, current, operation)?;
    Ok(Tried {
        outcome,
        place,
        loc,
    })
}

fn try_at(
    alloc: Global,
    codes: &Codes,
    heap: &mut SiteHeap,
    thread: ThreadId,
    w: &Window,
) -> Result<Tried, Refused>
    ensures { IfOk result (λ tried. TriedAt codes.now thread.0 heap.old w.now tried heap.new) }
{
    match &w.focus {
        Focus::Act { operation, after } => {
            try_operation(alloc, codes, heap, thread, w.current, operation, *after)
        }
        _ => Err(Refused::Beyond),
    }
}

/// Does the operation at whose form the window is, at its cell. None where it waits. Another operation, or one whose cell isn't here, is
/// beyond this.
pub fn act_at_one(
    alloc: Global,
    codes: &Codes,
    heap: &mut SiteHeap,
    thread: ThreadId,
    w: &mut Window,
) -> Result<Option<Act>, Refused>
    ensures acted { IfOk result (λ made. ActsAtOne codes.now thread.0 heap.old (shown w.old) made (plain_heap heap.new) (shown w.new)) }
    ensures same { IfOk result (λ made. made ≡ None → w.new ≡ w.old) }
{
    let tried = try_at(alloc, codes, heap, thread, w)?;
    let made = finish(alloc, codes, w, tried)?;
    Ok(made)
}
