//! Frames that keep the room for what comes into their holes.

ghost use Rattle.std.specs.Prelude.{IfOk, [], ◌≡◌};
ghost use Rattle.obq_model.specs.Step as model;
ghost use Rattle.obq_model.specs.Terms as terms;
ghost use Rattle.obq_plain.specs.Holes.{plugged, replaced};
ghost use Rattle.obq_reduce.specs.Founds.{around, frame_of};
ghost use Rattle.std.specs.Prelude.{ℕ};

use obq_base::NoMemory;
use obq_reduce::Frame;
use obq_terms::{Term, Value};
use sqlite_items::Items;
use std::alloc::Global;

/// The frame with a part in its hole, whose place another term can take without memory.
#[tactic(auto, using(crate::proofs::Plugged::part_replaced))]
fn occupied(frame: Frame) -> Result<Frame, NoMemory>
    ensures { (t : terms.Term ℕ) → IfOk result (λ f. replaced f t ≡ model.fill (frame_of frame) t) }
{
    let Frame {
        kind,
        done,
        mut rest,
    } = frame;
    rest.push(Term::constant(Value::Okay))?;
    Ok(Frame { kind, done, rest })
}

/// These frames, the innermost first, with parts in their holes and the outermost first.
pub(crate) fn all_occupied(alloc: Global, frames: Items<Frame>) -> Result<Items<Frame>, NoMemory>
    ensures { (t : terms.Term ℕ) → IfOk result (λ fs. plugged fs t ≡ model.plug (around frames []) t) }
{
    let mut frames = frames;
    let mut all = Items::new(alloc);
    while let Some(frame) = frames.pop() {
        all.push(occupied(frame)?)?;
    }
    Ok(all)
}

/// The form of a frame with this term in place of the part in its hole.
#[tactic(auto, using(crate::proofs::Plugged::none_replaced))]
fn replace(frame: Frame, term: Term) -> Term
    ensures { result ≡ replaced frame term }
{
    let Frame {
        kind,
        done,
        mut rest,
    } = frame;
    if rest.len() == 0 {
        drop(term);
        return Term::form(kind, done, rest);
    }
    let last = rest.len() - 1;
    rest.set(last, term);
    Term::form(kind, done, rest)
}

/// The term with all of these frames around it, the outermost first. It takes no memory.
pub(crate) fn plug(frames: Items<Frame>, term: Term) -> Term
    ensures { result ≡ plugged frames term }
{
    let mut frames = frames;
    let mut whole = term;
    while let Some(frame) = frames.pop() {
        whole = replace(frame, whole);
    }
    whole
}
