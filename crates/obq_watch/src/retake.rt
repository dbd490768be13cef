//! The mutex of an object whose method watches a condition.

ghost use Rattle.std.specs.Prelude.{◌≡◌, ◌↔◌, IsTrue, Bool, Some, None};
ghost use Rattle.obq_base.specs.declared.acts.ActKind.{ActKind};
ghost use Rattle.obq_base.specs.declared.places.Ref.{Ref};
ghost use Rattle.obq_model.specs.Terms.{Out, Term, Form, Part, End};
ghost use Rattle.obq_model.specs.Step.{Self, GiveUp};
ghost use Rattle.obq_model.specs.Cells.{again_row, cell_row};
ghost use Rattle.obq_heap.specs.declared.cells.Cell.{Cell};
ghost use Rattle.obq_heap.specs.Cells.{with_owner};
ghost use Rattle.obq_heap.specs.Heap.{ForObject, IsObjectAt, changed};
ghost use Rattle.obq_watch.specs.Reads.{Reads, cell_of};
ghost use Rattle.obq_watch.specs.Watches.{does, retaken, retaken_heap, retaken_row};

use obq_base::{Ref, ThreadId};
use obq_heap::SiteHeap;

/// Whether a watch took its object's mutex again.
#[derive(Clone, Copy, Debug, PartialEq, Eq)]
pub enum Retaken {
    /// The mutex was free, and is now the thread's.
    Held,
    /// The thread still stands in the condition's line.
    StillLined,
    /// The mutex is this thread's.
    Waits { owner: ThreadId },
}

fn retake(lined: bool, owner: Option<ThreadId>) -> Retaken
    ensures { result ≡ retaken lined owner }
{
    match owner {
        _ if lined => Retaken::StillLined,
        Some(owner) => Retaken::Waits { owner },
        None => Retaken::Held,
    }
}

/// Frees the mutex of an object that the thread owns, while it stands in a condition's line. It takes no memory.
pub fn give_up(heap: &mut SiteHeap, o: Ref, thread: ThreadId)
    requires { ForObject heap.old o (λ flags owner fields. owner ≡ Some thread) }
    ensures heap { heap.new ≡ changed heap.old o (with_owner None) }
    ensures row { ForObject heap.old o (λ flags owner fields. (read : Reads) (eq : Ref → Ref → Bool) (s : Self Ref) (c : Ref) (guard : Term Ref) → cell_row eq does None thread.0 s (GiveUp o c guard) (Some (cell_of read (Cell.Object flags owner fields))) ≡ does ActKind.GiveUp (Some (cell_of read (Cell.Object flags None fields))) (Form (Out o c) (Part guard End))) }
{
    heap.set_owner(o, None);
}

/// Takes the mutex of an object again, once the thread is out of the condition's line: `lined` says that it isn't. It takes no
/// memory.
pub fn again(heap: &mut SiteHeap, o: Ref, thread: ThreadId, lined: bool) -> Retaken
    requires { IsObjectAt heap.old o }
    ensures row { ForObject heap.old o (λ flags owner fields. (read : Reads) (c : Ref) (guard : Term Ref) → again_row does None thread.0 lined o c guard (Some (cell_of read (Cell.Object flags owner fields))) ≡ retaken_row read o c guard (Cell.Object flags (Some thread) fields) result) }
    ensures lined { (result ≡ Retaken.StillLined) ↔ IsTrue lined }
    ensures waits { ForObject heap.old o (λ flags owner fields. (u : ThreadId) → result ≡ Retaken.Waits u → owner ≡ Some u) }
    ensures heap { heap.new ≡ retaken_heap heap.old o thread result }
{
    let (_, owner, _) = heap.object(o);
    let answer = retake(lined, owner);
    if let Retaken::Held = answer {
        heap.set_owner(o, Some(thread));
    }
    answer
}
