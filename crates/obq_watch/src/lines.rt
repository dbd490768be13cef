//! The line of a condition.

ghost use Rattle.std.specs.Prelude.{◌≡◌, [], ℕ, Bool, Some, None, slice_get, OnOk, OnErr};
ghost use Rattle.obq_base.specs.declared.acts.ActKind.{ActKind};
ghost use Rattle.obq_base.specs.declared.places.Ref.{Ref};
ghost use Rattle.obq_model.specs.Terms.{Okay, Lined, Term, Const, Form, Part, End};
ghost use Rattle.obq_model.specs.Step.{Self, LineUp, Signal, Broadcast};
ghost use Rattle.obq_model.specs.Cells.{cell_row};
ghost use Rattle.obq_heap.specs.declared.cells.Cell.{Cell};
ghost use Rattle.obq_heap.specs.Cells.{line_up, with_line, without_first};
ghost use Rattle.obq_heap.specs.Heap.{cell_at, changed, line_at};
ghost use Rattle.obq_watch.specs.Reads.{Reads, cell_of};
ghost use Rattle.obq_watch.specs.Watches.{ForLine, does};

use obq_base::{NoMemory, Ref, ThreadId};
use obq_heap::SiteHeap;
use sqlite_items::Items;

/// The thread comes last in the condition's line. It should not stand there yet.
pub fn line_up(heap: &mut SiteHeap, c: Ref, thread: ThreadId) -> Result<(), NoMemory>
    ensures ok { OnOk result (heap.new ≡ changed heap.old c (line_up thread)) }
    ensures row { ForLine heap.old c (λ line. (read : Reads) (eq : Ref → Ref → Bool) (s : Self Ref) (o : Ref) (guard : Term Ref) → cell_row eq does None thread.0 s (LineUp o c guard) (Some (cell_of read (Cell.Condition line))) ≡ does ActKind.Line (Some (cell_of read (line_up thread (Cell.Condition line)))) (Form (Lined o c) (Part guard End))) }
    ensures err { OnErr result (heap.new ≡ heap.old) }
{
    heap.line_up(c, thread)
}

/// Takes the first thread out of the condition's line: none exactly where the line is empty. It takes no memory.
pub fn signal(heap: &mut SiteHeap, c: Ref) -> Option<ThreadId>
    ensures first { result ≡ slice_get (line_at (cell_at heap.old c)) 0 }
    ensures heap { heap.new ≡ changed heap.old c without_first }
    ensures row { ForLine heap.old c (λ line. (read : Reads) (eq : Ref → Ref → Bool) (s : Self Ref) (t : ℕ) → cell_row eq does None t s (Signal c) (Some (cell_of read (Cell.Condition line))) ≡ does ActKind.Signal (Some (cell_of read (without_first (Cell.Condition line)))) (Const Okay)) }
{
    heap.take_first(c)
}

/// Takes all threads out of the condition's line, in its order. It takes no memory.
pub fn broadcast(heap: &mut SiteHeap, c: Ref) -> Items<ThreadId>
    ensures line { result ≡ line_at (cell_at heap.old c) }
    ensures heap { heap.new ≡ changed heap.old c (with_line []) }
    ensures row { ForLine heap.old c (λ line. (read : Reads) (eq : Ref → Ref → Bool) (s : Self Ref) (t : ℕ) → cell_row eq does None t s (Broadcast c) (Some (cell_of read (Cell.Condition line))) ≡ does ActKind.Broadcast (Some (cell_of read (with_line [] (Cell.Condition line)))) (Const Okay)) }
{
    heap.take_line(c)
}
