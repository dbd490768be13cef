//! Who has the mutex of an object, and who has to wait for it.

ghost use Rattle.std.specs.Prelude.{◌≡◌, Bool, Some, None, if◌then◌else◌};
ghost use Rattle.obq_base.specs.declared.places.Ref.{Ref};
ghost use Rattle.obq_model.specs.Cells.{is_clear, mode_for, owned_cell, owner_for};
ghost use Rattle.obq_model.specs.Step.{self_with};
ghost use Rattle.obq_heap.specs.Cells.{with_owner};
ghost use Rattle.obq_heap.specs.Heap.{ForObject, IsObjectAt, changed};
ghost use Rattle.obq_heap.specs.Reading.{owner_number};
ghost use Rattle.obq_heap.specs.declared.cells.Cell.{Cell};
ghost use Rattle.obq_serial.specs.Reads.{Reads, cell_of};
ghost use Rattle.obq_serial.specs.Mutex.{IsCurrent, Tells, entered, heap_after, is_yes, mode_of, owner_after, touched};

use obq_base::{Flags, Ref, ThreadId};
use obq_heap::{Cell, SiteHeap};

/// How a method of an object is entered.
#[derive(Clone, Copy, Debug, PartialEq, Eq)]
pub enum Entered {
    /// The object isn't serialized.
    Plain,
    /// The mutex was free, and is now the thread's.
    Held,
    /// The object is the current self.
    Inner,
    /// The mutex is this thread's.
    Waits { owner: ThreadId },
}

/// Whether an operation that keeps nothing may go on.
#[derive(Clone, Copy, Debug, PartialEq, Eq)]
pub enum Touch {
    Yes,
    /// The mutex is this thread's.
    Waits { owner: ThreadId },
}

/// Whether the object is the current self.
fn is_current(current: Option<Ref>, o: Ref) -> bool
    ensures { IsCurrent current o result }
{
    match current {
        Some(object) => object == o,
        None => false,
    }
}

/// The answer of `enter`, for an object with these flags and this owner.
fn answer_for(flags: Flags, owner: Option<ThreadId>, inflicted: bool) -> Entered
    ensures { result ≡ entered flags owner inflicted }
{
    if !flags.serialized {
        return Entered::Plain;
    }
    if inflicted {
        return Entered::Inner;
    }
    match owner {
        Some(owner) => Entered::Waits { owner },
        None => Entered::Held,
    }
}

fn touched(answer: Entered) -> Touch
    ensures { result ≡ touched answer }
{
    match answer {
        Entered::Waits { owner } => Touch::Waits { owner },
        _ => Touch::Yes,
    }
}

/// Enters a method of an object, whose mutex becomes the thread's at `Held`. It takes no memory.
pub fn enter(heap: &mut SiteHeap, o: Ref, thread: ThreadId, current: Option<Ref>) -> Entered
    requires { IsObjectAt heap.old o }
    // For every equality of references, and whether the current self's mode is Plain or not: the definition's mode, or it waits where not clear.
    ensures mode { ForObject heap.old o (λ flags owner fields. (eq : Ref → Ref → Bool) (plain : Bool) → Tells eq → mode_of result ≡ (if is_clear eq (self_with current plain) o flags (owner_number owner) then Some (mode_for eq (self_with current plain) o flags) else None)) }
    ensures owner { ForObject heap.old o (λ flags owner fields. (eq : Ref → Ref → Bool) (plain : Bool) → Tells eq → owner_number (owner_after thread owner result) ≡ (if is_clear eq (self_with current plain) o flags (owner_number owner) then owner_for eq (self_with current plain) o flags thread.0 (owner_number owner) else owner_number owner)) }
    ensures waits { ForObject heap.old o (λ flags owner fields. (u : ThreadId) → result ≡ Entered.Waits u → owner ≡ Some u) }
    ensures heap { heap.new ≡ heap_after heap.old o thread result }
{
    let answer = match heap.get(o) {
        Some(Cell::Object { flags, owner, .. }) => answer_for(
            *flags,
            *owner,
            is_current(current, o),
        ),
        _ => unreachable!(),
    };
    if let Entered::Held = answer {
        heap.set_owner(o, Some(thread));
    }
    answer
}

/// Whether an operation on an object that keeps nothing may go on. It takes no memory.
pub fn may_touch(heap: &SiteHeap, o: Ref, current: Option<Ref>) -> Touch
    requires { IsObjectAt heap.now o }
    ensures clear { ForObject heap.now o (λ flags owner fields. (eq : Ref → Ref → Bool) (plain : Bool) → Tells eq → is_yes result ≡ is_clear eq (self_with current plain) o flags (owner_number owner)) }
    ensures waits { ForObject heap.now o (λ flags owner fields. (u : ThreadId) → result ≡ Touch.Waits u → owner ≡ Some u) }
{
    match heap.get(o) {
        Some(Cell::Object { flags, owner, .. }) => {
            touched(answer_for(*flags, *owner, is_current(current, o)))
        }
        _ => unreachable!(),
    }
}

/// Frees the mutex of an object that the thread owns. It takes no memory.
pub fn leave(heap: &mut SiteHeap, o: Ref, thread: ThreadId)
    requires { ForObject heap.old o (λ flags owner fields. owner ≡ Some thread) }
    ensures heap { heap.new ≡ changed heap.old o (with_owner None) }
    ensures row { ForObject heap.old o (λ flags owner fields. (read : Reads) → owned_cell None (Some (cell_of read (Cell.Object flags owner fields))) ≡ Some (cell_of read (Cell.Object flags None fields))) }
{
    heap.set_owner(o, None);
}
