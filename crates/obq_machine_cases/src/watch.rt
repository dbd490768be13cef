//! Conditions, and the mutex that a watch takes again.

use crate::samples::{kept, place, tell};
use obq_base::{Flags, NoMemory, Ref, SiteId, ThreadId};
use obq_heap::{Cell, NameMap, SiteHeap};
use obq_watch::{Retaken, again, broadcast, line_up, signal};
use sqlite_items::Items;
use std::alloc::Global;
use std::io;

/// A heap with a condition with the threads 1, 3 and 2 in its line, a serialized object that nobody owns, and one that thread 2 owns.
#[derive(Drop)]
struct Watched {
    heap: SiteHeap,
    condition: Ref,
    free: Ref,
    owned: Ref,
}

/// A serialized object that this thread owns, if any.
fn object(alloc: Global, heap: &mut SiteHeap, owner: Option<ThreadId>) -> Result<Ref, NoMemory> {
    let flags = Flags {
        protected: false,
        serialized: true,
    };
    let cell = Cell::Object {
        flags,
        owner,
        fields: NameMap::new(alloc),
    };
    place(heap, cell, 0)
}

fn lined(alloc: Global) -> Result<Watched, NoMemory> {
    let mut heap = SiteHeap::new(alloc, SiteId(0));
    let condition = place(&mut heap, Cell::Condition(Items::new(alloc)), 0)?;
    let free = object(alloc, &mut heap, None)?;
    let owned = object(alloc, &mut heap, Some(ThreadId(2)))?;
    line_up(&mut heap, condition, ThreadId(1))?;
    line_up(&mut heap, condition, ThreadId(3))?;
    line_up(&mut heap, condition, ThreadId(2))?;
    Ok(Watched {
        heap,
        condition,
        free,
        owned,
    })
}

/// What `again` answers thread 1, where there is such an object.
fn retaken(heap: &mut SiteHeap, o: Ref, lined: bool) -> Option<Retaken> {
    match heap.get(o) {
        Some(Cell::Object { .. }) => Some(again(heap, o, ThreadId(1), lined)),
        _ => None,
    }
}

fn print_retaken(rt: &impl Print, watched: &mut Watched) -> io::Result<()> {
    let (c, o, owned) = (watched.condition, watched.free, watched.owned);
    let heap = &mut watched.heap;
    tell(
        rt,
        "thread 1 again, still in the line",
        retaken(heap, o, true),
    )?;
    tell(
        rt,
        "thread 1 again, of another's object",
        retaken(heap, owned, false),
    )?;
    tell(rt, "signal", signal(heap, c))?;
    tell(rt, "thread 1 again", retaken(heap, o, false))?;
    tell(
        rt,
        "thread 1 again, of its own object",
        retaken(heap, o, false),
    )
}

fn print_woken(rt: &impl Print, watched: &mut Watched) -> io::Result<()> {
    let c = watched.condition;
    let rest = broadcast(&mut watched.heap, c);
    tell(rt, "broadcast", rest.as_slice())?;
    tell(rt, "signal, with no line", signal(&mut watched.heap, c))
}

pub fn print_cases(rt: &impl Print, alloc: Global) -> io::Result<()> {
    rt.println("watch")?;
    let mut watched = kept(lined(alloc))?;
    print_retaken(rt, &mut watched)?;
    print_woken(rt, &mut watched)?;
    rt.println("")
}
