//! The mutexes of serialized objects.

use crate::samples::{kept, place, tell};
use obq_base::{Flags, NoMemory, Ref, SiteId, ThreadId};
use obq_heap::{Cell, NameMap, SiteHeap};
use obq_serial::{Entered, Touch, enter, may_touch};
use std::alloc::Global;
use std::io;

/// A new object, serialized or not, that nobody owns.
fn object(alloc: Global, heap: &mut SiteHeap, serialized: bool) -> Result<Ref, NoMemory> {
    let flags = Flags {
        protected: true,
        serialized,
    };
    let cell = Cell::Object {
        flags,
        owner: None,
        fields: NameMap::new(alloc),
    };
    place(heap, cell, 0)
}

/// `enter`, where there is such an object.
fn entered(heap: &mut SiteHeap, o: Ref, thread: u32, current: Option<Ref>) -> Option<Entered> {
    match heap.get(o) {
        Some(Cell::Object { .. }) => Some(enter(heap, o, ThreadId(thread), current)),
        _ => None,
    }
}

fn touched(heap: &SiteHeap, o: Ref, current: Option<Ref>) -> Option<Touch> {
    match heap.get(o) {
        Some(Cell::Object { .. }) => Some(may_touch(heap, o, current)),
        _ => None,
    }
}

fn print_owned(rt: &impl Print, heap: &mut SiteHeap, free: Ref, o: Ref) -> io::Result<()> {
    tell(
        rt,
        "no thread in it, touch from outside",
        touched(heap, o, None),
    )?;
    tell(rt, "thread 1 from outside", entered(heap, o, 1, None))?;
    tell(
        rt,
        "thread 1 from its own method",
        entered(heap, o, 1, Some(o)),
    )?;
    tell(
        rt,
        "thread 1 from another object's method",
        entered(heap, o, 1, Some(free)),
    )?;
    tell(rt, "thread 2 from outside", entered(heap, o, 2, None))?;
    tell(rt, "touch from outside", touched(heap, o, None))?;
    tell(rt, "touch from its own method", touched(heap, o, Some(o)))
}

pub fn print_cases(rt: &impl Print, alloc: Global) -> io::Result<()> {
    rt.println("serial")?;
    let mut heap = SiteHeap::new(alloc, SiteId(0));
    let free = kept(object(alloc, &mut heap, false))?;
    let o = kept(object(alloc, &mut heap, true))?;
    tell(
        rt,
        "thread 1 into an object that isn't serialized",
        entered(&mut heap, free, 1, None),
    )?;
    tell(rt, "thread 2 into it", entered(&mut heap, free, 2, None))?;
    print_owned(rt, &mut heap, free, o)?;
    rt.println("")
}
