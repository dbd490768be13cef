//! Engines and their arguments.

use crate::samples::{MOST_CELLS, integer, kept, tell};
use obq_base::{Kind, NoMemory, Ref, SiteId, Value};
use obq_engine::{engine_arg, make_engine};
use obq_heap::SiteHeap;
use std::alloc::Global;
use std::io;

/// A new engine with this argument.
fn engine(heap: &mut SiteHeap, arg: i64, born: u64) -> Result<Ref, NoMemory> {
    if heap.len() > MOST_CELLS {
        return Err(NoMemory);
    }
    make_engine(heap, Value::Int(arg), born)
}

pub fn print_cases(rt: &impl Print, alloc: Global) -> io::Result<()> {
    rt.println("engine")?;
    let mut heap = SiteHeap::new(alloc, SiteId(1));
    let e = kept(engine(&mut heap, 4, 9))?;
    let f = kept(engine(&mut heap, 5, 12))?;
    let miscalled = Ref {
        kind: Kind::Variable,
        ..f
    };
    let elsewhere = Ref {
        site: SiteId(0),
        ..f
    };
    tell(rt, "the engine of 4", integer(engine_arg(&heap, e)))?;
    tell(rt, "the engine of 5", integer(engine_arg(&heap, f)))?;
    tell(
        rt,
        "under another kind",
        integer(engine_arg(&heap, miscalled)),
    )?;
    tell(rt, "of another site", integer(engine_arg(&heap, elsewhere)))?;
    tell(rt, "an engine placed in turn 12 was born", heap.born(f))?;
    rt.println("")
}
