//! A site.

ghost use Rattle.std.specs.Prelude.{◌≡◌, ◌∷◌, [], IfOk, Some, is_some, option_map};
ghost use Rattle.obq_heap.specs.Heap.{cell_at};
ghost use Rattle.obq_host.specs.Endings.{kept_at, plain_ending};
ghost use Rattle.obq_host.specs.Places.{at_place};
ghost use Rattle.obq_host.specs.Turns.{IsBegun, first_heap, how_of, text_in, the_writer};

use crate::places::look_at;
use obq_base::{Kind, NoMemory, Ref, SiteId, Text, ThreadId, Value};
use obq_except::Window;
use obq_heap::{Cell, SiteHeap, Written};
use obq_namer::Namer;
use obq_world::HowEnded;
use std::alloc::Global;

/// How a thread ended.
#[derive(Drop)]
pub enum Ending {
    Returned(Value),
    Failed(Text),
}

/// A site: its cells, the exported names that are kept here, and by the numbers of threads the windows of those that run here and the endings that are kept here.
#[derive(Drop)]
pub struct Host {
    pub(crate) alloc: Global,
    pub(crate) heap: SiteHeap,
    pub(crate) windows: Vec<Option<Window>>,
    pub(crate) endings: Vec<Option<Ending>>,
    pub(crate) names: Namer,
}

/// The cells of a site that begins.
fn first_cells(alloc: Global) -> Result<SiteHeap, NoMemory>
    ensures { IfOk result (λ heap. heap ≡ first_heap) }
{
    let mut heap = SiteHeap::new(alloc, SiteId(0));
    heap.place(Cell::Writer(Written::new(alloc)), 0)?;
    Ok(heap)
}

fn only<T: Drop>(alloc: Global, thing: T) -> Result<Vec<Option<T>>, NoMemory>
    ensures { IfOk result (λ places. places.items ≡ Some thing ∷ []) }
{
    let mut places = Vec::new(alloc);
    places.push(Some(thing))?;
    Ok(places)
}

fn way(ending: &Ending) -> HowEnded
    ensures { result ≡ how_of (plain_ending ending.now) }
{
    match ending {
        Ending::Returned(_) => HowEnded::ByValue,
        Ending::Failed(_) => HowEnded::ByException,
    }
}

impl Host {
    /// The site with its writer and thread 0, whose window this is.
    pub fn begin(alloc: Global, window: Window) -> Result<Host, NoMemory>
        ensures { IfOk result (λ site. IsBegun window site) }
    {
        let windows = only(alloc, window)?;
        let heap = first_cells(alloc)?;
        Ok(Host {
            alloc,
            heap,
            windows,
            endings: Vec::new(alloc),
            names: Namer::new(alloc),
        })
    }

    /// Whether the thread has a window here.
    pub fn is_running(&self, thread: ThreadId) -> bool
        ensures { result ≡ is_some (at_place self.now.windows.items thread.0) }
    {
        look_at(&self.windows, thread.0 as usize).is_some()
    }

    /// How the thread ended, if its ending is kept here.
    pub fn ending(&self, thread: ThreadId) -> Option<HowEnded>
        ensures { result ≡ option_map how_of (kept_at self.now.endings.items thread.0) }
    {
        match look_at(&self.endings, thread.0 as usize) {
            None => None,
            Some(ending) => Some(way(ending)),
        }
    }

    /// The text of the site's writer.
    pub fn text(&self) -> &[u8]
        ensures { result.now ≡ text_in (cell_at self.now.heap the_writer) }
    {
        let writer = Ref {
            site: SiteId(0),
            n: 0,
            kind: Kind::Writer,
        };
        match self.heap.get(writer) {
            Some(Cell::Writer(written)) => written.as_bytes(),
            _ => &[],
        }
    }
}
