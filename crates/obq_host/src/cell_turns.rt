//! What a site does for a thread whose act is one on cells, and all of its acts.

ghost use Rattle.std.specs.Prelude.{◌≡◌, ◌<◌, ◌^◌, IfOk, IsTrue, length};
ghost use Rattle.obq_host.specs.CellTurns.{Acts, ActsOnOwnCells, is_known_to_wait, tried_of, waits_at_cells};
ghost use Rattle.obq_host.specs.NewCells.{NamesDifferIn};
ghost use Rattle.obq_host.specs.OnCells.{ActsOnCells};
ghost use Rattle.obq_host.specs.Turns.{OfWindow};
ghost use Rattle.obq_host.specs.declared.on_cells.CellAct.TheVariants as act;
ghost use Rattle.obq_moves.specs.Views.{plain_focus, shown};
ghost use Rattle.obq_site.specs.Cells.{plain_heap};

use crate::host::Host;
use crate::on_cells::{CellAct, act_on_cells};
use crate::places::{look_at, put_at, take_at};
use crate::watching::waits;
use obq_base::ThreadId;
use obq_code::Codes;
use obq_except::Window;
use obq_heap::SiteHeap;
use obq_world::{Made, Refused, Tried};
use std::alloc::Global;

/// A window behind an act on cells.
#[derive(Drop)]
struct Acted {
    window: Window,
    act: CellAct,
}

fn act_window(
    alloc: Global,
    codes: &Codes,
    heap: &mut SiteHeap,
    thread: ThreadId,
    born: u64,
    mut window: Window,
) -> Result<Acted, Refused>
    requires room { length heap.old.cells < 2 ^ 32 }
    requires names { NamesDifferIn (plain_focus window.focus) }
    ensures acted { IfOk result (λ acted. ActsOnCells codes.now thread.0 heap.old born (shown window) (plain_heap heap.new) (shown acted.window) acted.act) }
    ensures same { IfOk result (λ acted. acted.act ≡ act.Waits → acted.window ≡ window) }
{
    let act = act_on_cells(alloc, codes, heap, thread, born, &mut window)?;
    Ok(Acted { window, act })
}

fn tried_of(act: CellAct) -> Tried
    ensures { result ≡ tried_of act }
{
    match act {
        CellAct::Waits => Tried::Waits,
        CellAct::Did(act) => Tried::Did(act, Made::Nothing),
        CellAct::Made(act) => Tried::Did(act, Made::Cell),
    }
}

impl Host {
    fn act_on_own_cells(
        &mut self,
        codes: &Codes,
        thread: ThreadId,
        born: u64,
    ) -> Result<CellAct, Refused>
        requires room { length self.old.heap.cells < 2 ^ 32 }
        requires names { OfWindow self.old thread.0 (λ s. NamesDifferIn s.focus) }
        ensures { IfOk result (λ act. ActsOnOwnCells codes.now self.old thread.0 born act self.new) }
    {
        let Some(window) = take_at(&mut self.windows, thread.0 as usize) else {
            return Err(Refused::Beyond);
        };
        let Acted { window, act } = act_window(
            self.alloc,
            codes,
            &mut self.heap,
            thread,
            born,
            window,
        )?;
        put_at(&mut self.windows, thread.0 as usize, window)?;
        Ok(act)
    }

    /// Tries the act that is due in the thread's window. So many cells and threads were made before it.
    pub fn act(
        &mut self,
        codes: &Codes,
        thread: ThreadId,
        cells: u64,
        threads: u32,
    ) -> Result<Tried, Refused>
        requires room { length self.old.heap.cells < 2 ^ 32 }
        requires names { OfWindow self.old thread.0 (λ s. NamesDifferIn s.focus) }
        ensures { IfOk result (λ tried. Acts codes.now self.old thread.0 cells threads self.new tried) }
    {
        match self.act_on_threads(thread, threads)? {
            Some(tried) => Ok(tried),
            None => {
                let act = self.act_on_own_cells(codes, thread, cells)?;
                Ok(tried_of(act))
            }
        }
    }

    /// Whether the act that stands next in the thread's window waits. It may also be told `false` of an act that waits.
    pub fn waits(&self, thread: ThreadId) -> bool
        ensures { IsTrue result → IsTrue (is_known_to_wait self.now thread.0) }
    {
        self.awaits(thread) || self.seeks(thread) || self.waits_at_cells(thread)
    }

    fn waits_at_cells(&self, thread: ThreadId) -> bool
        ensures { result ≡ waits_at_cells self.now thread.0 }
    {
        match look_at(&self.windows, thread.0 as usize) {
            None => false,
            Some(window) => waits(&self.heap, thread, window),
        }
    }
}
