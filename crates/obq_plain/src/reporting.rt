//! What a run has written, and how its threads stand.

ghost use Rattle.std.specs.Prelude.{MatchOption, None, Some, length, map, slice_get, ◌+◌, ◌<◌, ◌≡◌, ◌≤◌};
ghost use Rattle.obq_model.specs.Cells as cells;
ghost use Rattle.obq_model.specs.Replay as model;
ghost use Rattle.obq_plain.specs.Reports.{threads_in};
ghost use Rattle.obq_plain.specs.Threads.{execution_of, machine_of, thread_of};
ghost use Rattle.obq_store.specs.Cells.{cell_of};

use crate::machine::Machine;
use crate::threads::{Execution, ThreadState};
use obq_base::Report;
use obq_store::Cell;

/// The report with one thread more.
fn counted(turns: u32, state: &ThreadState, report: Report) -> Report
    requires { threads_in report < 64 }
    ensures report { result ≡ model.count_execution turns state.now.used report (execution_of state.now.execution) }
    ensures total { threads_in result ≡ threads_in report + 1 }
{
    let mut report = report;
    match &state.execution {
        Execution::Returned(_) => report.ended += 1,
        Execution::Failed(_) => report.raised += 1,
        Execution::Running(_) => {
            if state.used < u64::from(turns) {
                report.waiting += 1;
            } else {
                report.spent += 1;
            }
        }
    }
    report
}

/// How these threads stand.
fn report_of(turns: u32, threads: &[ThreadState]) -> Report
    requires { length threads.now ≤ 64 }
    ensures { result ≡ model.report_of turns (map thread_of threads.now) }
{
    let mut report = Report {
        ended: 0,
        raised: 0,
        waiting: 0,
        spent: 0,
    };
    let mut at = threads.len();
    while at > 0 {
        at -= 1;
        report = counted(turns, &threads[at], report);
    }
    report
}

/// The bytes of a writer; no other cell has any.
fn written(cell: &Cell) -> &[u8]
    ensures { result.now ≡ cells.written (Some (cell_of cell.now)) }
{
    match cell {
        Cell::Writer(bytes) => bytes.as_slice(),
        _ => &[],
    }
}

impl Machine {
    /// How many threads have ended by a value, ended by an exception, wait, or have spent their turns.
    pub fn report(&self, turns: u32) -> Report
        requires { length self.now.threads.items ≤ 64 }
        ensures { result ≡ model.report turns (machine_of self.now) }
    {
        report_of(turns, &self.threads)
    }

    /// What was written at a site, of which there are so many.
    pub fn output(&self, sites: u16, site: u16) -> Option<&[u8]>
        ensures { MatchOption result (slice_get (model.output sites (machine_of self.now)) site ≡ None) (λ bytes. slice_get (model.output sites (machine_of self.now)) site ≡ Some bytes.now) }
    {
        if site >= sites {
            return None;
        }
        match self.store.cell(u32::from(site)) {
            Some(cell) => Some(written(cell)),
            None => None,
        }
    }
}
