//! How many threads ended, wait, or have spent their turns.

ghost use Rattle.std.specs.Prelude.{◌≡◌, ◌<◌, ◌≤◌, ◌+◌, ◌^◌, ℕ, length};
ghost use Rattle.obq_stands.specs.Facts.{report_from};
ghost use Rattle.obq_stands.specs.Stands.{Place};
ghost use Rattle.obq_world.specs.Reports.{IsShown, counted};

use crate::machine::{HowEnded, Machine};
use crate::naming::Naming;
use crate::slots::ThreadSlot;
use obq_base::{Report, ThreadId};

/// One thread more, which ended so, or has a turn left or none.
fn count_thread(report: Report, ended: Option<HowEnded>, left: bool) -> Report
    requires { report.ended + (report.raised + (report.waiting + report.spent)) < 64 }
    ensures { result ≡ counted ended left report }
{
    let mut report = report;
    match ended {
        Some(HowEnded::ByValue) => report.ended += 1,
        Some(HowEnded::ByException) => report.raised += 1,
        None => {
            if left {
                report.waiting += 1;
            } else {
                report.spent += 1;
            }
        }
    }
    report
}

/// The report of these threads.
pub(crate) fn report_of<J: Naming, M: Machine<J>>(
    site: &M,
    slots: &[ThreadSlot],
    turns: u32,
) -> Report
    requires { length slots.now ≤ 64 }
    ensures { (place : ℕ → Place) → ((t : ℕ) → t < length slots.now → IsShown M.meaning site.now slots.now t (place t)) → result ≡ report_from turns place 0 (length slots.now) }
{
    let mut report = Report {
        ended: 0,
        raised: 0,
        waiting: 0,
        spent: 0,
    };
    for t in (0..slots.len()).rev() {
        let ended = site.ending(ThreadId(t as u32));
        let slot = slots[t];
        report = count_thread(report, ended, slot.used < turns);
    }
    report
}
