//! What a thread does in one go: pure steps, and the act behind them.

ghost use Rattle.std.specs.Prelude.{◌≡◌, ◌<◌, ◌≤◌, ◌+◌, ◌++◌, ◌^◌, IfOk, IsTrue, OnOk, Some, length, slice_get};
ghost use Rattle.obq_world.specs.Acts.{CanAct, IsDue};
ghost use Rattle.obq_world.specs.Entries.{act_in, entries_of, made_in, turns_of};
ghost use Rattle.obq_world.specs.Going.{AskedCases, GoesOn, IsNoted, MayGo};
ghost use Rattle.obq_world.specs.Meaning.{IsRunning};
ghost use Rattle.obq_world.specs.State.{used_in};

use crate::machine::{Machine, Made, Refused, Stop, Tried};
use crate::naming::Naming;
use crate::parts::{is_wanted, settle, spent};
use crate::slots::ThreadSlot;
use obq_base::{Act, Entry, NoMemory, ThreadId};
use obq_journal::Journal;

/// So many pure steps, why they stopped, and what came of the act behind them. Where none was tried that is as where it waits.
#[derive(Clone, Copy, Debug, PartialEq, Eq)]
pub struct Gone {
    pub steps: u32,
    pub stop: Stop,
    pub tried: Tried,
}

/// Tries the act that is due in the thread's window, if one is wanted. Where none is wanted the answer is that of an act that waits.
pub(crate) fn try_act<J: Naming, M: Machine<J>>(
    site: &mut M,
    codes: &M::Codes,
    thread: ThreadId,
    wanted: bool,
    cells: u64,
    threads: u32,
) -> Result<Tried, Refused>
    requires codes { M.meaning.are_codes codes.now }
    requires running { IsRunning M.meaning site.old thread.0 }
    requires due { IsTrue wanted → (w : M.Window) → M.meaning.windows site.old thread.0 ≡ Some w → IsDue M.meaning w }
    requires can { (w : M.Window) → M.meaning.windows site.old thread.0 ≡ Some w → CanAct M.meaning J.program threads site.old thread.0 w }
    requires room { (M.meaning.size site.old ≤ cells) × (cells + 1 < 2 ^ 32) }
    requires threads { threads ≤ 64 }
    ensures { IfOk result (λ tried. AskedCases M.meaning site.old thread.0 cells threads wanted tried site.new) }
{
    if wanted {
        return site.act(codes, thread, cells, threads);
    }
    Ok(Tried::Waits)
}

/// The thread goes at most so many pure steps on, of so many turns that are left to it, and tries its act if one is due then and a turn is left.
pub(crate) fn go_on<J: Naming, M: Machine<J>>(
    site: &mut M,
    codes: &M::Codes,
    thread: ThreadId,
    most: u32,
    left: u32,
    cells: u64,
    threads: u32,
) -> Result<Gone, Refused>
    requires codes { M.meaning.are_codes codes.now }
    requires running { IsRunning M.meaning site.old thread.0 }
    requires can { MayGo M.meaning J.program threads site.old thread.0 left }
    requires room { (M.meaning.size site.old ≤ cells) × (cells + 1 < 2 ^ 32) }
    requires threads { threads ≤ 64 }
    ensures { IfOk result (λ gone. GoesOn M.meaning site.old thread.0 left cells threads gone site.new) }
{
    let slice = site.run(codes, thread, most.min(left))?;
    let wanted = is_wanted(slice.steps, left, slice.stop);
    let tried = try_act(site, codes, thread, wanted, cells, threads)?;
    Ok(Gone {
        steps: slice.steps,
        stop: slice.stop,
        tried,
    })
}

/// The act that was done.
fn act_of(tried: Tried) -> Option<Act>
    ensures { result ≡ act_in tried }
{
    match tried {
        Tried::Did(act, _) => Some(act),
        Tried::Waits => None,
    }
}

/// What it made.
fn made_by(tried: Tried) -> Made
    ensures { result ≡ made_in tried }
{
    match tried {
        Tried::Did(_, made) => made,
        Tried::Waits => Made::Nothing,
    }
}

/// How many turns were taken.
pub(crate) fn turns_taken(gone: Gone) -> u32
    requires { gone.steps + 1 < 2 ^ 32 }
    ensures { result ≡ turns_of gone }
{
    match gone.tried {
        Tried::Did(_, _) => gone.steps + 1,
        Tried::Waits => gone.steps,
    }
}

/// An entry of what the thread did, if that took a turn.
fn append(journal: &mut Journal, thread: ThreadId, gone: Gone) -> Result<(), NoMemory>
    requires { gone.steps + 1 < 2 ^ 32 }
    ensures entries { OnOk result (journal.new.entries ≡ journal.old.entries ++ entries_of thread.0 gone.steps (act_in gone.tried)) }
    ensures turns { journal.new.turns ≡ journal.old.turns }
{
    if turns_taken(gone) == 0 {
        return Ok(());
    }
    journal.push(Entry {
        thread: thread.0,
        pure: gone.steps,
        act: act_of(gone.tried),
    })?;
    Ok(())
}

/// Notes what the thread did: the turns that it used, the slot of a thread that was made, and the entry, where it took a turn. The answer is how many cells there are.
pub(crate) fn note(
    slots: &mut Vec<ThreadSlot>,
    cells: u64,
    journal: &mut Journal,
    thread: ThreadId,
    gone: Gone,
) -> Result<u64, NoMemory>
    requires there { thread.0 < length slots.old.items }
    requires fits { used_in (slice_get slots.old.items thread.0) + (gone.steps + 1) < 2 ^ 32 }
    requires cells { cells + 1 < 2 ^ 64 }
    ensures noted { IfOk result (λ count. IsNoted slots.old.items journal.old.entries cells thread.0 gone slots.new.items journal.new.entries count) }
    ensures turns { journal.new.turns ≡ journal.old.turns }
{
    let k = thread.0 as usize;
    slots[k] = spent(slots[k], turns_taken(gone));
    let count = settle(slots, cells, made_by(gone.tried))?;
    append(journal, thread, gone)?;
    Ok(count)
}
