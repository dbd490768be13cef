//! What a World's calls are made of, over parts of a World.

ghost use Rattle.std.specs.Prelude.{◌≡◌, ◌<◌, ◌≤◌, ◌+◌, ◌^◌, ◌++◌, Any, IfOk, IsTrue, false, true, MatchBool, MatchOption, nat_lt, ◌&&◌, length};
ghost use Rattle.obq_world.specs.Acts.{cells_made};
ghost use Rattle.obq_world.specs.Calls.{AllIdle, AllStopped, IsStopped, NobodyClaims};
ghost use Rattle.obq_world.specs.Entries.{slots_made, spent as spent_in, stops_at_act};
ghost use Rattle.obq_world.specs.Meaning.{IsRunning};

use crate::machine::{Machine, Made, Stop};
use crate::naming::Naming;
use crate::slots::ThreadSlot;
use obq_base::{NoMemory, ThreadId};

/// Whether an act is tried behind so many steps, of so many turns that are left.
pub(crate) fn is_wanted(steps: u32, left: u32, stop: Stop) -> bool
    ensures { result ≡ (nat_lt steps left && stops_at_act stop) }
{
    match stop {
        Stop::Most => false,
        Stop::Needs => steps < left,
        Stop::Bottom => steps < left,
    }
}

/// The slot with so many more turns used, and no claim out.
pub(crate) fn spent(slot: ThreadSlot, turns: u32) -> ThreadSlot
    requires { slot.used + turns < 2 ^ 32 }
    ensures { result ≡ spent_in slot turns }
{
    ThreadSlot {
        used: slot.used + turns,
        version: slot.version,
        claimed: false,
    }
}

/// A slot more where a thread was made. The answer is how many cells there are.
pub(crate) fn settle(slots: &mut Vec<ThreadSlot>, cells: u64, made: Made) -> Result<u64, NoMemory>
    requires { cells + 1 < 2 ^ 64 }
    ensures { IfOk result (λ count. (count ≡ cells_made made cells) × (slots.new.items ≡ slots.old.items ++ slots_made made)) }
{
    match made {
        Made::Nothing => Ok(cells),
        Made::Cell => Ok(cells + 1),
        Made::Thread => {
            slots.push(ThreadSlot {
                used: 0,
                version: 0,
                claimed: false,
            })?;
            Ok(cells)
        }
    }
}

/// Whether the thread can't go at its site.
pub(crate) fn is_stopped<J: Naming, M: Machine<J>>(
    site: &M,
    slot: ThreadSlot,
    turns: u32,
    thread: ThreadId,
) -> bool
    ensures stopped { IsTrue result → IsStopped M.meaning site.now slot turns thread.0 }
    ensures runs { result ≡ false → IsRunning M.meaning site.now thread.0 }
{
    if !site.is_running(thread) {
        return true;
    }
    if slot.used >= turns {
        return true;
    }
    site.waits(thread)
}

/// Whether no thread can go.
pub(crate) fn all_stopped<J: Naming, M: Machine<J>>(
    site: &M,
    slots: &[ThreadSlot],
    turns: u32,
) -> bool
    requires { length slots.now ≤ 64 }
    ensures { IsTrue result → AllStopped M.meaning site.now slots.now turns }
{
    for t in 0..slots.len() {
        if !is_stopped(site, slots[t], turns, ThreadId(t as u32)) {
            return false;
        }
    }
    true
}

/// Whether a claim is out.
pub(crate) fn any_claim(slots: &[ThreadSlot]) -> bool
    ensures { MatchBool result (Any (λ s. s.claimed ≡ true) slots.now) (NobodyClaims slots.now) }
{
    slots.iter().any(|s| s.claimed)
}

/// The first thread that can go and on which no claim is out.
pub(crate) fn first_able<J: Naming, M: Machine<J>>(
    site: &M,
    slots: &[ThreadSlot],
    turns: u32,
) -> Option<usize>
    requires { length slots.now ≤ 64 }
    ensures { MatchOption result (AllIdle M.meaning site.now slots.now turns) (λ k. (k < length slots.now) × IsRunning M.meaning site.now k) }
{
    for t in 0..slots.len() {
        if !slots[t].claimed && !is_stopped(site, slots[t], turns, ThreadId(t as u32)) {
            return Some(t);
        }
    }
    None
}

/// The first thread from this one on that can go and on which no claim is out, or else the first of all.
pub(crate) fn next_able<J: Naming, M: Machine<J>>(
    site: &M,
    slots: &[ThreadSlot],
    turns: u32,
    from: usize,
) -> Option<usize>
    requires { length slots.now ≤ 64 }
    ensures { MatchOption result (AllIdle M.meaning site.now slots.now turns) (λ k. (k < length slots.now) × IsRunning M.meaning site.now k) }
{
    for t in from..slots.len() {
        if !slots[t].claimed && !is_stopped(site, slots[t], turns, ThreadId(t as u32)) {
            return Some(t);
        }
    }
    first_able(site, slots, turns)
}
