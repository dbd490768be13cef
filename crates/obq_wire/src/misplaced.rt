//! The first entry of a table that doesn't stand in its one order, or has the number of an earlier one.

ghost use Rattle.std.specs.Prelude.{◌≡◌, ◌<◌, ◌||◌, [], List, ℕ, length, not, IfOk, OnOk, IfSome};
ghost use Rattle.obq_base.specs.declared.values.GroupNo.{GroupNo as Number};
ghost use Rattle.obq_wire.specs.Ascending.{ascend, is_before, needless};
ghost use Rattle.obq_wire.specs.Fits.{HasFields};
ghost use Rattle.obq_wire.specs.Order.{misplaced, misplaced_from, same_number};
ghost use Rattle.obq_wire.specs.Seen.{has_seen};
ghost use Rattle.obq_wire.specs.Spelling.{table_of};
ghost use Rattle.obq_wire.specs.Walk.{IsAgreement};

use crate::order::{agreement, roots_of};
use crate::packets::Packet;
use crate::values::TableEntry;
use obq_base::{GroupNo, NoMemory};
use std::alloc::Global;
use std::collections::BTreeSet;

/// Whether a number wasn't seen before. It is from then on.
fn is_new(seen: &mut BTreeSet<(u32, u64)>, g: GroupNo) -> Result<bool, NoMemory>
    ensures answer { IfOk result (λ new. new ≡ not (has_seen seen.old g)) }
    ensures seen { OnOk result ((h : Number) → has_seen seen.new h ≡ (same_number g h || has_seen seen.old h)) }
{
    Ok(seen.insert((g.thread, g.n))?)
}

/// Whether a number stands before another: by the thread, then by its count.
fn is_before(g: GroupNo, h: GroupNo) -> bool
    ensures { result ≡ is_before g h }
{
    g.thread < h.thread || (g.thread == h.thread && g.n < h.n)
}

/// Whether the numbers of a table ascend, so that none is there twice.
fn ascend(table: &[TableEntry]) -> bool
    ensures { result ≡ ascend table.now }
{
    let Some((first, rest)) = table.split_first() else {
        return true;
    };
    let mut last = first.number;
    for entry in rest {
        if !is_before(last, entry.number) {
            return false;
        }
        last = entry.number;
    }
    true
}

/// The first entry that isn't needed at its place.
fn first_needless(table: &[TableEntry], agreed: usize) -> Option<usize>
    ensures { result ≡ needless agreed (length table.now) }
{
    if agreed < table.len() {
        Some(agreed)
    } else {
        None
    }
}

/// Numbers mostly ascend, since a closure is made behind those that it captured: then no set is needed.
fn first_wrong(
    alloc: Global,
    table: &[TableEntry],
    agreed: usize,
) -> Result<Option<usize>, NoMemory>
    ensures wrong { (needed : List ℕ) → IsAgreement needed agreed → IfOk result (λ k. k ≡ misplaced_from needed [] table.now) }
    ensures within { IfOk result (λ k. IfSome k (λ i. i < length table.now)) }
{
    if ascend(table) {
        return Ok(first_needless(table, agreed));
    }
    let mut seen = BTreeSet::new(alloc);
    for k in 0..table.len() {
        if k == agreed {
            return Ok(Some(k));
        }
        if !is_new(&mut seen, table[k].number)? {
            return Ok(Some(k));
        }
    }
    Ok(None)
}

/// The entries of a packet's table.
pub(crate) fn entries(packet: &Packet) -> &[TableEntry]
    ensures { result.now ≡ table_of packet.now }
{
    match packet {
        Packet::Request(r) => r.table.as_slice(),
        Packet::Reply(r) => r.table.as_slice(),
        Packet::Wake(_) => &[],
    }
}

/// The first entry of a packet's table that isn't needed at its place, or has the number of an earlier one.
pub(crate) fn first_misplaced(alloc: Global, packet: &Packet) -> Result<Option<usize>, NoMemory>
    requires { HasFields packet.now }
    ensures misplaced { IfOk result (λ k. k ≡ misplaced packet.now) }
    ensures within { IfOk result (λ k. IfSome k (λ i. i < length (table_of packet.now))) }
{
    let table = entries(packet);
    let roots = roots_of(alloc, packet)?;
    let agreed = agreement(alloc, table, roots.as_slice())?;
    first_wrong(alloc, table, agreed)
}
