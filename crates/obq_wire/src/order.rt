//! Whether the entries of a table stand in its one order. The walk keeps the entries that it began in a list of its own, since
//! a table may nest as deep as it is long.

ghost use Rattle.std.specs.Prelude.{◌≡◌, ◌<◌, ◌++◌, length, All, OnOk, IfOk};
ghost use Rattle.std.specs.List.{AllByRecursion, flat_map};
ghost use Rattle.obq_wire.specs.Order.{body_needs, captured_at, needs, operation_needs, order, outcome_needs, packet_needs, placed, value_needs};
ghost use Rattle.obq_wire.specs.Walk.{IsAgreement, IsBegun, IsNext, NeedsEarlier, Reaches, Steps, numbers_below};

use crate::packets::{Operation, Outcome, Packet};
use crate::values::{TableEntry, WireBody, WireField, WireValue};
use obq_base::NoMemory;
use sqlite_items::at;
use std::alloc::Global;

/// An entry that was begun, and the place among its captured values of the next to be looked at.
#[derive(Clone, Copy)]
struct Begun {
    index: u32,
    next: usize,
}

/// What an entry that was begun needs next, and the entry behind that.
#[derive(Clone, Copy)]
enum Next {
    Nothing,
    /// A value that isn't a closure.
    Other(Begun),
    Index(u32, Begun),
}

/// How far the needed indices are those that stand there: all of them, so many; or those below this one, and then another.
#[derive(Clone, Copy)]
enum Reached {
    All(usize),
    Other(usize),
}

fn push_value(out: &mut Vec<u32>, x: &WireValue) -> Result<(), NoMemory>
    ensures { OnOk result (out.new.items ≡ out.old.items ++ value_needs x.now) }
{
    if let WireValue::Clo(closure) = x {
        out.push(closure.index)?;
    }
    Ok(())
}

fn push_values(out: &mut Vec<u32>, values: &[WireValue]) -> Result<(), NoMemory>
    ensures { OnOk result (out.new.items ≡ out.old.items ++ needs values.now) }
{
    for x in values {
        push_value(out, x)?;
    }
    Ok(())
}

fn push_body(out: &mut Vec<u32>, x: &WireBody) -> Result<(), NoMemory>
    ensures { OnOk result (out.new.items ≡ out.old.items ++ body_needs x.now) }
{
    match x {
        WireBody::Value(value) => push_value(out, value),
        WireBody::Method(method) => Ok(out.push(method.index)?),
        WireBody::Alias { .. } => Ok(()),
    }
}

fn push_fields(out: &mut Vec<u32>, fields: &[WireField]) -> Result<(), NoMemory>
    ensures { OnOk result (out.new.items ≡ out.old.items ++ flat_map (λ f. body_needs f.body) fields.now) }
{
    for f in fields {
        push_body(out, &f.body)?;
    }
    Ok(())
}

fn push_operation(out: &mut Vec<u32>, x: &Operation) -> Result<(), NoMemory>
    ensures { OnOk result (out.new.items ≡ out.old.items ++ operation_needs x.now) }
{
    match x {
        Operation::Call { arguments, .. } => push_values(out, arguments.as_slice()),
        Operation::Set { body, .. } => push_body(out, body),
        Operation::ArraySet { value, .. } => push_value(out, value),
        Operation::VarSet { value, .. } => push_value(out, value),
        Operation::Export { value, .. } => push_value(out, value),
        Operation::Engine { procedure, .. } => Ok(out.push(procedure.index)?),
        _ => Ok(()),
    }
}

fn push_outcome(out: &mut Vec<u32>, x: &Outcome) -> Result<(), NoMemory>
    ensures { OnOk result (out.new.items ≡ out.old.items ++ outcome_needs x.now) }
{
    match x {
        Outcome::Value(value) => push_value(out, value),
        Outcome::Object { fields, .. } => push_fields(out, fields.as_slice()),
        _ => Ok(()),
    }
}

/// The indices that stand behind the table of the packet.
pub(crate) fn roots_of(alloc: Global, packet: &Packet) -> Result<Vec<u32>, NoMemory>
    ensures { IfOk result (λ v. v.items ≡ packet_needs packet.now) }
{
    let mut roots = Vec::new(alloc);
    match packet {
        Packet::Request(r) => push_operation(&mut roots, &r.operation)?,
        Packet::Reply(r) => push_outcome(&mut roots, &r.outcome)?,
        Packet::Wake(_) => {}
    }
    Ok(roots)
}

fn captured(table: &[TableEntry], index: usize) -> &[WireValue]
    ensures { result.now ≡ captured_at table.now index }
{
    match at(table, index) {
        Some(entry) => entry.captured.as_slice(),
        None => &[],
    }
}

fn next_of(table: &[TableEntry], begun: Begun) -> Next
    ensures { IsNext table.now begun result }
{
    let values = captured(table, begun.index as usize);
    if begun.next >= values.len() {
        return Next::Nothing;
    }
    let after = Begun {
        index: begun.index,
        next: begun.next + 1,
    };
    match &values[begun.next] {
        WireValue::Clo(closure) => Next::Index(closure.index, after),
        _ => Next::Other(after),
    }
}

/// Goes on with an entry that was begun and isn't in the list any more. It answers how many indices are placed then, or none
/// where another index comes next.
fn step(
    table: &[TableEntry],
    begun: &mut Vec<Begun>,
    innermost: Begun,
    count: usize,
) -> Result<Option<usize>, NoMemory>
    requires earlier { NeedsEarlier table.now }
    requires begun { AllByRecursion (IsBegun table.now) begun.old.items }
    requires innermost { IsBegun table.now innermost }
    ensures { IfOk result (λ n. Steps table.now begun.old.items innermost count begun.new.items n) }
{
    match next_of(table, innermost) {
        Next::Nothing => {
            if innermost.index as usize != count {
                return Ok(None);
            }
            Ok(Some(count + 1))
        }
        Next::Other(after) => {
            begun.push(after)?;
            Ok(Some(count))
        }
        Next::Index(index, after) => {
            begun.push(after)?;
            if index as usize >= count {
                begun.push(Begun { index, next: 0 })?;
            }
            Ok(Some(count))
        }
    }
}

/// Places an index that is needed behind the first `count`, with what it needs.
fn climb(alloc: Global, table: &[TableEntry], root: u32, count: usize) -> Result<Reached, NoMemory>
    requires earlier { NeedsEarlier table.now }
    requires root { root < length table.now }
    ensures { IfOk result (λ r. Reaches (placed table.now (length table.now) (numbers_below count) root) r) }
{
    if (root as usize) < count {
        return Ok(Reached::All(count));
    }
    let mut count = count;
    let mut begun = Vec::new(alloc);
    begun.push(Begun {
        index: root,
        next: 0,
    })?;
    for _ in 0..u64::MAX {
        let Some(innermost) = begun.pop() else {
            return Ok(Reached::All(count));
        };
        match step(table, &mut begun, innermost, count)? {
            Some(next) => count = next,
            None => return Ok(Reached::Other(count)),
        }
    }
    // So many steps are never taken.
    Err(NoMemory)
}

/// The first place at which another index is needed than the place, or none.
pub(crate) fn agreement(
    alloc: Global,
    table: &[TableEntry],
    roots: &[u32],
) -> Result<usize, NoMemory>
    requires earlier { NeedsEarlier table.now }
    requires roots { All (λ i. i < length table.now) roots.now }
    ensures { IfOk result (λ n. IsAgreement (order table.now roots.now) n) }
{
    let mut count = 0;
    for root in roots {
        match climb(alloc, table, *root, count)? {
            Reached::All(next) => count = next,
            Reached::Other(next) => return Ok(next),
        }
    }
    Ok(count)
}
