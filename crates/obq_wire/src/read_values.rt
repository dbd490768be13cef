//! Reads values, the entries of a table and the fields of an object. Each closure has to be of an entry that was read before.

ghost use Rattle.std.specs.Prelude.{◌≡◌};
ghost use Rattle.obq_wire.specs.Fits.{codes_at};
ghost use Rattle.obq_wire.specs.Reading.{Gives, body_at, closure_at, code_number_at, entry_at, field_at, list_at, table_at, value_at, values_at};

use crate::parts::{
    byte_of, cell_of, code_number_of, group_number_of, integer_of, name_of, reference_of, site_of,
    text_of, thread_of, truth_of, u32_below, u32_of,
};
use crate::refusal::Refused;
use crate::values::{TableEntry, TableMember, WireBody, WireField, WireValue};
use obq_base::{CodeNo, Kind};
use sqlite_items::{Items, at};
use std::alloc::Global;

fn codes_of(table: &[TableEntry], index: u32) -> usize
    ensures { result ≡ codes_at table.now index }
{
    match at(table, index as usize) {
        Some(entry) => entry.codes.len(),
        None => 0,
    }
}

#[tactic(auto, unfolding(crate::specs::Reading::closure_at))]
pub(crate) fn closure_of<'a>(
    table: &[TableEntry],
    bytes: &'a [u8],
) -> Result<(TableMember, &'a [u8]), Refused>
    ensures { Gives (λ x. (x.0, x.1.now)) result (closure_at table.now bytes.now) }
{
    let (index, rest) = u32_below(table.len(), bytes)?;
    let (member, rest) = u32_below(codes_of(table, index), rest)?;
    Ok((TableMember { index, member }, rest))
}

#[tactic(auto, unfolding(crate::specs::Reading::value_at))]
pub(crate) fn value_of<'a>(
    alloc: Global,
    table: &[TableEntry],
    bytes: &'a [u8],
) -> Result<(WireValue, &'a [u8]), Refused>
    ensures { Gives (λ x. (x.0, x.1.now)) result (value_at table.now bytes.now) }
{
    let (tag, rest) = byte_of(bytes)?;
    match tag {
        0 => {
            let (n, rest) = integer_of(rest)?;
            Ok((WireValue::Int(n), rest))
        }
        1 => {
            let (truth, rest) = truth_of(rest)?;
            Ok((WireValue::Bool(truth), rest))
        }
        2 => Ok((WireValue::Okay, rest)),
        3 => {
            let (text, rest) = text_of(alloc, rest)?;
            Ok((WireValue::Text(text), rest))
        }
        4 => {
            let (text, rest) = text_of(alloc, rest)?;
            Ok((WireValue::Exn(text), rest))
        }
        5 => {
            let (closure, rest) = closure_of(table, rest)?;
            Ok((WireValue::Clo(closure), rest))
        }
        6 => {
            let (reference, rest) = reference_of(rest)?;
            Ok((WireValue::Ref(reference), rest))
        }
        7 => {
            let (id, rest) = thread_of(rest)?;
            let (home, rest) = site_of(rest)?;
            Ok((WireValue::Thread { id, home }, rest))
        }
        _ => Err(Refused::Bad { left: bytes.len() }),
    }
}

pub(crate) fn values_of<'a>(
    alloc: Global,
    table: &[TableEntry],
    bytes: &'a [u8],
) -> Result<(Items<WireValue>, &'a [u8]), Refused>
    ensures { Gives (λ x. (x.0, x.1.now)) result (values_at table.now bytes.now) }
{
    let (count, first) = u32_of(bytes)?;
    let mut values = Items::new(alloc);
    let mut rest = first;
    for _ in 0..count {
        let (value, after) = value_of(alloc, table, rest)?;
        values.push(value)?;
        rest = after;
    }
    Ok((values, rest))
}

fn code_numbers_of(alloc: Global, bytes: &[u8]) -> Result<(Items<CodeNo>, &[u8]), Refused>
    ensures { Gives (λ x. (x.0, x.1.now)) result (list_at (λ _. code_number_at) bytes.now) }
{
    let (count, first) = u32_of(bytes)?;
    let mut codes = Items::new(alloc);
    let mut rest = first;
    for _ in 0..count {
        let (code, after) = code_number_of(rest)?;
        codes.push(code)?;
        rest = after;
    }
    Ok((codes, rest))
}

#[tactic(auto, unfolding(crate::specs::Reading::entry_at))]
fn entry_of<'a>(
    alloc: Global,
    earlier: &[TableEntry],
    bytes: &'a [u8],
) -> Result<(TableEntry, &'a [u8]), Refused>
    ensures { Gives (λ x. (x.0, x.1.now)) result (entry_at earlier.now bytes.now) }
{
    let (number, rest) = group_number_of(bytes)?;
    let (codes, rest) = code_numbers_of(alloc, rest)?;
    let (captured, rest) = values_of(alloc, earlier, rest)?;
    let entry = TableEntry {
        number,
        codes,
        captured,
    };
    Ok((entry, rest))
}

pub(crate) fn table_of(alloc: Global, bytes: &[u8]) -> Result<(Items<TableEntry>, &[u8]), Refused>
    ensures { Gives (λ x. (x.0, x.1.now)) result (table_at bytes.now) }
{
    let (count, first) = u32_of(bytes)?;
    let mut table = Items::new(alloc);
    let mut rest = first;
    for _ in 0..count {
        let (entry, after) = entry_of(alloc, table.as_slice(), rest)?;
        table.push(entry)?;
        rest = after;
    }
    Ok((table, rest))
}

#[tactic(auto, unfolding(crate::specs::Reading::body_at))]
pub(crate) fn body_of<'a>(
    alloc: Global,
    table: &[TableEntry],
    bytes: &'a [u8],
) -> Result<(WireBody, &'a [u8]), Refused>
    ensures { Gives (λ x. (x.0, x.1.now)) result (body_at table.now bytes.now) }
{
    let (tag, rest) = byte_of(bytes)?;
    match tag {
        0 => {
            let (value, rest) = value_of(alloc, table, rest)?;
            Ok((WireBody::Value(value), rest))
        }
        1 => {
            let (method, rest) = closure_of(table, rest)?;
            Ok((WireBody::Method(method), rest))
        }
        2 => {
            let (to, rest) = cell_of(Kind::Object, rest)?;
            let (name, rest) = name_of(alloc, rest)?;
            Ok((WireBody::Alias { to, name }, rest))
        }
        _ => Err(Refused::Bad { left: bytes.len() }),
    }
}

#[tactic(auto, unfolding(crate::specs::Reading::field_at))]
fn field_of<'a>(
    alloc: Global,
    table: &[TableEntry],
    bytes: &'a [u8],
) -> Result<(WireField, &'a [u8]), Refused>
    ensures { Gives (λ x. (x.0, x.1.now)) result (field_at table.now bytes.now) }
{
    let (name, rest) = name_of(alloc, bytes)?;
    let (body, rest) = body_of(alloc, table, rest)?;
    Ok((WireField { name, body }, rest))
}

pub(crate) fn fields_of<'a>(
    alloc: Global,
    table: &[TableEntry],
    bytes: &'a [u8],
) -> Result<(Items<WireField>, &'a [u8]), Refused>
    ensures { Gives (λ x. (x.0, x.1.now)) result (list_at (λ _. field_at table.now) bytes.now) }
{
    let (count, first) = u32_of(bytes)?;
    let mut fields = Items::new(alloc);
    let mut rest = first;
    for _ in 0..count {
        let (field, after) = field_of(alloc, table, rest)?;
        fields.push(field)?;
        rest = after;
    }
    Ok((fields, rest))
}
