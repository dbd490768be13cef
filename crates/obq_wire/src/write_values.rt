//! Writes the parts of a frame behind the bytes that are there.

ghost use Rattle.std.specs.Prelude.{◌≡◌, [], ◌++◌, ◌∷◌, OnOk};
ghost use Rattle.std.specs.List.{flat_map};
ghost use Rattle.obq_wire.specs.Spelling.{body, closure, code_number, entry, field, integer, list, reference, string, truth, u16, u32, u64, value};

use crate::parts::number_of;
use crate::values::{TableEntry, TableMember, WireBody, WireField, WireValue};
use obq_base::{CodeNo, NoMemory, Ref};

#[tactic(auto, unfolding(crate::specs::Spelling::u16))]
pub(crate) fn put_u16(out: &mut Vec<u8>, n: u16) -> Result<(), NoMemory>
    ensures { OnOk result (out.new.items ≡ out.old.items ++ u16 n) }
{
    out.extend_from_slice(&n.to_be_bytes())?;
    Ok(())
}

#[tactic(auto, unfolding(crate::specs::Spelling::u32))]
pub(crate) fn put_u32(out: &mut Vec<u8>, n: u32) -> Result<(), NoMemory>
    ensures { OnOk result (out.new.items ≡ out.old.items ++ u32 n) }
{
    out.extend_from_slice(&n.to_be_bytes())?;
    Ok(())
}

#[tactic(auto, unfolding(crate::specs::Spelling::u64))]
pub(crate) fn put_u64(out: &mut Vec<u8>, n: u64) -> Result<(), NoMemory>
    ensures { OnOk result (out.new.items ≡ out.old.items ++ u64 n) }
{
    out.extend_from_slice(&n.to_be_bytes())?;
    Ok(())
}

/// The low four bytes of a count or a length, which are all of it in a packet that can be sent.
#[tactic(auto, unfolding(crate::specs::Spelling::u32))]
pub(crate) fn put_count(out: &mut Vec<u8>, count: usize) -> Result<(), NoMemory>
    ensures { OnOk result (out.new.items ≡ out.old.items ++ u32 count) }
{
    let bytes = (count as u64).to_be_bytes();
    out.extend_from_slice(&[bytes[4], bytes[5], bytes[6], bytes[7]])?;
    Ok(())
}

pub(crate) fn put_string(out: &mut Vec<u8>, bytes: &[u8]) -> Result<(), NoMemory>
    ensures { OnOk result (out.new.items ≡ out.old.items ++ string bytes.now) }
{
    put_count(out, bytes.len())?;
    out.extend_from_slice(bytes)?;
    Ok(())
}

#[tactic(auto, unfolding(crate::specs::Spelling::u64))]
pub(crate) fn put_integer(out: &mut Vec<u8>, n: i64) -> Result<(), NoMemory>
    ensures { OnOk result (out.new.items ≡ out.old.items ++ integer n) }
{
    out.extend_from_slice(&n.to_be_bytes())?;
    Ok(())
}

pub(crate) fn put_truth(out: &mut Vec<u8>, t: bool) -> Result<(), NoMemory>
    ensures { OnOk result (out.new.items ≡ out.old.items ++ (truth t ∷ [])) }
{
    out.push(if t { 1 } else { 0 })?;
    Ok(())
}

pub(crate) fn put_reference(out: &mut Vec<u8>, r: Ref) -> Result<(), NoMemory>
    ensures { OnOk result (out.new.items ≡ out.old.items ++ reference r) }
{
    put_u16(out, r.site.0)?;
    out.push(number_of(r.kind))?;
    put_u32(out, r.n)
}

pub(crate) fn put_closure(out: &mut Vec<u8>, m: TableMember) -> Result<(), NoMemory>
    ensures { OnOk result (out.new.items ≡ out.old.items ++ closure m) }
{
    put_u32(out, m.index)?;
    put_u32(out, m.member)
}

pub(crate) fn put_value(out: &mut Vec<u8>, x: &WireValue) -> Result<(), NoMemory>
    ensures { OnOk result (out.new.items ≡ out.old.items ++ value x.now) }
{
    match x {
        WireValue::Int(n) => {
            out.push(0)?;
            put_integer(out, *n)
        }
        WireValue::Bool(truth) => {
            out.push(1)?;
            put_truth(out, *truth)
        }
        WireValue::Okay => Ok(out.push(2)?),
        WireValue::Text(text) => {
            out.push(3)?;
            put_string(out, text.as_bytes())
        }
        WireValue::Exn(text) => {
            out.push(4)?;
            put_string(out, text.as_bytes())
        }
        WireValue::Clo(closure) => {
            out.push(5)?;
            put_closure(out, *closure)
        }
        WireValue::Ref(reference) => {
            out.push(6)?;
            put_reference(out, *reference)
        }
        WireValue::Thread { id, home } => {
            out.push(7)?;
            put_u32(out, id.0)?;
            put_u16(out, home.0)
        }
    }
}

pub(crate) fn put_values(out: &mut Vec<u8>, values: &[WireValue]) -> Result<(), NoMemory>
    ensures { OnOk result (out.new.items ≡ out.old.items ++ list value values.now) }
{
    put_count(out, values.len())?;
    for x in values {
        put_value(out, x)?;
    }
    Ok(())
}

fn put_codes(out: &mut Vec<u8>, codes: &[CodeNo]) -> Result<(), NoMemory>
    ensures { OnOk result (out.new.items ≡ out.old.items ++ list code_number codes.now) }
{
    put_count(out, codes.len())?;
    for code in codes {
        put_u16(out, code.source)?;
        put_u32(out, code.n)?;
    }
    Ok(())
}

fn put_entry(out: &mut Vec<u8>, e: &TableEntry) -> Result<(), NoMemory>
    ensures { OnOk result (out.new.items ≡ out.old.items ++ entry e.now) }
{
    put_u32(out, e.number.thread)?;
    put_u64(out, e.number.n)?;
    put_codes(out, e.codes.as_slice())?;
    put_values(out, e.captured.as_slice())
}

pub(crate) fn put_entries(out: &mut Vec<u8>, entries: &[TableEntry]) -> Result<(), NoMemory>
    ensures { OnOk result (out.new.items ≡ out.old.items ++ flat_map entry entries.now) }
{
    for e in entries {
        put_entry(out, e)?;
    }
    Ok(())
}

pub(crate) fn put_body(out: &mut Vec<u8>, x: &WireBody) -> Result<(), NoMemory>
    ensures { OnOk result (out.new.items ≡ out.old.items ++ body x.now) }
{
    match x {
        WireBody::Value(value) => {
            out.push(0)?;
            put_value(out, value)
        }
        WireBody::Method(method) => {
            out.push(1)?;
            put_closure(out, *method)
        }
        WireBody::Alias { to, name } => {
            out.push(2)?;
            put_reference(out, *to)?;
            put_string(out, name.as_bytes())
        }
    }
}

pub(crate) fn put_fields(out: &mut Vec<u8>, fields: &[WireField]) -> Result<(), NoMemory>
    ensures { OnOk result (out.new.items ≡ out.old.items ++ list field fields.now) }
{
    put_count(out, fields.len())?;
    for f in fields {
        put_string(out, f.name.as_bytes())?;
        put_body(out, &f.body)?;
    }
    Ok(())
}
