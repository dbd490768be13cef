//! Writes operations, outcomes and packets.

ghost use Rattle.std.specs.Prelude.{◌≡◌, ◌++◌, ◌∷◌, OnOk};
ghost use Rattle.obq_wire.specs.Spelling.{before_entries, behind_entries, closure, current, flags_number, head, operation, outcome};

use crate::packets::{Current, Operation, Outcome, Packet};
use crate::tags::{
    AGAIN, ARRAY_ITEM, ARRAY_SET, ARRAY_SIZE, BROADCAST, CALL, COPY, ENGINE, EXPORT, GET, GIVE_UP,
    IMPORT, JOIN, LINE, PUT, REDIRECT, SET, SIGNAL, VAR_GET, VAR_SET,
};
use crate::values::TableMember;
use crate::write_values::{
    put_body, put_closure, put_count, put_fields, put_integer, put_reference, put_string,
    put_truth, put_u16, put_u32, put_u64, put_value, put_values,
};
use obq_base::{Flags, NoMemory, ThreadId};

// A value that is a closure.
fn put_procedure(out: &mut Vec<u8>, m: TableMember) -> Result<(), NoMemory>
    ensures { OnOk result (out.new.items ≡ out.old.items ++ (5 ∷ closure m)) }
{
    out.push(5)?;
    put_closure(out, m)
}

// An arm for each operation: its fields in order, each with what writes it, and its number.
macro_rules! write_operation {
    ($out:expr, $operation:expr;
        $($name:ident { $($field:ident: $put:ident($value:expr)),* } => $number:ident,)*
    ) => {
        match $operation {
            $(Operation::$name { $($field),* } => {
                $out.push($number)?;
                $($put($out, $value)?;)*
                Ok(())
            })*
        }
    };
}

fn put_operation(out: &mut Vec<u8>, x: &Operation) -> Result<(), NoMemory>
    ensures { OnOk result (out.new.items ≡ out.old.items ++ operation x.now) }
{
    write_operation! { out, x;
        Get { object: put_reference(*object), name: put_string(name.as_bytes()) } => GET,
        Call { object: put_reference(*object), name: put_string(name.as_bytes()), arguments: put_values(arguments.as_slice()) } => CALL,
        Set { object: put_reference(*object), name: put_string(name.as_bytes()), body: put_body(body) } => SET,
        Copy { object: put_reference(*object) } => COPY,
        Redirect { object: put_reference(*object), target: put_reference(*target) } => REDIRECT,
        ArrayItem { array: put_reference(*array), index: put_integer(*index) } => ARRAY_ITEM,
        ArraySize { array: put_reference(*array) } => ARRAY_SIZE,
        ArraySet { array: put_reference(*array), index: put_integer(*index), value: put_value(value) } => ARRAY_SET,
        VarGet { variable: put_reference(*variable) } => VAR_GET,
        VarSet { variable: put_reference(*variable), value: put_value(value) } => VAR_SET,
        Put { writer: put_reference(*writer), text: put_string(text.as_bytes()) } => PUT,
        Join { thread: put_u32(thread.0) } => JOIN,
        Line { condition: put_reference(*condition), object: put_reference(*object) } => LINE,
        GiveUp { object: put_reference(*object) } => GIVE_UP,
        Again { object: put_reference(*object), condition: put_reference(*condition) } => AGAIN,
        Signal { condition: put_reference(*condition) } => SIGNAL,
        Broadcast { condition: put_reference(*condition) } => BROADCAST,
        Export { name: put_string(name.as_bytes()), value: put_value(value) } => EXPORT,
        Import { name: put_string(name.as_bytes()), engine: put_truth(*engine) } => IMPORT,
        Engine { engine: put_reference(*engine), procedure: put_procedure(*procedure) } => ENGINE,
    }
}

fn number_of_flags(flags: Flags) -> u8
    ensures { result ≡ flags_number flags }
{
    match (flags.protected, flags.serialized) {
        (false, false) => 0,
        (true, false) => 1,
        (false, true) => 2,
        (true, true) => 3,
    }
}

fn put_outcome(out: &mut Vec<u8>, x: &Outcome) -> Result<(), NoMemory>
    ensures { OnOk result (out.new.items ≡ out.old.items ++ outcome x.now) }
{
    match x {
        Outcome::Value(value) => {
            out.push(0)?;
            put_value(out, value)
        }
        Outcome::Raised(text) => {
            out.push(1)?;
            put_string(out, text.as_bytes())
        }
        Outcome::Exit => Ok(out.push(2)?),
        Outcome::Hop { to, name } => {
            out.push(3)?;
            put_reference(out, *to)?;
            put_string(out, name.as_bytes())
        }
        Outcome::Object { flags, fields } => {
            out.push(4)?;
            out.push(number_of_flags(*flags))?;
            put_fields(out, fields.as_slice())
        }
    }
}

fn put_current(out: &mut Vec<u8>, x: Current) -> Result<(), NoMemory>
    ensures { OnOk result (out.new.items ≡ out.old.items ++ current x) }
{
    match x {
        Current::Nothing => Ok(out.push(0)?),
        Current::Plain(object) => {
            out.push(1)?;
            put_reference(out, object)
        }
        Current::Held(object) => {
            out.push(2)?;
            put_reference(out, object)
        }
    }
}

fn put_head(
    out: &mut Vec<u8>,
    thread: ThreadId,
    call: u64,
    used: u32,
    made: u64,
) -> Result<(), NoMemory>
    ensures { OnOk result (out.new.items ≡ out.old.items ++ head thread call used made) }
{
    put_u32(out, thread.0)?;
    put_u64(out, call)?;
    put_u32(out, used)?;
    put_u64(out, made)
}

/// What stands before the entries of the packet's table.
pub(crate) fn put_before_entries(out: &mut Vec<u8>, packet: &Packet) -> Result<(), NoMemory>
    ensures { OnOk result (out.new.items ≡ out.old.items ++ before_entries packet.now) }
{
    match packet {
        Packet::Request(r) => {
            out.push(1)?;
            put_head(out, r.thread, r.call, r.used, r.made)?;
            put_u16(out, r.depth)?;
            put_current(out, r.current)?;
            put_count(out, r.table.len())
        }
        Packet::Reply(r) => {
            out.push(2)?;
            put_head(out, r.thread, r.call, r.used, r.made)?;
            put_count(out, r.table.len())
        }
        Packet::Wake(w) => {
            out.push(3)?;
            put_u32(out, w.thread.0)?;
            put_u32(out, w.object)
        }
    }
}

/// What stands behind them.
pub(crate) fn put_behind_entries(out: &mut Vec<u8>, packet: &Packet) -> Result<(), NoMemory>
    ensures { OnOk result (out.new.items ≡ out.old.items ++ behind_entries packet.now) }
{
    match packet {
        Packet::Request(r) => put_operation(out, &r.operation),
        Packet::Reply(r) => put_outcome(out, &r.outcome),
        Packet::Wake(_) => Ok(()),
    }
}
