//! Closures that travel: packed, unpacked, and packed again.

use crate::samples::kept;
use crate::wire::bytes_of;
use obq_base::{CodeNo, Group, GroupNo, NoMemory, Shared, Value};
use obq_marshal::{Carried, ImportCache, pack};
use obq_wire::{Outcome, Packet, Reply, WireValue, decode};
use sqlite_items::Items;
use std::alloc::Global;
use std::io;

/// A reply whose value is the one member of a group that captured 5.
const REPLY: &str =
    "0200000000000000000000000100000007000000000000000000000001000000000000000000000002000000010000000000030000000100000000000000000500050000000000000000";

/// A closure of a new group with one code, over these captured values.
fn closure(alloc: Global, n: u64, captured: Items<Value>, depth: u16) -> Result<Value, NoMemory> {
    let mut codes = Items::new(alloc);
    codes.push(CodeNo { source: 0, n: 3 })?;
    let number = GroupNo { thread: 0, n };
    let made = Group {
        number,
        codes,
        captured,
        depth,
    };
    let group = Shared::new(alloc, made)?;
    Ok(Value::Clo { group, member: 0 })
}

fn twice(alloc: Global, x: Value) -> Result<Items<Value>, NoMemory> {
    let mut values = Items::new(alloc);
    let again = x.copy(alloc)?;
    values.push(x)?;
    values.push(again)?;
    Ok(values)
}

fn over_five(alloc: Global) -> Result<Items<Value>, NoMemory> {
    let mut captured = Items::new(alloc);
    captured.push(Value::Int(5))?;
    twice(alloc, closure(alloc, 2, captured, 1)?)
}

/// So many groups, each of which captured the one before it twice.
fn nested(alloc: Global, depth: u16) -> Result<Items<Value>, NoMemory> {
    let mut x = Value::Okay;
    for d in 0..depth {
        x = closure(alloc, u64::from(d), twice(alloc, x)?, d.wrapping_add(1))?;
    }
    twice(alloc, x)
}

fn carried_by(alloc: Global, frame: &[u8]) -> Result<Carried, NoMemory> {
    let mut values = Items::new(alloc);
    let Ok(Packet::Reply(reply)) = decode(alloc, frame) else {
        return Ok(Carried {
            table: Items::new(alloc),
            values,
        });
    };
    let Reply { table, outcome, .. } = reply;
    if let Outcome::Value(value) = outcome {
        values.push(value)?;
    }
    Ok(Carried { table, values })
}

fn print_wire_values(rt: &impl Print, values: &[WireValue]) -> io::Result<()> {
    for value in values {
        match value {
            WireValue::Int(n) => println!(rt; "    {}", *n)?,
            WireValue::Clo(closure) => println!(rt; "    {:?}", *closure)?,
            _ => rt.println("    another value")?,
        }
    }
    Ok(())
}

fn print_carried(rt: &impl Print, carried: &Carried) -> io::Result<()> {
    for entry in carried.table.as_slice() {
        println!(rt;
            "  entry {:?} of {:?} over",
            entry.number,
            entry.codes.as_slice()
        )?;
        print_wire_values(rt, entry.captured.as_slice())?;
    }
    rt.println("  values")?;
    print_wire_values(rt, carried.values.as_slice())
}

fn print_captured(rt: &impl Print, values: &[Value]) -> io::Result<()> {
    for value in values {
        match value {
            Value::Int(n) => println!(rt; "    {}", *n)?,
            _ => rt.println("    another value")?,
        }
    }
    Ok(())
}

fn print_values(rt: &impl Print, values: &[Value]) -> io::Result<()> {
    for value in values {
        if let Value::Clo { group, member } = value {
            let member = *member;
            let group = group.group();
            println!(rt;
                "  member {member} of {:?}, {:?}, depth {}, over",
                group.number,
                group.codes.as_slice(),
                group.depth
            )?;
            print_captured(rt, group.captured.as_slice())?;
        } else {
            rt.println("  another value")?;
        }
    }
    Ok(())
}

/// How many entries come, and how many where what came is packed again.
fn there_and_back(alloc: Global, values: &[Value]) -> Result<(usize, usize), NoMemory> {
    let carried = pack(alloc, values)?;
    let mut cache = ImportCache::new(alloc);
    let came = cache.unpack(&carried)?;
    let again = pack(alloc, came.as_slice())?;
    Ok((carried.table.len(), again.table.len()))
}

fn print_back(rt: &impl Print, alloc: Global, what: &str, values: &[Value]) -> io::Result<()> {
    let (there, back) = kept(there_and_back(alloc, values))?;
    println!(rt; "{what}  =>  entries {there}, packed again {back}")
}

fn print_reply(rt: &impl Print, alloc: Global) -> io::Result<()> {
    let frame = bytes_of(alloc, REPLY)?;
    let carried = kept(carried_by(alloc, &frame))?;
    let came = kept(ImportCache::new(alloc).unpack(&carried))?;
    rt.println("the value of a reply")?;
    print_values(rt, came.as_slice())
}

pub fn print_cases(rt: &impl Print, alloc: Global) -> io::Result<()> {
    rt.println("marshal")?;
    let values = kept(over_five(alloc))?;
    let carried = kept(pack(alloc, values.as_slice()))?;
    rt.println("a closure over 5, twice")?;
    print_carried(rt, &carried)?;
    print_back(rt, alloc, "a closure over 5, twice", values.as_slice())?;
    print_reply(rt, alloc)?;
    let deep = kept(nested(alloc, 1_000))?;
    print_back(
        rt,
        alloc,
        "1000 groups, each over the one before it, twice",
        deep.as_slice(),
    )?;
    rt.println("")
}
