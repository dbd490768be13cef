//! Carried values as values of a site.

ghost use Rattle.std.specs.Prelude.{◌≡◌, ℕ, map, take, IfOk, OnOk, OnErr};
ghost use Rattle.obq_marshal.specs.Groups.{depth_of, greatest_depth, group_of, so_far, unpacked, unpacked_entry, value_of};

use crate::cache::ImportCache;
use crate::carried::Carried;
use obq_base::{Group, GroupRef, NoMemory, Shared, Value};
use obq_wire::{TableEntry, WireValue};
use sqlite_items::{Items, at};
use std::alloc::Global;

fn value_of(alloc: Global, groups: &[GroupRef], x: &WireValue) -> Result<Value, NoMemory>
    ensures { IfOk result (λ v. v ≡ value_of groups.now x.now) }
{
    match x {
        WireValue::Int(n) => Ok(Value::Int(*n)),
        WireValue::Bool(t) => Ok(Value::Bool(*t)),
        WireValue::Okay => Ok(Value::Okay),
        WireValue::Text(t) => Ok(Value::Text(t.copy(alloc)?)),
        WireValue::Exn(t) => Ok(Value::Exn(t.copy(alloc)?)),
        WireValue::Clo(m) => match at(groups, m.index as usize) {
            Some(group) => {
                let group = group.copy()?;
                let member = m.member;
                Ok(Value::Clo { group, member })
            }
            None => Ok(Value::Okay),
        },
        WireValue::Ref(r) => Ok(Value::Ref(*r)),
        WireValue::Thread { id, home } => Ok(Value::Thread {
            id: *id,
            home: *home,
        }),
    }
}

fn values_of(
    alloc: Global,
    groups: &[GroupRef],
    values: &[WireValue],
) -> Result<Items<Value>, NoMemory>
    ensures { IfOk result (λ vs. vs ≡ map (value_of groups.now) values.now) }
{
    let mut made = Items::new(alloc);
    for x in values {
        made.push(value_of(alloc, groups, x)?)?;
    }
    Ok(made)
}

fn depth_of(x: &Value) -> u16
    ensures { result ≡ depth_of x.now }
{
    match x {
        Value::Clo { group, .. } => group.group().depth,
        _ => 0,
    }
}

fn greatest_depth(values: &[Value]) -> u16
    ensures { result ≡ greatest_depth values.now }
{
    let mut greatest = 0_u16;
    for x in values {
        greatest = greatest.max(depth_of(x));
    }
    greatest
}

fn group_of(alloc: Global, groups: &[GroupRef], entry: &TableEntry) -> Result<Group, NoMemory>
    ensures { IfOk result (λ g. g ≡ group_of groups.now entry.now) }
{
    let captured = values_of(alloc, groups, entry.captured.as_slice())?;
    let codes = Items::from_slice(alloc, entry.codes.as_slice())?;
    let depth = greatest_depth(captured.as_slice()).saturating_add(1);
    Ok(Group {
        number: entry.number,
        codes,
        captured,
        depth,
    })
}

/// One more group, of an entry behind those of the groups. After `NoMemory` the cache is as before.
fn enter(
    cache: &mut ImportCache,
    groups: &mut Vec<GroupRef>,
    entry: &TableEntry,
) -> Result<(), NoMemory>
    ensures ok { OnOk result (so_far cache.new groups.new.items ≡ unpacked_entry (so_far cache.old groups.old.items) entry.now) }
    ensures err { OnErr result (cache.new ≡ cache.old) }
{
    if let Some(group) = cache.get(entry.number) {
        groups.push(group.copy()?)?;
        return Ok(());
    }
    let made = group_of(cache.alloc, groups.as_slice(), entry)?;
    let group = Shared::new(cache.alloc, made)?;
    groups.push(group.copy()?)?;
    cache.put(entry.number, group)
}

impl ImportCache {
    /// The values that came with a table. An entry whose number is cached is the cached group; a new one is cached. After
    /// `NoMemory` the cache has the groups of some first entries of the table.
    pub fn unpack(&mut self, carried: &Carried) -> Result<Items<Value>, NoMemory>
        ensures values { IfOk result (λ vs. vs ≡ map (value_of (unpacked self.old carried.now.table).groups) carried.now.values) }
        ensures cache { OnOk result (self.new ≡ (unpacked self.old carried.now.table).cache) }
        ensures err { OnErr result ((n : ℕ) × (self.new ≡ (unpacked self.old (take n carried.now.table)).cache)) }
    {
        let mut groups = Vec::new(self.alloc);
        for entry in carried.table.as_slice() {
            enter(self, &mut groups, entry)?;
        }
        values_of(self.alloc, groups.as_slice(), carried.values.as_slice())
    }
}
