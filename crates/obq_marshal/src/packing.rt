//! Values of a site over a table of the closed groups that they need.

ghost use Rattle.std.specs.Prelude.{◌≡◌, ◌<◌, ◌^◌, [], IfOk, length};
ghost use Rattle.std.specs.Map.{values_of};
ghost use Rattle.obq_marshal.specs.Packing.{after, index_of, pack_group, pack_value, pack_values, packed, entered};

use crate::carried::Carried;
use indexmap::IndexMap;
use obq_base::{CodeNo, Group, GroupNo, NoMemory, Value};
use obq_wire::{TableEntry, TableMember, WireValue};
use sqlite_items::Items;
use std::alloc::Global;
use std::marker::Model;

/// The entries of a table so far, by the numbers of their groups.
#[derive(Drop)]
struct Packing {
    entries: IndexMap<(u32, u64), TableEntry>,
    alloc: Global,
}

impl Model for Packing {
    ghost use Rattle.std.specs.Coded.{coded_list, coded×, coded_ℕ};
    ghost use Rattle.obq_wire.specs.contracts.values.TableEntry as entry;
    ghost use Rattle.obq_marshal.specs.Packing.{Placed};

    ghost Value = { Placed };

    ghost coded = { coded_list (coded× (coded× coded_ℕ coded_ℕ) entry.the_row.coded) };

    ghost view = { λ p. p.entries.entries };
}

impl Packing {
    fn new(alloc: Global) -> Packing
        ensures { result ≡ [] }
    {
        Packing {
            entries: IndexMap::new(alloc),
            alloc,
        }
    }

    fn index_of(&self, number: GroupNo) -> Option<usize>
        ensures { result ≡ index_of number self.now }
    {
        self.entries.get_index_of(&(number.thread, number.n))
    }

    #[cycle(packing)]
    fn pack_value(&mut self, x: &Value) -> Result<WireValue, NoMemory>
        ensures { IfOk result (λ w. pack_value x.now self.old ≡ after self.new w) }
    {
        match x {
            Value::Int(n) => Ok(WireValue::Int(*n)),
            Value::Bool(t) => Ok(WireValue::Bool(*t)),
            Value::Okay => Ok(WireValue::Okay),
            Value::Text(t) => Ok(WireValue::Text(t.copy(self.alloc)?)),
            Value::Exn(t) => Ok(WireValue::Exn(t.copy(self.alloc)?)),
            Value::Clo { group, member } => {
                let index = self.pack_group(group.group())?;
                let member = *member;
                Ok(WireValue::Clo(TableMember { index, member }))
            }
            Value::Ref(r) => Ok(WireValue::Ref(*r)),
            Value::Thread { id, home } => Ok(WireValue::Thread {
                id: *id,
                home: *home,
            }),
        }
    }

    #[cycle(packing)]
    fn pack_values(&mut self, values: &[Value]) -> Result<Items<WireValue>, NoMemory>
        ensures { IfOk result (λ ws. pack_values values.now self.old ≡ after self.new ws) }
    {
        let mut made = Items::new(self.alloc);
        for x in values {
            made.push(self.pack_value(x)?)?;
        }
        Ok(made)
    }

    #[cycle(packing)]
    fn pack_group(&mut self, group: &Group) -> Result<u32, NoMemory>
        ensures { IfOk result (λ i. pack_group group.now self.old ≡ after self.new i) }
    {
        if let Some(index) = self.index_of(group.number) {
            return narrowed(index);
        }
        let captured = self.pack_values(group.captured.as_slice())?;
        self.enter(group.number, group.codes.as_slice(), captured)
    }

    fn enter(
        &mut self,
        number: GroupNo,
        codes: &[CodeNo],
        captured: Items<WireValue>,
    ) -> Result<u32, NoMemory>
        ensures { IfOk result (λ i. entered number codes.now (after self.old captured) (index_of number self.old) ≡ after self.new i) }
    {
        // A group that its captured values needed would be there by now.
        if let Some(index) = self.index_of(number) {
            drop(captured);
            return narrowed(index);
        }
        let index = narrowed(self.entries.len())?;
        let codes = Items::from_slice(self.alloc, codes)?;
        let entry = TableEntry {
            number,
            codes,
            captured,
        };
        match self.entries.insert((number.thread, number.n), entry) {
            Ok(_) => Ok(index),
            Err(_) => Err(NoMemory),
        }
    }

    fn into_table(self) -> Result<Items<TableEntry>, NoMemory>
        ensures { IfOk result (λ table. table ≡ values_of self) }
    {
        let mut table = Items::new(self.alloc);
        for entry in self.entries.into_values() {
            table.push(entry)?;
        }
        Ok(table)
    }
}

/// A number of entries, or the index of one, as a frame has it.
fn narrowed(index: usize) -> Result<u32, NoMemory>
    ensures { IfOk result (λ i. i ≡ index) }
{
    match u32::try_from(index) {
        Ok(i) => Ok(i),
        Err(_) => Err(NoMemory),
    }
}

/// The values over the table of the closed groups that they need. A table that a frame can't count is `NoMemory`, too.
pub fn pack(alloc: Global, values: &[Value]) -> Result<Carried, NoMemory>
    ensures carried { IfOk result (λ c. c ≡ packed values.now) }
    ensures count { IfOk result (λ c. length c.table < 2 ^ 32) }
{
    let mut packing = Packing::new(alloc);
    let values = packing.pack_values(values)?;
    let table = packing.into_table()?;
    narrowed(table.len())?;
    Ok(Carried { table, values })
}
