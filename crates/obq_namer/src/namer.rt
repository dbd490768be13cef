//! Exported names with their values.

ghost use Rattle.std.specs.Prelude.{◌≡◌, [], None, bytes_eq, OnOk, OnErr, option_copied};
ghost use Rattle.std.specs.Map.{lookup};
ghost use Rattle.obq_heap.specs.Names.{put};
ghost use Rattle.obq_namer.specs.Exports.{IsExport, IsExported};

use obq_base::{Name, NoMemory, Value};
use obq_heap::NameMap;
use std::alloc::Global;
use std::marker::Model;

/// Exported names with their values, in the order of their first exports.
#[derive(Drop)]
pub struct Namer {
    names: NameMap<Value>,
}

impl Model for Namer {
    ghost use Rattle.std.specs.Prelude.{List, ℕ};
    ghost use Rattle.std.specs.Coded.{coded_list, coded×, coded_ℕ};
    ghost use Rattle.obq_base.specs.declared.values.Value.{Value as Shown};
    ghost use Rattle.obq_base.specs.contracts.values.Value as value;

    ghost Value = { List (List ℕ × Shown) };

    ghost coded = { coded_list (coded× (coded_list coded_ℕ) value.the_row.coded) };

    ghost view = { λ n. n.names };
}

impl Namer {
    /// No names yet.
    pub fn new(alloc: Global) -> Namer
        ensures { result ≡ [] }
    {
        Namer {
            names: NameMap::new(alloc),
        }
    }

    /// The name has this value; all other names stay. A second export of a name takes the first one's place.
    pub fn export(&mut self, name: Name, value: Value) -> Result<(), NoMemory>
        ensures names { OnOk result (self.new ≡ put name value self.old) }
        // As the definition's table does, under every reading of values.
        ensures row { OnOk result (IsExport name value self.old self.new) }
        ensures err { OnErr result (self.new ≡ self.old) }
        // Only a new name takes memory.
        ensures absent { OnErr result (lookup (bytes_eq name) self.old ≡ None) }
    {
        self.names.put(name, value)
    }

    /// The value of a name: none exactly where it isn't there. It takes no memory.
    pub fn import(&self, name: &Name) -> Option<&Value>
        ensures value { option_copied result ≡ lookup (bytes_eq name.now) self.now }
        ensures row { IsExported name.now self.now (option_copied result) }
    {
        self.names.get(name)
    }
}
