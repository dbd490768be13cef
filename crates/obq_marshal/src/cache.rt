//! The closed groups that came to a site.

ghost use Rattle.std.specs.Prelude.{◌≡◌, [], OnOk, OnErr, option_copied};
ghost use Rattle.obq_marshal.specs.Groups.{cached, with_group};

use indexmap::IndexMap;
use obq_base::{GroupNo, GroupRef, NoMemory};
use std::alloc::Global;
use std::marker::Model;

/// The closed groups that came to a site, by their numbers, in the order of their first coming.
#[derive(Drop)]
pub struct ImportCache {
    groups: IndexMap<(u32, u64), GroupRef>,
    pub(crate) alloc: Global,
}

impl Model for ImportCache {
    ghost use Rattle.std.specs.Coded.{coded_list, coded×, coded_ℕ};
    ghost use Rattle.obq_base.specs.contracts.values.Group as group;
    ghost use Rattle.obq_marshal.specs.Groups.{Cached};

    ghost Value = { Cached };

    ghost coded = { coded_list (coded× (coded× coded_ℕ coded_ℕ) group.the_row.coded) };

    ghost view = { λ c. c.groups.entries };
}

impl ImportCache {
    /// No groups yet, and it takes no memory.
    pub fn new(alloc: Global) -> ImportCache
        ensures { result ≡ [] }
    {
        ImportCache {
            groups: IndexMap::new(alloc),
            alloc,
        }
    }

    /// The cached group with this number.
    pub fn get(&self, number: GroupNo) -> Option<&GroupRef>
        ensures { option_copied result ≡ cached self.now number }
    {
        self.groups.get(&(number.thread, number.n))
    }

    /// The number has this group. One that is there keeps its place; a new one comes last.
    pub(crate) fn put(&mut self, number: GroupNo, group: GroupRef) -> Result<(), NoMemory>
        ensures ok { OnOk result (self.new ≡ with_group self.old number group) }
        ensures err { OnErr result (self.new ≡ self.old) }
    {
        match self.groups.insert((number.thread, number.n), group) {
            Ok(_) => Ok(()),
            Err(_) => Err(NoMemory),
        }
    }
}
