//! The names that binders bind, in order.

ghost use Rattle.std.specs.Prelude.{◌≡◌, ◌≤◌, ◌<◌, ◌-◌, [], ◌∷◌, ◌++◌, OnOk, IfOk, length, take};
ghost use Rattle.obq_model.specs.Put.{among};
ghost use Rattle.obq_model.specs.Scopes.{last_place};

use crate::places::Places;
use obq_base::{Name, NoMemory};
use sqlite_items::Items;
use std::alloc::Global;
use std::marker::Model;

/// Names in the order in which they were bound, found in a time that grows with the logarithm of
/// their number. Contracts see the list. After a push that found no memory it still holds its names,
/// and looks for them from the front.
#[derive(Drop)]
pub struct Binders {
    alloc: Global,
    names: Vec<Name>,
    /// The last place of each name, while `indexed`.
    places: Places,
    /// For each name the last place of an equal one before it, while `indexed`.
    earlier: Vec<Option<usize>>,
    indexed: bool,
}

impl Model for Binders {
    ghost use Rattle.std.specs.Prelude.{◌≡◌, List, true, ℕ};
    ghost use Rattle.obq_names.specs.Indexed.{IsIndexed};

    ghost Value = { List (List ℕ) };

    ghost view = { λ b. b.names.items };

    ghost invariant = { λ b. b.indexed ≡ true → IsIndexed b.places.map b.earlier.items b.names.items };
}

impl Binders {
    /// No names. It takes no memory.
    pub fn new(alloc: Global) -> Binders
        ensures { result ≡ [] }
    {
        Binders {
            alloc,
            names: Vec::new(alloc),
            places: Places::new(alloc),
            earlier: Vec::new(alloc),
            indexed: true,
        }
    }

    /// The number of names, equal ones counted each.
    pub fn len(&self) -> usize
        ensures { result ≡ length self.now }
    {
        self.names.len()
    }

    /// Appends a name; its place is the number of names before it. `NoMemory` where the list or its index can't grow.
    pub fn push(&mut self, name: Name) -> Result<(), NoMemory>
        ensures { OnOk result (self.new ≡ self.old ++ name ∷ []) }
    {
        let indexed = self.indexed;
        self.indexed = false;
        let place = self.names.len();
        let before = self.places.insert(self.alloc, name.as_bytes(), place)?;
        self.earlier.push(before)?;
        self.names.push(name)?;
        self.indexed = indexed;
        Ok(())
    }

    /// Takes the last one away.
    fn pop(&mut self)
        ensures { self.new ≡ take (length self.old - 1) self.old }
    {
        let indexed = self.indexed;
        self.indexed = false;
        let Some(name) = self.names.pop() else {
            return;
        };
        let Some(before) = self.earlier.pop() else {
            return;
        };
        if !indexed {
            return;
        }
        self.indexed = self.places.restore(name.as_bytes(), before);
    }

    /// Takes the later ones away.
    pub fn truncate(&mut self, len: usize)
        ensures { self.new ≡ take len self.old }
    {
        while self.len() > len {
            self.pop();
        }
    }

    /// The names in order.
    pub fn as_slice(&self) -> &[Name]
        ensures { result.now ≡ self.now }
    {
        self.names.as_slice()
    }

    /// The names in order, which it gives up.
    pub fn into_names(self) -> Items<Name>
        ensures { result ≡ self }
    {
        let Binders { names, .. } = self;
        Items::from_vec(names)
    }

    /// Whether one of them is equal.
    pub fn contains(&self, name: &Name) -> bool
        ensures { result ≡ among name.now self.now }
    {
        self.last_place(name).is_some()
    }

    /// The place of the last one with this name.
    pub fn last_place(&self, name: &Name) -> Option<usize>
        ensures { result ≡ last_place name.now self.now }
    {
        if self.indexed {
            return self.places.get(name.as_bytes());
        }
        find_last(name, self.names.as_slice())
    }

    /// Appends copies.
    pub fn push_all(&mut self, alloc: Global, names: &[Name]) -> Result<(), NoMemory>
        ensures { OnOk result (self.new ≡ self.old ++ names.now) }
    {
        for name in names {
            self.push(name.copy(alloc)?)?;
        }
        Ok(())
    }
}

fn find_last(name: &Name, names: &[Name]) -> Option<usize>
    ensures { result ≡ last_place name.now names.now }
{
    let mut found = None;
    let mut place = 0;
    for other in names {
        if name == other {
            found = Some(place);
        }
        place += 1;
    }
    found
}
