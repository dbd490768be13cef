//! A place for each name.

ghost use Rattle.std.specs.Prelude.{◌≡◌, ◌||◌, IfOk, IsTrue, List, None, OnOk, Some, ℕ, bytes_eq, cond, is_some, not};
ghost use Rattle.obq_names.specs.PlaceAt.{place_at};

use obq_base::NoMemory;
use std::alloc::Global;
use std::collections::BTreeMap;

/// A place for each name that has one.
#[derive(Drop)]
pub struct Places {
    pub map: BTreeMap<Vec<u8>, usize>,
}

impl Places {
    pub fn new(alloc: Global) -> Places
        ensures { (q : List ℕ) → place_at result.map q ≡ None }
    {
        Places {
            map: BTreeMap::new(alloc),
        }
    }

    pub fn get(&self, name: &[u8]) -> Option<usize>
        ensures { result ≡ place_at self.now.map name.now }
    {
        self.map.get(name).copied()
    }

    /// Gives the name this place, and answers the one before.
    pub fn insert(
        &mut self,
        alloc: Global,
        name: &[u8],
        place: usize,
    ) -> Result<Option<usize>, NoMemory>
        ensures before { IfOk result (λ before. before ≡ place_at self.old.map name.now) }
        ensures now { OnOk result ((q : List ℕ) → place_at self.new.map q ≡ cond (bytes_eq name.now q) (Some place) (place_at self.old.map q)) }
    {
        let key = Vec::from_slice(alloc, name)?;
        Ok(self.map.insert(key, place)?)
    }

    /// Gives the name the place that it had before; false where it has none now. It takes no memory.
    pub fn restore(&mut self, name: &[u8], before: Option<usize>) -> bool
        ensures answers { result ≡ (not (is_some before) || is_some (place_at self.old.map name.now)) }
        ensures restored { IsTrue result → (q : List ℕ) → place_at self.new.map q ≡ cond (bytes_eq name.now q) before (place_at self.old.map q) }
    {
        match before {
            None => {
                self.map.remove(name);
                true
            }
            Some(place) => match self.map.get_mut(name) {
                None => false,
                Some(slot) => {
                    *slot = place;
                    true
                }
            },
        }
    }
}
