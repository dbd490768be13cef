//! What goes over a tree: the state of the walk.

ghost use Rattle.std.specs.Prelude.{◌≡◌, ◌<◌, ◌∷◌, [], IfOk, OnOk};

use crate::binders::Binders;
use obq_base::{Name, NoMemory, Occurrence};
use sqlite_items::Items;
use std::alloc::Global;
use std::mem::replace;

/// What a walk has found. Occurrences of names are looked up once each, among all binders in force,
/// so the time doesn't grow with the depth at which procedures stand in each other.
#[derive(Drop)]
pub struct Walker {
    /// The binders in force, the outermost first.
    pub bound: Binders,
    /// How many of them stand outside of the innermost procedure.
    pub base: usize,
    /// The names in that procedure that these cover, each once.
    pub names: Binders,
    /// The occurrences that no binder covers.
    pub found: Items<Occurrence>,
    /// The names that each procedure captures, in the order in which the procedures begin; none yet
    /// for those that haven't ended.
    pub captures: Items<Items<Name>>,
}

/// What is kept of a procedure while one inside it is walked.
#[derive(Drop)]
pub struct Outer {
    pub base: usize,
    pub names: Binders,
    /// How many binders were in force where the inner one began.
    pub binders: usize,
    /// The place of the inner one among the captures.
    pub place: usize,
}

impl Walker {
    ghost use Rattle.std.specs.Prelude.{length};
    ghost use Rattle.obq_names.specs.Walked.{entered, left, outer_of, truncated, with_all_bound, with_binders, with_bound, with_use};

    pub fn new(alloc: Global) -> Walker
        ensures bound { result.bound ≡ [] }
        ensures base { result.base ≡ 0 }
        ensures names { result.names ≡ [] }
        ensures found { result.found ≡ [] }
        ensures captures { result.captures ≡ [] }
    {
        Walker {
            bound: Binders::new(alloc),
            base: 0,
            names: Binders::new(alloc),
            found: Items::new(alloc),
            captures: Items::new(alloc),
        }
    }

    /// Puts a name into force.
    pub fn bind(&mut self, name: Name) -> Result<(), NoMemory>
        ensures { OnOk result (self.new ≡ with_binders (name ∷ []) self.old) }
    {
        self.bound.push(name)
    }

    /// Puts copies of names into force.
    pub fn bind_all(&mut self, alloc: Global, names: &[Name]) -> Result<(), NoMemory>
        ensures { OnOk result (self.new ≡ with_binders names.now self.old) }
    {
        self.bound.push_all(alloc, names)
    }

    /// How many binders are in force.
    pub fn depth(&self) -> usize
        ensures { result ≡ length self.now.bound }
    {
        self.bound.len()
    }

    /// Only so many binders are in force from here on.
    pub fn truncate(&mut self, depth: usize)
        ensures { self.new ≡ truncated depth self.old }
    {
        self.bound.truncate(depth);
    }

    /// An occurrence of a name.
    pub fn use_name(
        &mut self,
        alloc: Global,
        called: bool,
        name: &Name,
        place: u32,
    ) -> Result<(), NoMemory>
        ensures { OnOk result (self.new ≡ with_use called name.now place self.old) }
    {
        match self.bound.last_place(name) {
            None => {
                let name = name.copy(alloc)?;
                self.found.push(Occurrence {
                    name,
                    place,
                    called,
                })?;
                Ok(())
            }
            Some(k) => self.capture(alloc, k, name),
        }
    }

    /// Captures a name that the k-th binder binds, where that binder stands outside of the procedure.
    fn capture(&mut self, alloc: Global, k: usize, name: &Name) -> Result<(), NoMemory>
        ensures { OnOk result (self.new ≡ with_bound k name.now self.old) }
    {
        if k < self.base && !self.names.contains(name) {
            self.names.push(name.copy(alloc)?)?;
        }
        Ok(())
    }

    /// A procedure begins.
    pub fn enter(&mut self, alloc: Global) -> Result<Outer, NoMemory>
        ensures inside { OnOk result (self.new ≡ entered self.old) }
        ensures outside { IfOk result (λ outer. outer ≡ outer_of self.old) }
    {
        let place = self.captures.len();
        self.captures.push(Items::new(alloc))?;
        let binders = self.bound.len();
        let base = replace(&mut self.base, binders);
        let names = replace(&mut self.names, Binders::new(alloc));
        Ok(Outer {
            base,
            names,
            binders,
            place,
        })
    }

    /// It ends. What it captures and the procedure around it doesn't bind, that one captures too.
    pub fn leave(&mut self, alloc: Global, outer: Outer) -> Result<(), NoMemory>
        requires { outer.place < length self.now.captures }
        ensures { OnOk result (self.new ≡ left outer self.old) }
    {
        let Outer {
            base,
            names,
            binders,
            place,
        } = outer;
        self.bound.truncate(binders);
        self.base = base;
        let inner = replace(&mut self.names, names);
        self.capture_all(alloc, inner.as_slice())?;
        self.captures.set(place, inner.into_names());
        Ok(())
    }

    /// Captures those of these names that are bound outside of the procedure.
    fn capture_all(&mut self, alloc: Global, names: &[Name]) -> Result<(), NoMemory>
        ensures { OnOk result (self.new ≡ with_all_bound names.now self.old) }
    {
        for name in names {
            if let Some(k) = self.bound.last_place(name) {
                self.capture(alloc, k, name)?;
            }
        }
        Ok(())
    }
}
