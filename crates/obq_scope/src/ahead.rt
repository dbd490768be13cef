//! The captures of the procedures to come.

ghost use Rattle.std.specs.Prelude.{◌≡◌};
ghost use Rattle.obq_scope.specs.Coded.{behind, first_of};

use obq_base::Name;
use sqlite_items::Items;
use std::marker::Model;

/// Lists of names, of which the first ones have been passed. Contracts see the others.
#[derive(Drop)]
pub struct Ahead {
    lists: Items<Items<Name>>,
    next: usize,
}

impl Model for Ahead {
    ghost use Rattle.std.specs.Prelude.{List, drop, ℕ};

    ghost Value = { List (List (List ℕ)) };

    ghost view = { λ a. drop a.next a.lists };
}

impl Ahead {
    pub fn new(lists: Items<Items<Name>>) -> Ahead
        ensures { result ≡ lists }
    {
        Ahead { lists, next: 0 }
    }

    /// The next list; no names, where none is left.
    pub fn first(&self) -> &[Name]
        ensures { result.now ≡ first_of self.now }
    {
        match self.lists.get(self.next) {
            None => &[],
            Some(names) => names.as_slice(),
        }
    }

    /// Passes it.
    pub fn advance(&mut self)
        ensures { self.new ≡ behind self.old }
    {
        if self.next < self.lists.len() {
            self.next += 1;
        }
    }
}
