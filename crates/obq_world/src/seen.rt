//! What a World tells where it is over.

ghost use Rattle.std.specs.Prelude.{◌≡◌};

use crate::naming::Naming;
use std::marker::{Model, PhantomData};

/// Tells that a World was over, at a journal of so many entries. Only a World makes it.
#[derive(Drop)]
pub struct Seen<J: Naming> {
    pub(crate) entries: u64,
    pub(crate) of: PhantomData<J>,
}

impl<J: Naming> Model for Seen<J> {
    ghost use Rattle.std.specs.Prelude.{ℕ};
    ghost use Rattle.obq_world.specs.State.{WasOver};

    ghost Value = { ℕ };

    ghost view = { λ s. s.entries };

    ghost invariant = { λ s. WasOver J.program J.turns s.entries };
}

impl<J: Naming> Seen<J> {
    /// How many entries the journal had.
    pub fn entries(&self) -> u64
        ensures { result ≡ self.now }
    {
        self.entries
    }
}
