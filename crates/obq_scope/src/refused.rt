//! Refusals.

use obq_base::{Name, NoMemory};

/// Why a block has no code.
#[derive(Debug, Drop)]
pub enum ScopeRefused {
    /// The first unbound name; `place` is the byte of the source, from 0, at which it stands.
    Unbound { name: Name, place: u32 },
    NoMemory,
}

impl From<NoMemory> for ScopeRefused {
    ghost use Rattle.std.specs.Prelude.{◌≡◌};
    ghost use Rattle.obq_scope.specs.declared.refused.ScopeRefused.TheVariants as refused;

    ghost from_gives = { λ _ e. e ≡ refused.NoMemory };

    fn from(_error: NoMemory) -> ScopeRefused {
        ScopeRefused::NoMemory
    }
}
