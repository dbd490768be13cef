//! Why entries are refused.

ghost use Rattle.std.specs.Prelude.{◌≡◌};

use obq_base::{Act, NoMemory};

/// Why an entry isn't legal: the first of these, in this order.
#[derive(Clone, Copy, Debug, PartialEq, Eq)]
pub enum Why {
    /// The thread isn't there, or has ended.
    NoThread,
    /// Its turns would pass the limit.
    Turns,
    /// It has fewer pure steps.
    NoPure,
    /// An act is named, and the operation that stands next waits.
    Waits,
    /// An act is named, and another one stands next, or a pure step, for which none is shown.
    WrongAct { should: Option<Act> },
}

/// Why an entry wasn't taken.
#[derive(Clone, Copy, Debug, PartialEq, Eq)]
pub enum TakeRefused {
    NotLegal { why: Why },
    NoMemory,
}

impl From<NoMemory> for TakeRefused {
    ghost use Rattle.obq_plain.specs.declared.refusals.TakeRefused.TheVariants as refused;

    ghost from_gives = { λ _ e. e ≡ refused.NoMemory };

    fn from(_error: NoMemory) -> TakeRefused {
        TakeRefused::NoMemory
    }
}
