//! Why a frame isn't read.

ghost use Rattle.std.specs.Prelude.{◌≡◌};
ghost use Rattle.obq_wire.specs.declared.refusal.Refused.TheVariants.{NoMemory as Memory};

use obq_base::NoMemory;
use std::alloc::{AllocError, AllocFailed};

/// Why `decode` has no packet.
#[derive(Clone, Copy, Debug, PartialEq, Eq)]
pub enum WireRefused {
    /// The bytes spell no packet. `place` is the first byte, from 0, of what is wrong.
    BadFrame { place: u64 },
    NoMemory,
}

/// Why a part isn't read.
#[derive(Clone, Copy, Debug, PartialEq, Eq)]
pub(crate) enum Refused {
    /// The first field that is wrong has so many bytes from its first byte on, to the end of the frame.
    Bad { left: usize },
    NoMemory,
}

impl From<NoMemory> for Refused {
    ghost from_gives = { λ _ e. e ≡ Memory };

    fn from(_error: NoMemory) -> Refused {
        Refused::NoMemory
    }
}

impl From<AllocError> for Refused {
    ghost from_gives = { λ _ e. e ≡ Memory };

    fn from(_error: AllocError) -> Refused {
        Refused::NoMemory
    }
}

impl<T: Drop> From<AllocFailed<T>> for Refused {
    ghost from_gives = { λ _ e. e ≡ Memory };

    fn from(_error: AllocFailed<T>) -> Refused {
        Refused::NoMemory
    }
}
