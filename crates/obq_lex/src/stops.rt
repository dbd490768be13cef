//! What ends the reading of a source early, and the cut of its first byte.

ghost use Rattle.std.specs.Prelude.{◌≡◌, ◌∷◌, [], MatchOption};

use obq_base::LexKind;

/// Why no piece was read.
#[derive(Clone, Copy, Debug)]
pub enum Stop {
    /// A fault at the place where so many bytes are left.
    Fault { kind: LexKind, left: usize },
    NoMemory,
}

/// The first byte and those behind it.
pub fn cut(x: &[u8]) -> Option<(u8, &[u8])>
    ensures { MatchOption result (x.now ≡ []) (λ c. x.now ≡ c.0 ∷ c.1.now) }
{
    let (first, rest) = x.split_first()?;
    Some((*first, rest))
}
