//! Laws of the tokens of a source and of its first lexical fault.

ghost use Rattle.std.specs.Prelude.{◌+◌, ◌≡◌, ◌≤◌, List, length, ℕ};
ghost use Rattle.obq_base.specs.declared.tokens.Token.{Token};
ghost use Rattle.obq_base.specs.declared.faults.LexKind.{LexKind};
ghost use Rattle.obq_model.specs.Tokens.{IsAscending, IsEnded, IsFirstFault, IsReading, IsShallow};
ghost use Rattle.obq_model.specs.Widths.{width_of};

/// A source has at most one list of tokens.
pub fn one_reading()
    ensures { (source : List ℕ) (ts us : List Token) → IsReading source ts → IsReading source us → ts ≡ us }
{}

/// A source has at most one first fault.
pub fn one_first_fault()
    ensures { (source : List ℕ) (j k : LexKind) (p q : ℕ) → IsFirstFault source j p → IsFirstFault source k q → (j ≡ k) × (p ≡ q) }
{}

/// A source that has tokens has no fault.
pub fn no_fault_of_a_reading()
    ensures { (source : List ℕ) (ts : List Token) (k : LexKind) (p : ℕ) → IsReading source ts → IsFirstFault source k p → ⊥ }
{}

/// The tokens of a source end with the end token, which stands nowhere else.
pub fn readings_are_ended()
    ensures { (source : List ℕ) (ts : List Token) → IsReading source ts → IsEnded ts }
{}

/// No token of a source stands inside more than 200 openers.
pub fn readings_are_shallow()
    ensures { (source : List ℕ) (ts : List Token) → IsReading source ts → IsShallow 0 ts }
{}

/// Each token of a source begins before the next one does.
pub fn readings_ascend()
    ensures { (source : List ℕ) (ts : List Token) → IsReading source ts → IsAscending 0 ts }
{}

/// The tokens of a source take no more bytes than it has, and are at most as many as its bytes and one, the end token.
pub fn readings_fit()
    ensures widths { (source : List ℕ) (ts : List Token) → IsReading source ts → width_of ts ≤ length source }
    ensures few { (source : List ℕ) (ts : List Token) → IsReading source ts → length ts ≤ length source + 1 }
{}
