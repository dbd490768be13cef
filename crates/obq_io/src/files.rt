//! The traits of the outside. A count of faults tells why a call failed: `Failed` comes only where
//! the count rose in that call. A count ends at 2^64 - 1 and stays there.

ghost use Rattle.std.specs.Prelude.{◌≡◌, ◌↔◌, ◌-◌, ◌≤◌, ◌<◌, ◌^◌, ℕ, List, [], Option, Some, length, IfOk, OnOk, OnErr};
ghost use Rattle.std.specs.Io.{ReadsAtMost, WritesAtMost};
ghost use Rattle.std.specs.Io.KnownBytes.{Keeps, ReadConsumes, WriteAppends};
ghost use Rattle.obq_io.specs.Causes.{Rose, HasCause, EndsOnlyThere};

/// A call on a file or a sink failed.
#[derive(Clone, Copy, Debug, PartialEq, Eq)]
pub struct Failed;

/// Files with names, of which one at a time is begun and read.
pub trait Files {
    /// What a name holds, where it tells that.
    ghost holds: { Self → List ℕ → Option (List ℕ) };

    /// What is left of the file that was begun, where it tells that.
    ghost left: { Self → Option (List ℕ) };

    /// How often a call on a name failed.
    ghost faults: { Self → List ℕ → ℕ };

    /// Starts the named file anew, so that all that it holds is left. After a refused call no file
    /// is begun.
    fn begin(&mut self, name: &str) -> Result<(), Failed>
        ensures same { (n : List ℕ) → holds self.new n ≡ holds self.old n }
        ensures begun { OnOk result (Keeps (holds self.old name.now) (left self.new)) }
        ensures refused { OnErr result (left self.new ≡ Some []) }
        ensures later { (n : List ℕ) → faults self.old n ≤ faults self.new n }
        ensures cause { OnErr result (Rose (faults self.old name.now) (faults self.new name.now)) };

    /// Goes on in the file that was begun, and gives the first bytes of what is left; none into a
    /// slice that isn't empty exactly where nothing is left. A fault counts at `name`. Where no
    /// file is begun, no byte comes.
    fn read(&mut self, name: &str, into: &mut [u8]) -> Result<usize, Failed>
        ensures same { (n : List ℕ) → holds self.new n ≡ holds self.old n }
        ensures bound { ReadsAtMost result into.new }
        ensures bytes { ReadConsumes (left self.old) (left self.new) result into.new }
        ensures end { IfOk result (λ count. EndsOnlyThere (left self.old) count) }
        ensures later { (n : List ℕ) → faults self.old n ≤ faults self.new n }
        ensures cause { OnErr result (Rose (faults self.old name.now) (faults self.new name.now)) };

    /// No count passes its last value.
    ghost bounded: { (files : Self) (n : List ℕ) → faults files n ≤ 2 ^ 64 - 1 };
}

/// Something that takes bytes.
pub trait Sink {
    /// The bytes written so far, where it tells that.
    ghost written: { Self → Option (List ℕ) };

    /// How often a write failed.
    ghost faults: { Self → ℕ };

    /// Takes the first bytes of the piece, at least one where it has any, or fails and takes none.
    fn write(&mut self, piece: &[u8]) -> Result<usize, Failed>
        ensures bound { WritesAtMost result piece.now }
        ensures some { 0 < length piece.now → IfOk result (λ count. 0 < count) }
        ensures bytes { WriteAppends (written self.old) (written self.new) result piece.now }
        ensures cause { HasCause (faults self.old) (faults self.new) result };

    /// The count does not pass its last value.
    ghost bounded: { (sink : Self) → faults sink ≤ 2 ^ 64 - 1 };
}
