//! Which program runs, at how many sites and with which limit of turns.

use std::marker::Brand;

/// The program, the number of its sites, the limit of turns, and the codes of the program with the table of what they are codes of. The one call
/// that starts a run chooses them; what carries this parameter belongs to that run's program.
pub trait Naming {
    ghost use Rattle.std.specs.Prelude.{List, ℕ};
    ghost use Rattle.obq_base.specs.Tree.{BlockTree};
    ghost use Rattle.obq_base.specs.declared.code.SourceCode.{SourceCode};
    ghost use Rattle.obq_base.specs.declared.places.Ref.{Ref};
    ghost use Rattle.obq_windows.specs.Values.{Table};

    ghost program: { List BlockTree };

    ghost sites: { ℕ };

    ghost turns: { ℕ };

    ghost parts: { List SourceCode };

    ghost table: { Table Ref };
}

impl Naming for Brand {
    ghost use Rattle.std.specs.Prelude.{[], None};
    ghost use Rattle.obq_base.specs.declared.places.Kind.{Kind};

    ghost program = { [] };

    ghost sites = { 0 };

    ghost turns = { 0 };

    ghost parts = { [] };

    ghost table = { record { procs = λ number. None; writer = λ source. record { site = record { 0 = 0 }; kind = Kind.Writer; n = 0 } } };
}
