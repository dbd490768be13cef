//! Laws that join the grammar with the machine: what accepted sources have at most, and so what their threads make. No code runs here; each function
//! is a law, its contract.
#![tactic(auto)]

ghost use Rattle.obq_sources.specs.Literals.{ProgramsAreNarrow, SourcesAreNarrow, SourcesMakeFew};

/// No object literal of a program has as many methods as the program has tokens.
pub fn programs_are_narrow()
    ensures law { ProgramsAreNarrow }
{}

/// No object literal of an accepted source has more methods than the source has bytes.
pub fn sources_are_narrow()
    ensures law { SourcesAreNarrow }
{}

/// A thread of accepted sources makes no more closures for each turn than the longest source has bytes.
pub fn sources_make_few()
    ensures law { SourcesMakeFew }
{}
