//! What a code knows besides its own binders.

use obq_names::Binders;

/// The source of a code, the names of its `let rec`, and the names that it captures.
#[derive(Drop)]
pub struct Outside {
    pub source: u16,
    pub members: Binders,
    pub captured: Binders,
}
