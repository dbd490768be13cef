//! Occurrences of names.

use crate::bytes::Name;

/// An occurrence of a name in a source.
#[derive(Debug, Drop)]
pub struct Occurrence {
    pub name: Name,
    /// The byte of the source, from 0, at which it begins.
    pub place: u32,
    /// It is the head of a chain of suffixes, of which the first is a call.
    pub called: bool,
}
