//! Sources, and what they give.

use obq_base::{Block, Name, SourceFault};
use obq_code::Codes;

/// A site's name, and the bytes of its source.
#[derive(Drop)]
pub struct Source {
    pub name: Name,
    pub bytes: Vec<u8>,
}

/// What accepted sources give: the names of their sites, their trees and their codes, each in the
/// order of the sources.
#[derive(Drop)]
pub struct Program {
    pub names: Vec<Name>,
    pub blocks: Vec<Block>,
    pub codes: Codes,
}

/// Why sources give no program.
#[derive(Debug, Drop)]
pub enum FrontRefused {
    /// The first source that has a fault, from 0, and its first fault.
    Refused { source: u16, fault: SourceFault },
    NoMemory,
}
