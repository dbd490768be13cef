//! Nesting.

/// What a token does to the count of open brackets and blocks.
#[derive(Clone, Copy, Debug, PartialEq, Eq)]
pub enum Nesting {
    Opens,
    Closes,
    Stays,
}
