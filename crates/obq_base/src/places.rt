//! Where things are: sites, threads, and references to cells.

/// The number of a site, in the order of the site words.
#[derive(Clone, Copy, Debug, PartialEq, Eq)]
pub struct SiteId(pub u16);

/// The number of a thread, in the order in which threads are made. Thread k below the number of sites runs source k.
#[derive(Clone, Copy, Debug, PartialEq, Eq)]
pub struct ThreadId(pub u32);

/// What a location is the location of.
#[derive(Clone, Copy, Debug, PartialEq, Eq)]
pub enum Kind {
    Object,
    Array,
    Variable,
    Writer,
    Condition,
    Engine,
}

/// A network reference: a cell by its site, its place in that site's heap, and its kind.
#[derive(Clone, Copy, Debug, PartialEq, Eq)]
pub struct Ref {
    pub site: SiteId,
    pub n: u32,
    pub kind: Kind,
}
