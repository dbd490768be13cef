//! Where operations are done.

/// Where an operation is done.
#[derive(Clone, Copy, Debug, PartialEq, Eq)]
pub enum Place {
    /// At the site of the activation that asks.
    Here,
    /// At the site of the cell with this number.
    AtCell(u32),
    /// At the home of the thread with this number.
    AtThread(u32),
    /// At the name server.
    AtNames,
}
