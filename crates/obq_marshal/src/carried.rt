//! Values with the table that they need.

use obq_wire::{TableEntry, WireValue};
use sqlite_items::Items;

/// Values as a frame has them, with the closed groups that they need.
#[derive(Drop)]
pub struct Carried {
    pub table: Items<TableEntry>,
    pub values: Items<WireValue>,
}
