//! Values as a frame has them: a closure names an entry of the frame's table.

use obq_base::{CodeNo, GroupNo, Name, Ref, SiteId, Text, ThreadId};
use sqlite_items::Items;

/// A closure: the member with this number of the group at this index of the frame's table.
#[derive(Clone, Copy, Debug, PartialEq, Eq)]
pub struct TableMember {
    pub index: u32,
    pub member: u32,
}

/// A value in a frame.
#[derive(Drop)]
pub enum WireValue {
    Int(i64),
    Bool(bool),
    Okay,
    Text(Text),
    /// The exception with this text.
    Exn(Text),
    Clo(TableMember),
    Ref(Ref),
    /// A thread, and the site at which it was made.
    Thread { id: ThreadId, home: SiteId },
}

/// A closed group in a frame's table. A closure among its captured values names an earlier entry.
#[derive(Drop)]
pub struct TableEntry {
    pub number: GroupNo,
    /// The code of each member.
    pub codes: Items<CodeNo>,
    pub captured: Items<WireValue>,
}

/// What a field of an object holds, in a frame.
#[derive(Drop)]
pub enum WireBody {
    Value(WireValue),
    Method(TableMember),
    /// Stands for the field of that name of the object `to`.
    Alias { to: Ref, name: Name },
}

/// A field of an object that a frame carries whole.
#[derive(Drop)]
pub struct WireField {
    pub name: Name,
    pub body: WireBody,
}
