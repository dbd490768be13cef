//! What one site sends another.

use crate::values::{TableEntry, TableMember, WireBody, WireField, WireValue};
use obq_base::{Flags, Name, Ref, Text, ThreadId};
use sqlite_items::Items;

/// An operation that is asked of another site.
#[derive(Drop)]
pub enum Operation {
    Get {
        object: Ref,
        name: Name,
    },
    Call {
        object: Ref,
        name: Name,
        arguments: Items<WireValue>,
    },
    Set {
        object: Ref,
        name: Name,
        body: WireBody,
    },
    Copy {
        object: Ref,
    },
    Redirect {
        object: Ref,
        target: Ref,
    },
    ArrayItem {
        array: Ref,
        index: i64,
    },
    ArraySize {
        array: Ref,
    },
    ArraySet {
        array: Ref,
        index: i64,
        value: WireValue,
    },
    VarGet {
        variable: Ref,
    },
    VarSet {
        variable: Ref,
        value: WireValue,
    },
    Put {
        writer: Ref,
        text: Text,
    },
    Join {
        thread: ThreadId,
    },
    Line {
        condition: Ref,
        object: Ref,
    },
    GiveUp {
        object: Ref,
    },
    Again {
        object: Ref,
        condition: Ref,
    },
    Signal {
        condition: Ref,
    },
    Broadcast {
        condition: Ref,
    },
    Export {
        name: Text,
        value: WireValue,
    },
    /// The value under a name, which has to be an engine where one is wanted.
    Import {
        name: Text,
        engine: bool,
    },
    /// The engine runs the procedure.
    Engine {
        engine: Ref,
        procedure: TableMember,
    },
}

/// What came of an operation.
#[derive(Drop)]
pub enum Outcome {
    Value(WireValue),
    /// The exception with this text was raised.
    Raised(Text),
    Exit,
    /// The field is an alias: the operation is to be asked of that field.
    Hop {
        to: Ref,
        name: Name,
    },
    /// The object that was copied.
    Object {
        flags: Flags,
        fields: Items<WireField>,
    },
}

/// The object of the innermost method that a thread is in, by how that method was entered.
#[derive(Clone, Copy, Debug, PartialEq, Eq)]
pub enum Current {
    Nothing,
    /// The object isn't serialized.
    Plain(Ref),
    /// The thread holds the object's mutex.
    Held(Ref),
}

/// A thread asks another site to do its next operation.
#[derive(Drop)]
pub struct Request {
    pub thread: ThreadId,
    /// The number of the asking site's pending call.
    pub call: u64,
    /// The turns that the thread has used.
    pub used: u32,
    /// The closures that the thread has made.
    pub made: u64,
    /// The activations around the operation, at most 1,000.
    pub depth: u16,
    pub current: Current,
    pub table: Items<TableEntry>,
    pub operation: Operation,
}

/// The answer to a request: `call` is that of the request.
#[derive(Drop)]
pub struct Reply {
    pub thread: ThreadId,
    pub call: u64,
    pub used: u32,
    pub made: u64,
    pub table: Items<TableEntry>,
    pub outcome: Outcome,
}

/// A thread that waits for a condition was woken. It gave up the mutex of the object with this number, at the site that
/// gets the frame.
#[derive(Clone, Copy, Debug, PartialEq, Eq)]
pub struct Wake {
    pub thread: ThreadId,
    pub object: u32,
}

/// What a frame says.
#[derive(Drop)]
pub enum Packet {
    Request(Request),
    Reply(Reply),
    Wake(Wake),
}
