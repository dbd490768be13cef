//! Acts, journal entries and the report of a run.

/// What a thread does besides pure steps, by its name in a journal. An act that raises an exception keeps its name. Its location
/// is the cell or thread that it speaks of.
#[derive(Clone, Copy, Debug, PartialEq, Eq)]
pub enum ActKind {
    /// Makes an object, array, variable, condition or engine, which is its location.
    New,
    /// Selects a field of an object.
    Get,
    /// Enters a method of an object, or raises.
    Call,
    /// Leaves a method that holds the mutex of its object.
    Leave,
    /// Goes on at the target of an alias field; its location is the object that has the alias.
    Hop,
    /// Updates a field of an object.
    Set,
    /// Takes the fields of an object over into a clone that is being made.
    Copy,
    /// Makes each field of an object an alias of the target's.
    Redirect,
    /// Reads an item of an array, or its size.
    ArrayGet,
    /// Writes an item of an array.
    ArraySet,
    /// Reads a variable.
    VarGet,
    /// Writes a variable.
    VarSet,
    /// Appends a text to a writer.
    Put,
    /// Makes a thread, which is its location; 64 where there is no room for one.
    Fork,
    /// Takes a thread's value, or raises its exception.
    Join,
    /// Puts the thread into a condition's line, as a watch's guard is false; its location is the condition.
    Line,
    /// Frees the mutex of the object around a watch.
    GiveUp,
    /// Takes that mutex again.
    Again,
    /// Takes the first thread out of a condition's line.
    Signal,
    /// Takes all threads out of a condition's line.
    Broadcast,
    /// Sets a name on the net; its location is 0.
    Export,
    /// Reads a name on the net; its location is 0.
    Import,
    /// Calls an engine.
    Engine,
    /// Ends the thread, which is its location.
    End,
}

/// An act and the number of the location that it is done at: of a cell by order of allocation, of
/// a thread, or 0.
#[derive(Clone, Copy, Debug, PartialEq, Eq)]
pub struct Act {
    pub kind: ActKind,
    pub loc: u64,
}

/// One entry of a journal: a thread does so many pure steps and then the act, if there is one.
#[derive(Clone, Copy, Debug, PartialEq, Eq)]
pub struct Entry {
    pub thread: u32,
    pub pure: u32,
    pub act: Option<Act>,
}

/// How many threads ended by a value, ended by an exception, wait, or have used up their turns.
#[derive(Clone, Copy, Debug, PartialEq, Eq)]
pub struct Report {
    pub ended: u32,
    pub raised: u32,
    pub waiting: u32,
    pub spent: u32,
}
