//! Names, values and cells for the cases, and a line for what came.

use obq_base::{Name, NoMemory, Ref, Value};
use obq_heap::{Cell, SiteHeap};
use std::alloc::{AllocError, Global};
use std::fmt::Debug;
use std::io;

/// As many cells as one case places at most.
pub const MOST_CELLS: usize = 9;

/// A name of one letter.
pub fn name(alloc: Global, letter: u8) -> Result<Name, AllocError> {
    Ok(Name::new(vec![in alloc; letter]?))
}

pub fn integer(value: Option<&Value>) -> Option<i64> {
    match value {
        Some(Value::Int(n)) => Some(*n),
        _ => None,
    }
}

/// Places a cell.
pub fn place(heap: &mut SiteHeap, cell: Cell, born: u64) -> Result<Ref, NoMemory> {
    if heap.len() > MOST_CELLS {
        return Err(NoMemory);
    }
    heap.place(cell, born)
}

/// The answer, with want of memory as an error of `io`.
pub fn kept<T>(answer: Result<T, NoMemory>) -> io::Result<T> {
    match answer {
        Ok(value) => Ok(value),
        Err(NoMemory) => Err(io::Error::from(io::ErrorKind::OutOfMemory)),
    }
}

/// Prints what was asked, and what came.
pub fn tell<T: Debug + Drop>(rt: &impl Print, what: &str, came: T) -> io::Result<()> {
    println!(rt; "{what}  =>  {came:?}")
}
