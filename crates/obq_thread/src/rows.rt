//! Rows by the numbers of threads, which may be empty.

ghost use Rattle.std.specs.Prelude.{◌≡◌, ◌<◌, ◌≤◌, Some, None, length, OnOk, option_copied};
ghost use Rattle.obq_thread.specs.Rows.{SameRows, Sets, row_at};

use obq_base::NoMemory;
use std::mem;

/// Makes room for a row. What the rows show stays.
pub(crate) fn make_room<T: Drop>(rows: &mut Vec<Option<T>>, place: usize) -> Result<(), NoMemory>
    ensures rows { SameRows rows.old.items rows.new.items }
    ensures length { length rows.old.items ≤ length rows.new.items }
    ensures room { OnOk result (place < length rows.new.items) }
{
    while rows.len() <= place {
        rows.push(None)?;
    }
    Ok(())
}

/// The row of this place.
pub(crate) fn row<T>(rows: &Vec<Option<T>>, place: usize) -> Option<&T>
    ensures { option_copied result ≡ row_at rows.now.items place }
{
    match rows.get(place) {
        Some(Some(value)) => Some(value),
        _ => None,
    }
}

/// Fills the row of a place for which there is room.
pub(crate) fn fill<T: Drop>(rows: &mut Vec<Option<T>>, place: usize, value: T)
    requires { place < length rows.old.items }
    ensures rows { Sets (row_at rows.old.items) (row_at rows.new.items) place (Some value) }
    ensures length { length rows.new.items ≡ length rows.old.items }
{
    rows[place] = Some(value);
}

/// Empties the row of a place.
pub(crate) fn take<T>(rows: &mut Vec<Option<T>>, place: usize) -> Option<T>
    ensures taken { result ≡ row_at rows.old.items place }
    ensures rows { Sets (row_at rows.old.items) (row_at rows.new.items) place None }
    ensures length { length rows.new.items ≡ length rows.old.items }
{
    if place >= rows.len() {
        return None;
    }
    mem::replace(&mut rows[place], None)
}
