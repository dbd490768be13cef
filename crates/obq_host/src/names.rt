//! Exports and imports of names.

ghost use Rattle.std.specs.Map.{lookup};
ghost use Rattle.std.specs.Option.{option_copied};
ghost use Rattle.std.specs.Prelude.{◌≡◌, IfOk, IsTrue, None, Some, bytes_eq};
ghost use Rattle.obq_answers.specs.Forms.{with_focus};
ghost use Rattle.obq_except.specs.declared.windows.Window.{Window};
ghost use Rattle.obq_host.specs.Exports.{Imports, imported_focus, is_engine, value_at};
ghost use Rattle.obq_host.specs.Places.{at_place};
ghost use Rattle.obq_host.specs.Threads.{Refocuses, due_at, due_by, sought};
ghost use Rattle.obq_moves.specs.Kinds.{plain_of_reference};
ghost use Rattle.obq_moves.specs.Views.{plain_focus, plain_operation, plain_value, shown};
ghost use Rattle.obq_windows.specs.Values.{OkayValue};
ghost use Rattle.obq_windows.specs.Windows.{NodeValue};

use crate::places::{put_at, take_at};
use crate::threads::name_of;
use obq_base::{Kind, Name, NoMemory, Raised, Ref, Text, ThreadId, Value};
use obq_except::{Focus, Operation, Window};
use obq_moves::moves::raise;
use obq_moves::places::put;
use obq_moves::plain::okay;
use obq_namer::Namer;
use std::alloc::Global;

// ---- what a window finds

fn is_engine_at(place: Ref) -> bool
    ensures { result ≡ is_engine (plain_of_reference place) }
{
    match place.kind {
        Kind::Engine => true,
        _ => false,
    }
}

/// Whether the value is a reference to an engine.
#[tactic(auto, unfolding(obq_moves::specs::Views::plain_value))]
fn is_engine(value: &Value) -> bool
    ensures { result ≡ is_engine (plain_value value.now) }
{
    match value {
        Value::Ref(place) => is_engine_at(*place),
        _ => false,
    }
}

/// The value of a name comes into the window that imports it, or that it is no engine where one is wanted.
fn import(alloc: Global, window: &mut Window, engine: bool, value: &Value) -> Result<(), NoMemory>
    ensures { IfOk result (λ _. shown window.new ≡ with_focus (imported_focus engine (plain_value value.now)) (shown window.old)) }
{
    if engine && !is_engine(value) {
        raise(alloc, window, Raised::WrongType)?;
        return Ok(());
    }
    let value = value.copy(alloc)?;
    put(&mut window.focus, Focus::Value(value));
    Ok(())
}

fn imported(
    alloc: Global,
    mut window: Window,
    engine: bool,
    value: &Value,
) -> Result<Window, NoMemory>
    ensures { IfOk result (λ w. shown w ≡ with_focus (imported_focus engine (plain_value value.now)) (shown window)) }
{
    import(alloc, &mut window, engine, value)?;
    Ok(window)
}

fn import_with(
    alloc: Global,
    windows: &mut Vec<Option<Window>>,
    thread: ThreadId,
    engine: bool,
    value: &Value,
) -> Result<(), NoMemory>
    ensures { IfOk result (λ _. (w : Window) → at_place windows.old.items thread.0 ≡ Some w → Refocuses windows.old.items thread.0 (shown w) (imported_focus engine (plain_value value.now)) windows.new.items) }
{
    let Some(window) = take_at(windows, thread.0 as usize) else {
        return Ok(());
    };
    let window = imported(alloc, window, engine, value)?;
    put_at(windows, thread.0 as usize, window)
}

/// The thread imports a name, if that is there.
pub(crate) fn import_name(
    alloc: Global,
    windows: &mut Vec<Option<Window>>,
    names: &Namer,
    thread: ThreadId,
    name: &Name,
    engine: bool,
) -> Result<bool, NoMemory>
    ensures { IfOk result (λ done. (w : Window) → at_place windows.old.items thread.0 ≡ Some w → Imports windows.old.items thread.0 (shown w) engine (value_at names.now name.now) done windows.new.items) }
{
    match names.import(name) {
        None => Ok(false),
        Some(value) => {
            import_with(alloc, windows, thread, engine, value)?;
            Ok(true)
        }
    }
}

fn exported(mut window: Window) -> Window
    ensures { shown result ≡ with_focus (NodeValue OkayValue) (shown window) }
{
    put(&mut window.focus, Focus::Value(okay()));
    window
}

/// The thread goes on behind an export.
pub(crate) fn after_export(
    windows: &mut Vec<Option<Window>>,
    thread: ThreadId,
) -> Result<(), NoMemory>
    ensures { IfOk result (λ _. (w : Window) → at_place windows.old.items thread.0 ≡ Some w → Refocuses windows.old.items thread.0 (shown w) (NodeValue OkayValue) windows.new.items) }
{
    let Some(window) = take_at(windows, thread.0 as usize) else {
        return Ok(());
    };
    let window = exported(window);
    put_at(windows, thread.0 as usize, window)
}

// ---- names that are waited for

fn sought_by(operation: &Operation) -> Option<&Text>
    ensures { option_copied result ≡ sought (due_by (plain_operation operation.now)) }
{
    match operation {
        Operation::Import { name, .. } => Some(name),
        _ => None,
    }
}

/// The name that is imported where this stands in the innermost place.
pub(crate) fn sought(focus: &Focus) -> Option<&Text>
    ensures { option_copied result ≡ sought (due_at (plain_focus focus.now)) }
{
    match focus {
        Focus::Act { operation, .. } => sought_by(operation),
        _ => None,
    }
}

/// Whether the name isn't there. Where memory is wanting that isn't told.
pub(crate) fn is_missing(alloc: Global, names: &Namer, text: &Text) -> bool
    ensures { IsTrue result → lookup (bytes_eq text.now) names.now ≡ None }
{
    match name_of(alloc, text) {
        Ok(name) => names.import(&name).is_none(),
        Err(_) => false,
    }
}
