//! What is due in a window, threads that begin, and threads that wait for others to end.

ghost use Rattle.std.specs.Prelude.{◌≡◌, [], IfOk, Some, codes, option_map};
ghost use Rattle.obq_answers.specs.Beginnings.{around_of, called_shown};
ghost use Rattle.obq_answers.specs.Forms.{with_focus};
ghost use Rattle.obq_except.specs.declared.windows.Window.{Window};
ghost use Rattle.obq_host.specs.Endings.{kept_at, plain_ending};
ghost use Rattle.obq_host.specs.Places.{at_place};
ghost use Rattle.obq_host.specs.Threads.{DueExport, DueImport, Forks, IsForked, Joins, Refocuses, around_thread, awaited, due_at, due_by, forked_focus, forked_window, joined_focus, plain_due};
ghost use Rattle.obq_moves.specs.Views.{plain_focus, plain_operation, plain_value, shown};
ghost use Rattle.obq_windows.specs.Values.{ThreadValue};
ghost use Rattle.obq_windows.specs.Windows.{node_raises};

use crate::host::Ending;
use crate::places::{look_at, put_at, put_two, take_at};
use obq_answers::{Around, called_window};
use obq_base::limits::THREAD_LIMIT;
use obq_base::{Name, NoMemory, Raised, SiteId, Text, ThreadId, Value};
use obq_except::{CurrentSelf, Focus, Operation, Raising, Window};
use obq_moves::moves::raise;
use obq_moves::places::put;
use sqlite_items::Items;
use std::alloc::Global;

/// What is due in a window.
#[derive(Drop)]
pub(crate) enum Due {
    /// A thread that begins with this procedure.
    Fork(Value),
    Join(ThreadId),
    /// The name gets this value.
    Export(Name, Value),
    /// The value with the name, or the engine.
    Import(Name, bool),
    /// Any other act.
    Act,
    End,
}

/// The name that a text spells.
pub(crate) fn name_of(alloc: Global, text: &Text) -> Result<Name, NoMemory>
    ensures { IfOk result (λ name. name ≡ text.now) }
{
    Ok(Name::new(Vec::from_slice(alloc, text.as_bytes())?))
}

fn due_export(alloc: Global, name: &Text, value: &Value) -> Result<Due, NoMemory>
    ensures { IfOk result (λ due. plain_due due ≡ DueExport name.now (plain_value value.now)) }
{
    let value = value.copy(alloc)?;
    let name = name_of(alloc, name)?;
    Ok(Due::Export(name, value))
}

fn due_import(alloc: Global, name: &Text, engine: bool) -> Result<Due, NoMemory>
    ensures { IfOk result (λ due. plain_due due ≡ DueImport name.now engine) }
{
    let name = name_of(alloc, name)?;
    Ok(Due::Import(name, engine))
}

fn due_by(alloc: Global, operation: &Operation) -> Result<Due, NoMemory>
    ensures { IfOk result (λ due. plain_due due ≡ due_by (plain_operation operation.now)) }
{
    match operation {
        Operation::ForkOff { procedure } => Ok(Due::Fork(procedure.copy(alloc)?)),
        Operation::Join { thread, .. } => Ok(Due::Join(*thread)),
        Operation::Export { name, value, .. } => due_export(alloc, name, value),
        Operation::Import { name, engine, .. } => due_import(alloc, name, *engine),
        _ => Ok(Due::Act),
    }
}

/// What is due where this stands in the innermost place.
pub(crate) fn due_at(alloc: Global, focus: &Focus) -> Result<Due, NoMemory>
    ensures { IfOk result (λ due. plain_due due ≡ due_at (plain_focus focus.now)) }
{
    match focus {
        Focus::Act { operation, .. } => due_by(alloc, operation),
        _ => Ok(Due::End),
    }
}

fn awaited_by(operation: &Operation) -> Option<ThreadId>
    ensures { option_map (λ thread. thread.0) result ≡ awaited (due_by (plain_operation operation.now)) }
{
    match operation {
        Operation::Join { thread, .. } => Some(*thread),
        _ => None,
    }
}

/// The thread whose end is waited for where this stands in the innermost place.
pub(crate) fn awaited(focus: &Focus) -> Option<ThreadId>
    ensures { option_map (λ thread. thread.0) result ≡ awaited (due_at (plain_focus focus.now)) }
{
    match focus {
        Focus::Act { operation, .. } => awaited_by(operation),
        _ => None,
    }
}

#[tactic(auto, using(obq_moves::proofs::Plainly::plain_thread))]
fn thread_value(thread: ThreadId) -> Value
    ensures { plain_value result ≡ ThreadValue thread.0 }
{
    Value::Thread {
        id: thread,
        home: SiteId(0),
    }
}

/// A new thread begins outside of all activations and objects.
fn outside(thread: ThreadId) -> Around
    ensures { around_of result ≡ around_thread thread.0 }
{
    Around {
        activations: 0,
        current: CurrentSelf {
            object: None,
            plain: false,
        },
        thread,
        closures: 0,
    }
}

/// The window of a thread that begins with a call of this.
fn begin_thread(alloc: Global, procedure: Value, thread: ThreadId) -> Result<Window, NoMemory>
    ensures { IfOk result (λ w. shown w ≡ called_shown (plain_value procedure) [] (around_thread thread.0)) }
{
    let around = outside(thread);
    called_window(alloc, procedure, Items::new(alloc), around)
}

/// There is no room for another thread.
fn refuse(alloc: Global, window: &mut Window) -> Result<(), NoMemory>
    ensures { IfOk result (λ _. shown window.new ≡ with_focus (node_raises (codes "fork_limit")) (shown window.old)) }
{
    raise(alloc, window, Raised::ForkLimit)?;
    Ok(())
}

/// The window that asked for a thread goes on, and the new thread's window begins; none where there are too many threads.
fn fork(
    alloc: Global,
    window: &mut Window,
    procedure: Value,
    threads: u32,
) -> Result<Option<Window>, NoMemory>
    ensures asker { IfOk result (λ _. shown window.new ≡ with_focus (forked_focus threads) (shown window.old)) }
    ensures begun { IfOk result (λ begun. option_map shown begun ≡ forked_window threads (plain_value procedure)) }
{
    if threads >= THREAD_LIMIT {
        drop(procedure);
        refuse(alloc, window)?;
        return Ok(None);
    }
    let thread = ThreadId(threads);
    put(&mut window.focus, Focus::Value(thread_value(thread)));
    let begun = begin_thread(alloc, procedure, thread)?;
    Ok(Some(begun))
}

/// A window that asked for a thread, and the window of that thread.
#[derive(Drop)]
struct Forked {
    window: Window,
    begun: Option<Window>,
}

fn make_thread(
    alloc: Global,
    mut window: Window,
    procedure: Value,
    threads: u32,
) -> Result<Forked, NoMemory>
    ensures { IfOk result (λ f. IsForked (shown window) (plain_value procedure) threads (shown f.window) (option_map shown f.begun)) }
{
    let begun = fork(alloc, &mut window, procedure, threads)?;
    Ok(Forked { window, begun })
}

/// The thread forks; so many threads were made before. Whether there is one more.
pub(crate) fn fork_thread(
    alloc: Global,
    windows: &mut Vec<Option<Window>>,
    thread: ThreadId,
    procedure: Value,
    threads: u32,
) -> Result<bool, NoMemory>
    ensures { IfOk result (λ made. (w : Window) → at_place windows.old.items thread.0 ≡ Some w → Forks windows.old.items thread.0 (shown w) (plain_value procedure) threads made windows.new.items) }
{
    let Some(window) = take_at(windows, thread.0 as usize) else {
        drop(procedure);
        return Ok(false);
    };
    let Forked { window, begun } = make_thread(alloc, window, procedure, threads)?;
    put_two(windows, thread.0 as usize, window, threads as usize, begun)
}

/// How the other thread ended comes into the window that joins it.
fn join(alloc: Global, window: &mut Window, kept: &Ending) -> Result<(), NoMemory>
    ensures { IfOk result (λ _. shown window.new ≡ with_focus (joined_focus (plain_ending kept.now)) (shown window.old)) }
{
    match kept {
        Ending::Returned(value) => {
            let value = value.copy(alloc)?;
            put(&mut window.focus, Focus::Value(value));
        }
        Ending::Failed(text) => {
            let text = text.copy(alloc)?;
            put(&mut window.focus, Focus::Raising(Raising::Exception(text)));
        }
    }
    Ok(())
}

fn joined(alloc: Global, mut window: Window, kept: &Ending) -> Result<Window, NoMemory>
    ensures { IfOk result (λ w. shown w ≡ with_focus (joined_focus (plain_ending kept.now)) (shown window)) }
{
    join(alloc, &mut window, kept)?;
    Ok(window)
}

fn join_with(
    alloc: Global,
    windows: &mut Vec<Option<Window>>,
    thread: ThreadId,
    kept: &Ending,
) -> Result<(), NoMemory>
    ensures { IfOk result (λ _. (w : Window) → at_place windows.old.items thread.0 ≡ Some w → Refocuses windows.old.items thread.0 (shown w) (joined_focus (plain_ending kept.now)) windows.new.items) }
{
    let Some(window) = take_at(windows, thread.0 as usize) else {
        return Ok(());
    };
    let window = joined(alloc, window, kept)?;
    put_at(windows, thread.0 as usize, window)
}

/// The thread joins another, if the ending of that is kept.
pub(crate) fn join_thread(
    alloc: Global,
    windows: &mut Vec<Option<Window>>,
    endings: &[Option<Ending>],
    thread: ThreadId,
    other: ThreadId,
) -> Result<bool, NoMemory>
    ensures { IfOk result (λ done. (w : Window) → at_place windows.old.items thread.0 ≡ Some w → Joins windows.old.items thread.0 (shown w) (kept_at endings.now other.0) done windows.new.items) }
{
    match look_at(endings, other.0 as usize) {
        None => Ok(false),
        Some(kept) => {
            join_with(alloc, windows, thread, kept)?;
            Ok(true)
        }
    }
}
