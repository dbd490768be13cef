//! The act that an operation will be, told without doing it.

ghost use Rattle.std.specs.Prelude.{None, Some, option_map, ℕ, ◌≡◌};
ghost use Rattle.obq_model.specs.Cells as cells;
ghost use Rattle.obq_model.specs.Config.{cell_at};
ghost use Rattle.obq_model.specs.Effect as model;
ghost use Rattle.obq_model.specs.OneCell as one;
ghost use Rattle.obq_model.specs.Step as step;
ghost use Rattle.obq_model.specs.Store.{field};
ghost use Rattle.obq_reduce.specs.Founds.{operation_of};
ghost use Rattle.obq_store.specs.Cells.{cell_of, object_of, self_of};
ghost use Rattle.obq_store.specs.Stores.{store_of};
ghost use Rattle.obq_terms.specs.Values.{body_of, fields_of, value_of};
ghost use Rattle.obq_plain.specs.Ahead.{act_at, act_of, clear_fields, hop_or, is_alias_field, is_array, is_condition, is_variable, is_writer, kind_ahead, kind_if, object_kind};
ghost use Rattle.obq_plain.specs.Threads.{config_of};

use crate::performing::cell_named;
use crate::threads::{Execution, ThreadState};
use obq_base::limits::THREAD_LIMIT;
use obq_base::{Act, ActKind, Name, Text};
use obq_reduce::Operation;
use obq_store::{Cell, CurrentSelf, Store, field_named};
use obq_terms::{Field, FieldBody, Term, Value};

/// Whether the field with this name is an alias.
fn follows(fields: &[Field], name: &Name) -> bool
    ensures { result ≡ is_alias_field (field name.now (fields_of fields.now)) }
{
    match field_named(fields, name.as_bytes()) {
        Some(body) => is_alias(body),
        None => false,
    }
}

fn is_alias(body: &FieldBody) -> bool
    ensures { result ≡ cells.is_alias (body_of body.now) }
{
    match body {
        FieldBody::Alias { .. } => true,
        FieldBody::Value(_) | FieldBody::Method(_) => false,
    }
}

/// A Hop where an alias is followed.
fn hop_if(kind: ActKind, follows: bool) -> ActKind
    ensures { result ≡ hop_or kind follows }
{
    if follows {
        return ActKind::Hop;
    }
    kind
}

/// The kind of an operation on an object that is clear.
fn object_kind(operation: &Operation, fields: &[Field]) -> ActKind
    ensures { result ≡ object_kind (operation_of operation.now) (fields_of fields.now) }
{
    match operation {
        Operation::Get { name, .. } => hop_if(ActKind::Get, follows(fields, name)),
        Operation::CallMethod { name, .. } => hop_if(ActKind::Call, follows(fields, name)),
        Operation::Set { name, body, .. } => {
            let hops = follows(fields, name) && !is_alias(body);
            hop_if(ActKind::Set, hops)
        }
        Operation::Copy { .. } => ActKind::Copy,
        _ => ActKind::Redirect,
    }
}

/// The kind of an operation on an object; none where the object isn't clear.
fn on_object(
    current: CurrentSelf,
    operation: &Operation,
    number: u32,
    cell: &Cell,
) -> Option<ActKind>
    ensures { result ≡ option_map (object_kind (operation_of operation.now)) (clear_fields (self_of current) number (Some (cell_of cell.now))) }
{
    let Cell::Object(object) = cell else {
        return None;
    };
    if !current.is_clear(number, object.flags, object.owner) {
        return None;
    }
    Some(object_kind(operation, object.fields.as_slice()))
}

/// This kind, where the cell is one for it.
fn kind_where(kind: ActKind, fits: bool) -> Option<ActKind>
    ensures { result ≡ kind_if kind fits }
{
    if fits {
        return Some(kind);
    }
    None
}

fn is_array(cell: &Cell) -> bool
    ensures { result ≡ is_array (Some (cell_of cell.now)) }
{
    matches!(cell, Cell::Array(_))
}

fn is_variable(cell: &Cell) -> bool
    ensures { result ≡ is_variable (Some (cell_of cell.now)) }
{
    matches!(cell, Cell::Variable(_))
}

fn is_writer(cell: &Cell) -> bool
    ensures { result ≡ is_writer (Some (cell_of cell.now)) }
{
    matches!(cell, Cell::Writer(_))
}

fn is_condition(cell: &Cell) -> bool
    ensures { result ≡ is_condition (Some (cell_of cell.now)) }
{
    matches!(cell, Cell::Condition(_))
}

/// The kind of an operation on the single cell that it names; none where it waits.
fn kind_ahead(current: CurrentSelf, operation: &Operation, cell: &Cell) -> Option<ActKind>
    ensures { result ≡ kind_ahead (self_of current) (operation_of operation.now) (Some (cell_of cell.now)) }
{
    match operation {
        Operation::Get { object, .. } => on_object(current, operation, *object, cell),
        Operation::CallMethod { object, .. } => on_object(current, operation, *object, cell),
        Operation::Set { object, .. } => on_object(current, operation, *object, cell),
        Operation::Copy { object, .. } => on_object(current, operation, *object, cell),
        Operation::RedirectTo { object, .. } => on_object(current, operation, *object, cell),
        Operation::Leave { .. } => Some(ActKind::Leave),
        Operation::GetItem { .. } => Some(ActKind::ArrayGet),
        Operation::GetSize(_) => Some(ActKind::ArrayGet),
        Operation::EachSize { .. } => Some(ActKind::ArrayGet),
        Operation::EachItem { .. } => Some(ActKind::ArrayGet),
        Operation::SetItem { .. } => kind_where(ActKind::ArraySet, is_array(cell)),
        Operation::ReadVariable(_) => Some(ActKind::VarGet),
        Operation::SetVariable { .. } => kind_where(ActKind::VarSet, is_variable(cell)),
        Operation::Write { .. } => kind_where(ActKind::Put, is_writer(cell)),
        Operation::LineUp { .. } => kind_where(ActKind::Line, is_condition(cell)),
        Operation::GiveUp { .. } => Some(ActKind::GiveUp),
        Operation::Signal(_) => kind_where(ActKind::Signal, is_condition(cell)),
        Operation::Broadcast(_) => kind_where(ActKind::Broadcast, is_condition(cell)),
        Operation::RunEngine { .. } => Some(ActKind::Engine),
        _ => None,
    }
}

/// The kind of an operation on the cell with this number, as on an engine where there is none.
#[tactic(auto, using(crate::proofs::Foreseen::no_cell_ahead))]
fn kind_at(
    store: &Store,
    current: CurrentSelf,
    operation: &Operation,
    number: u32,
) -> Option<ActKind>
    ensures { result ≡ kind_ahead (self_of current) (operation_of operation.now) (cell_at (store_of store.now) number) }
{
    match store.cell(number) {
        Some(cell) => kind_ahead(current, operation, cell),
        None => kind_ahead(current, operation, &Cell::Engine(Value::Okay)),
    }
}

/// The act of this kind at the cell with this number, if there is one.
fn at(number: u32, kind: Option<ActKind>) -> Option<Act>
    ensures { result ≡ option_map (act_at number) kind }
{
    let loc = u64::from(number);
    match kind {
        Some(kind) => Some(Act { kind, loc }),
        None => None,
    }
}

/// The act of an operation on the single cell that it names.
fn named_ahead(
    store: &Store,
    threads: &[ThreadState],
    thread: u32,
    current: CurrentSelf,
    operation: &Operation,
    number: u32,
) -> Option<Act>
    requires { one.cell_of (operation_of operation.now) ≡ Some number }
    ensures { result ≡ act_of (model.perform (config_of store.now threads.now) thread (self_of current) (operation_of operation.now)) }
{
    let kind = kind_at(store, current, operation, number);
    at(number, kind)
}

/// A thread is made; its number is 64 where there is no room for one.
fn fork_ahead(store: &Store, threads: &[ThreadState], closure: &Value) -> Act
    ensures { (t : ℕ) (s : step.Self ℕ) → Some result ≡ act_of (model.perform (config_of store.now threads.now) t s (step.ForkOff (value_of closure.now))) }
{
    let kind = ActKind::Fork;
    let count = threads.len();
    if count >= THREAD_LIMIT as usize {
        return Act {
            kind,
            loc: u64::from(THREAD_LIMIT),
        };
    }
    Act {
        kind,
        loc: count as u64,
    }
}

/// A thread's ending is taken, once there is one.
fn join_ahead(store: &Store, threads: &[ThreadState], number: u32) -> Option<Act>
    ensures { (t : ℕ) (s : step.Self ℕ) → result ≡ act_of (model.perform (config_of store.now threads.now) t s (step.JoinWith number)) }
{
    let state = threads.get(number as usize)?;
    let kind = ActKind::Join;
    let loc = u64::from(number);
    match &state.execution {
        Execution::Running(_) => None,
        Execution::Returned(_) => Some(Act { kind, loc }),
        Execution::Failed(_) => Some(Act { kind, loc }),
    }
}

/// Whether the cell with this number is an object whose mutex is free.
fn is_free(store: &Store, number: u32) -> bool
    ensures { result ≡ cells.is_free (cell_at (store_of store.now) number) }
{
    match store.cell(number) {
        Some(Cell::Object(object)) => object.owner.is_none(),
        _ => false,
    }
}

/// A mutex is taken again, once it is free and the thread isn't in line.
fn again_ahead(
    store: &Store,
    threads: &[ThreadState],
    thread: u32,
    object: u32,
    condition: u32,
    guard: &Term,
) -> Option<Act>
    ensures { (s : step.Self ℕ) → result ≡ act_of (model.perform (config_of store.now threads.now) thread s (step.Again object condition guard.now)) }
{
    if store.is_lined(thread, condition) || !is_free(store, object) {
        return None;
    }
    Some(Act {
        kind: ActKind::Again,
        loc: u64::from(object),
    })
}

/// A name is read, once it is there.
fn import_ahead(store: &Store, threads: &[ThreadState], name: &Text, engine: bool) -> Option<Act>
    ensures { (t : ℕ) (s : step.Self ℕ) → result ≡ act_of (model.perform (config_of store.now threads.now) t s (step.Import name.now engine)) }
{
    store.exported(name)?;
    Some(Act {
        kind: ActKind::Import,
        loc: 0,
    })
}

/// The act of an operation that names no single cell.
fn elsewhere_ahead(
    store: &Store,
    threads: &[ThreadState],
    thread: u32,
    operation: &Operation,
) -> Option<Act>
    requires { one.cell_of (operation_of operation.now) ≡ None }
    ensures { (s : step.Self ℕ) → result ≡ act_of (model.perform (config_of store.now threads.now) thread s (operation_of operation.now)) }
{
    match operation {
        Operation::New { .. } => Some(Act {
            kind: ActKind::New,
            loc: store.len() as u64,
        }),
        Operation::Again {
            object,
            condition,
            guard,
        } => again_ahead(store, threads, thread, *object, *condition, guard),
        Operation::Export { .. } => Some(Act {
            kind: ActKind::Export,
            loc: 0,
        }),
        Operation::Import { name, engine } => import_ahead(store, threads, name, *engine),
        Operation::ForkOff(closure) => Some(fork_ahead(store, threads, closure)),
        Operation::JoinWith(number) => join_ahead(store, threads, *number),
        _ => None,
    }
}

/// The act that the operation at the focus of a thread will be; none where it waits.
pub fn act_ahead(
    store: &Store,
    threads: &[ThreadState],
    thread: u32,
    current: CurrentSelf,
    operation: &Operation,
) -> Option<Act>
    ensures { result ≡ act_of (model.perform (config_of store.now threads.now) thread (self_of current) (operation_of operation.now)) }
{
    match cell_named(operation) {
        Some(number) => named_ahead(store, threads, thread, current, operation, number),
        None => elsewhere_ahead(store, threads, thread, operation),
    }
}
