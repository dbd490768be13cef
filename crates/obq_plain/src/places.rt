//! Where operations are done.

ghost use Rattle.std.specs.Prelude.{IfOk, ◌≡◌};
ghost use Rattle.obq_links.specs.Places.{place_as};
ghost use Rattle.obq_model.specs.Located as model;
ghost use Rattle.obq_model.specs.Step as step;
ghost use Rattle.obq_model.specs.Store.{same_loc};
ghost use Rattle.obq_reduce.specs.Founds.{found_of, operation_of};

use obq_base::NoMemory;
use obq_find::find;
use obq_links::Place;
use obq_reduce::{Found, Operation};
use obq_terms::Term;
use std::alloc::Global;

/// The place of an operation.
pub(crate) fn place_of(operation: &Operation) -> Place
    ensures { place_as result ≡ model.place_of (operation_of operation.now) }
{
    match operation {
        Operation::Get { object, .. } => Place::AtCell(*object),
        Operation::CallMethod { object, .. } => Place::AtCell(*object),
        Operation::Leave { object, .. } => Place::AtCell(*object),
        Operation::Set { object, .. } => Place::AtCell(*object),
        Operation::Copy { object, .. } => Place::AtCell(*object),
        Operation::RedirectTo { object, .. } => Place::AtCell(*object),
        Operation::GetItem { array, .. } => Place::AtCell(*array),
        Operation::GetSize(array) => Place::AtCell(*array),
        Operation::EachSize { array, .. } => Place::AtCell(*array),
        Operation::EachItem { array, .. } => Place::AtCell(*array),
        Operation::SetItem { array, .. } => Place::AtCell(*array),
        Operation::ReadVariable(variable) => Place::AtCell(*variable),
        Operation::SetVariable { variable, .. } => Place::AtCell(*variable),
        Operation::Write { writer, .. } => Place::AtCell(*writer),
        Operation::JoinWith(thread) => Place::AtThread(*thread),
        Operation::LineUp { condition, .. } => Place::AtCell(*condition),
        Operation::GiveUp { object, .. } => Place::AtCell(*object),
        Operation::Again { object, .. } => Place::AtCell(*object),
        Operation::Signal(condition) => Place::AtCell(*condition),
        Operation::Broadcast(condition) => Place::AtCell(*condition),
        Operation::Export { .. } => Place::AtNames,
        Operation::Import { .. } => Place::AtNames,
        Operation::RunEngine { engine, .. } => Place::AtCell(*engine),
        Operation::New { .. } => Place::Here,
        Operation::ForkOff(_) => Place::Here,
    }
}

/// The place at which a thread goes on in which this is found.
fn place_in(found: &Found) -> Place
    ensures { place_as result ≡ model.place_in (found_of found.now) }
{
    match found {
        Found::Needs { operation, .. } => place_of(operation),
        _ => Place::Here,
    }
}

/// The place at which a term goes on.
pub(crate) fn place_next(alloc: Global, term: Term) -> Result<Place, NoMemory>
    ensures { IfOk result (λ place. place_as place ≡ model.place_in (step.find same_loc 0 step.no_self term)) }
{
    let found = find(term, alloc)?;
    let place = place_in(&found);
    drop(found);
    Ok(place)
}
