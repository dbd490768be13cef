//! How many activations there are in a term.

ghost use Rattle.std.specs.Prelude.{IfOk, ◌+◌, ◌≡◌};
ghost use Rattle.obq_model.specs.Located as model;
ghost use Rattle.obq_model.specs.Step.{activations_in};
ghost use Rattle.obq_model.specs.Terms as terms;
ghost use Rattle.obq_plain.specs.Activations.{activations_among};
ghost use Rattle.obq_terms.specs.Values.{kind_of};

use obq_base::NoMemory;
use obq_terms::{Form, Kind, Node, Term};

/// The sum; one that 64 bits don't hold is told as want of memory.
fn added(one: u64, other: u64) -> Result<u64, NoMemory>
    ensures { IfOk result (λ sum. sum ≡ one + other) }
{
    match one.checked_add(other) {
        Some(sum) => Ok(sum),
        None => Err(NoMemory),
    }
}

/// The activations of a form of this kind with so many in its parts.
fn activations_in(kind: &Kind, inside: u64) -> Result<u64, NoMemory>
    ensures { IfOk result (λ count. count ≡ activations_in inside (kind_of kind.now)) }
{
    match kind {
        Kind::Called => added(inside, 1),
        Kind::Within { .. } => added(inside, 1),
        _ => Ok(inside),
    }
}

/// The activations in several terms.
#[cycle(activations)]
fn activations_among(terms: &[Term]) -> Result<u64, NoMemory>
    ensures { IfOk result (λ count. count ≡ activations_among terms.now) }
{
    let mut count = 0;
    for term in terms {
        let more = activations_of(term)?;
        count = added(count, more)?;
    }
    Ok(count)
}

/// The activations in a term.
#[cycle(activations)]
pub(crate) fn activations_of(term: &Term) -> Result<u64, NoMemory>
    ensures { IfOk result (λ count. count ≡ model.activations_of term.now) }
{
    match &term.node {
        Node::Constant(_) => Ok(0),
        Node::Name(_) => Ok(0),
        Node::Under { .. } => Ok(0),
        Node::Form { kind, rest, .. } => {
            let inside = activations_among(rest.as_slice())?;
            activations_in(kind, inside)
        }
        Node::Shared(form) => activations_of_form(form.get()),
    }
}

#[cycle(activations)]
fn activations_of_form(form: &Form) -> Result<u64, NoMemory>
    ensures { IfOk result (λ count. count ≡ model.activations_of (terms.Form form.now.0 form.now.1)) }
{
    let inside = activations_among(form.rest.as_slice())?;
    activations_in(&form.kind, inside)
}
