//! The resolver.

ghost use Rattle.std.specs.Prelude.{◌≡◌, ◌<◌, ◌≤◌, ◌^◌, [], All, Contains, IfErr, IfOk, MatchOption, filter, not};
ghost use Rattle.obq_base.specs.View.{block_tree};
ghost use Rattle.obq_model.specs.Occurrences.{IsFirstUnbound, is_predefined, unbound};
ghost use Rattle.obq_scope.specs.Tabled.{Tables};
ghost use Rattle.obq_names.specs.Captures.{captures_block};
ghost use Rattle.obq_scope.specs.Refused.{IfUnbound};
ghost use Rattle.obq_scope.specs.Sizes.{size_block};

use crate::coder::Coder;
use crate::emit::emit_body;
use crate::emitter::Emitter;
use crate::output::Output;
use crate::refused::ScopeRefused;
use crate::slots::find_builtin;
use obq_base::{Block, Name, NoMemory, Occurrence, SourceCode};
use obq_names::{Names, find_names};
use sqlite_items::Items;
use std::alloc::Global;

/// Whether the name needs no binder.
fn is_predefined(occurrence: &Occurrence) -> bool
    ensures { result ≡ is_predefined occurrence.now }
{
    occurrence.name.as_bytes() == b"stdout".as_slice()
        || (occurrence.called && find_builtin(&occurrence.name).is_some())
}

/// Copies of the occurrences that aren't predefined.
fn keep_unbound(alloc: Global, found: &[Occurrence]) -> Result<Items<Occurrence>, NoMemory>
    ensures { IfOk result (λ kept. kept ≡ filter (λ o. not (is_predefined o)) found.now) }
{
    let mut kept = Items::new(alloc);
    for occurrence in found {
        if !is_predefined(occurrence) {
            let name = occurrence.name.copy(alloc)?;
            kept.push(Occurrence {
                name,
                place: occurrence.place,
                called: occurrence.called,
            })?;
        }
    }
    Ok(kept)
}

/// One with the least place.
fn find_first(found: &[Occurrence]) -> Option<&Occurrence>
    ensures { MatchOption result (found.now ≡ []) (λ o. Contains found.now o.now × All (λ u. o.now.place ≤ u.place) found.now) }
{
    found.iter().min_by_key(|o| o.place)
}

/// The first by place of the occurrences that are unbound.
fn find_unbound(alloc: Global, free: &[Occurrence]) -> Result<Option<Occurrence>, NoMemory>
    ensures { IfOk result (λ first. MatchOption first
        (filter (λ o. not (is_predefined o)) free.now ≡ [])
        (λ o. Contains (filter (λ u. not (is_predefined u)) free.now) o × All (λ u. o.place ≤ u.place) (filter (λ u. not (is_predefined u)) free.now))) }
{
    let kept = keep_unbound(alloc, free)?;
    match find_first(kept.as_slice()) {
        None => Ok(None),
        Some(first) => Ok(Some(Occurrence {
            name: first.name.copy(alloc)?,
            place: first.place,
            called: first.called,
        })),
    }
}

/// The code of a block without an unbound name, whose procedures capture these names.
fn make_code(
    alloc: Global,
    source: u16,
    block: &Block,
    captures: Items<Items<Name>>,
) -> Result<SourceCode, NoMemory>
    requires bound { unbound (block_tree block.now) ≡ [] }
    requires captured { captures ≡ captures_block [] (block_tree block.now) }
    requires small { size_block (block_tree block.now) < 2 ^ 32 }
    ensures { IfOk result (Tables source (block_tree block.now)) }
{
    let mut coder = Coder::new(alloc, source, captures);
    let main = emit_body(&mut coder, &[], block)?;
    let Coder { emitter, .. } = coder;
    let Emitter { output, .. } = emitter;
    let Output { codes, .. } = output;
    Ok(SourceCode {
        source,
        main,
        codes,
    })
}

/// The code of a source's block, or its first unbound name by place. A block of a source within the
/// limit is of such a size.
pub fn resolve(alloc: Global, source: u16, block: &Block) -> Result<SourceCode, ScopeRefused>
    requires { size_block (block_tree block.now) < 2 ^ 32 }
    ensures code { IfOk result (Tables source (block_tree block.now)) }
    ensures refused { IfErr result (λ why. IfUnbound why (IsFirstUnbound (block_tree block.now))) }
{
    let Names { free, captures } = find_names(alloc, block)?;
    match find_unbound(alloc, free.as_slice())? {
        None => Ok(make_code(alloc, source, block, captures)?),
        Some(Occurrence { name, place, .. }) => Err(ScopeRefused::Unbound { name, place }),
    }
}
