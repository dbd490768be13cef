//! How many parts a tree has.

ghost use Rattle.std.specs.Prelude.{◌≡◌, IfOk, length};
ghost use Rattle.obq_base.specs.View.{arm_trees, bind_trees, expr_trees, field_trees, item_trees, link_trees, suffix_trees};
ghost use Rattle.obq_model.specs.Draft.{behind_first, count_arms, count_binds, count_exprs, count_items, count_suffixes, field_names, operators_of};
ghost use Rattle.obq_scope.specs.Narrowed.{narrowed};

use crate::slots::narrowed;
use obq_base::{Arm, Bind, Expr, Field, Item, Link, Name, NoMemory, Operator, Suffix};
use sqlite_items::Items;
use std::alloc::Global;

fn length_of<T>(items: &[T]) -> u32
    ensures { result ≡ narrowed (length items.now) }
{
    narrowed(items.len())
}

pub fn items_in(items: &[Item]) -> u32
    ensures { result ≡ narrowed (count_items (item_trees items.now)) }
{
    length_of(items)
}

pub fn binds_in(binds: &[Bind]) -> u32
    ensures { result ≡ narrowed (count_binds (bind_trees binds.now)) }
{
    length_of(binds)
}

pub fn values_in(values: &[Expr]) -> u32
    ensures { result ≡ narrowed (count_exprs (expr_trees values.now)) }
{
    length_of(values)
}

pub fn arms_in(arms: &[Arm]) -> u32
    ensures { result ≡ narrowed (count_arms (arm_trees arms.now)) }
{
    length_of(arms)
}

pub fn suffixes_in(suffixes: &[Suffix]) -> u32
    ensures { result ≡ narrowed (count_suffixes (suffix_trees suffixes.now)) }
{
    length_of(suffixes)
}

/// How many suffixes stand behind the first.
#[tactic(auto, unfolding(crate::specs::Narrowed::narrowed))]
pub fn suffixes_behind(suffixes: &[Suffix]) -> u32
    ensures { result ≡ narrowed (count_suffixes (behind_first (suffix_trees suffixes.now))) }
{
    match suffixes.split_first() {
        None => 0,
        Some((_, behind)) => suffixes_in(behind),
    }
}

/// The operators of a chain.
pub fn operators_in(alloc: Global, links: &[Link]) -> Result<Items<Operator>, NoMemory>
    ensures { IfOk result (λ operators. operators ≡ operators_of (link_trees links.now)) }
{
    let mut operators = Items::new(alloc);
    for link in links {
        operators.push(link.operator)?;
    }
    Ok(operators)
}

/// The names of an object's fields.
pub fn names_in(alloc: Global, fields: &[Field]) -> Result<Items<Name>, NoMemory>
    ensures { IfOk result (λ names. names ≡ field_names (field_trees fields.now)) }
{
    let mut names = Items::new(alloc);
    for field in fields {
        names.push(field.name.copy(alloc)?)?;
    }
    Ok(names)
}
