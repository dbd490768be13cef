//! What an item assigns to.

ghost use Rattle.std.specs.Prelude.{◌≡◌, IfOk};
ghost use Rattle.obq_parts.specs.Targets.{Targets, assignment_of, set_field_of};

use crate::nodes::suffixed;
use crate::steps::take_name;
use obq_base::{Expr, FieldExpr, Item, Name, NoMemory, Suffix, Token};
use sqlite_items::Items;
use std::alloc::Global;

/// An operand and its suffixes.
#[derive(Drop)]
pub struct Chain {
    pub head: Expr,
    pub suffixes: Items<Suffix>,
}

/// A field of an object.
#[derive(Drop)]
pub struct FieldTarget {
    pub object: Chain,
    pub name: Name,
}

/// What takes a value.
#[derive(Drop)]
pub enum ValueTarget {
    Named(Name),
    Indexed(Chain, Expr),
}

/// What an item assigns to.
#[derive(Drop)]
pub enum Target {
    Field(FieldTarget),
    Value(ValueTarget),
    /// The item can't be assigned to.
    Fixed,
}

/// What the chain is as a target, where the item begins with these tokens.
pub fn target_of(alloc: Global, tokens: &[Token], chain: Chain) -> Result<Target, NoMemory>
    ensures { IfOk result (λ target. Targets tokens.now chain target) }
{
    let Chain { head, mut suffixes } = chain;
    match suffixes.pop() {
        Some(Suffix::Select { name, .. }) => Ok(Target::Field(FieldTarget {
            object: Chain { head, suffixes },
            name,
        })),
        Some(Suffix::Index { index, .. }) => Ok(Target::Value(ValueTarget::Indexed(
            Chain { head, suffixes },
            index,
        ))),
        Some(other) => {
            drop(head);
            drop(other);
            Ok(Target::Fixed)
        }
        None => {
            drop(head);
            match take_name(tokens) {
                Some((name, _, _)) => Ok(Target::Value(ValueTarget::Named(name.copy(alloc)?))),
                None => Ok(Target::Fixed),
            }
        }
    }
}

/// An item that assigns a value.
pub fn assignment(
    alloc: Global,
    target: ValueTarget,
    value: Expr,
    place: u32,
) -> Result<Item, NoMemory>
    ensures { IfOk result (λ item. item ≡ assignment_of target value place) }
{
    match target {
        ValueTarget::Named(name) => Ok(Item::Assign { name, value, place }),
        ValueTarget::Indexed(chain, index) => match suffixed(alloc, chain.head, chain.suffixes) {
            Ok(array) => Ok(Item::SetItem {
                array,
                index,
                value,
                place,
            }),
            Err(e) => {
                drop(index);
                drop(value);
                Err(e)
            }
        },
    }
}

/// An item that assigns to a field.
pub fn field_assignment(
    alloc: Global,
    target: FieldTarget,
    body: FieldExpr,
    place: u32,
) -> Result<Item, NoMemory>
    ensures { IfOk result (λ item. item ≡ set_field_of target body place) }
{
    let FieldTarget { object, name } = target;
    match suffixed(alloc, object.head, object.suffixes) {
        Ok(object) => Ok(Item::SetField {
            object,
            name,
            body,
            place,
        }),
        Err(e) => {
            drop(body);
            Err(e)
        }
    }
}
