//! The nodes of a tree from their parts.

ghost use Rattle.std.specs.Prelude.{◌≡◌, ◌∷◌, IfOk};
ghost use Rattle.obq_model.specs.Nodes as node;

use obq_base::{
    Arm, Bind, Block, Expr, Field, FieldExpr, Flags, Link, Name, NoMemory, Proc, RecBind, Suffix,
};
use sqlite_items::{Boxed, Items};
use std::alloc::Global;

/// An item, and those behind it.
pub fn front<T: Drop>(alloc: Global, first: T, more: Items<T>) -> Result<Items<T>, NoMemory>
    ensures { IfOk result (λ all. all ≡ first ∷ more) }
{
    let mut all = Items::new(alloc);
    all.push(first)?;
    all.append(more)?;
    Ok(all)
}

/// An operand with what is done to it; no node where nothing is.
pub fn suffixed(alloc: Global, head: Expr, suffixes: Items<Suffix>) -> Result<Expr, NoMemory>
    ensures { IfOk result (λ e. e ≡ node.suffixed head suffixes) }
{
    if suffixes.is_empty() {
        return Ok(head);
    }
    Ok(Expr::Suffixed {
        head: Boxed::new(alloc, head)?,
        suffixes,
    })
}

/// Operands joined by operators; no node where there is one operand alone.
pub fn chained(alloc: Global, first: Expr, links: Items<Link>) -> Result<Expr, NoMemory>
    ensures { IfOk result (λ e. e ≡ node.chained first links) }
{
    if links.is_empty() {
        return Ok(first);
    }
    Ok(Expr::Chain {
        first: Boxed::new(alloc, first)?,
        links,
    })
}

pub fn procedure_node(alloc: Global, procedure: Proc) -> Result<Expr, NoMemory>
    ensures { IfOk result (λ e. e ≡ Expr.Procedure procedure) }
{
    Ok(Expr::Procedure(Boxed::new(alloc, procedure)?))
}

pub fn array_node(items: Items<Expr>, place: u32) -> Expr
    ensures { result ≡ Expr.Array items place }
{
    Expr::Array { items, place }
}

pub fn object_node(flags: Flags, fields: Items<Field>, place: u32) -> Expr
    ensures { result ≡ Expr.Object flags fields place }
{
    Expr::Object {
        flags,
        fields,
        place,
    }
}

pub fn if_node(arms: Items<Arm>, last: Option<Block>, place: u32) -> Expr
    ensures { result ≡ Expr.If arms last place }
{
    Expr::If { arms, last, place }
}

pub fn loop_node(body: Block, place: u32) -> Expr
    ensures { result ≡ Expr.Loop body place }
{
    Expr::Loop { body, place }
}

/// The name is copied.
pub fn for_node(
    alloc: Global,
    name: &Name,
    from: Expr,
    to: Expr,
    body: Block,
    place: u32,
) -> Result<Expr, NoMemory>
    ensures { IfOk result (λ e. e ≡ Expr.For name.now from to body place) }
{
    let from = Boxed::new(alloc, from);
    let to = Boxed::new(alloc, to);
    Ok(Expr::For {
        name: name.copy(alloc)?,
        from: from?,
        to: to?,
        body,
        place,
    })
}

/// The name is copied.
pub fn foreach_node(
    alloc: Global,
    name: &Name,
    array: Expr,
    body: Block,
    place: u32,
) -> Result<Expr, NoMemory>
    ensures { IfOk result (λ e. e ≡ Expr.Foreach name.now array body place) }
{
    let array = Boxed::new(alloc, array)?;
    Ok(Expr::Foreach {
        name: name.copy(alloc)?,
        array,
        body,
        place,
    })
}

pub fn try_node(body: Block, arms: Items<Arm>, last: Option<Block>, place: u32) -> Expr
    ensures { result ≡ Expr.Try body arms last place }
{
    Expr::Try {
        body,
        arms,
        last,
        place,
    }
}

pub fn finally_node(body: Block, last: Block, place: u32) -> Expr
    ensures { result ≡ Expr.Finally body last place }
{
    Expr::Finally { body, last, place }
}

pub fn raise_node(alloc: Global, value: Expr, place: u32) -> Result<Expr, NoMemory>
    ensures { IfOk result (λ e. e ≡ Expr.Raise value place) }
{
    Ok(Expr::Raise {
        value: Boxed::new(alloc, value)?,
        place,
    })
}

pub fn watch_node(alloc: Global, condition: Expr, guard: Expr, place: u32) -> Result<Expr, NoMemory>
    ensures { IfOk result (λ e. e ≡ Expr.Watch condition guard place) }
{
    let condition = Boxed::new(alloc, condition);
    let guard = Boxed::new(alloc, guard);
    Ok(Expr::Watch {
        condition: condition?,
        guard: guard?,
        place,
    })
}

pub fn redirect_node(
    alloc: Global,
    object: Expr,
    target: Expr,
    place: u32,
) -> Result<Expr, NoMemory>
    ensures { IfOk result (λ e. e ≡ Expr.Redirect object target place) }
{
    let object = Boxed::new(alloc, object);
    let target = Boxed::new(alloc, target);
    Ok(Expr::Redirect {
        object: object?,
        target: target?,
        place,
    })
}

pub fn clone_node(objects: Items<Expr>, place: u32) -> Expr
    ensures { result ≡ Expr.Clone objects place }
{
    Expr::Clone { objects, place }
}

/// The name is copied.
pub fn bind_node(alloc: Global, name: &Name, value: Expr, place: u32) -> Result<Bind, NoMemory>
    ensures { IfOk result (λ b. b ≡ node.bind name.now value place) }
{
    match name.copy(alloc) {
        Ok(name) => Ok(Bind { name, value, place }),
        Err(e) => {
            drop(value);
            Err(e)
        }
    }
}

/// The name is copied.
pub fn rec_bind_node(
    alloc: Global,
    name: &Name,
    procedure: Proc,
    place: u32,
) -> Result<RecBind, NoMemory>
    ensures { IfOk result (λ b. b ≡ node.rec_bind name.now procedure place) }
{
    Ok(RecBind {
        name: name.copy(alloc)?,
        procedure,
        place,
    })
}

/// The name is copied.
pub fn field_node(
    alloc: Global,
    name: &Name,
    body: FieldExpr,
    place: u32,
) -> Result<Field, NoMemory>
    ensures { IfOk result (λ f. f ≡ node.field name.now body place) }
{
    match name.copy(alloc) {
        Ok(name) => Ok(Field { name, body, place }),
        Err(e) => {
            drop(body);
            Err(e)
        }
    }
}

pub fn value_node(value: Expr) -> FieldExpr
    ensures { result ≡ FieldExpr.Value value }
{
    FieldExpr::Value(value)
}

pub fn method_node(procedure: Proc) -> FieldExpr
    ensures { result ≡ FieldExpr.Method procedure }
{
    FieldExpr::Method(procedure)
}

/// The name is copied.
pub fn alias_node(
    alloc: Global,
    name: &Name,
    target: Expr,
    place: u32,
) -> Result<FieldExpr, NoMemory>
    ensures { IfOk result (λ b. b ≡ FieldExpr.Alias name.now target place) }
{
    match name.copy(alloc) {
        Ok(name) => Ok(FieldExpr::Alias {
            name,
            target,
            place,
        }),
        Err(e) => {
            drop(target);
            Err(e)
        }
    }
}

/// The name is copied.
pub fn selection(alloc: Global, name: &Name, place: u32) -> Result<Suffix, NoMemory>
    ensures { IfOk result (λ s. s ≡ Suffix.Select name.now place) }
{
    Ok(Suffix::Select {
        name: name.copy(alloc)?,
        place,
    })
}

/// The name is copied.
pub fn invocation(
    alloc: Global,
    name: &Name,
    arguments: Items<Expr>,
    place: u32,
) -> Result<Suffix, NoMemory>
    ensures { IfOk result (λ s. s ≡ Suffix.Invoke name.now arguments place) }
{
    Ok(Suffix::Invoke {
        name: name.copy(alloc)?,
        arguments,
        place,
    })
}

pub fn application(arguments: Items<Expr>, place: u32) -> Suffix
    ensures { result ≡ Suffix.Apply arguments place }
{
    Suffix::Apply { arguments, place }
}

pub fn index_node(index: Expr, place: u32) -> Suffix
    ensures { result ≡ Suffix.Index index place }
{
    Suffix::Index { index, place }
}
