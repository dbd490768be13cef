//! The node that a tree begins with.

ghost use Rattle.std.specs.Prelude.{◌≡◌, IfOk, OnOk};
ghost use Rattle.obq_base.specs.View.{expr_tree, item_tree, suffix_tree, suffix_trees};
ghost use Rattle.obq_model.specs.Draft.{call_node, called_row};
ghost use Rattle.obq_scope.specs.Coders.{after};
ghost use Rattle.obq_scope.specs.Heads.{expr_head, item_head, suffix_head, suffix_nodes, with_head};
ghost use Rattle.obq_scope.specs.Outsides.{outside_of};

use crate::coder::Coder;
use crate::counts::{
    arms_in, binds_in, names_in, operators_in, suffixes_behind, suffixes_in, values_in,
};
use crate::slots::{find_row, find_slot};
use obq_base::{Expr, Item, NoMemory, Node, Suffix};

/// Pushes the node that an item begins with, where it has one.
pub fn push_item_head(coder: &mut Coder, item: &Item) -> Result<(), NoMemory>
    ensures { OnOk result (coder.new ≡ after (λ o locals. with_head (item_head o locals (item_tree item.now))) coder.old) }
{
    match item {
        Item::Let { binds, .. } => coder.push(Node::Let {
            count: binds_in(binds.as_slice()),
        }),
        Item::Var { binds, .. } => coder.push(Node::Var {
            count: binds_in(binds.as_slice()),
        }),
        Item::LetRec { .. } | Item::Plain(_) => Ok(()),
        Item::Assign { name, .. } => {
            let slot = find_slot(&coder.outside, &coder.locals, name);
            coder.push(Node::Assign { slot })
        }
        Item::SetField { name, .. } => {
            let name = name.copy(coder.alloc)?;
            coder.push(Node::SetField { name })
        }
        Item::SetItem { .. } => coder.push(Node::SetItem),
    }
}

/// The row of the built-in that such a head and suffixes call.
pub fn find_called(coder: &Coder, head: &Expr, suffixes: &[Suffix]) -> Option<u32>
    ensures { result ≡ called_row (outside_of coder.now.outside) coder.now.locals (expr_tree head.now) (suffix_trees suffixes.now) }
{
    find_row(&coder.outside, &coder.locals, head, suffixes)
}

/// How many suffixes have nodes of their own.
fn suffix_nodes(coder: &Coder, head: &Expr, suffixes: &[Suffix]) -> u32
    ensures { result ≡ suffix_nodes (called_row (outside_of coder.now.outside) coder.now.locals (expr_tree head.now) (suffix_trees suffixes.now)) (suffix_trees suffixes.now) }
{
    match find_called(coder, head, suffixes) {
        None => suffixes_in(suffixes),
        Some(_) => suffixes_behind(suffixes),
    }
}

/// Pushes the node that an expression begins with, where it has one.
pub fn push_head(coder: &mut Coder, value: &Expr) -> Result<(), NoMemory>
    ensures { OnOk result (coder.new ≡ after (λ o locals. with_head (expr_head o locals (expr_tree value.now))) coder.old) }
{
    match value {
        Expr::Int { value, .. } => coder.push(Node::Int { value: *value }),
        Expr::Str { text, .. } => {
            let bytes = text.copy(coder.alloc)?;
            coder.push(Node::Str { bytes })
        }
        Expr::Truth { value, .. } => coder.push(Node::Truth { value: *value }),
        Expr::Okay { .. } => coder.push(Node::Okay),
        Expr::Use { name, .. } => {
            let slot = find_slot(&coder.outside, &coder.locals, name);
            coder.push(Node::Use { slot })
        }
        Expr::Procedure(_) => Ok(()),
        Expr::Array { items, .. } => coder.push(Node::Array {
            items: values_in(items.as_slice()),
        }),
        Expr::Object { flags, fields, .. } => {
            let names = names_in(coder.alloc, fields.as_slice())?;
            coder.push(Node::Object {
                flags: *flags,
                names,
            })
        }
        Expr::If { arms, last, .. } => coder.push(Node::If {
            arms: arms_in(arms.as_slice()),
            last: last.is_some(),
        }),
        Expr::Loop { .. } => coder.push(Node::Loop),
        Expr::Exit { .. } => coder.push(Node::Exit),
        Expr::For { .. } => coder.push(Node::For),
        Expr::Foreach { .. } => coder.push(Node::Foreach),
        Expr::Try { arms, last, .. } => coder.push(Node::Try {
            guards: arms_in(arms.as_slice()),
            last: last.is_some(),
        }),
        Expr::Finally { .. } => coder.push(Node::Finally),
        Expr::Raise { .. } => coder.push(Node::Raise),
        Expr::Watch { .. } => coder.push(Node::Watch),
        Expr::Redirect { .. } => coder.push(Node::Redirect),
        Expr::Clone { objects, .. } => coder.push(Node::Clone {
            items: values_in(objects.as_slice()),
        }),
        Expr::Chain { links, .. } => {
            let operators = operators_in(coder.alloc, links.as_slice())?;
            coder.push(Node::Chain { operators })
        }
        Expr::Suffixed { head, suffixes } => coder.push(Node::Suffixes {
            count: suffix_nodes(coder, head.get(), suffixes.as_slice()),
        }),
    }
}

/// A call with so many arguments, of a built-in or of what stands before it.
fn call_node(row: Option<u32>, args: u32) -> Node
    ensures { result ≡ call_node row args }
{
    match row {
        None => Node::Apply { args },
        Some(row) => Node::Builtin { row, args },
    }
}

/// Pushes the node that a suffix begins with. The row is that of the built-in that it calls, if it
/// calls one.
pub fn push_suffix_head(
    coder: &mut Coder,
    row: Option<u32>,
    suffix: &Suffix,
) -> Result<(), NoMemory>
    ensures { OnOk result (coder.new ≡ after (λ o locals. with_head (suffix_head row (suffix_tree suffix.now))) coder.old) }
{
    match suffix {
        Suffix::Apply { arguments, .. } => {
            let args = values_in(arguments.as_slice());
            coder.push(call_node(row, args))
        }
        Suffix::Select { name, .. } => {
            let name = name.copy(coder.alloc)?;
            coder.push(Node::Select { name })
        }
        Suffix::Invoke {
            name,
            arguments,
            ..
        } => {
            let name = name.copy(coder.alloc)?;
            coder.push(Node::Invoke {
                name,
                args: values_in(arguments.as_slice()),
            })
        }
        Suffix::Index { .. } => coder.push(Node::Index),
    }
}
