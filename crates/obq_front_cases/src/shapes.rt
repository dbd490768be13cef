//! The shapes of syntax trees: every node with its place, lists in order. What is still to be shown stands on a stack, so no
//! function here calls itself.

use crate::rows::{bytes_of, text_of};
use obq_base::limits::SOURCE_LIMIT;
use obq_base::{
    Arm, Bind, Block, Expr, Field, FieldExpr, Flags, Item, Link, Name, Operator, Proc, RecBind,
    Suffix,
};
use obq_lex::lex;
use obq_parse::parse;
use std::alloc::{AllocError, Global};
use std::io;

type Shown = Result<(), AllocError>;

/// So many parts of a tree are shown at most.
const SHOWN: u32 = 10_000;

/// What is still to be shown.
#[derive(Clone, Copy)]
enum Part<'a> {
    Word(&'a str),
    /// `@` and a place
    At(u32),
    Int(i64),
    Truth(bool),
    Block(&'a Block),
    Items(&'a [Item]),
    Binds(&'a [Bind]),
    RecBinds(&'a [RecBind]),
    Proc(&'a Proc),
    Names(&'a [Name]),
    Body(&'a FieldExpr),
    Expr(&'a Expr),
    /// With commas between.
    Exprs(&'a [Expr]),
    Arms(&'a [Arm]),
    Last(&'a Option<Block>),
    Flags(&'a Flags),
    Fields(&'a [Field]),
    Links(&'a [Link]),
    Suffixes(&'a [Suffix]),
}

/// Puts parts before what is still to be shown.
fn put<'a>(rest: &mut Vec<Part<'a>>, parts: &[Part<'a>]) -> Shown {
    for part in parts.iter().rev() {
        rest.push(*part)?;
    }
    Ok(())
}

fn word(name: &Name) -> Part<'_> {
    Part::Word(text_of(name.as_bytes()))
}

/// What stands before the rest of a list.
fn comma(is_last: bool) -> Part<'static> {
    Part::Word(if is_last { "" } else { ", " })
}

fn put_item<'a>(rest: &mut Vec<Part<'a>>, item: &'a Item) -> Shown {
    match item {
        Item::Let { binds, place } => put(
            rest,
            &[
                Part::Word("let"),
                Part::At(*place),
                Part::Binds(binds.as_slice()),
            ],
        ),
        Item::Var { binds, place } => put(
            rest,
            &[
                Part::Word("var"),
                Part::At(*place),
                Part::Binds(binds.as_slice()),
            ],
        ),
        Item::LetRec { binds, place } => put(
            rest,
            &[
                Part::Word("rec"),
                Part::At(*place),
                Part::RecBinds(binds.as_slice()),
            ],
        ),
        Item::Assign { name, value, place } => put(
            rest,
            &[
                Part::Word("set "),
                word(name),
                Part::At(*place),
                Part::Word(" := "),
                Part::Expr(value),
            ],
        ),
        Item::SetField {
            object,
            name,
            body,
            place,
        } => put(
            rest,
            &[
                Part::Word("field"),
                Part::At(*place),
                Part::Word(" "),
                Part::Expr(object),
                Part::Word("."),
                word(name),
                Part::Word(" := "),
                Part::Body(body),
            ],
        ),
        Item::SetItem {
            array,
            index,
            value,
            place,
        } => put(
            rest,
            &[
                Part::Word("item"),
                Part::At(*place),
                Part::Word(" "),
                Part::Expr(array),
                Part::Word("["),
                Part::Expr(index),
                Part::Word("] := "),
                Part::Expr(value),
            ],
        ),
        Item::Plain(value) => put(rest, &[Part::Expr(value)]),
    }
}

fn put_items<'a>(rest: &mut Vec<Part<'a>>, items: &'a [Item]) -> Shown {
    let Some((item, more)) = items.split_first() else {
        return Ok(());
    };
    if !more.is_empty() {
        put(rest, &[Part::Word("; "), Part::Items(more)])?;
    }
    put_item(rest, item)
}

fn put_binds<'a>(rest: &mut Vec<Part<'a>>, binds: &'a [Bind]) -> Shown {
    let Some((bind, more)) = binds.split_first() else {
        return Ok(());
    };
    put(
        rest,
        &[
            Part::Word(" "),
            word(&bind.name),
            Part::At(bind.place),
            Part::Word("="),
            Part::Expr(&bind.value),
            Part::Binds(more),
        ],
    )
}

fn put_rec_binds<'a>(rest: &mut Vec<Part<'a>>, binds: &'a [RecBind]) -> Shown {
    let Some((bind, more)) = binds.split_first() else {
        return Ok(());
    };
    put(
        rest,
        &[
            Part::Word(" "),
            word(&bind.name),
            Part::At(bind.place),
            Part::Word("="),
            Part::Proc(&bind.procedure),
            Part::RecBinds(more),
        ],
    )
}

fn put_names<'a>(rest: &mut Vec<Part<'a>>, names: &'a [Name]) -> Shown {
    let Some((name, more)) = names.split_first() else {
        return Ok(());
    };
    put(
        rest,
        &[word(name), comma(more.is_empty()), Part::Names(more)],
    )
}

fn put_proc<'a>(rest: &mut Vec<Part<'a>>, procedure: &'a Proc) -> Shown {
    put(
        rest,
        &[
            Part::Word("proc"),
            Part::At(procedure.place),
            Part::Word("("),
            Part::Names(procedure.parameters.as_slice()),
            Part::Word(")"),
            Part::Block(&procedure.body),
        ],
    )
}

fn put_body<'a>(rest: &mut Vec<Part<'a>>, body: &'a FieldExpr) -> Shown {
    match body {
        FieldExpr::Value(value) => put(rest, &[Part::Expr(value)]),
        FieldExpr::Method(method) => put(rest, &[Part::Word("method "), Part::Proc(method)]),
        FieldExpr::Alias {
            name,
            target,
            place,
        } => put(
            rest,
            &[
                Part::Word("alias"),
                Part::At(*place),
                Part::Word(" "),
                word(name),
                Part::Word(" of "),
                Part::Expr(target),
            ],
        ),
    }
}

fn put_exprs<'a>(rest: &mut Vec<Part<'a>>, values: &'a [Expr]) -> Shown {
    let Some((value, more)) = values.split_first() else {
        return Ok(());
    };
    put(
        rest,
        &[Part::Expr(value), comma(more.is_empty()), Part::Exprs(more)],
    )
}

fn put_arms<'a>(rest: &mut Vec<Part<'a>>, arms: &'a [Arm]) -> Shown {
    let Some((arm, more)) = arms.split_first() else {
        return Ok(());
    };
    put(
        rest,
        &[
            Part::Word(" "),
            Part::Expr(&arm.test),
            Part::Word(" -> "),
            Part::Block(&arm.body),
            Part::Arms(more),
        ],
    )
}

fn put_last<'a>(rest: &mut Vec<Part<'a>>, last: &'a Option<Block>) -> Shown {
    match last {
        Some(block) => put(rest, &[Part::Word(" else "), Part::Block(block)]),
        None => Ok(()),
    }
}

fn put_flags(rest: &mut Vec<Part<'_>>, flags: &Flags) -> Shown {
    if flags.serialized {
        put(rest, &[Part::Word("serialized ")])?;
    }
    if flags.protected {
        put(rest, &[Part::Word("protected ")])?;
    }
    Ok(())
}

fn put_fields<'a>(rest: &mut Vec<Part<'a>>, fields: &'a [Field]) -> Shown {
    let Some((field, more)) = fields.split_first() else {
        return Ok(());
    };
    put(
        rest,
        &[
            word(&field.name),
            Part::At(field.place),
            Part::Word(" => "),
            Part::Body(&field.body),
            comma(more.is_empty()),
            Part::Fields(more),
        ],
    )
}

fn put_suffix<'a>(rest: &mut Vec<Part<'a>>, suffix: &'a Suffix) -> Shown {
    match suffix {
        Suffix::Apply { arguments, place } => put(
            rest,
            &[
                Part::Word(" call"),
                Part::At(*place),
                Part::Word("("),
                Part::Exprs(arguments.as_slice()),
                Part::Word(")"),
            ],
        ),
        Suffix::Select { name, place } => {
            put(rest, &[Part::Word(" ."), word(name), Part::At(*place)])
        }
        Suffix::Invoke {
            name,
            arguments,
            place,
        } => put(
            rest,
            &[
                Part::Word(" ."),
                word(name),
                Part::At(*place),
                Part::Word("("),
                Part::Exprs(arguments.as_slice()),
                Part::Word(")"),
            ],
        ),
        Suffix::Index { index, place } => put(
            rest,
            &[
                Part::Word(" at"),
                Part::At(*place),
                Part::Word(" "),
                Part::Expr(index),
            ],
        ),
    }
}

fn put_suffixes<'a>(rest: &mut Vec<Part<'a>>, suffixes: &'a [Suffix]) -> Shown {
    let Some((suffix, more)) = suffixes.split_first() else {
        return Ok(());
    };
    put(rest, &[Part::Suffixes(more)])?;
    put_suffix(rest, suffix)
}

fn operator_text(operator: Operator) -> &'static str {
    match operator {
        Operator::Orif => "orif",
        Operator::Andif => "andif",
        Operator::Is => "is",
        Operator::IsNot => "isnot",
        Operator::Less => "<",
        Operator::LessEqual => "<=",
        Operator::Greater => ">",
        Operator::GreaterEqual => ">=",
        Operator::Add => "+",
        Operator::Subtract => "-",
        Operator::Join => "&",
        Operator::Multiply => "*",
        Operator::Divide => "/",
        Operator::Remainder => "%",
    }
}

fn put_links<'a>(rest: &mut Vec<Part<'a>>, links: &'a [Link]) -> Shown {
    let Some((link, more)) = links.split_first() else {
        return Ok(());
    };
    let operator = Part::Word(operator_text(link.operator));
    put(
        rest,
        &[
            Part::Word(" "),
            operator,
            Part::At(link.place),
            Part::Word(" "),
            Part::Expr(&link.operand),
            Part::Links(more),
        ],
    )
}

/// The expressions that hold other blocks.
fn put_statement<'a>(rest: &mut Vec<Part<'a>>, expr: &'a Expr) -> Shown {
    match expr {
        Expr::If { arms, last, place } => put(
            rest,
            &[
                Part::Word("if"),
                Part::At(*place),
                Part::Arms(arms.as_slice()),
                Part::Last(last),
            ],
        ),
        Expr::Loop { body, place } => put(
            rest,
            &[
                Part::Word("loop"),
                Part::At(*place),
                Part::Word(" "),
                Part::Block(body),
            ],
        ),
        Expr::For {
            name,
            from,
            to,
            body,
            place,
        } => put(
            rest,
            &[
                Part::Word("for"),
                Part::At(*place),
                Part::Word(" "),
                word(name),
                Part::Word(" "),
                Part::Expr(from.get()),
                Part::Word(" "),
                Part::Expr(to.get()),
                Part::Word(" "),
                Part::Block(body),
            ],
        ),
        Expr::Foreach {
            name,
            array,
            body,
            place,
        } => put(
            rest,
            &[
                Part::Word("foreach"),
                Part::At(*place),
                Part::Word(" "),
                word(name),
                Part::Word(" "),
                Part::Expr(array.get()),
                Part::Word(" "),
                Part::Block(body),
            ],
        ),
        Expr::Try {
            body,
            arms,
            last,
            place,
        } => put(
            rest,
            &[
                Part::Word("try"),
                Part::At(*place),
                Part::Word(" "),
                Part::Block(body),
                Part::Arms(arms.as_slice()),
                Part::Last(last),
            ],
        ),
        Expr::Finally { body, last, place } => put(
            rest,
            &[
                Part::Word("finally"),
                Part::At(*place),
                Part::Word(" "),
                Part::Block(body),
                Part::Word(" "),
                Part::Block(last),
            ],
        ),
        _ => put(rest, &[Part::Word("?")]),
    }
}

/// The expressions that are words with operands.
fn put_operation<'a>(rest: &mut Vec<Part<'a>>, expr: &'a Expr) -> Shown {
    match expr {
        Expr::Exit { place } => put(rest, &[Part::Word("exit"), Part::At(*place)]),
        Expr::Raise { value, place } => put(
            rest,
            &[
                Part::Word("raise"),
                Part::At(*place),
                Part::Word(" "),
                Part::Expr(value.get()),
            ],
        ),
        Expr::Watch {
            condition,
            guard,
            place,
        } => put(
            rest,
            &[
                Part::Word("watch"),
                Part::At(*place),
                Part::Word(" "),
                Part::Expr(condition.get()),
                Part::Word(" "),
                Part::Expr(guard.get()),
            ],
        ),
        Expr::Redirect {
            object,
            target,
            place,
        } => put(
            rest,
            &[
                Part::Word("redirect"),
                Part::At(*place),
                Part::Word(" "),
                Part::Expr(object.get()),
                Part::Word(" "),
                Part::Expr(target.get()),
            ],
        ),
        Expr::Clone { objects, place } => put(
            rest,
            &[
                Part::Word("clone"),
                Part::At(*place),
                Part::Word("("),
                Part::Exprs(objects.as_slice()),
                Part::Word(")"),
            ],
        ),
        _ => put_statement(rest, expr),
    }
}

/// The expressions that hold lists.
fn put_list<'a>(rest: &mut Vec<Part<'a>>, expr: &'a Expr) -> Shown {
    match expr {
        Expr::Array { items, place } => put(
            rest,
            &[
                Part::Word("array"),
                Part::At(*place),
                Part::Word("("),
                Part::Exprs(items.as_slice()),
                Part::Word(")"),
            ],
        ),
        Expr::Object {
            flags,
            fields,
            place,
        } => put(
            rest,
            &[
                Part::Word("object"),
                Part::At(*place),
                Part::Word("{"),
                Part::Flags(flags),
                Part::Fields(fields.as_slice()),
                Part::Word("}"),
            ],
        ),
        Expr::Chain { first, links } => put(
            rest,
            &[
                Part::Word("["),
                Part::Expr(first.get()),
                Part::Links(links.as_slice()),
                Part::Word("]"),
            ],
        ),
        Expr::Suffixed { head, suffixes } => put(
            rest,
            &[
                Part::Word("<"),
                Part::Expr(head.get()),
                Part::Suffixes(suffixes.as_slice()),
                Part::Word(">"),
            ],
        ),
        _ => put_operation(rest, expr),
    }
}

fn put_expr<'a>(rest: &mut Vec<Part<'a>>, expr: &'a Expr) -> Shown {
    match expr {
        Expr::Int { value, place } => put(rest, &[Part::Int(*value), Part::At(*place)]),
        Expr::Str { text, place } => put(
            rest,
            &[
                Part::Word("\""),
                Part::Word(text_of(text.as_bytes())),
                Part::Word("\""),
                Part::At(*place),
            ],
        ),
        Expr::Truth { value, place } => put(rest, &[Part::Truth(*value), Part::At(*place)]),
        Expr::Okay { place } => put(rest, &[Part::Word("ok"), Part::At(*place)]),
        Expr::Use { name, place } => put(rest, &[word(name), Part::At(*place)]),
        Expr::Procedure(procedure) => put(rest, &[Part::Proc(procedure.get())]),
        _ => put_list(rest, expr),
    }
}

/// Puts what a part consists of before what is still to be shown.
fn put_part<'a>(rest: &mut Vec<Part<'a>>, part: Part<'a>) -> Shown {
    match part {
        Part::Block(block) => put(
            rest,
            &[
                Part::Word("do("),
                Part::Items(block.items.as_slice()),
                Part::Word(")"),
                Part::At(block.place),
            ],
        ),
        Part::Items(items) => put_items(rest, items),
        Part::Binds(binds) => put_binds(rest, binds),
        Part::RecBinds(binds) => put_rec_binds(rest, binds),
        Part::Proc(procedure) => put_proc(rest, procedure),
        Part::Names(names) => put_names(rest, names),
        Part::Body(body) => put_body(rest, body),
        Part::Expr(expr) => put_expr(rest, expr),
        Part::Exprs(values) => put_exprs(rest, values),
        Part::Arms(arms) => put_arms(rest, arms),
        Part::Last(last) => put_last(rest, last),
        Part::Flags(flags) => put_flags(rest, flags),
        Part::Fields(fields) => put_fields(rest, fields),
        Part::Links(links) => put_links(rest, links),
        Part::Suffixes(suffixes) => put_suffixes(rest, suffixes),
        _ => Ok(()),
    }
}

/// Writes a part that is a word or a number, and takes any other apart.
fn show_part<'a>(out: &mut String, rest: &mut Vec<Part<'a>>, part: Part<'a>) -> Shown {
    match part {
        Part::Word(word) => out.push_str(word),
        Part::At(place) => write!(out, "@{place}"),
        Part::Int(value) => write!(out, "{value}"),
        Part::Truth(value) => write!(out, "{value}"),
        _ => put_part(rest, part),
    }
}

fn show_block(alloc: Global, out: &mut String, block: &Block) -> Shown {
    let mut rest = Vec::new(alloc);
    rest.push(Part::Block(block))?;
    for _ in 0..SHOWN {
        match rest.pop() {
            Some(part) => show_part(out, &mut rest, part)?,
            None => return Ok(()),
        }
    }
    out.push_str("..")
}

/// The shape of the tree of a source.
fn shape_of(alloc: Global, source: &[u8]) -> Result<String, AllocError> {
    let mut out = String::new(alloc);
    if source.len() > SOURCE_LIMIT {
        return Ok(out);
    }
    let Ok(tokens) = lex(alloc, source) else {
        out.push_str("no tokens")?;
        return Ok(out);
    };
    match parse(alloc, &tokens) {
        Ok(tree) => show_block(alloc, &mut out, &tree)?,
        Err(_) => out.push_str("no tree")?,
    }
    Ok(out)
}

/// Sources, a line each, with the shape of the tree of each.
pub fn print_sources(rt: &impl Print, alloc: Global, rows: &str) -> io::Result<()> {
    for row in rows.trim_end_matches('\n').split('\n') {
        let shape = shape_of(alloc, &bytes_of(alloc, row)?)?;
        println!(rt; "{row}  =>  {shape}")?;
    }
    Ok(())
}
