//! Programs of several sources: their names, trees and codes.

ghost use Rattle.std.specs.Prelude.{◌≤◌, IfOk, length};

use crate::rows::text_of;
use obq_base::limits::SOURCE_LIMIT;
use obq_base::{Code, CodeNo, Name, Node, Slot};
use obq_code::Codes;
use obq_front::{FrontRefused, Program, Source, front};
use std::alloc::{AllocError, Global};
use std::io;

type Shown = Result<(), AllocError>;

/// Numbers of codes from this one on aren't asked for.
const ASKED: u32 = 20;

/// The source of a site of this name; what is past the limit is left out.
fn source_of(alloc: Global, name: &[u8], text: &[u8]) -> Result<Source, AllocError>
    ensures { IfOk result (λ s. length s.bytes.items ≤ SOURCE_LIMIT) }
{
    let mut bytes = Vec::from_slice(alloc, text)?;
    bytes.truncate(SOURCE_LIMIT);
    Ok(Source {
        name: Name::new(Vec::from_slice(alloc, name)?),
        bytes,
    })
}

fn show_slot(out: &mut String, slot: Slot) -> Shown {
    match slot {
        Slot::Local(k) => write!(out, "local {k}"),
        Slot::Captured(k) => write!(out, "captured {k}"),
        Slot::Member(k) => write!(out, "member {k}"),
        Slot::Stdout(source) => write!(out, "stdout {source}"),
    }
}

fn show_captured(out: &mut String, from: &[Slot]) -> Shown {
    out.push('(')?;
    for (i, slot) in from.iter().enumerate() {
        if i > 0 {
            out.push_str(", ")?;
        }
        show_slot(out, *slot)?;
    }
    out.push(')')
}

fn show_number(out: &mut String, number: CodeNo) -> Shown {
    let CodeNo { source, n } = number;
    write!(out, " {source}.{n}")
}

fn show_numbers(out: &mut String, numbers: &[CodeNo]) -> Shown {
    for number in numbers {
        show_number(out, *number)?;
    }
    Ok(())
}

/// A node that has slots.
fn show_node(out: &mut String, node: &Node) -> Shown {
    match node {
        Node::Use { slot } => {
            out.push_str(" use ")?;
            show_slot(out, *slot)
        }
        Node::Assign { slot } => {
            out.push_str(" set ")?;
            show_slot(out, *slot)
        }
        Node::Proc { code, from } => {
            out.push_str(" proc")?;
            show_number(out, *code)?;
            show_captured(out, from.as_slice())
        }
        Node::Meth { code, from } => {
            out.push_str(" meth")?;
            show_number(out, *code)?;
            show_captured(out, from.as_slice())
        }
        Node::LetRec { codes, from } => {
            out.push_str(" rec")?;
            show_numbers(out, codes.as_slice())?;
            show_captured(out, from.as_slice())
        }
        _ => Ok(()),
    }
}

/// The nodes of a code that have slots.
fn shown_code(alloc: Global, code: &Code) -> Result<String, AllocError> {
    let mut out = String::new(alloc);
    for node in code.nodes.as_slice() {
        show_node(&mut out, node)?;
    }
    Ok(out)
}

/// The slots in each code of source 3.
fn print_codes(rt: &impl Print, alloc: Global, codes: &Codes) -> io::Result<()> {
    let main = codes.main(3);
    for n in 0..ASKED {
        let number = CodeNo { source: 3, n };
        if let Some(code) = codes.get(number) {
            let name = if main == Some(number) { "main" } else { "code" };
            let slots = shown_code(alloc, code)?;
            println!(rt; "    {name} 3.{n}:{slots}")?;
        }
    }
    Ok(())
}

/// The slots of this text as source 3, where the sources before it are empty.
fn print_source(rt: &impl Print, alloc: Global, text: &[u8]) -> io::Result<()> {
    let sources = [
        source_of(alloc, b"A", b"")?,
        source_of(alloc, b"B", b"")?,
        source_of(alloc, b"C", b"")?,
        source_of(alloc, b"D", text)?,
    ];
    match front(alloc, &sources) {
        Ok(program) => print_codes(rt, alloc, &program.codes),
        Err(refused) => println!(rt; "    {refused:?}"),
    }
}

/// Sources, a line each, with the slots of their codes. Each is source 3.
pub fn print_slots(rt: &impl Print, alloc: Global, rows: &str) -> io::Result<()> {
    for row in rows.trim_end_matches('\n').split('\n') {
        rt.println(row)?;
        print_source(rt, alloc, row.as_bytes())?;
    }
    Ok(())
}

/// Prints the names of a program, how many items each of its blocks has, and which of the first codes there are.
fn print_program(rt: &impl Print, program: &Program) -> io::Result<()> {
    let names = program.names.len();
    let blocks = program.blocks.len();
    println!(rt; "    {names} names, {blocks} blocks")?;
    for name in program.names.as_slice() {
        let name = text_of(name.as_bytes());
        println!(rt; "    name {name}")?;
    }
    for block in program.blocks.as_slice() {
        let items = block.items.len();
        println!(rt; "    block of {items} items")?;
    }
    for (source, n) in [(0, 0), (0, 1), (0, 2), (1, 0), (1, 1), (2, 0)] {
        let is_there = program.codes.get(CodeNo { source, n }).is_some();
        println!(rt; "    code {source}.{n}: {is_there}")?;
    }
    Ok(())
}

fn print_front(rt: &impl Print, made: &Result<Program, FrontRefused>) -> io::Result<()> {
    match made {
        Ok(program) => print_program(rt, program),
        Err(refused) => println!(rt; "    {refused:?}"),
    }
}

/// The program of no source, and that of two.
pub fn print_programs(rt: &impl Print, alloc: Global) -> io::Result<()> {
    rt.println("no source")?;
    print_front(rt, &front(alloc, &[]))?;
    rt.println("A: proc() 1 end; 2 and Bee: 1; 2; 3")?;
    let sources = [
        source_of(alloc, b"A", b"proc() 1 end; 2")?,
        source_of(alloc, b"Bee", b"1; 2; 3")?,
    ];
    print_front(rt, &front(alloc, &sources))
}
