//! Command lines, and what they give.

use crate::rows::text_of;
use obq_words::{Order, SiteWord, read_words};
use std::alloc::{AllocError, Global};
use std::io;

/// The words of a line that has a space between each two; none where it is empty.
fn word_list(alloc: Global, line: &str) -> Result<Vec<String>, AllocError> {
    let mut list = Vec::new(alloc);
    if line.is_empty() {
        return Ok(list);
    }
    for word in line.split(' ') {
        list.push(String::from_str(alloc, word)?)?;
    }
    Ok(list)
}

/// Sites as text.
fn shown(alloc: Global, sites: &[SiteWord]) -> Result<String, AllocError> {
    let mut text = String::new(alloc);
    for (i, site) in sites.iter().enumerate() {
        if i > 0 {
            text.push_str(", ")?;
        }
        text.push_str(text_of(site.name.as_bytes()))?;
        text.push_str(" at ")?;
        text.push_str(site.path.as_str())?;
    }
    Ok(text)
}

/// What a run prints behind its output.
fn extras(journal: bool, links: bool) -> &'static str {
    match (journal, links) {
        (false, false) => "",
        (true, false) => ", journal",
        (false, true) => ", links",
        (true, true) => ", journal, links",
    }
}

fn print_run(
    rt: &impl Print,
    line: &str,
    turns: u32,
    workers: u32,
    extras: &str,
    sites: &str,
) -> io::Result<()> {
    println!(rt; "{line}  =>  run, {turns} turns, {workers} workers{extras}: {sites}")
}

fn print_check(rt: &impl Print, line: &str, sites: &str) -> io::Result<()> {
    println!(rt; "{line}  =>  check: {sites}")
}

fn print_replay(rt: &impl Print, line: &str, from: &str, sites: &str) -> io::Result<()> {
    println!(rt; "{line}  =>  replay from {from}: {sites}")
}

/// Prints what a line asks for behind it.
fn print_order(rt: &impl Print, alloc: Global, line: &str, order: Order) -> io::Result<()> {
    match order {
        Order::Run {
            turns,
            workers,
            journal,
            links,
            sites,
        } => print_run(
            rt,
            line,
            turns,
            workers,
            extras(journal, links),
            &shown(alloc, &sites)?,
        ),
        Order::Check { sites } => print_check(rt, line, &shown(alloc, &sites)?),
        Order::Replay { from, sites } => {
            print_replay(rt, line, from.as_str(), &shown(alloc, &sites)?)
        }
    }
}

/// Lines, with what the words of each give.
pub fn print_lines(rt: &impl Print, alloc: Global, lines: &str) -> io::Result<()> {
    for line in lines.trim_end_matches('\n').split('\n') {
        let words = word_list(alloc, line)?;
        match read_words(alloc, &words) {
            Ok(order) => print_order(rt, alloc, line, order)?,
            Err(refused) => println!(rt; "{line}  =>  {refused:?}")?,
        }
    }
    Ok(())
}
