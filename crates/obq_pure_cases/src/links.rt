//! The table of links of a run by the plain machine, in which the first thread that is able goes first, each with its pure steps up to
//! its act.

ghost use Rattle.std.specs.Prelude.{length, ◌≤◌};

use obq_base::{Block, Entry, NoMemory};
use obq_links::LinkCount;
use obq_plain::{PlainRun, TakeRefused, links_of};
use std::alloc::{AllocError, Global};

/// The next entry of the first thread that is able, once it is taken.
fn next_entry(alloc: Global, run: &mut PlainRun) -> Result<Option<Entry>, NoMemory> {
    let Some(entry) = run.next_entry(alloc, 0, 1000)? else {
        return Ok(None);
    };
    match run.take(alloc, entry) {
        Ok(()) => Ok(Some(entry)),
        Err(TakeRefused::NotLegal { .. }) => Ok(None),
        Err(TakeRefused::NoMemory) => Err(NoMemory),
    }
}

/// The journal of a run, of a thousand entries at most.
fn journal_of(alloc: Global, blocks: &[Block], turns: u32) -> Result<Vec<Entry>, NoMemory>
    requires { length blocks.now ≤ 16 }
{
    let mut run = PlainRun::begin(alloc, blocks, turns)?;
    let mut entries = Vec::new(alloc);
    for _ in 0..1000 {
        match next_entry(alloc, &mut run)? {
            Some(entry) => entries.push(entry)?,
            None => break,
        }
    }
    Ok(entries)
}

/// A letter for a site, and a star for the name server.
fn site_name(site: u16, sites: usize) -> char {
    if usize::from(site) >= sites {
        return '*';
    }
    match site {
        0 => 'A',
        1 => 'B',
        _ => '?',
    }
}

fn show_row(out: &mut String, row: LinkCount, sites: usize) -> Result<(), AllocError> {
    let from = site_name(row.from, sites);
    let to = site_name(row.to, sites);
    write!(out, " {from} -> {to} {}/{};", row.requests, row.replies)
}

fn show_rows(out: &mut String, rows: &[LinkCount], sites: usize) -> Result<(), AllocError> {
    for row in rows {
        show_row(out, *row, sites)?;
    }
    Ok(())
}

/// Runs these blocks, and shows how many requests and replies went from each site to each.
pub fn run(alloc: Global, blocks: &[Block], turns: u32, out: &mut String) -> Result<(), NoMemory> {
    if blocks.len() > 16 {
        return Ok(());
    }
    let entries = journal_of(alloc, blocks, turns)?;
    match links_of(alloc, blocks, turns, entries.as_slice())? {
        Some(rows) => show_rows(out, rows.as_slice(), blocks.len())?,
        None => out.push_str("not legal")?,
    }
    Ok(())
}
