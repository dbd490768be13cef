//! The table of links behind an output, where it is asked for.

ghost use Rattle.std.specs.Prelude.{◌≡◌, ◌≤◌, ◌++◌, ◌∷◌, [], IfOk, OnOk, codes, length, map, slice_index_or};
ghost use Rattle.std.specs.List.{flat_map};
ghost use Rattle.obq_base.specs.View.{block_tree};
ghost use Rattle.obq_journal.specs.Recording.{shown};
ghost use Rattle.obq_links.specs.Rows.{link_as, rows_of};
ghost use Rattle.obq_model.specs.Output.{link_line, link_name};
ghost use Rattle.obq_run.specs.Linked.{counts_text, link_rows, links_part, rows_text};
ghost use Rattle.obq_words.specs.Words.{names_of};

use itoa::Buffer;
use obq_base::{Block, NoMemory};
use obq_journal::Journal;
use obq_links::LinkCount;
use obq_plain::links_of;
use obq_words::SiteWord;
use std::alloc::Global;

/// The rows of the table of a run of these blocks, which had this journal; none where the table isn't wanted.
pub fn link_rows(
    alloc: Global,
    wanted: bool,
    blocks: &[Block],
    journal: &Journal,
) -> Result<Vec<LinkCount>, NoMemory>
    requires { length blocks.now ≤ 16 }
    ensures { IfOk result (λ rows. rows_of rows.items ≡ link_rows wanted (map block_tree blocks.now) (shown journal.now)) }
{
    if !wanted {
        return Ok(Vec::new(alloc));
    }
    match links_of(alloc, blocks, journal.turns(), journal.entries())? {
        Some(rows) => Ok(rows),
        None => Ok(Vec::new(alloc)),
    }
}

/// The name of a site of the table, of which the last is the name server.
fn link_name(sites: &[SiteWord], site: u16) -> &[u8]
    ensures { result.now ≡ link_name (names_of sites.now) site }
{
    let site = site as usize;
    if site < sites.len() {
        return sites[site].name.as_bytes();
    }
    if site == sites.len() {
        return b"*";
    }
    &[]
}

/// Appends how many requests and replies there are, and the end of a line.
fn write_counts(text: &mut Vec<u8>, requests: u64, replies: u64) -> Result<(), NoMemory>
    ensures { OnOk result (text.new.items ≡ text.old.items ++ counts_text requests replies) }
{
    let mut number = Buffer::new();
    text.extend_from_slice(b" requests ")?;
    text.extend_from_slice(number.format(requests).as_bytes())?;
    text.extend_from_slice(b" replies ")?;
    text.extend_from_slice(number.format(replies).as_bytes())?;
    text.extend_from_slice(b"\n")?;
    Ok(())
}

/// Appends the line of a row.
fn write_link(text: &mut Vec<u8>, sites: &[SiteWord], row: LinkCount) -> Result<(), NoMemory>
    ensures { OnOk result (text.new.items ≡ text.old.items ++ link_line (names_of sites.now) (link_as row)) }
{
    text.extend_from_slice(link_name(sites, row.from))?;
    text.extend_from_slice(b" -> ")?;
    text.extend_from_slice(link_name(sites, row.to))?;
    write_counts(text, row.requests, row.replies)
}

/// Appends the lines of these rows.
fn write_rows(text: &mut Vec<u8>, sites: &[SiteWord], rows: &[LinkCount]) -> Result<(), NoMemory>
    ensures { OnOk result (text.new.items ≡ text.old.items ++ rows_text (names_of sites.now) rows.now) }
{
    for row in rows {
        write_link(text, sites, *row)?;
    }
    Ok(())
}

/// The text of the table, where it is wanted.
#[tactic(auto, using(crate::proofs::Linked::rows_text_is))]
pub fn links_part(
    alloc: Global,
    wanted: bool,
    sites: &[SiteWord],
    rows: &[LinkCount],
) -> Result<Vec<u8>, NoMemory>
    ensures { IfOk result (λ text. text.items ≡ links_part wanted (names_of sites.now) (rows_of rows.now)) }
{
    if !wanted {
        return Ok(Vec::new(alloc));
    }
    let mut text = Vec::from_slice(alloc, b"== links ==\n")?;
    write_rows(&mut text, sites, rows)?;
    Ok(text)
}
