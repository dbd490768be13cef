//! The table of links of a journal.

ghost use Rattle.std.specs.Prelude.{IfOk, length, map, option_map, ◌≡◌, ◌≤◌};
ghost use Rattle.obq_base.specs.View.{block_tree};
ghost use Rattle.obq_links.specs.Rows.{rows_in, rows_of};
ghost use Rattle.obq_model.specs.Located.{links, located_replay};
ghost use Rattle.obq_links.specs.Sited.{first_sited};
ghost use Rattle.obq_plain.specs.Following.{all_asked, opened_plain};

use crate::following::Following;
use crate::plain::PlainRun;
use obq_base::{Block, Entry, NoMemory};
use obq_links::{LinkCount, Sites};
use std::alloc::Global;

/// The table of links of a run that goes no further: threads that wait have sent their requests.
fn rows_at_end(alloc: Global, following: Following) -> Result<Vec<LinkCount>, NoMemory>
    ensures { IfOk result (λ rows. rows_of rows.items ≡ rows_in (all_asked following.run.turns following.run.config 0 following.run.config.threads following.sites)) }
{
    let Following { run, sites } = following;
    let mut sites = sites;
    run.machine().ask_all(alloc, run.turns(), &mut sites)?;
    sites.links(alloc)
}

/// What a program of these blocks opens as, with its sites.
fn opened(alloc: Global, blocks: &[Block], turns: u32) -> Result<Following, NoMemory>
    requires { length blocks.now ≤ 16 }
    ensures run { IfOk result (λ f. f.run ≡ opened_plain (map block_tree blocks.now) turns) }
    ensures sites { IfOk result (λ f. f.sites ≡ first_sited (length blocks.now)) }
{
    let run = PlainRun::begin(alloc, blocks, turns)?;
    let sites = Sites::begin(alloc, blocks.len() as u16)?;
    Ok(Following { run, sites })
}

/// How many requests and replies went from each site to each in the run that a journal tells of a program of these blocks, block k at site k: a row for each
/// ordered pair of sites between which there was one, the name server last. None exactly where the journal doesn't replay. What 64 bits don't count is told as
/// want of memory.
pub fn links_of(
    alloc: Global,
    blocks: &[Block],
    turns: u32,
    entries: &[Entry],
) -> Result<Option<Vec<LinkCount>>, NoMemory>
    requires { length blocks.now ≤ 16 }
    ensures { IfOk result (λ rows. option_map (λ table. rows_of table.items) rows ≡ option_map (links (length blocks.now)) (located_replay (map block_tree blocks.now) turns entries.now)) }
{
    let mut following = opened(alloc, blocks, turns)?;
    if !following.take_all(alloc, entries)? {
        drop(following);
        return Ok(None);
    }
    let rows = rows_at_end(alloc, following)?;
    Ok(Some(rows))
}
