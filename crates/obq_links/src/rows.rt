//! The table of links.

ghost use Rattle.std.specs.Prelude.{IfOk, OnOk, ◌++◌, ◌≡◌};
ghost use Rattle.obq_model.specs.Located.{first_sites};
ghost use Rattle.obq_links.specs.Rows.{row_between, rows_among, rows_from, rows_of};

use crate::tallies::Tally;
use obq_base::NoMemory;
use std::alloc::Global;

/// How many requests and replies one site sent to another. The name server is the site after the last.
#[derive(Clone, Copy, Debug, PartialEq, Eq)]
pub struct LinkCount {
    pub from: u16,
    pub to: u16,
    pub requests: u64,
    pub replies: u64,
}

/// The row of two sites, where there is a message.
fn add_row(
    rows: &mut Vec<LinkCount>,
    requests: &Tally,
    replies: &Tally,
    from: u16,
    to: u16,
) -> Result<(), NoMemory>
    ensures { OnOk result (rows_of rows.new.items ≡ rows_of rows.old.items ++ row_between requests.now replies.now from to) }
{
    let requests = requests.count(from, to);
    let replies = replies.count(from, to);
    if requests == 0 && replies == 0 {
        return Ok(());
    }
    rows.push(LinkCount {
        from,
        to,
        requests,
        replies,
    })?;
    Ok(())
}

/// The rows from one site to each of so many.
#[tactic(auto, using(crate::proofs::FirstSites::no_site))]
fn add_rows(
    rows: &mut Vec<LinkCount>,
    requests: &Tally,
    replies: &Tally,
    from: u16,
    sites: u16,
) -> Result<(), NoMemory>
    ensures { OnOk result (rows_of rows.new.items ≡ rows_of rows.old.items ++ rows_from requests.now replies.now from (first_sites 0 sites)) }
{
    for to in 0..sites {
        add_row(rows, requests, replies, from, to)?;
    }
    Ok(())
}

/// The rows from each of so many sites to each.
#[tactic(auto, using(crate::proofs::FirstSites::no_site))]
pub(crate) fn all_rows(
    alloc: Global,
    requests: &Tally,
    replies: &Tally,
    sites: u16,
) -> Result<Vec<LinkCount>, NoMemory>
    ensures { IfOk result (λ rows. rows_of rows.items ≡ rows_among requests.now replies.now (first_sites 0 sites) (first_sites 0 sites)) }
{
    let mut rows = Vec::new(alloc);
    for from in 0..sites {
        add_rows(&mut rows, requests, replies, from, sites)?;
    }
    Ok(rows)
}
