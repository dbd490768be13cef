//! How many messages went from each site to each.

ghost use Rattle.std.specs.Prelude.{IfOk, OnOk, replicate, slice_index_or, ◌≡◌};
ghost use Rattle.obq_links.specs.Tables.{count_at, counted, counted_to, no_messages, with_message};

use obq_base::NoMemory;
use std::alloc::Global;
use std::marker::Model;

/// How many messages went from one site to each.
#[derive(Drop)]
struct Row {
    counts: Vec<u64>,
}

impl Model for Row {
    ghost use Rattle.std.specs.Prelude.{List, ℕ};

    ghost Value = { List ℕ };

    ghost view = { λ r. r.counts.items };
}

impl Row {
    /// No message to each of so many sites.
    fn new(alloc: Global, sites: u16) -> Result<Row, NoMemory>
        ensures { IfOk result (λ r. r ≡ replicate sites 0) }
    {
        let mut counts = Vec::new(alloc);
        for _ in 0..sites {
            counts.push(0)?;
        }
        Ok(Row { counts })
    }

    /// One message more to this site, if it is there.
    fn send(&mut self, to: u16) -> Result<(), NoMemory>
        ensures { OnOk result (self.new ≡ counted_to to self.old) }
    {
        let to = usize::from(to);
        if to < self.counts.len() {
            let Some(more) = self.counts[to].checked_add(1) else {
                return Err(NoMemory);
            };
            self.counts[to] = more;
        }
        Ok(())
    }

    /// How many messages went to this site.
    fn count(&self, to: u16) -> u64
        ensures { result ≡ slice_index_or self.now to 0 }
    {
        match self.counts.get(usize::from(to)) {
            Some(count) => *count,
            None => 0,
        }
    }
}

/// How many messages went from each site to each. Contracts see a row of numbers for each site.
#[derive(Drop)]
pub(crate) struct Tally {
    rows: Vec<Row>,
}

impl Model for Tally {
    ghost use Rattle.std.specs.Prelude.{List, ℕ};

    ghost Value = { List (List ℕ) };

    ghost view = { λ t. t.rows.items };
}

impl Tally {
    /// No message between so many sites.
    pub fn new(alloc: Global, sites: u16) -> Result<Tally, NoMemory>
        ensures { IfOk result (λ t. t ≡ no_messages sites) }
    {
        let mut rows = Vec::new(alloc);
        for _ in 0..sites {
            rows.push(Row::new(alloc, sites)?)?;
        }
        Ok(Tally { rows })
    }

    /// One message more between two of the sites.
    fn count_in(&mut self, from: u16, to: u16) -> Result<(), NoMemory>
        ensures { OnOk result (self.new ≡ counted from to self.old) }
    {
        let from = usize::from(from);
        if from < self.rows.len() {
            self.rows[from].send(to)?;
        }
        Ok(())
    }

    /// One message more, where the sites differ. A number that 64 bits don't hold is told as want of memory.
    pub fn send(&mut self, from: u16, to: u16) -> Result<(), NoMemory>
        ensures { OnOk result (self.new ≡ with_message from to self.old) }
    {
        if from == to {
            return Ok(());
        }
        self.count_in(from, to)
    }

    /// How many messages went from this site to that one.
    pub fn count(&self, from: u16, to: u16) -> u64
        ensures { result ≡ count_at from to self.now }
    {
        match self.rows.get(usize::from(from)) {
            Some(row) => row.count(to),
            None => 0,
        }
    }
}
