//! The sites of cells, threads and activations, and the messages so far.

ghost use Rattle.std.specs.Prelude.{IfOk, OnOk, [], map, ◌-◌, ◌<◌, ◌^◌, ◌≡◌, ◌∷◌};
ghost use Rattle.obq_model.specs.Located.{first_sites, home_of, site_here};
ghost use Rattle.obq_links.specs.Places.{place_as};
ghost use Rattle.obq_links.specs.Rows.{rows_in, rows_of};
ghost use Rattle.obq_links.specs.Sited.{Trailed, acted, asked, first_sited, site_in, trail_in, turned_at, with_messages, with_new, with_replies, with_trail};

use crate::numbers::Numbers;
use crate::places::Place;
use crate::rows::{LinkCount, all_rows};
use crate::tallies::Tally;
use crate::trails::Trail;
use obq_base::NoMemory;
use std::alloc::Global;
use std::marker::Model;

/// The sites of cells, threads and activations, and how many requests and replies went from each site to each. A number of messages that 64 bits don't hold is told as
/// want of memory, which spends the whole.
#[derive(Drop)]
pub struct Sites {
    sites: u16,
    /// The site of each cell.
    cells: Vec<u16>,
    /// The sites of each thread.
    threads: Vec<Trail>,
    requests: Tally,
    replies: Tally,
}

impl Model for Sites {
    ghost use Rattle.std.specs.Prelude.{◌-◌, ◌<◌, ◌^◌};
    ghost use Rattle.obq_links.specs.Sited.{Sited, sited_code};

    ghost Value = { Sited };

    ghost coded = { sited_code };

    ghost view = { λ s. record { sites = s.sites; cell_sites = s.cells.items; thread_sites = s.threads.items; requests = s.requests; replies = s.replies } };

    ghost invariant = { λ s. s.sites < 2 ^ 16 - 1 };
}

/// A turn of a thread with this trail, which takes so many activations to so many. A new one is at this site; of one that is left the reply goes to the site around it.
fn turn(
    trail: &mut Trail,
    replies: &mut Tally,
    site: u16,
    before: u64,
    after: u64,
) -> Result<(), NoMemory>
    ensures { OnOk result (◌≡◌ {A = Trailed} (trail.new, replies.new) (turned_at site before after (trail.old, replies.old))) }
{
    if before < after {
        return trail.enter(site);
    }
    if after < before {
        let left = trail.here();
        trail.leave();
        return replies.send(left, trail.here());
    }
    Ok(())
}

/// The sites at which so many cells begin.
#[tactic(auto, using(crate::proofs::FirstSites::no_site))]
fn first_cells(alloc: Global, sites: u16) -> Result<Vec<u16>, NoMemory>
    ensures { IfOk result (λ cells. cells.items ≡ first_sites 0 sites) }
{
    let mut cells = Vec::new(alloc);
    for site in 0..sites {
        cells.push(site)?;
    }
    Ok(cells)
}

/// So many threads, each at a site of its own.
#[tactic(auto, using(crate::proofs::FirstSites::no_site))]
fn first_threads(alloc: Global, sites: u16) -> Result<Vec<Trail>, NoMemory>
    ensures { IfOk result (λ threads. threads.items ≡ map (λ s. s ∷ []) (first_sites 0 sites)) }
{
    let mut threads = Vec::new(alloc);
    for site in 0..sites {
        threads.push(Trail::at(alloc, site)?)?;
    }
    Ok(threads)
}

impl Sites {
    /// What a program of so many sites opens with.
    pub fn begin(alloc: Global, sites: u16) -> Result<Sites, NoMemory>
        requires { sites < 2 ^ 16 - 1 }
        ensures { IfOk result (λ s. s ≡ first_sited sites) }
    {
        Ok(Sites {
            sites,
            cells: first_cells(alloc, sites)?,
            threads: first_threads(alloc, sites)?,
            requests: Tally::new(alloc, sites + 1)?,
            replies: Tally::new(alloc, sites + 1)?,
        })
    }

    /// The sites of a thread; none of one that isn't there.
    pub fn trail(&self, alloc: Global, thread: u32) -> Result<Trail, NoMemory>
        ensures { IfOk result (λ trail. trail ≡ trail_in self.now thread) }
    {
        match self.threads.get(thread as usize) {
            Some(trail) => trail.copy(alloc),
            None => Ok(Trail::empty(alloc)),
        }
    }

    /// The innermost site of a thread, 0 of one that isn't there.
    fn here(&self, thread: u32) -> u16
        ensures { result ≡ site_here (trail_in self.now thread) }
    {
        match self.threads.get(thread as usize) {
            Some(trail) => trail.here(),
            None => 0,
        }
    }

    /// The home of a thread, 0 of one that isn't there.
    fn home(&self, thread: u32) -> u16
        ensures { result ≡ home_of (trail_in self.now thread) }
    {
        match self.threads.get(thread as usize) {
            Some(trail) => trail.home(),
            None => 0,
        }
    }

    /// The site of a place, where it is asked for at the site `here`. The name server is the site after the last.
    pub fn site_at(&self, here: u16, place: Place) -> u16
        ensures { result ≡ site_in self.now here (place_as place) }
    {
        match place {
            Place::Here => here,
            Place::AtCell(cell) => match self.cells.get(cell as usize) {
                Some(site) => *site,
                None => 0,
            },
            Place::AtThread(thread) => self.home(thread),
            Place::AtNames => self.sites,
        }
    }

    /// A turn of a thread with this trail, which takes so many activations to so many. A new one is at this site; of one that is left the reply goes to the
    /// site around it.
    pub fn turn(
        &mut self,
        trail: &mut Trail,
        site: u16,
        before: u64,
        after: u64,
    ) -> Result<(), NoMemory>
        ensures trail { OnOk result (trail.new ≡ (turned_at site before after (trail.old, self.old.replies)).0) }
        ensures sites { OnOk result (self.new ≡ with_replies (turned_at site before after (trail.old, self.old.replies)).1 self.old) }
    {
        turn(trail, &mut self.replies, site, before, after)
    }

    /// A thread, if it is there, has these sites.
    pub fn keep(&mut self, thread: u32, trail: Trail)
        ensures { self.new ≡ with_trail thread trail self.old }
    {
        let thread = thread as usize;
        if thread < self.threads.len() {
            self.threads[thread] = trail;
        } else {
            drop(trail);
        }
    }

    /// A new cell is at this site, if there is one, and so is a new thread.
    fn add(
        &mut self,
        alloc: Global,
        here: u16,
        before: Numbers,
        after: Numbers,
    ) -> Result<(), NoMemory>
        ensures { OnOk result (self.new ≡ with_new here before after self.old) }
    {
        if before.cells < after.cells {
            self.cells.push(here)?;
        }
        if before.threads < after.threads {
            self.threads.push(Trail::at(alloc, here)?)?;
        }
        Ok(())
    }

    /// The messages of an act that is asked for here and done there, and takes so many activations to so many.
    fn note(&mut self, here: u16, there: u16, before: u64, after: u64) -> Result<(), NoMemory>
        ensures { OnOk result (self.new ≡ with_messages here there before after self.old) }
    {
        self.requests.send(here, there)?;
        if before == after {
            self.replies.send(there, here)?;
        }
        Ok(())
    }

    /// An act of a thread that had this trail before it, done at the site `there`.
    pub fn act(
        &mut self,
        alloc: Global,
        thread: u32,
        trail: Trail,
        there: u16,
        before: Numbers,
        after: Numbers,
    ) -> Result<(), NoMemory>
        ensures { OnOk result (self.new ≡ acted thread there before after trail self.old) }
    {
        let mut trail = trail;
        let here = trail.here();
        self.turn(&mut trail, there, before.activations, after.activations)?;
        self.keep(thread, trail);
        self.add(alloc, here, before, after)?;
        self.note(here, there, before.activations, after.activations)
    }

    /// The request of a thread that waits at this place.
    pub fn ask(&mut self, thread: u32, place: Place) -> Result<(), NoMemory>
        ensures { OnOk result (self.new ≡ asked thread (place_as place) self.old) }
    {
        let here = self.here(thread);
        let there = self.site_at(here, place);
        self.requests.send(here, there)
    }

    /// The table of links: a row for each ordered pair of sites between which there was a request or a reply, the name server last.
    pub fn links(&self, alloc: Global) -> Result<Vec<LinkCount>, NoMemory>
        ensures { IfOk result (λ rows. rows_of rows.items ≡ rows_in self.now) }
    {
        all_rows(alloc, &self.requests, &self.replies, self.sites + 1)
    }
}
