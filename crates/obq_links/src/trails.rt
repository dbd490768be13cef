//! The sites of a thread's activations.

ghost use Rattle.std.specs.Prelude.{IfOk, OnErr, OnOk, [], drop, ◌≡◌, ◌∷◌};
ghost use Rattle.obq_model.specs.Located.{home_of, site_here};

use obq_base::NoMemory;
use std::alloc::Global;
use std::marker::Model;

/// The sites of a thread's activations and its home. Contracts see them innermost first.
#[derive(Drop)]
pub struct Trail {
    /// The home first, the innermost site last.
    sites: Vec<u16>,
}

impl Model for Trail {
    ghost use Rattle.std.specs.Prelude.{List, reverse, ℕ};

    ghost Value = { List ℕ };

    ghost view = { λ t. reverse t.sites.items };
}

impl Trail {
    /// No sites.
    pub fn empty(alloc: Global) -> Trail
        ensures { result ≡ [] }
    {
        Trail {
            sites: Vec::new(alloc),
        }
    }

    /// A thread that begins at this site.
    pub fn at(alloc: Global, home: u16) -> Result<Trail, NoMemory>
        ensures { IfOk result (λ t. t ≡ home ∷ []) }
    {
        let mut trail = Trail::empty(alloc);
        trail.enter(home)?;
        Ok(trail)
    }

    /// An equal one.
    pub fn copy(&self, alloc: Global) -> Result<Trail, NoMemory>
        ensures { IfOk result (λ t. t ≡ self.now) }
    {
        let sites = Vec::from_slice(alloc, self.sites.as_slice())?;
        Ok(Trail { sites })
    }

    /// The innermost site, 0 where there is none.
    pub fn here(&self) -> u16
        ensures { result ≡ site_here self.now }
    {
        match self.sites.last() {
            Some(site) => *site,
            None => 0,
        }
    }

    #[tactic(auto, using(crate::proofs::Trailing::home_at))]
    /// The home of the thread, 0 where there are no sites.
    pub fn home(&self) -> u16
        ensures { result ≡ home_of self.now }
    {
        match self.sites.first() {
            Some(site) => *site,
            None => 0,
        }
    }

    /// An activation at this site is entered.
    pub fn enter(&mut self, site: u16) -> Result<(), NoMemory>
        ensures ok { OnOk result (self.new ≡ site ∷ self.old) }
        ensures err { OnErr result (self.new ≡ self.old) }
    {
        self.sites.push(site)?;
        Ok(())
    }

    /// The innermost activation is left.
    pub fn leave(&mut self)
        ensures { self.new ≡ drop 1 self.old }
    {
        let _left = self.sites.pop();
    }
}
