//! Files in memory.

ghost use Rattle.std.specs.Prelude.{◌≡◌, ◌↔◌, ◌⊎◌, ◌-◌, ◌≤◌, ◌^◌, ◌+◌, ◌<◌, ℕ, List, [], None, Some, Contains, IfOk, IsErr, IsTrue, OnErr, OnOk, MatchOption, length, min, take, drop, unwrap_or};
ghost use Rattle.std.specs.Io.{ReadsAtMost};
ghost use Rattle.std.specs.Io.KnownBytes.{Keeps, ReadConsumes};
ghost use Rattle.obq_io.specs.Named.{held, content_at};
ghost use Rattle.obq_io.specs.Memory.{calls_of, fails_of};
ghost use Rattle.obq_io.specs.Causes.{Rose, EndsOnlyThere, capped};
ghost use Rattle.std.proofs.Common.{arith};

use crate::files::{Failed, Files};

/// The place of the first file of that name.
fn place_of(files: &[(String, Vec<u8>)], name: &str) -> Option<usize>
    ensures { MatchOption result (held files.now name.now ≡ None) (λ k. held files.now name.now ≡ Some (content_at files.now k)) }
{
    for (i, file) in files.iter().enumerate() {
        if file.0.as_str() == name {
            return Some(i);
        }
    }
    None
}

fn content_of(files: &[(String, Vec<u8>)], at: usize) -> &[u8]
    ensures { result.now ≡ content_at files.now at }
{
    match files.get(at) {
        Some(file) => file.1.as_slice(),
        None => &[],
    }
}

/// Copies what is left from a place on into the slice, as far as there is room, and says how much.
fn copy_from(bytes: &[u8], from: usize, into: &mut [u8]) -> usize
    ensures count { result ≡ min (length (drop from bytes.now)) (length into.old) }
    ensures bytes { take result into.new ≡ take result (drop from bytes.now) }
    ensures fits { from + result < 2 ^ 64 }
{
    if from >= bytes.len() {
        return 0;
    }
    let left = &bytes[from..];
    let count = left.len().min(into.len());
    into[..count].copy_from_slice(&left[..count]);
    count
}

/// Files in memory, of which the calls with given numbers fail. Calls count from 1, begins and
/// reads together. Each failure raises the one count, which is that of every name, by one.
#[derive(Drop)]
pub struct MemFiles {
    files: Vec<(String, Vec<u8>)>,
    fails: Vec<u64>,
    calls: u64,
    faults: u64,
    at: usize,
    from: usize,
}

impl MemFiles {
    /// Files by path; a path that stands twice has the first content. `fails` lists the calls, from 1, that fail. No
    /// file is begun.
    pub fn new(files: Vec<(String, Vec<u8>)>, fails: Vec<u64>) -> MemFiles
        ensures files { result.files ≡ files }
        ensures fails { fails_of result ≡ fails.items }
        ensures calls { calls_of result ≡ 0 }
        ensures faults { result.faults ≡ 0 }
        ensures begun { content_at result.files.items result.at ≡ [] }
    {
        let at = files.len();
        MemFiles {
            files,
            fails,
            calls: 0,
            faults: 0,
            at,
            from: 0,
        }
    }

    /// Counts the call, and says whether it is to fail.
    fn fails_now(&mut self) -> bool
        ensures same { self.new ≡ record self.old { calls = self.new.calls } }
        ensures counted { calls_of self.new ≡ capped (calls_of self.old + 1) }
        ensures fails { IsTrue result ↔ Contains (fails_of self.old) (calls_of self.new) }
    {
        self.calls = self.calls.saturating_add(1);
        self.fails.contains(&self.calls)
    }
}

impl Files for MemFiles {
    ghost holds = { λ m name. held m.files.items name };

    ghost left = { λ m. Some (drop m.from (content_at m.files.items m.at)) };

    ghost faults = { λ m name. capped m.faults };

    ghost bounded = { λ m name. Prim.omega arith };

    /// It fails where its number is among those that fail, and at a name that no file has.
    fn begin(&mut self, name: &str) -> Result<(), Failed>
        ensures same { (n : List ℕ) → held self.new.files.items n ≡ held self.old.files.items n }
        ensures begun { OnOk result (Keeps (held self.old.files.items name.now) (Some (drop self.new.from (content_at self.new.files.items self.new.at)))) }
        ensures refused { OnErr result (Some (drop self.new.from (content_at self.new.files.items self.new.at)) ≡ Some []) }
        ensures later { (n : List ℕ) → capped self.old.faults ≤ capped self.new.faults }
        ensures cause { OnErr result (Rose (capped self.old.faults) (capped self.new.faults)) }
        ensures counted { calls_of self.new ≡ capped (calls_of self.old + 1) }
        ensures fails { IsErr result ↔ (Contains (fails_of self.old) (calls_of self.new) ⊎ (held self.old.files.items name.now ≡ None)) }
        ensures once { OnErr result (self.new.faults ≡ capped (self.old.faults + 1)) }
        ensures quiet { OnOk result (self.new.faults ≡ self.old.faults) }
        ensures numbers { fails_of self.new ≡ fails_of self.old }
    {
        self.from = 0;
        if !self.fails_now() {
            if let Some(at) = place_of(&self.files, name) {
                self.at = at;
                return Ok(());
            }
        }
        self.at = self.files.len();
        self.faults = self.faults.saturating_add(1);
        Err(Failed)
    }

    /// It fails where its number is among those that fail.
    fn read(&mut self, _name: &str, into: &mut [u8]) -> Result<usize, Failed>
        ensures same { (n : List ℕ) → held self.new.files.items n ≡ held self.old.files.items n }
        ensures bound { ReadsAtMost result into.new }
        ensures bytes { ReadConsumes (Some (drop self.old.from (content_at self.old.files.items self.old.at))) (Some (drop self.new.from (content_at self.new.files.items self.new.at))) result into.new }
        ensures end { IfOk result (λ count. EndsOnlyThere (Some (drop self.old.from (content_at self.old.files.items self.old.at))) count) }
        ensures later { (n : List ℕ) → capped self.old.faults ≤ capped self.new.faults }
        ensures cause { OnErr result (Rose (capped self.old.faults) (capped self.new.faults)) }
        ensures counted { calls_of self.new ≡ capped (calls_of self.old + 1) }
        ensures fails { IsErr result ↔ Contains (fails_of self.old) (calls_of self.new) }
        ensures once { OnErr result (self.new.faults ≡ capped (self.old.faults + 1)) }
        ensures quiet { IfOk result (λ count. self.new.faults ≡ self.old.faults) }
        ensures numbers { fails_of self.new ≡ fails_of self.old }
    {
        if self.fails_now() {
            self.faults = self.faults.saturating_add(1);
            return Err(Failed);
        }
        let count = copy_from(content_of(&self.files, self.at), self.from, into);
        self.from += count;
        Ok(count)
    }
}

/// Files in memory of which no call fails. A name that no file has is an empty file.
#[derive(Drop)]
pub struct SureFiles {
    files: Vec<(String, Vec<u8>)>,
    at: usize,
    from: usize,
}

impl SureFiles {
    /// Files by path; a path that stands twice has the first content. No file is begun.
    pub fn new(files: Vec<(String, Vec<u8>)>) -> SureFiles
        ensures files { result.files ≡ files }
        ensures begun { content_at result.files.items result.at ≡ [] }
    {
        SureFiles {
            at: files.len(),
            files,
            from: 0,
        }
    }
}

impl Files for SureFiles {
    ghost holds = { λ m name. Some (unwrap_or (held m.files.items name) []) };

    ghost left = { λ m. Some (drop m.from (content_at m.files.items m.at)) };

    ghost faults = { λ m name. 0 };

    ghost bounded = { λ m name. Prim.omega arith };

    fn begin(&mut self, name: &str) -> Result<(), Failed> {
        self.from = 0;
        self.at = place_of(&self.files, name).unwrap_or(self.files.len());
        Ok(())
    }

    fn read(&mut self, _name: &str, into: &mut [u8]) -> Result<usize, Failed> {
        let given = copy_from(content_of(&self.files, self.at), self.from, into);
        self.from += given;
        Ok(given)
    }
}
