//! The configuration that a program opens as.

ghost use Rattle.std.specs.Prelude.{IfOk, length, map, replicate, ◌≡◌, ◌≤◌, []};
ghost use Rattle.obq_base.specs.View.{block_tree};
ghost use Rattle.obq_model.specs.Opening.{new_threads, opening, opening_terms};
ghost use Rattle.obq_model.specs.Store as store;
ghost use Rattle.obq_plain.specs.Threads.{machine_of, thread_of};
ghost use Rattle.obq_store.specs.Stores.{store_of};

use crate::machine::Machine;
use crate::threads::{Execution, ThreadState};
use obq_base::{Block, NoMemory};
use obq_opening::opened_block;
use obq_store::Store;
use std::alloc::Global;

/// A store of so many empty writers.
fn writers(alloc: Global, count: usize) -> Result<Store, NoMemory>
    ensures { IfOk result (λ s. store_of s ≡ record { cells = replicate count (store.WriterCell []); names = [] }) }
{
    let mut store = Store::new(alloc);
    for _ in 0..count {
        store.add_writer(alloc)?;
    }
    Ok(store)
}

/// A thread for each block, which goes on with what the block opens as.
fn opened_threads(alloc: Global, blocks: &[Block]) -> Result<Vec<ThreadState>, NoMemory>
    requires { length blocks.now ≤ 16 }
    ensures threads { IfOk result (λ ts. map thread_of ts.items ≡ new_threads (opening_terms 0 (map block_tree blocks.now))) }
    ensures count { IfOk result (λ ts. length ts.items ≡ length blocks.now) }
{
    let mut threads = Vec::new(alloc);
    for site in 0..blocks.len() {
        let term = opened_block(alloc, site as u32, &blocks[site])?;
        threads.push(ThreadState {
            execution: Execution::Running(term),
            used: 0,
        })?;
    }
    Ok(threads)
}

impl Machine {
    /// The configuration that a program of these blocks opens as.
    pub fn begin(alloc: Global, blocks: &[Block]) -> Result<Machine, NoMemory>
        requires { length blocks.now ≤ 16 }
        ensures config { IfOk result (λ m. machine_of m ≡ opening (map block_tree blocks.now)) }
        ensures count { IfOk result (λ m. length m.threads.items ≡ length blocks.now) }
    {
        let store = writers(alloc, blocks.len())?;
        let threads = opened_threads(alloc, blocks)?;
        Ok(Machine { store, threads })
    }
}
