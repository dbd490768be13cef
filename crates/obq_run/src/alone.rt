//! A run of one source by its codes.

ghost use Rattle.std.specs.Prelude.{◌≡◌, ◌≤◌, IfOk, IfSome, List, length, map, ℕ};
ghost use Rattle.obq_base.specs.Tree.{BlockTree};
ghost use Rattle.obq_base.specs.View.{block_tree};
ghost use Rattle.obq_front.specs.Contents.{AreTabled};
ghost use Rattle.obq_host.specs.Meanings.{AreCodes};
ghost use Rattle.obq_run.specs.Played.{IsRun};
ghost use Rattle.obq_world.specs.Ends.{IsEndOf};

use crate::outcome::Outcome;
use crate::playing::{Played, SLICE, play};
use crate::steps::Steps;
use obq_base::limits::TURN_LIMIT;
use obq_base::{Block, NoMemory};
use obq_code::Codes;
use obq_host::Site;
use obq_world::{Ended, Naming, Refused, World, run_on};
use std::alloc::Global;
use std::marker::Brand;

/// Runs the program that is named, which is that of these blocks and codes.
fn run_named<J: Naming>(
    alloc: Global,
    blocks: &[Block],
    codes: Codes,
    turns: u32,
) -> Result<Ended, Refused>
    requires program { J.program ≡ map block_tree blocks.now }
    requires sites { (length J.program ≡ J.sites) × (J.sites ≡ 1) }
    requires turns { (turns ≡ J.turns) × (turns ≤ 1000000) }
    requires codes { AreCodes J.parts J.table J.program codes }
    ensures { IfOk result (IsEndOf J.program J.turns) }
{
    let _ = blocks;
    let world: World<J, Site<Steps>> = World::begin(alloc, codes, turns)?;
    run_on(alloc, world, SLICE)
}

/// A run of one block by its codes, if they do all its acts.
fn run_block(alloc: Global, blocks: &[Block], codes: Codes, turns: u32) -> Result<Ended, Refused>
    requires one { length blocks.now ≡ 1 }
    requires turns { turns ≤ 1000000 }
    requires codes { AreTabled 0 blocks.now codes }
    ensures { IfOk result (IsEndOf (map block_tree blocks.now) turns) }
{
    run_named::<Brand>(alloc, blocks, codes, turns)
}

/// What the run of one source came to.
fn played(alloc: Global, ended: Ended) -> Result<Played, NoMemory>
    ensures { (blocks : List BlockTree) (turns : ℕ) → IsEndOf blocks turns ended → IfOk result (IsRun blocks turns) }
{
    let Ended {
        text,
        report,
        journal,
    } = ended;
    let mut texts = Vec::new(alloc);
    texts.push(text)?;
    Ok(Played {
        outcome: Outcome { texts, report },
        journal,
    })
}

/// Runs the only block by its codes. None where there are more blocks, or the run comes to an act that isn't done so.
pub fn play_alone(
    alloc: Global,
    blocks: &[Block],
    codes: Codes,
    turns: u32,
) -> Result<Option<Played>, NoMemory>
    requires { AreTabled 0 blocks.now codes }
    ensures { IfOk result (λ o. IfSome o (IsRun (map block_tree blocks.now) turns)) }
{
    if blocks.len() != 1 || turns > TURN_LIMIT {
        return Ok(None);
    }
    match run_block(alloc, blocks, codes, turns) {
        Ok(ended) => Ok(Some(played(alloc, ended)?)),
        Err(Refused::Beyond) => Ok(None),
        Err(Refused::NoMemory) => Err(NoMemory),
    }
}

/// Runs blocks until no thread can go on: one block by its codes, if they do all its acts, and others by the plain machine.
pub fn play_program(
    alloc: Global,
    blocks: &[Block],
    codes: Codes,
    turns: u32,
) -> Result<Played, NoMemory>
    requires few { length blocks.now ≤ 16 }
    requires codes { AreTabled 0 blocks.now codes }
    ensures { IfOk result (IsRun (map block_tree blocks.now) turns) }
{
    match play_alone(alloc, blocks, codes, turns)? {
        Some(played) => Ok(played),
        None => play(alloc, blocks, turns),
    }
}
