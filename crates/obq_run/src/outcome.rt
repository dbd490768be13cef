//! What a run came to.

ghost use Rattle.std.specs.Prelude.{◌≡◌, IfOk};
ghost use Rattle.obq_model.specs.Replay.{output, report};
ghost use Rattle.obq_run.specs.Played.{texts_of};

use obq_base::{NoMemory, Report};
use obq_plain::PlainRun;
use std::alloc::Global;

/// What each site wrote, and how many threads ended, wait, or have spent their turns.
#[derive(Drop)]
pub struct Outcome {
    pub texts: Vec<Vec<u8>>,
    pub report: Report,
}

/// Copies of what the sites of a machine wrote.
fn texts_of(alloc: Global, machine: &PlainRun) -> Result<Vec<Vec<u8>>, NoMemory>
    ensures { IfOk result (λ texts. texts_of texts.items ≡ output machine.now.sites machine.now.config) }
{
    let mut texts = Vec::new(alloc);
    for site in 0..machine.sites() {
        match machine.output(site) {
            Some(text) => texts.push(Vec::from_slice(alloc, text)?)?,
            None => return Ok(texts),
        }
    }
    Ok(texts)
}

/// What a machine came to.
pub fn outcome_of(alloc: Global, machine: &PlainRun) -> Result<Outcome, NoMemory>
    ensures texts { IfOk result (λ outcome. texts_of outcome.texts.items ≡ output machine.now.sites machine.now.config) }
    ensures report { IfOk result (λ outcome. outcome.report ≡ report machine.now.turns machine.now.config) }
{
    let texts = texts_of(alloc, machine)?;
    Ok(Outcome {
        texts,
        report: machine.report(),
    })
}
