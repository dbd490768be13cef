//! `obliq` with its two streams exchanged, so that its stored run, of a source that is refused, shows what a refusal writes to
//! standard error, and its status.
#![tactic(auto)]

use obq_io::{DiskFiles, PlainGate, StdSink, words_of};
use obq_run::obliq;
use std::process::ExitCode;

fn main(rt: HostRuntime) -> ExitCode {
    let Ok(words) = words_of(&rt) else {
        return ExitCode::from(6);
    };
    let end = obliq(
        &rt,
        rt.alloc(),
        &words,
        &mut DiskFiles::new(&rt),
        &mut StdSink::new(rt.stderr()),
        &mut StdSink::new(rt.stdout()),
        &PlainGate,
    );
    ExitCode::from(end.status)
}
