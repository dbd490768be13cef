//! Runs cases of the crates from the lexer to the front, and of those for words, journals, files and lines, and prints what came
//! of each. Most cases are lines of files, with `%` and two hexadecimal digits for a byte: a source before its tokens (`tokens`,
//! and in parts with how often each stands `long_tokens`), its tree (`shapes`) or its slots (`slots`), a command line (`words`),
//! a journal (`journals`), and the numbers of a report (`reports`). `held` is a file that is read.
#![tactic(auto)]

mod codes;
mod ends;
mod journals;
mod programs;
mod rows;
mod shapes;
mod streams;
mod tokens;
mod words;

use std::{fs, io};

fn main(rt: HostRuntime) -> io::Result<()> {
    let alloc = rt.alloc();
    rt.println("# Keywords")?;
    tokens::print_keywords(&rt)?;
    rt.println("\n# Tokens")?;
    tokens::print_sources(&rt, alloc, &fs::read_to_string(&rt, "tokens")?)?;
    rt.println("\n# Tokens of long sources")?;
    tokens::print_long_sources(&rt, alloc, &fs::read_to_string(&rt, "long_tokens")?)?;
    rt.println("\n# Trees")?;
    shapes::print_sources(&rt, alloc, &fs::read_to_string(&rt, "shapes")?)?;
    rt.println("\n# Slots")?;
    programs::print_slots(&rt, alloc, &fs::read_to_string(&rt, "slots")?)?;
    rt.println("\n# Programs")?;
    programs::print_programs(&rt, alloc)?;
    rt.println("\n# Codes")?;
    codes::print_codes(&rt, alloc)?;
    rt.println("\n# Words")?;
    words::print_lines(&rt, alloc, &fs::read_to_string(&rt, "words")?)?;
    rt.println("\n# Journals")?;
    journals::print_texts(&rt, alloc, &fs::read_to_string(&rt, "journals")?)?;
    journals::print_built(&rt, alloc)?;
    rt.println("\n# Ends")?;
    ends::print_reports(&rt, alloc, &fs::read_to_string(&rt, "reports")?)?;
    ends::print_links(&rt, alloc)?;
    rt.println("\n# Files and sinks")?;
    streams::print_disk(&rt)?;
    streams::print_memory(&rt, alloc)
}
