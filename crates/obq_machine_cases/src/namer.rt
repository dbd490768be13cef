//! The table of a name server.

use crate::samples::{integer, kept, name, tell};
use obq_base::{NoMemory, Value};
use obq_namer::Namer;
use std::alloc::Global;
use std::io;

fn export(alloc: Global, names: &mut Namer, letter: u8, n: i64) -> Result<(), NoMemory> {
    names.export(name(alloc, letter)?, Value::Int(n))
}

fn imported(alloc: Global, names: &Namer, letter: u8) -> Result<Option<i64>, NoMemory> {
    let name = name(alloc, letter)?;
    Ok(integer(names.import(&name)))
}

pub fn print_cases(rt: &impl Print, alloc: Global) -> io::Result<()> {
    rt.println("namer")?;
    let mut names = Namer::new(alloc);
    tell(
        rt,
        "k of an empty table",
        kept(imported(alloc, &names, b'k'))?,
    )?;
    kept(export(alloc, &mut names, b'k', 1))?;
    kept(export(alloc, &mut names, b'm', 5))?;
    kept(export(alloc, &mut names, b'k', 2))?;
    tell(
        rt,
        "k, exported with 1 and then with 2",
        kept(imported(alloc, &names, b'k'))?,
    )?;
    tell(
        rt,
        "m, exported with 5 between",
        kept(imported(alloc, &names, b'm'))?,
    )?;
    tell(rt, "n", kept(imported(alloc, &names, b'n'))?)?;
    rt.println("")
}
