//! The words of the command line.

use obq_base::NoMemory;
use std::rt::Env;
use std::{env, io};

/// The words behind the program's name. One that isn't UTF-8 makes the whole command line faulty, as if there were no words.
/// No clause says which words these are, since the library's has none.
pub fn words_of(rt: &(impl Env + AllocGlobal)) -> Result<Vec<String>, NoMemory> {
    let alloc = rt.alloc();
    match env::args(rt) {
        Ok(args) => Ok(args.skip(1).collect(alloc)?),
        Err(error) => match error.kind() {
            io::ErrorKind::OutOfMemory => Err(NoMemory),
            _ => Ok(Vec::new(alloc)),
        },
    }
}
