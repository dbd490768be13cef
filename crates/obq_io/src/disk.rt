//! The system's files.

ghost use Rattle.std.specs.Prelude.{◌≡◌, ◌-◌, ◌≤◌, ◌^◌, None, Some, [], IsSome, is_some, if◌then◌else◌};
ghost use Rattle.obq_io.specs.Causes.{capped, rest_of};
ghost use Rattle.std.proofs.Common.{arith};

use crate::files::{Failed, Files};
use std::io::Read;
use std::{fs, rt};

/// The system's files, by their paths. What they hold is not told, and each count is that of every
/// name.
pub struct DiskFiles<'a, R: rt::Files> {
    rt: &'a R,
    file: Option<R::File>,
    faults: u64,
}

impl<'a, R: rt::Files> Drop for DiskFiles<'a, R> {
    fn drop(self) {
        let DiskFiles {
            rt: _,
            file: _,
            faults: _,
        } = self;
    }
}

impl<'a, R: rt::Files> DiskFiles<'a, R> {
    /// The files of the machine that the handle reaches. None is open, and no count has risen.
    pub fn new(rt: &'a R) -> DiskFiles<'a, R>
        ensures begun { rest_of result.file ≡ Some [] }
        ensures faults { result.faults ≡ 0 }
    {
        DiskFiles {
            rt,
            file: None,
            faults: 0,
        }
    }
}

impl<'a, R: rt::Files> Files for DiskFiles<'a, R> {
    ghost holds = { λ d name. None };

    // Where no file is begun, nothing is left.
    ghost left = { λ d. rest_of d.file };

    ghost faults = { λ d name. capped d.faults };

    ghost bounded = { λ d name. Prim.omega arith };

    fn begin(&mut self, name: &str) -> Result<(), Failed> {
        match fs::open(self.rt, name) {
            Ok(file) => {
                self.file = Some(file);
                Ok(())
            }
            Err(_) => {
                self.file = None;
                self.faults = self.faults.saturating_add(1);
                Err(Failed)
            }
        }
    }

    fn read(&mut self, _name: &str, into: &mut [u8]) -> Result<usize, Failed> {
        match &mut self.file {
            None => Ok(0),
            Some(file) => match file.read(into) {
                Ok(count) => Ok(count),
                Err(_) => {
                    self.faults = self.faults.saturating_add(1);
                    Err(Failed)
                }
            },
        }
    }
}
