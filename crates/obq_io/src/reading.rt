//! Reading files to a limit.

ghost use Rattle.std.specs.Prelude.{◌≡◌, ◌<◌, ◌≤◌, ◌^◌, ◌+◌, ℕ, List, Some, IfErr, IfOk, MatchResult, drop, length, ⊤};
ghost use Rattle.obq_io.specs.Causes.{Rose};
ghost use Rattle.obq_io.specs.Known.{IsIt, WhereTold};
ghost use Rattle.obq_io.specs.Reads.{MatchReadRefused};

use crate::files::Files;
use std::alloc::Global;

/// How many bytes are read at a time.
const PIECE: usize = 4096;

/// Why a file was not read.
#[derive(Clone, Copy, Debug, PartialEq, Eq)]
pub enum ReadRefused {
    /// A call on the file failed.
    Fault,
    /// It has more bytes than the limit; no byte behind the first of these was asked for.
    TooLong,
    NoMemory,
}

/// Reads a file to its end, or up to the first byte past the limit.
pub fn read_file<F: Files>(
    alloc: Global,
    files: &mut F,
    path: &str,
    limit: usize,
) -> Result<Vec<u8>, ReadRefused>
    requires { limit < 2 ^ 32 }
    ensures same { (n : List ℕ) → F.holds files.new n ≡ F.holds files.old n }
    ensures later { (n : List ℕ) → F.faults files.old n ≤ F.faults files.new n }
    ensures whole { IfOk result (λ v. IsIt (F.holds files.old path.now) v.items) }
    ensures bound { IfOk result (λ v. length v.items ≤ limit) }
    ensures unread { MatchResult result (λ v. IsIt (F.holds files.old path.now) v.items) (λ why. MatchReadRefused why (Rose (F.faults files.old path.now) (F.faults files.new path.now)) (WhereTold (F.holds files.old path.now) (λ xs. limit < length xs))) }
    ensures stops { IfErr result (λ why. MatchReadRefused why ⊤ (WhereTold (F.holds files.old path.now) (λ xs. F.left files.new ≡ Some (drop (limit + 1) xs)))) }
{
    if files.begin(path).is_err() {
        return Err(ReadRefused::Fault);
    }
    let mut bytes = Vec::new(alloc);
    let mut buffer = [0u8; PIECE];
    'pieces: while bytes.len() <= limit {
        let room = (limit + 1 - bytes.len()).min(PIECE);
        let Ok(count) = files.read(path, &mut buffer[..room]) else {
            return Err(ReadRefused::Fault);
        };
        if count == 0 {
            return Ok(bytes);
        }
        if bytes.extend_from_slice(&buffer[..count]).is_err() {
            return Err(ReadRefused::NoMemory);
        }
    }
    Err(ReadRefused::TooLong)
}
