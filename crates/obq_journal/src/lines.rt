//! The lines of a journal's text.

ghost use Rattle.std.specs.Prelude.{◌≡◌};
ghost use Rattle.obq_model.specs.JournalText as text;

use crate::kinds::kind_named;
use crate::pieces::{cut_at, number_from};
use obq_base::limits::{THREAD_LIMIT, TURN_LIMIT};
use obq_base::{Act, Entry};

/// The turn limit of the second line, which is given without its end.
pub fn turns_in(line: &[u8]) -> Option<u32>
    ensures { result ≡ text.turns_in line.now }
{
    let (word, number) = cut_at(line, b' ')?;
    let None = cut_at(number, b' ') else {
        return None;
    };
    if word != b"turns".as_slice() {
        return None;
    }
    Some(number_from(number, 1, u64::from(TURN_LIMIT))? as u32)
}

/// An entry without act, which has a pure step.
fn entry_of_steps(thread: &[u8], pure: &[u8], act: &[u8]) -> Option<Entry>
    ensures { result ≡ text.entry_with (text.number_from 0 63 thread.now) (text.number_from 1 1000000 pure.now) (text.no_act act.now) }
{
    let thread = number_from(thread, 0, u64::from(THREAD_LIMIT - 1))?;
    let pure = number_from(pure, 1, u64::from(TURN_LIMIT))?;
    if act != b"-".as_slice() {
        return None;
    }
    Some(Entry {
        thread: thread as u32,
        pure: pure as u32,
        act: None,
    })
}

/// An entry with an act.
fn entry_of_act(thread: &[u8], pure: &[u8], kind: &[u8], loc: &[u8]) -> Option<Entry>
    ensures { result ≡ text.entry_with (text.number_from 0 63 thread.now) (text.number_from 0 1000000 pure.now) (text.act_with (text.kind_named kind.now) (text.number_from 0 18446744073709551615 loc.now)) }
{
    let thread = number_from(thread, 0, u64::from(THREAD_LIMIT - 1))?;
    let pure = number_from(pure, 0, u64::from(TURN_LIMIT))?;
    let kind = kind_named(kind)?;
    let loc = number_from(loc, 0, u64::MAX)?;
    Some(Entry {
        thread: thread as u32,
        pure: pure as u32,
        act: Some(Act { kind, loc }),
    })
}

/// The entry of a line, which is given without its end.
pub fn entry_in(line: &[u8]) -> Option<Entry>
    ensures { result ≡ text.entry_in line.now }
{
    let (thread, behind) = cut_at(line, b' ')?;
    let (pure, behind) = cut_at(behind, b' ')?;
    let Some((kind, loc)) = cut_at(behind, b' ') else {
        return entry_of_steps(thread, pure, behind);
    };
    let None = cut_at(loc, b' ') else {
        return None;
    };
    entry_of_act(thread, pure, kind, loc)
}
