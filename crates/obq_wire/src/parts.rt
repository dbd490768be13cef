//! The parts of a frame that name no other part: numbers, byte strings, references and flags.

ghost use Rattle.std.specs.Prelude.{◌≡◌, ◌<◌, IfOk};
ghost use Rattle.std.specs.Int.{w16, w32, w64};
ghost use Rattle.obq_wire.specs.Spelling.{kind_number};
ghost use Rattle.obq_wire.specs.Reading.{Gives, byte_at, below, cell_at, code_number_at, depth_at, flags_at, group_number_at, in_range, integer_at, kind_at, name_at, number_at, only, reference_at, site_at, string_at, text_at, thread_at, truth_at};

use crate::refusal::Refused;
use obq_base::limits::{CALL_LIMIT, TEXT_LIMIT};
use obq_base::{CodeNo, Flags, GroupNo, Kind, Name, Ref, SiteId, Text, ThreadId};
use std::alloc::Global;

pub(crate) fn byte_of(bytes: &[u8]) -> Result<(u8, &[u8]), Refused>
    ensures { Gives (λ x. (x.0, x.1.now)) result (byte_at bytes.now) }
{
    match bytes {
        [] => Err(Refused::Bad { left: 0 }),
        [byte, rest @ ..] => Ok((*byte, rest)),
    }
}

pub(crate) fn u16_of(bytes: &[u8]) -> Result<(u16, &[u8]), Refused>
    ensures { Gives (λ x. (x.0, x.1.now)) result (number_at w16 bytes.now) }
{
    if bytes.len() < 2 {
        return Err(Refused::Bad { left: bytes.len() });
    }
    let (front, rest) = bytes.split_at(2);
    let number = u16::from_be_bytes([front[0], front[1]]);
    Ok((number, rest))
}

pub(crate) fn u32_of(bytes: &[u8]) -> Result<(u32, &[u8]), Refused>
    ensures { Gives (λ x. (x.0, x.1.now)) result (number_at w32 bytes.now) }
{
    if bytes.len() < 4 {
        return Err(Refused::Bad { left: bytes.len() });
    }
    let (front, rest) = bytes.split_at(4);
    let number = u32::from_be_bytes([front[0], front[1], front[2], front[3]]);
    Ok((number, rest))
}

pub(crate) fn u64_of(bytes: &[u8]) -> Result<(u64, &[u8]), Refused>
    ensures { Gives (λ x. (x.0, x.1.now)) result (number_at w64 bytes.now) }
{
    if bytes.len() < 8 {
        return Err(Refused::Bad { left: bytes.len() });
    }
    let (front, rest) = bytes.split_at(8);
    let number = u64::from_be_bytes([
        front[0], front[1], front[2], front[3], front[4], front[5], front[6], front[7],
    ]);
    Ok((number, rest))
}

#[tactic(auto, unfolding(crate::specs::Reading::integer_at))]
pub(crate) fn integer_of(bytes: &[u8]) -> Result<(i64, &[u8]), Refused>
    ensures { Gives (λ x. (x.0, x.1.now)) result (integer_at bytes.now) }
{
    let (number, rest) = u64_of(bytes)?;
    Ok((number.cast_signed(), rest))
}

pub(crate) fn u32_below(bound: usize, bytes: &[u8]) -> Result<(u32, &[u8]), Refused>
    ensures read { Gives (λ x. (x.0, x.1.now)) result (in_range (number_at w32) (below bound) bytes.now) }
    ensures within { IfOk result (λ x. x.0 < bound) }
{
    let (number, rest) = u32_of(bytes)?;
    if number as usize >= bound {
        return Err(Refused::Bad { left: bytes.len() });
    }
    Ok((number, rest))
}

#[tactic(auto, unfolding(crate::specs::Reading::string_at))]
fn bytes_of(alloc: Global, limit: u32, bytes: &[u8]) -> Result<(Vec<u8>, &[u8]), Refused>
    ensures { Gives (λ x. (x.0.items, x.1.now)) result (string_at limit bytes.now) }
{
    let (len, rest) = u32_of(bytes)?;
    if limit < len {
        return Err(Refused::Bad { left: bytes.len() });
    }
    let len = len as usize;
    if rest.len() < len {
        return Err(Refused::Bad { left: bytes.len() });
    }
    let (text, rest) = rest.split_at(len);
    Ok((Vec::from_slice(alloc, text)?, rest))
}

pub(crate) fn text_of(alloc: Global, bytes: &[u8]) -> Result<(Text, &[u8]), Refused>
    ensures { Gives (λ x. (x.0, x.1.now)) result (text_at bytes.now) }
{
    let (text, rest) = bytes_of(alloc, TEXT_LIMIT as u32, bytes)?;
    Ok((Text::new(text), rest))
}

pub(crate) fn name_of(alloc: Global, bytes: &[u8]) -> Result<(Name, &[u8]), Refused>
    ensures { Gives (λ x. (x.0, x.1.now)) result (name_at bytes.now) }
{
    let (name, rest) = bytes_of(alloc, u32::MAX, bytes)?;
    Ok((Name::new(name), rest))
}

#[tactic(auto, unfolding(crate::specs::Reading::truth_at))]
pub(crate) fn truth_of(bytes: &[u8]) -> Result<(bool, &[u8]), Refused>
    ensures { Gives (λ x. (x.0, x.1.now)) result (truth_at bytes.now) }
{
    match bytes {
        [0, rest @ ..] => Ok((false, rest)),
        [1, rest @ ..] => Ok((true, rest)),
        _ => Err(Refused::Bad { left: bytes.len() }),
    }
}

#[tactic(auto, unfolding(crate::specs::Reading::flags_at))]
pub(crate) fn flags_of(bytes: &[u8]) -> Result<(Flags, &[u8]), Refused>
    ensures { Gives (λ x. (x.0, x.1.now)) result (flags_at bytes.now) }
{
    let (protected, serialized, rest) = match bytes {
        [0, rest @ ..] => (false, false, rest),
        [1, rest @ ..] => (true, false, rest),
        [2, rest @ ..] => (false, true, rest),
        [3, rest @ ..] => (true, true, rest),
        _ => return Err(Refused::Bad { left: bytes.len() }),
    };
    Ok((
        Flags {
            protected,
            serialized,
        },
        rest,
    ))
}

#[tactic(auto, unfolding(crate::specs::Reading::depth_at))]
pub(crate) fn depth_of(bytes: &[u8]) -> Result<(u16, &[u8]), Refused>
    ensures { Gives (λ x. (x.0, x.1.now)) result (depth_at bytes.now) }
{
    let (depth, rest) = u16_of(bytes)?;
    if u32::from(depth) > CALL_LIMIT {
        return Err(Refused::Bad { left: bytes.len() });
    }
    Ok((depth, rest))
}

#[tactic(auto, unfolding(crate::specs::Reading::site_at))]
pub(crate) fn site_of(bytes: &[u8]) -> Result<(SiteId, &[u8]), Refused>
    ensures { Gives (λ x. (x.0, x.1.now)) result (site_at bytes.now) }
{
    let (number, rest) = u16_of(bytes)?;
    Ok((SiteId(number), rest))
}

#[tactic(auto, unfolding(crate::specs::Reading::thread_at))]
pub(crate) fn thread_of(bytes: &[u8]) -> Result<(ThreadId, &[u8]), Refused>
    ensures { Gives (λ x. (x.0, x.1.now)) result (thread_at bytes.now) }
{
    let (number, rest) = u32_of(bytes)?;
    Ok((ThreadId(number), rest))
}

#[tactic(auto, unfolding(crate::specs::Reading::kind_at))]
fn kind_of(bytes: &[u8]) -> Result<(Kind, &[u8]), Refused>
    ensures { Gives (λ x. (x.0, x.1.now)) result (kind_at bytes.now) }
{
    match bytes {
        [0, rest @ ..] => Ok((Kind::Object, rest)),
        [1, rest @ ..] => Ok((Kind::Array, rest)),
        [2, rest @ ..] => Ok((Kind::Variable, rest)),
        [3, rest @ ..] => Ok((Kind::Writer, rest)),
        [4, rest @ ..] => Ok((Kind::Condition, rest)),
        [5, rest @ ..] => Ok((Kind::Engine, rest)),
        _ => Err(Refused::Bad { left: bytes.len() }),
    }
}

#[tactic(auto, unfolding(crate::specs::Reading::reference_at))]
pub(crate) fn reference_of(bytes: &[u8]) -> Result<(Ref, &[u8]), Refused>
    ensures { Gives (λ x. (x.0, x.1.now)) result (reference_at bytes.now) }
{
    let (site, rest) = site_of(bytes)?;
    let (kind, rest) = kind_of(rest)?;
    let (n, rest) = u32_of(rest)?;
    Ok((Ref { site, n, kind }, rest))
}

/// The number of a kind in a frame.
pub(crate) fn number_of(kind: Kind) -> u8
    ensures { result ≡ kind_number kind }
{
    match kind {
        Kind::Object => 0,
        Kind::Array => 1,
        Kind::Variable => 2,
        Kind::Writer => 3,
        Kind::Condition => 4,
        Kind::Engine => 5,
    }
}

fn exactly(wanted: u8, bytes: &[u8]) -> Result<&[u8], Refused>
    ensures { Gives (λ x. (wanted, x.now)) result (in_range byte_at (only wanted) bytes.now) }
{
    let (number, rest) = byte_of(bytes)?;
    if number != wanted {
        return Err(Refused::Bad { left: bytes.len() });
    }
    Ok(rest)
}

#[tactic(auto, unfolding(crate::specs::Reading::cell_at))]
pub(crate) fn cell_of(kind: Kind, bytes: &[u8]) -> Result<(Ref, &[u8]), Refused>
    ensures { Gives (λ x. (x.0, x.1.now)) result (cell_at kind bytes.now) }
{
    let (site, rest) = site_of(bytes)?;
    let rest = exactly(number_of(kind), rest)?;
    let (n, rest) = u32_of(rest)?;
    Ok((Ref { site, n, kind }, rest))
}

#[tactic(auto, unfolding(crate::specs::Reading::group_number_at))]
pub(crate) fn group_number_of(bytes: &[u8]) -> Result<(GroupNo, &[u8]), Refused>
    ensures { Gives (λ x. (x.0, x.1.now)) result (group_number_at bytes.now) }
{
    let (thread, rest) = u32_of(bytes)?;
    let (n, rest) = u64_of(rest)?;
    Ok((GroupNo { thread, n }, rest))
}

#[tactic(auto, unfolding(crate::specs::Reading::code_number_at))]
pub(crate) fn code_number_of(bytes: &[u8]) -> Result<(CodeNo, &[u8]), Refused>
    ensures { Gives (λ x. (x.0, x.1.now)) result (code_number_at bytes.now) }
{
    let (source, rest) = u16_of(bytes)?;
    let (n, rest) = u32_of(rest)?;
    Ok((CodeNo { source, n }, rest))
}
