//! Texts.

ghost use Rattle.std.specs.Prelude.{◌≡◌, ◌+◌, ◌^◌, ◌<◌, ◌∷◌, length};
ghost use Rattle.obq_model.specs.Tokens.{escape, is_plain};
ghost use Rattle.obq_lex.specs.Scans.{ReadsText, TextStep};

use crate::stops::{Stop, cut};
use obq_base::limits::TEXT_LIMIT;
use obq_base::{LexKind, Text};
use std::alloc::Global;

/// What stands next in a text.
pub enum InText<'a> {
    /// A byte of the text, which an escape may stand for.
    Byte(u8, &'a [u8]),
    Closes(&'a [u8]),
    /// The end of the line or of the source.
    Open,
    /// A byte that isn't allowed.
    Refused(LexKind),
}

fn escape(c: u8) -> Option<u8>
    ensures { result ≡ escape c }
{
    match c {
        b'n' => Some(b'\n'),
        b't' => Some(b'\t'),
        b'"' => Some(b'"'),
        b'\\' => Some(b'\\'),
        _ => None,
    }
}

fn is_plain(b: u8) -> bool
    ensures { result ≡ is_plain b }
{
    32 <= b && b <= 126 && b != b'"' && b != b'\\'
}

/// What stands behind a `\`.
fn escaped(x: &[u8]) -> InText<'_>
    ensures { TextStep (92 ∷ x.now) result }
{
    let Some((c, after)) = cut(x) else {
        return InText::Refused(LexKind::BadEscape);
    };
    match escape(c) {
        Some(byte) => InText::Byte(byte, after),
        None => InText::Refused(LexKind::BadEscape),
    }
}

fn step(x: &[u8]) -> InText<'_>
    ensures { TextStep x.now result }
{
    let Some((b, after)) = cut(x) else {
        return InText::Open;
    };
    if is_plain(b) {
        return InText::Byte(b, after);
    }
    if b == b'"' {
        return InText::Closes(after);
    }
    if b == b'\\' {
        return escaped(after);
    }
    if b == b'\n' {
        return InText::Open;
    }
    if b >= 128 {
        return InText::Refused(LexKind::NotAscii);
    }
    InText::Refused(LexKind::Stray)
}

/// The text whose opening mark stands before `x`, and what is left behind its closing mark.
pub fn read_text(alloc: Global, x: &[u8]) -> Result<(Text, &[u8]), Stop>
    requires { length x.now + 1 < 2 ^ 63 }
    ensures { ReadsText x.now result }
{
    let mut bytes = Vec::new(alloc);
    let mut rest = x;
    loop {
        match step(rest) {
            InText::Byte(byte, after) => {
                if bytes.len() == TEXT_LIMIT {
                    return Err(Stop::Fault {
                        kind: LexKind::LongText,
                        left: x.len() + 1,
                    });
                }
                match bytes.push(byte) {
                    Ok(()) => rest = after,
                    Err(_) => return Err(Stop::NoMemory),
                }
            }
            InText::Closes(after) => return Ok((Text::new(bytes), after)),
            InText::Open => {
                return Err(Stop::Fault {
                    kind: LexKind::OpenText,
                    left: x.len() + 1,
                });
            }
            InText::Refused(kind) => {
                return Err(Stop::Fault {
                    kind,
                    left: rest.len(),
                });
            }
        }
    }
}
