//! Comments.

ghost use Rattle.std.specs.Prelude.{◌+◌, ◌^◌, ◌<◌, length};
ghost use Rattle.obq_lex.specs.Scans.{CommentStep, ReadsComment};

use crate::stops::{Stop, cut};
use obq_base::LexKind;

/// What stands next inside a comment.
pub enum Inside<'a> {
    Opens(&'a [u8]),
    Closes(&'a [u8]),
    Byte(&'a [u8]),
    High,
    End,
}

fn step(x: &[u8]) -> Inside<'_>
    ensures { CommentStep x.now result }
{
    let Some((first, after)) = cut(x) else {
        return Inside::End;
    };
    if first >= 128 {
        return Inside::High;
    }
    let Some((second, rest)) = cut(after) else {
        return Inside::Byte(after);
    };
    if first == b'(' && second == b'*' {
        return Inside::Opens(rest);
    }
    if first == b'*' && second == b')' {
        return Inside::Closes(rest);
    }
    Inside::Byte(after)
}

/// What stands behind the comment whose `(*` stands before `x`.
pub fn past_comment(x: &[u8]) -> Result<&[u8], Stop>
    requires { length x.now + 2 < 2 ^ 63 }
    ensures { ReadsComment x.now result }
{
    let mut depth: usize = 1;
    let mut rest = x;
    loop {
        match step(rest) {
            Inside::Opens(after) => {
                depth += 1;
                rest = after;
            }
            Inside::Closes(after) => {
                if depth == 1 {
                    return Ok(after);
                }
                depth -= 1;
                rest = after;
            }
            Inside::Byte(after) => rest = after,
            Inside::High => {
                return Err(Stop::Fault {
                    kind: LexKind::NotAscii,
                    left: rest.len(),
                });
            }
            Inside::End => {
                return Err(Stop::Fault {
                    kind: LexKind::OpenComment,
                    left: x.len() + 2,
                });
            }
        }
    }
}
