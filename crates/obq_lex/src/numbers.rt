//! Integers.

ghost use Rattle.std.specs.Prelude.{◌≡◌, ◌^◌, ◌+◌, min};
ghost use Rattle.obq_model.specs.Tokens.{begins_fraction, magnitude};
ghost use Rattle.obq_lex.specs.Scans.{ReadsInteger};

use crate::stops::cut;

/// One more than the greatest `i64`, which is what the least one is below zero.
const LIMIT: u64 = 1 << 63;

/// The number that digits stand for, or more than `LIMIT` where it is.
fn magnitude(digits: &[u8]) -> u64
    ensures { min result (2 ^ 63 + 1) ≡ min (magnitude digits.now) (2 ^ 63 + 1) }
{
    let mut value: u64 = 0;
    for d in digits {
        if value > LIMIT / 10 {
            return LIMIT + 1;
        }
        value = 10 * value + u64::from(d.saturating_sub(b'0'));
    }
    value
}

/// The integer of these digits, with a minus before it or not, where an `i64` holds it.
pub fn integer(minus: bool, digits: &[u8]) -> Option<i64>
    ensures { ReadsInteger minus digits.now result }
{
    let value = magnitude(digits);
    if !minus {
        return if value < LIMIT {
            Some(value as i64)
        } else {
            None
        };
    }
    if value > LIMIT {
        return None;
    }
    if value == LIMIT {
        return Some(i64::MIN);
    }
    Some(-(value as i64))
}

/// Whether `.` and a digit stand there.
pub fn begins_fraction(x: &[u8]) -> bool
    ensures { result ≡ begins_fraction x.now }
{
    let Some((first, after)) = cut(x) else {
        return false;
    };
    let Some((second, _)) = cut(after) else {
        return false;
    };
    first == b'.' && second.is_ascii_digit()
}
