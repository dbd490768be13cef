//! Lines and words: texts cut at a byte, and decimal numbers.

ghost use Rattle.std.specs.Prelude.{◌≡◌, ◌<◌, ◌≤◌, ◌∷◌, ◌==◌, [], IfSome, MatchOption, length};
ghost use Rattle.std.specs.List.{slice_split};
ghost use Rattle.obq_model.specs.JournalText as text;

use memchr::memchr;

/// What stands before and behind the first such byte; none where the text has none.
pub fn cut_at(text: &[u8], byte: u8) -> Option<(&[u8], &[u8])>
    ensures cut { MatchOption result (slice_split (λ b. b == byte) text.now ≡ text.now ∷ []) (λ x. slice_split (λ b. b == byte) text.now ≡ x.0.now ∷ slice_split (λ b. b == byte) x.1.now) }
    ensures shorter { IfSome result (λ x. length x.1.now < length text.now) }
{
    let Some(place) = memchr(byte, text) else {
        return None;
    };
    Some((&text[..place], &text[place + 1..]))
}

/// Whether these are decimal digits without a leading zero.
fn is_number(word: &[u8]) -> bool
    ensures { result ≡ text.is_number word.now }
{
    match word {
        [] => false,
        [digit] => digit.is_ascii_digit(),
        [first, ..] => *first != b'0' && word.iter().all(|b| b.is_ascii_digit()),
    }
}

/// The decimal number that the word is, where it is within these bounds.
pub fn number_from(word: &[u8], least: u64, most: u64) -> Option<u64>
    ensures value { result ≡ text.number_from least most word.now }
    ensures bound { IfSome result (λ n. n ≤ most) }
{
    if !is_number(word) {
        return None;
    }
    let Ok(digits) = str::from_utf8(word) else {
        return None;
    };
    let Ok(value) = digits.parse::<u64>() else {
        return None;
    };
    if least <= value && value <= most {
        Some(value)
    } else {
        None
    }
}
