//! The piece of a source that stands at a place.

ghost use Rattle.std.specs.Prelude.{◌≡◌, ◌≢◌, ◌+◌, ◌^◌, ◌<◌, ◌≤◌, [], ◌∷◌, IsTrue, drop, false, length, take};
ghost use Rattle.std.specs.List.{list_all};
ghost use Rattle.std.specs.Char.{is_ascii_alphabetic, is_ascii_digit};
ghost use Rattle.obq_model.specs.Tokens.{begins, is_white, is_word_byte};
ghost use Rattle.obq_lex.specs.Scans.{BeginsNoOther, Cuts, IsSigned, ReadsSymbol, ReadsSymbolOf};

use crate::comments::past_comment;
use crate::numbers::{begins_fraction, integer};
use crate::stops::{Stop, cut};
use crate::texts::read_text;
use obq_base::{LexKind, Name, TokenKind};
use obq_tables::{find, keyword_rows, symbol_rows};
use std::alloc::Global;

/// A piece that could be read, and what is left behind it.
pub enum Piece<'a> {
    /// White space or a comment.
    Blank(&'a [u8]),
    Token(TokenKind, &'a [u8]),
}

fn is_white(b: u8) -> bool
    ensures { result ≡ is_white b }
{
    b == b'\t' || b == b'\n' || b == b'\r' || b == b' '
}

fn is_word_byte(b: u8) -> bool
    ensures { result ≡ is_word_byte b }
{
    b.is_ascii_alphabetic() || b.is_ascii_digit() || b == b'_'
}

/// How many bytes of words stand at the front.
fn word_len(x: &[u8]) -> usize
    ensures within { result ≤ length x.now }
    ensures all { IsTrue (list_all is_word_byte (take result x.now)) }
    ensures ends { begins is_word_byte (drop result x.now) ≡ false }
{
    for (i, b) in x.iter().enumerate() {
        if !is_word_byte(*b) {
            return i;
        }
    }
    x.len()
}

/// How many digits stand at the front.
fn digits_len(x: &[u8]) -> usize
    ensures within { result ≤ length x.now }
    ensures all { IsTrue (list_all is_ascii_digit (take result x.now)) }
    ensures ends { begins is_ascii_digit (drop result x.now) ≡ false }
{
    for (i, b) in x.iter().enumerate() {
        if !b.is_ascii_digit() {
            return i;
        }
    }
    x.len()
}

fn fault_at(kind: LexKind, x: &[u8]) -> Stop
    ensures { result ≡ Stop.Fault kind (length x.now) }
{
    Stop::Fault {
        kind,
        left: x.len(),
    }
}

/// The keyword or name at a letter.
fn word_at(alloc: Global, x: &[u8]) -> Result<Piece<'_>, Stop>
    requires { IsTrue (begins is_ascii_alphabetic x.now) }
    ensures { Cuts x.now result }
{
    let (word, rest) = x.split_at(word_len(x));
    if let Some(row) = find(keyword_rows(), word) {
        return Ok(Piece::Token(TokenKind::Keyword(row as u32), rest));
    }
    match Vec::from_slice(alloc, word) {
        Ok(bytes) => Ok(Piece::Token(TokenKind::Name(Name::new(bytes)), rest)),
        Err(_) => Err(Stop::NoMemory),
    }
}

/// The integer at `x`, whose digits are at `digits`, behind its minus if it has one.
fn number_at<'a>(minus: bool, x: &'a [u8], digits: &'a [u8]) -> Result<Piece<'a>, Stop>
    requires signed { IsSigned minus x.now digits.now }
    requires digit { IsTrue (begins is_ascii_digit digits.now) }
    ensures { Cuts x.now result }
{
    let (number, rest) = digits.split_at(digits_len(digits));
    if begins_fraction(rest) {
        return Err(fault_at(LexKind::Real, x));
    }
    match integer(minus, number) {
        Some(value) => Ok(Piece::Token(TokenKind::Int(value), rest)),
        None => Err(fault_at(LexKind::IntRange, x)),
    }
}

/// The text whose opening mark stands before `after`.
fn text_at(alloc: Global, after: &[u8]) -> Result<Piece<'_>, Stop>
    requires { length after.now + 1 < 2 ^ 63 }
    ensures { Cuts (34 ∷ after.now) result }
{
    match read_text(alloc, after) {
        Ok((text, rest)) => Ok(Piece::Token(TokenKind::Text(text), rest)),
        Err(stop) => Err(stop),
    }
}

/// The comment whose `(*` stands before `inside`.
fn comment_at(inside: &[u8]) -> Result<Piece<'_>, Stop>
    requires { length inside.now + 2 < 2 ^ 63 }
    ensures { Cuts (40 ∷ 42 ∷ inside.now) result }
{
    match past_comment(inside) {
        Ok(rest) => Ok(Piece::Blank(rest)),
        Err(stop) => Err(stop),
    }
}

/// The symbol of so many bytes at the front.
fn symbol_of(x: &[u8], len: usize) -> Option<(u32, &[u8])>
    ensures { ReadsSymbolOf len x.now result }
{
    if x.len() < len {
        return None;
    }
    let (key, rest) = x.split_at(len);
    match find(symbol_rows(), key) {
        Some(row) => Some((row as u32, rest)),
        None => None,
    }
}

/// The symbol at the front, the longer of two.
fn read_symbol(x: &[u8]) -> Option<(u32, &[u8])>
    ensures { ReadsSymbol x.now result }
{
    let long = symbol_of(x, 2);
    if long.is_some() {
        return long;
    }
    symbol_of(x, 1)
}

/// The symbol at a byte that begins no other token and no comment.
fn symbol_at(x: &[u8]) -> Result<Piece<'_>, Stop>
    requires { BeginsNoOther x.now }
    ensures { Cuts x.now result }
{
    match read_symbol(x) {
        Some((row, rest)) => Ok(Piece::Token(TokenKind::Symbol(row), rest)),
        None => Err(fault_at(LexKind::Stray, x)),
    }
}

/// The piece at the front of what is left of a source.
pub fn piece_at(alloc: Global, x: &[u8]) -> Result<Piece<'_>, Stop>
    requires there { x.now ≢ [] }
    requires fits { length x.now < 2 ^ 62 }
    ensures { Cuts x.now result }
{
    let Some((first, after)) = cut(x) else {
        return symbol_at(x);
    };
    if is_white(first) {
        return Ok(Piece::Blank(after));
    }
    if first.is_ascii_alphabetic() {
        return word_at(alloc, x);
    }
    if first.is_ascii_digit() {
        return number_at(false, x, x);
    }
    if first == b'"' {
        return text_at(alloc, after);
    }
    if first >= 128 {
        return Err(fault_at(LexKind::NotAscii, x));
    }
    if let Some((second, rest)) = cut(after) {
        if first == b'(' && second == b'*' {
            return comment_at(rest);
        }
        if first == b'~' && second.is_ascii_digit() {
            return number_at(true, x, after);
        }
    }
    symbol_at(x)
}
