//! Sources and their tokens.

use crate::rows::{bytes_of, repeated, text_of};
use obq_base::limits::SOURCE_LIMIT;
use obq_base::{Token, TokenKind};
use obq_lex::{LexRefused, lex};
use obq_tables::{KEYWORDS, find, keyword_rows, symbol_rows};
use std::alloc::{AllocError, Global};
use std::io;

/// So many tokens of a source are shown at most.
const SHOWN: usize = 16;
/// So many tokens of a long source are shown at most.
const SHOWN_OF_LONG: usize = 2;
/// A text of more bytes isn't shown.
const SHORT: usize = 40;

/// The place of words in the table of keywords.
pub fn print_keywords(rt: &impl Print) -> io::Result<()> {
    for word in ["meth", "method", ""] {
        match find(&KEYWORDS, word.as_bytes()) {
            Some(row) => {
                let text = KEYWORDS[row].text;
                println!(rt; "{word:?} is keyword {row}, {text}")?;
            }
            None => println!(rt; "{word:?} is no keyword")?,
        }
    }
    Ok(())
}

fn show_text(out: &mut String, bytes: &[u8]) -> Result<(), AllocError> {
    if bytes.len() > SHORT {
        let count = bytes.len();
        return write!(out, "text of {count} bytes");
    }
    let text = text_of(bytes);
    write!(out, "text {text:?}")
}

fn show(out: &mut String, token: &Token) -> Result<(), AllocError> {
    match &token.kind {
        TokenKind::Name(name) => {
            let name = text_of(name.as_bytes());
            write!(out, "name {name}")?;
        }
        TokenKind::Int(value) => write!(out, "{value}")?,
        TokenKind::Text(text) => show_text(out, text.as_bytes())?,
        TokenKind::Keyword(row) => match keyword_rows().get(*row as usize) {
            Some(keyword) => out.push_str(keyword.text)?,
            None => out.push_str("no keyword")?,
        },
        TokenKind::Symbol(row) => match symbol_rows().get(*row as usize) {
            Some(symbol) => out.push_str(symbol.text)?,
            None => out.push_str("no symbol")?,
        },
        TokenKind::EndOfSource => out.push_str("end of source")?,
    }
    let place = token.place;
    write!(out, "@{place}")
}

/// The last tokens, at most so many, each with its place.
fn shown_tokens(alloc: Global, tokens: &[Token], most: usize) -> Result<String, AllocError> {
    let mut out = String::new(alloc);
    let skipped = tokens.len().saturating_sub(most);
    if skipped > 0 {
        write!(out, " {skipped} tokens and")?;
    }
    for token in tokens.iter().skip(skipped) {
        out.push(' ')?;
        show(&mut out, token)?;
    }
    Ok(out)
}

/// Prints a row with the last tokens of its source, at most so many, or its fault.
fn print_tokens(
    rt: &impl Print,
    alloc: Global,
    row: &str,
    source: &[u8],
    most: usize,
) -> io::Result<()> {
    if source.len() > SOURCE_LIMIT {
        return println!(rt; "{row}  =>  too long a source");
    }
    match lex(alloc, source) {
        Ok(tokens) => {
            let found = shown_tokens(alloc, &tokens, most)?;
            println!(rt; "{row}  => {found}")
        }
        Err(LexRefused::Fault { kind, place }) => println!(rt; "{row}  =>  {kind:?} at {place}"),
        Err(LexRefused::NoMemory) => println!(rt; "{row}  =>  no memory"),
    }
}

/// Sources, a line each.
pub fn print_sources(rt: &impl Print, alloc: Global, rows: &str) -> io::Result<()> {
    for row in rows.trim_end_matches('\n').split('\n') {
        let source = bytes_of(alloc, row)?;
        print_tokens(rt, alloc, row, &source, SHOWN)?;
    }
    Ok(())
}

/// Sources by their parts, a line each.
pub fn print_long_sources(rt: &impl Print, alloc: Global, rows: &str) -> io::Result<()> {
    for row in rows.trim_end_matches('\n').split('\n') {
        let source = repeated(alloc, row)?;
        print_tokens(rt, alloc, row, &source, SHOWN_OF_LONG)?;
    }
    Ok(())
}
