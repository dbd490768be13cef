//! The texts that a call writes. Numbers are written from a buffer on the stack, so no call here
//! takes memory.

ghost use Rattle.std.specs.Prelude.{◌≡◌, [], MatchOption, None, OnOk, Some, slice_get, slice_index_or};
ghost use Rattle.std.specs.Io.KnownBytes.{Appends};
ghost use Rattle.std.specs.List.{zip};
ghost use Rattle.obq_io.specs.Causes.{HasCause};
ghost use Rattle.obq_io.specs.Known.{GetsPrefix};
ghost use Rattle.obq_model.specs.Output.{check_text, kind_text, lexical_line, ok_line, refused_line, report_line, site_text, syntax_line, unbound_line};
ghost use Rattle.obq_run.specs.Ends.{line_of};
ghost use Rattle.obq_run.specs.Played.{output_text, sites_text, texts_of};
ghost use Rattle.obq_words.specs.Words.{names_of};

use crate::ends::Cause;
use crate::outcome::Outcome;
use itoa::Buffer;
use obq_base::{LexKind, Report, SourceFault};
use obq_ends::report_line;
use obq_io::{Failed, Sink, write_pieces, write_text};
use obq_words::SiteWord;

/// Writes what a site of this name wrote.
fn write_site<S: Sink>(out: &mut S, name: &[u8], bytes: &[u8]) -> Result<(), Failed>
    ensures whole { OnOk result (Appends (S.written out.old) (S.written out.new) (site_text name.now bytes.now)) }
    ensures prefix { GetsPrefix (S.written out.old) (S.written out.new) (site_text name.now bytes.now) }
    ensures cause { HasCause (S.faults out.old) (S.faults out.new) result }
{
    let mut length = Buffer::new();
    let digits = length.format(bytes.len()).as_bytes();
    write_pieces(
        out,
        &[b"== ", name, b" ", digits, b" ==", b"\n", bytes, b"\n"],
    )
}

/// Writes how the threads of a run ended.
fn write_report<S: Sink>(out: &mut S, report: Report) -> Result<(), Failed>
    ensures whole { OnOk result (Appends (S.written out.old) (S.written out.new) (report_line report)) }
    ensures prefix { GetsPrefix (S.written out.old) (S.written out.new) (report_line report) }
    ensures cause { HasCause (S.faults out.old) (S.faults out.new) result }
{
    report_line(report).write_to(out)
}

/// The text with this number.
#[tactic(auto, using(crate::proofs::Zipped::text_at))]
fn text_at(texts: &[Vec<u8>], k: usize) -> Option<&[u8]>
    ensures { MatchOption result (slice_get (texts_of texts.now) k ≡ None) (λ bytes. slice_get (texts_of texts.now) k ≡ Some bytes.now) }
{
    match texts.get(k) {
        Some(text) => Some(text.as_slice()),
        None => None,
    }
}

/// Writes what each site wrote.
fn write_sites<S: Sink>(out: &mut S, sites: &[SiteWord], texts: &[Vec<u8>]) -> Result<(), Failed>
    ensures whole { OnOk result (Appends (S.written out.old) (S.written out.new) (sites_text (zip (names_of sites.now) (texts_of texts.now)))) }
    ensures prefix { GetsPrefix (S.written out.old) (S.written out.new) (sites_text (zip (names_of sites.now) (texts_of texts.now))) }
    ensures cause { HasCause (S.faults out.old) (S.faults out.new) result }
{
    for (k, site) in sites.iter().enumerate() {
        match text_at(texts, k) {
            Some(bytes) => write_site(out, site.name.as_bytes(), bytes)?,
            None => return Ok(()),
        }
    }
    Ok(())
}

/// Writes the output of a run: each site in order, the threads, and the text of the journal where it
/// is asked for.
pub fn write_output<S: Sink>(
    out: &mut S,
    sites: &[SiteWord],
    outcome: &Outcome,
    journal: &[u8],
) -> Result<(), Failed>
    ensures whole { OnOk result (Appends (S.written out.old) (S.written out.new) (output_text (names_of sites.now) outcome.now journal.now)) }
    ensures prefix { GetsPrefix (S.written out.old) (S.written out.new) (output_text (names_of sites.now) outcome.now journal.now) }
    ensures cause { HasCause (S.faults out.old) (S.faults out.new) result }
{
    write_sites(out, sites, &outcome.texts)?;
    write_report(out, outcome.report)?;
    write_text(out, journal)
}

/// Writes that the source of a site is accepted.
fn write_ok<S: Sink>(out: &mut S, name: &[u8]) -> Result<(), Failed>
    ensures whole { OnOk result (Appends (S.written out.old) (S.written out.new) (ok_line name.now)) }
    ensures prefix { GetsPrefix (S.written out.old) (S.written out.new) (ok_line name.now) }
    ensures cause { HasCause (S.faults out.old) (S.faults out.new) result }
{
    write_pieces(out, &[name, b" ok", b"\n"])
}

/// Writes that the sources of these sites are accepted.
pub fn write_checked<S: Sink>(out: &mut S, sites: &[SiteWord]) -> Result<(), Failed>
    ensures whole { OnOk result (Appends (S.written out.old) (S.written out.new) (check_text (names_of sites.now))) }
    ensures prefix { GetsPrefix (S.written out.old) (S.written out.new) (check_text (names_of sites.now)) }
    ensures cause { HasCause (S.faults out.old) (S.faults out.new) result }
{
    for site in sites {
        write_ok(out, site.name.as_bytes())?;
    }
    Ok(())
}

/// The name of the site with this number; nothing where there is none.
fn name_at(sites: &[SiteWord], k: u16) -> &[u8]
    ensures { result.now ≡ slice_index_or (names_of sites.now) k [] }
{
    match sites.get(k as usize) {
        Some(site) => site.name.as_bytes(),
        None => &[],
    }
}

fn kind_text(kind: LexKind) -> &'static str
    ensures { result.now ≡ kind_text kind }
{
    match kind {
        LexKind::Stray => "Stray",
        LexKind::OpenText => "OpenText",
        LexKind::LongText => "LongText",
        LexKind::OpenComment => "OpenComment",
        LexKind::BadEscape => "BadEscape",
        LexKind::IntRange => "IntRange",
        LexKind::Real => "Real",
        LexKind::NotAscii => "NotAscii",
        LexKind::TooDeep => "TooDeep",
    }
}

/// Writes the line of a lexical fault of this kind, at this byte.
fn write_lexical<S: Sink>(err: &mut S, name: &[u8], kind: &[u8], place: u32) -> Result<(), Failed>
    ensures whole { OnOk result (Appends (S.written err.old) (S.written err.new) (lexical_line name.now kind.now place)) }
    ensures prefix { GetsPrefix (S.written err.old) (S.written err.new) (lexical_line name.now kind.now place) }
    ensures cause { HasCause (S.faults err.old) (S.faults err.new) result }
{
    let mut number = Buffer::new();
    let place = number.format(place).as_bytes();
    write_pieces(
        err,
        &[name, b": lexical ", kind, b" at byte ", place, b"\n"],
    )
}

/// Writes the line of a syntax fault at this token.
fn write_syntax<S: Sink>(err: &mut S, name: &[u8], token: u32) -> Result<(), Failed>
    ensures whole { OnOk result (Appends (S.written err.old) (S.written err.new) (syntax_line name.now token)) }
    ensures prefix { GetsPrefix (S.written err.old) (S.written err.new) (syntax_line name.now token) }
    ensures cause { HasCause (S.faults err.old) (S.faults err.new) result }
{
    let mut number = Buffer::new();
    let token = number.format(token).as_bytes();
    write_pieces(err, &[name, b": syntax at token ", token, b"\n"])
}

/// Writes the line of an unbound name that begins at this byte.
fn write_unbound<S: Sink>(err: &mut S, name: &[u8], word: &[u8], place: u32) -> Result<(), Failed>
    ensures whole { OnOk result (Appends (S.written err.old) (S.written err.new) (unbound_line name.now word.now place)) }
    ensures prefix { GetsPrefix (S.written err.old) (S.written err.new) (unbound_line name.now word.now place) }
    ensures cause { HasCause (S.faults err.old) (S.faults err.new) result }
{
    let mut number = Buffer::new();
    let place = number.format(place).as_bytes();
    write_pieces(
        err,
        &[name, b": unbound ", word, b" at byte ", place, b"\n"],
    )
}

/// Writes the line of a source that is refused.
fn write_refused<S: Sink>(err: &mut S, name: &[u8], fault: &SourceFault) -> Result<(), Failed>
    ensures whole { OnOk result (Appends (S.written err.old) (S.written err.new) (refused_line name.now fault.now)) }
    ensures prefix { GetsPrefix (S.written err.old) (S.written err.new) (refused_line name.now fault.now) }
    ensures cause { HasCause (S.faults err.old) (S.faults err.new) result }
{
    match fault {
        SourceFault::Lexical { kind, place } => {
            write_lexical(err, name, kind_text(*kind).as_bytes(), *place)
        }
        SourceFault::Syntax { token } => write_syntax(err, name, *token),
        SourceFault::Unbound { name: word, place } => {
            write_unbound(err, name, word.as_bytes(), *place)
        }
    }
}

/// Writes the line that tells the cause of a call on these sites; nothing where its work was done.
pub fn write_cause<S: Sink>(err: &mut S, sites: &[SiteWord], cause: &Cause) -> Result<(), Failed>
    ensures whole { OnOk result (Appends (S.written err.old) (S.written err.new) (line_of (names_of sites.now) cause.now)) }
    ensures prefix { GetsPrefix (S.written err.old) (S.written err.new) (line_of (names_of sites.now) cause.now) }
    ensures cause { HasCause (S.faults err.old) (S.faults err.new) result }
{
    let mut number = Buffer::new();
    match cause {
        Cause::Ran | Cause::Checked | Cause::Replayed => Ok(()),
        Cause::Usage { word } => {
            let word = number.format(*word).as_bytes();
            write_pieces(err, &[b"usage: word ", word, b"\n"])
        }
        Cause::TooManySites { word } => {
            let word = number.format(*word).as_bytes();
            write_pieces(err, &[b"too many sites: word ", word, b"\n"])
        }
        Cause::SourceTooLong { source } => {
            let name = name_at(sites, *source);
            write_pieces(err, &[name, b": source too long", b"\n"])
        }
        Cause::JournalTooLong => write_pieces(err, &[b"journal too long", b"\n"]),
        Cause::Refused { source, fault } => write_refused(err, name_at(sites, *source), fault),
        Cause::ReadFault { file } => {
            let file = number.format(*file).as_bytes();
            write_pieces(err, &[b"read fault at file ", file, b"\n"])
        }
        Cause::WriteFault => write_pieces(err, &[b"write fault", b"\n"]),
        Cause::BadJournal { line } => {
            let line = number.format(*line).as_bytes();
            write_pieces(err, &[b"journal line ", line, b"\n"])
        }
        Cause::NotLegal { entry } => {
            let entry = number.format(*entry).as_bytes();
            write_pieces(err, &[b"journal entry ", entry, b" not legal", b"\n"])
        }
        Cause::Unfinished { thread } => {
            let thread = number.format(*thread).as_bytes();
            write_pieces(err, &[b"journal stops before thread ", thread, b"\n"])
        }
        Cause::NoMemory => write_pieces(err, &[b"no memory", b"\n"]),
    }
}
