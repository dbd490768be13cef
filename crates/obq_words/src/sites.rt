//! Site words.

ghost use Rattle.std.specs.Prelude.{◌≡◌, ◌&&◌, ◌≤◌, IfOk, MatchResult, None, not, string_bytes};
ghost use Rattle.std.specs.List.{list_all};
ghost use Rattle.obq_words.specs.CommandLine.{bad_sites, is_name_byte, is_site_name, is_site_word, name_part, path_part};
ghost use Rattle.obq_model.specs.Put.{among};
ghost use Rattle.obq_words.specs.Words.{GivesSites, TellsWord, bytes_of, names_in, names_of, paths_in, paths_of};

use crate::words::{SiteWord, WordsRefused};
use obq_base::limits::SITE_LIMIT;
use obq_base::{Name, NoMemory};
use std::alloc::Global;

fn is_name_byte(byte: u8) -> bool
    ensures { result ≡ is_name_byte byte }
{
    byte.is_ascii_alphanumeric() || byte == b'_'
}

fn are_name_bytes(bytes: &[u8]) -> bool
    ensures { result ≡ list_all is_name_byte bytes.now }
{
    bytes.iter().all(|b| is_name_byte(*b))
}

fn is_site_name(name: &[u8]) -> bool
    ensures { result ≡ is_site_name name.now }
{
    match name {
        [] => false,
        [first, more @ ..] => {
            if !first.is_ascii_alphabetic() || !are_name_bytes(more) {
                return false;
            }
            more.len() <= 31
        }
    }
}

/// What stands before and behind the first `=`; the whole word and nothing where there is none.
fn cut(word: &str) -> (&str, &str)
    ensures name { result.0.now ≡ name_part word.now }
    ensures path { result.1.now ≡ path_part word.now }
{
    match word.split_once('=') {
        None => (word, ""),
        Some(parts) => parts,
    }
}

fn is_site_word(word: &str) -> bool
    ensures { result ≡ is_site_word word.now }
{
    match word.split_once('=') {
        None => false,
        Some((name, path)) => is_site_name(name.as_bytes()) && !path.is_empty(),
    }
}

/// Whether one of these words begins with the name.
fn is_given(name: &str, words: &[String]) -> bool
    ensures { result ≡ among name.now (names_in (bytes_of words.now)) }
{
    words.iter().any(|word| name == cut(word.as_str()).0)
}

/// Whether this is a site word whose name none of the earlier ones gave.
fn can_stand(word: &str, earlier: &[String]) -> bool
    ensures { result ≡ (is_site_word word.now && not (among (name_part word.now) (names_in (bytes_of earlier.now)))) }
{
    is_site_word(word) && !is_given(cut(word).0, earlier)
}

/// Finds the first of the words that can't stand in its place, where the sites begin at the word of
/// this number.
fn check_sites(place: u32, words: &[String]) -> Result<(), WordsRefused>
    requires { place ≤ 7 }
    ensures { MatchResult result (λ _. bad_sites place (bytes_of words.now) ≡ None) (λ refused. TellsWord (bad_sites place (bytes_of words.now)) refused) }
{
    if words.is_empty() {
        return Err(WordsRefused::Usage { word: place });
    }
    for (i, word) in words.iter().enumerate() {
        if !can_stand(word.as_str(), &words[..i]) {
            return Err(WordsRefused::Usage {
                word: place + i as u32,
            });
        }
        if i == SITE_LIMIT {
            return Err(WordsRefused::TooManySites {
                word: place + i as u32,
            });
        }
    }
    Ok(())
}

/// The site of one word.
fn read_site(alloc: Global, word: &str) -> Result<SiteWord, NoMemory>
    ensures name { IfOk result (λ site. site.name ≡ name_part word.now) }
    ensures path { IfOk result (λ site. string_bytes site.path ≡ path_part word.now) }
{
    let (name, path) = cut(word);
    Ok(SiteWord {
        name: Name::new(Vec::from_slice(alloc, name.as_bytes())?),
        path: String::from_str(alloc, path)?,
    })
}

/// The sites of these words, in order.
fn copy_sites(alloc: Global, words: &[String]) -> Result<Vec<SiteWord>, NoMemory>
    ensures names { IfOk result (λ sites. names_of sites.items ≡ names_in (bytes_of words.now)) }
    ensures paths { IfOk result (λ sites. paths_of sites.items ≡ paths_in (bytes_of words.now)) }
{
    let mut sites = Vec::new(alloc);
    for word in words {
        sites.push(read_site(alloc, word.as_str())?)?;
    }
    Ok(sites)
}

/// The sites of these words, which begin at the word of this number, or the first word that can't
/// stand in its place.
pub fn read_sites(
    alloc: Global,
    place: u32,
    words: &[String],
) -> Result<Vec<SiteWord>, WordsRefused>
    requires { place ≤ 7 }
    ensures { GivesSites place (bytes_of words.now) result }
{
    check_sites(place, words)?;
    match copy_sites(alloc, words) {
        Ok(sites) => Ok(sites),
        Err(_) => Err(WordsRefused::NoMemory),
    }
}
