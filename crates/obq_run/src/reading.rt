//! Reading the sources of the sites.

ghost use Rattle.std.specs.Prelude.{◌≡◌, ◌<◌, ◌≤◌, ℕ, List, IfErr, IfOk, MatchResult, length, string_bytes};
ghost use Rattle.obq_front.specs.Contents as front;
ghost use Rattle.obq_io.specs.Causes.{Rose};
ghost use Rattle.obq_io.specs.Known.{IsIt, WhereTold};
ghost use Rattle.obq_io.specs.Reads.{MatchReadRefused};
ghost use Rattle.obq_run.specs.Held.{AreHeld, IsFaultAt, IsTooLongAt, PathRose};
ghost use Rattle.obq_words.specs.Words.{names_of, paths_of};

use obq_base::limits::SOURCE_LIMIT;
use obq_front::Source;
use obq_io::{Files, ReadRefused, read_file};
use obq_words::SiteWord;
use std::alloc::Global;

/// Which file was not read, from 0, and why.
#[derive(Clone, Copy, Debug, PartialEq, Eq)]
pub struct SourcesRefused {
    pub file: u16,
    pub why: ReadRefused,
}

/// Reads the source of a site.
fn read_source<F: Files>(
    alloc: Global,
    files: &mut F,
    site: &SiteWord,
) -> Result<Source, ReadRefused>
    ensures same { (n : List ℕ) → F.holds files.new n ≡ F.holds files.old n }
    ensures later { (n : List ℕ) → F.faults files.old n ≤ F.faults files.new n }
    ensures named { IfOk result (λ s. s.name ≡ site.now.name) }
    ensures bound { IfOk result (λ s. length s.bytes.items ≤ SOURCE_LIMIT) }
    ensures unread { MatchResult result (λ s. IsIt (F.holds files.old (string_bytes site.now.path)) s.bytes.items)
        (λ why. MatchReadRefused why (Rose (F.faults files.old (string_bytes site.now.path)) (F.faults files.new (string_bytes site.now.path))) (WhereTold (F.holds files.old (string_bytes site.now.path)) (λ xs. SOURCE_LIMIT < length xs))) }
{
    let bytes = read_file(alloc, files, site.path.as_str(), SOURCE_LIMIT)?;
    let Ok(name) = site.name.copy(alloc) else {
        return Err(ReadRefused::NoMemory);
    };
    Ok(Source { name, bytes })
}

/// Reads the sources of the sites in order.
pub fn read_sources<F: Files>(
    alloc: Global,
    files: &mut F,
    sites: &[SiteWord],
) -> Result<Vec<Source>, SourcesRefused>
    requires { length sites.now ≤ 16 }
    ensures same { (n : List ℕ) → F.holds files.new n ≡ F.holds files.old n }
    ensures later { (n : List ℕ) → F.faults files.old n ≤ F.faults files.new n }
    ensures held { IfOk result (λ sources. AreHeld (F.holds files.old) SOURCE_LIMIT (paths_of sites.now) (front.contents sources.items)) }
    ensures named { IfOk result (λ sources. front.names_of sources.items ≡ names_of sites.now) }
    ensures unread { IfErr result (λ s. MatchReadRefused s.why (IsFaultAt (F.holds files.old) SOURCE_LIMIT (PathRose (F.faults files.old) (F.faults files.new)) (paths_of sites.now) s.file) (IsTooLongAt (F.holds files.old) SOURCE_LIMIT (paths_of sites.now) s.file)) }
{
    let mut sources = Vec::new(alloc);
    for (i, site) in sites.iter().enumerate() {
        let file = i as u16;
        match read_source(alloc, files, site) {
            Ok(source) => {
                if sources.push(source).is_err() {
                    let why = ReadRefused::NoMemory;
                    return Err(SourcesRefused { file, why });
                }
            }
            Err(why) => return Err(SourcesRefused { file, why }),
        }
    }
    Ok(sources)
}
