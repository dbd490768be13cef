//! The names of the kinds of acts in a journal.

ghost use Rattle.std.specs.Prelude.{◌≡◌};
ghost use Rattle.obq_model.specs.JournalText as text;

use obq_base::ActKind;

/// All kinds of acts, in the order of their declaration.
const KINDS: [ActKind; 24] = [
    ActKind::New,
    ActKind::Get,
    ActKind::Call,
    ActKind::Leave,
    ActKind::Hop,
    ActKind::Set,
    ActKind::Copy,
    ActKind::Redirect,
    ActKind::ArrayGet,
    ActKind::ArraySet,
    ActKind::VarGet,
    ActKind::VarSet,
    ActKind::Put,
    ActKind::Fork,
    ActKind::Join,
    ActKind::Line,
    ActKind::GiveUp,
    ActKind::Again,
    ActKind::Signal,
    ActKind::Broadcast,
    ActKind::Export,
    ActKind::Import,
    ActKind::Engine,
    ActKind::End,
];

/// The name of a kind.
pub fn kind_name(kind: ActKind) -> &'static [u8]
    ensures { result.now ≡ text.kind_name kind }
{
    match kind {
        ActKind::New => b"New",
        ActKind::Get => b"Get",
        ActKind::Call => b"Call",
        ActKind::Leave => b"Leave",
        ActKind::Hop => b"Hop",
        ActKind::Set => b"Set",
        ActKind::Copy => b"Copy",
        ActKind::Redirect => b"Redirect",
        ActKind::ArrayGet => b"ArrayGet",
        ActKind::ArraySet => b"ArraySet",
        ActKind::VarGet => b"VarGet",
        ActKind::VarSet => b"VarSet",
        ActKind::Put => b"Put",
        ActKind::Fork => b"Fork",
        ActKind::Join => b"Join",
        ActKind::Line => b"Line",
        ActKind::GiveUp => b"GiveUp",
        ActKind::Again => b"Again",
        ActKind::Signal => b"Signal",
        ActKind::Broadcast => b"Broadcast",
        ActKind::Export => b"Export",
        ActKind::Import => b"Import",
        ActKind::Engine => b"Engine",
        ActKind::End => b"End",
    }
}

/// The first of these kinds that has this name.
fn kind_among(kinds: &[ActKind], word: &[u8]) -> Option<ActKind>
    ensures { result ≡ text.kind_among kinds.now word.now }
{
    for kind in kinds {
        if word == kind_name(*kind) {
            return Some(*kind);
        }
    }
    None
}

/// The kind that has this name.
pub fn kind_named(word: &[u8]) -> Option<ActKind>
    ensures { result ≡ text.kind_named word.now }
{
    kind_among(&KINDS, word)
}
