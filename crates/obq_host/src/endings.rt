//! How threads end.

ghost use Rattle.std.specs.Prelude.{◌≡◌, IfOk, Some, option_map};
ghost use Rattle.obq_host.specs.Endings.{ending_in, ending_of, plain_ending};
ghost use Rattle.obq_model.specs.Exceptions.{exit_outside};
ghost use Rattle.obq_moves.specs.Views.{plain_focus, raised_of, shown};
ghost use Rattle.obq_windows.specs.Windows.{NodeRaising};

use crate::host::Ending;
use obq_base::{NoMemory, Text};
use obq_except::{Focus, Raising, Window};
use std::alloc::Global;

/// An `exit` that no loop ends is an exception.
fn exit_text(alloc: Global) -> Result<Text, NoMemory>
    ensures { IfOk result (λ text. text ≡ exit_outside) }
{
    Ok(Text::new(Vec::from_slice(alloc, b"exit_outside")?))
}

fn end_by_raising(alloc: Global, raising: Raising) -> Result<Ending, NoMemory>
    ensures { IfOk result (λ ending. Some (plain_ending ending) ≡ ending_in (NodeRaising (raised_of raising))) }
{
    match raising {
        Raising::Exception(text) => Ok(Ending::Failed(text)),
        Raising::Exit => Ok(Ending::Failed(exit_text(alloc)?)),
    }
}

fn end_by(alloc: Global, focus: Focus) -> Result<Option<Ending>, NoMemory>
    ensures { IfOk result (λ ending. option_map plain_ending ending ≡ ending_in (plain_focus focus)) }
{
    match focus {
        Focus::Value(value) => Ok(Some(Ending::Returned(value))),
        Focus::Raising(raising) => Ok(Some(end_by_raising(alloc, raising)?)),
        _ => Ok(None),
    }
}

/// How the thread ends whose window this is. None where the window isn't at its end.
pub(crate) fn end_of(alloc: Global, window: Window) -> Result<Option<Ending>, NoMemory>
    ensures { IfOk result (λ ending. option_map plain_ending ending ≡ ending_of (shown window)) }
{
    let Window { frames, focus, .. } = window;
    if !frames.is_empty() {
        return Ok(None);
    }
    end_by(alloc, focus)
}
