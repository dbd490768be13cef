//! Writing to a sink. No call here takes memory.

ghost use Rattle.std.specs.Prelude.{◌≡◌, ◌≤◌, OnOk};
ghost use Rattle.std.specs.List.{flat_map};
ghost use Rattle.std.specs.Io.KnownBytes.{Appends};
ghost use Rattle.obq_io.specs.Causes.{HasCause};
ghost use Rattle.obq_io.specs.Known.{GetsPrefix};

use crate::files::{Failed, Sink};

/// Writes the text to its end, or until the sink fails.
pub fn write_text<S: Sink>(sink: &mut S, text: &[u8]) -> Result<(), Failed>
    ensures whole { OnOk result (Appends (S.written sink.old) (S.written sink.new) text.now) }
    ensures prefix { GetsPrefix (S.written sink.old) (S.written sink.new) text.now }
    ensures cause { HasCause (S.faults sink.old) (S.faults sink.new) result }
{
    let mut at = 0;
    while at < text.len() {
        let count = sink.write(&text[at..])?;
        at += count;
    }
    Ok(())
}

/// Writes the pieces, one behind another, to their end, or until the sink fails.
pub fn write_pieces<S: Sink>(sink: &mut S, pieces: &[&[u8]]) -> Result<(), Failed>
    ensures whole { OnOk result (Appends (S.written sink.old) (S.written sink.new) (flat_map (λ p. p.now) pieces.now)) }
    ensures prefix { GetsPrefix (S.written sink.old) (S.written sink.new) (flat_map (λ p. p.now) pieces.now) }
    ensures cause { HasCause (S.faults sink.old) (S.faults sink.new) result }
{
    for piece in pieces {
        write_text(sink, piece)?;
    }
    Ok(())
}
