//! The lines of a report and of links. Numbers are written from buffers on the stack, so no call here takes memory.

ghost use Rattle.std.specs.Prelude.{◌≡◌, ◌∷◌, [], List, OnOk, ℕ};
ghost use Rattle.std.specs.Io.KnownBytes.{Appends};
ghost use Rattle.obq_io.specs.Causes.{HasCause};
ghost use Rattle.obq_io.specs.Known.{GetsPrefix};
ghost use Rattle.obq_model.specs.Located.{Sent};
ghost use Rattle.obq_model.specs.Output.{link_line, report_line};

use itoa::Buffer;
use obq_base::Report;
use obq_io::{Failed, Sink, write_pieces};
use std::marker::Model;

/// The line that tells how the threads of a run ended. Contracts see its bytes.
#[derive(Drop)]
pub struct ReportLine {
    report: Report,
}

impl Model for ReportLine {
    ghost use Rattle.std.specs.Prelude.{List, ℕ};
    ghost use Rattle.obq_model.specs.Output.{report_line};

    ghost Value = { List ℕ };

    ghost view = { λ line. report_line line.report };
}

/// The line of this report.
pub fn report_line(r: Report) -> ReportLine
    ensures { result ≡ report_line r }
{
    ReportLine { report: r }
}

impl ReportLine {
    /// Writes the line, piece by piece, to its end or until the sink fails.
    pub fn write_to<O: Sink>(&self, out: &mut O) -> Result<(), Failed>
        ensures whole { OnOk result (Appends (O.written out.old) (O.written out.new) self.now) }
        ensures prefix { GetsPrefix (O.written out.old) (O.written out.new) self.now }
        ensures cause { HasCause (O.faults out.old) (O.faults out.new) result }
    {
        let mut ended = Buffer::new();
        let mut raised = Buffer::new();
        let mut waiting = Buffer::new();
        let mut spent = Buffer::new();
        write_pieces(
            out,
            &[
                b"threads ended ",
                ended.format(self.report.ended).as_bytes(),
                b" raised ",
                raised.format(self.report.raised).as_bytes(),
                b" waiting ",
                waiting.format(self.report.waiting).as_bytes(),
                b" spent ",
                spent.format(self.report.spent).as_bytes(),
                b"\n",
            ],
        )
    }
}

/// The line that tells how many requests and replies one site sent to another. Contracts see its bytes.
#[derive(Drop)]
pub struct LinkLine<'a> {
    from: &'a [u8],
    to: &'a [u8],
    requests: u64,
    replies: u64,
}

impl<'a> Model for LinkLine<'a> {
    ghost use Rattle.std.specs.Prelude.{◌∷◌, [], List, ℕ};
    ghost use Rattle.obq_model.specs.Located.{Sent};
    ghost use Rattle.obq_model.specs.Output.{link_line};

    ghost Value = { List ℕ };

    ghost view = { λ line. link_line (line.from.now ∷ line.to.now ∷ []) (Sent 0 1 line.requests line.replies) };
}

/// The line of what the site of the first name sent to that of the second; the name server's name is `*`.
pub fn link_line<'a>(from: &'a [u8], to: &'a [u8], requests: u64, replies: u64) -> LinkLine<'a>
    ensures { result ≡ link_line (from.now ∷ to.now ∷ []) (Sent 0 1 requests replies) }
{
    LinkLine {
        from,
        to,
        requests,
        replies,
    }
}

impl<'a> LinkLine<'a> {
    /// Writes the line, piece by piece, to its end or until the sink fails.
    pub fn write_to<O: Sink>(&self, out: &mut O) -> Result<(), Failed>
        ensures whole { OnOk result (Appends (O.written out.old) (O.written out.new) self.now) }
        ensures prefix { GetsPrefix (O.written out.old) (O.written out.new) self.now }
        ensures cause { HasCause (O.faults out.old) (O.faults out.new) result }
    {
        let mut requests = Buffer::new();
        let mut replies = Buffer::new();
        write_pieces(
            out,
            &[
                self.from,
                b" -> ",
                self.to,
                b" requests ",
                requests.format(self.requests).as_bytes(),
                b" replies ",
                replies.format(self.replies).as_bytes(),
                b"\n",
            ],
        )
    }
}
