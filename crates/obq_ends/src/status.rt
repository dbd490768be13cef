//! The status of a run that ended.

ghost use Rattle.std.specs.Prelude.{◌≡◌};
ghost use Rattle.obq_model.specs.Replay.{status};

use obq_base::Report;

/// 12 where a thread has used up its turns, else 11 where one waits, else 10 where one ended by an exception, else 0.
pub fn status_of(r: Report) -> u8
    ensures { result ≡ status r }
{
    if r.spent > 0 {
        return 12;
    }
    if r.waiting > 0 {
        return 11;
    }
    if r.raised > 0 {
        return 10;
    }
    0
}
