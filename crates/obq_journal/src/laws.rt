//! That a journal comes back from its text.

ghost use Rattle.std.specs.Prelude.{Ok, ◌≡◌};
ghost use Rattle.obq_model.specs.Journal.{Journal};
ghost use Rattle.obq_model.specs.JournalText.{IsWritable, journal_in, journal_text};

/// A journal whose numbers are those that lines can have is what reading its text gives.
pub fn written_is_read()
    ensures { (j : Journal) → IsWritable j → journal_in (journal_text j) ≡ Ok j }
{}
