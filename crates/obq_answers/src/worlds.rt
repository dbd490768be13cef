//! The same windows as a World of several heaps sees them, over its own references. No code runs here.

ghost use Rattle.obq_answers.specs.Replies.{ReplySeen};
ghost use Rattle.obq_answers.specs.Requests.{CellServed, NameServed, RetakeServed};
ghost use Rattle.obq_answers.specs.Worlds.{BottomSeen, CellSeen, EndSeen, ExportSeen, FirstSeen, ForkSeen, FormSeen, JoinSeen, NameSeen, NewSeen, RetakeSeen, StepsSeen};

/// Pure steps of a term are those of the World's term.
pub fn steps_seen()
    ensures law { StepsSeen }
{}

/// A thread whose window is at its end ends as the World has it.
pub fn end_seen()
    ensures law { EndSeen }
{}

/// A value or a raising outside of all frames is what stands next in the World's term.
pub fn bottom_seen()
    ensures law { BottomSeen }
{}

/// At a form the World's operation, the activations and the current self are those of the window, and each answer leaves there what it does in the term.
pub fn form_seen()
    ensures law { FormSeen }
{}

/// What an operation on one cell comes to, with the cell that it leaves and the window behind its answer, is the row of the World's operation.
pub fn cell_seen()
    ensures law { CellSeen }
{}

/// The same of a watch that takes its mutex again.
pub fn retake_seen()
    ensures law { RetakeSeen }
{}

/// The same of a name that is read.
pub fn name_seen()
    ensures law { NameSeen }
{}

/// The same of an operation that makes a cell.
pub fn new_seen()
    ensures law { NewSeen }
{}

/// What a fork leaves at its form, and the window of the thread that begins.
pub fn fork_seen()
    ensures law { ForkSeen }
{}

/// What a join leaves at its form, by the ending that is kept.
pub fn join_seen()
    ensures law { JoinSeen }
{}

/// What an export leaves at its form.
pub fn export_seen()
    ensures law { ExportSeen }
{}

/// The windows of bodies whose caller's window lies elsewhere.
pub fn first_seen()
    ensures law { FirstSeen }
{}

/// What a reply leaves at the form that asked, in the window that was suspended there.
pub fn reply_seen()
    ensures law { ReplySeen }
{}

/// What an operation that came in a request does at its cell, where no window stands at its form: the row of the World's operation, and the reply or the window of the activation that begins.
pub fn cell_served()
    ensures law { CellServed }
{}

/// The same of a watch that takes its mutex again.
pub fn retake_served()
    ensures law { RetakeServed }
{}

/// The same of a name that is read.
pub fn name_served()
    ensures law { NameServed }
{}
