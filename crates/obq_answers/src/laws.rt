//! What windows behind acts' answers, windows that begin and windows at their end are for the terms that they read back as. No code runs here.

ghost use Rattle.obq_answers.specs.Ends.{EndReads};
ghost use Rattle.obq_answers.specs.Firsts.{FirstReads};
ghost use Rattle.obq_answers.specs.Forms.{AnswerReads, CellReads, ExportReads, ForkReads, FormKeeps, FormReads, JoinReads, NameReads, NewReads, RetakeReads};

/// A window with an act's form in its focus is at that form where an act stands next in a term like its own.
pub fn form_reads()
    ensures law { FormReads }
{}

/// At a form the operation of the term is that of the window, whose operands are complete, and the window keeps the activations and the current self around the form.
pub fn form_keeps()
    ensures law { FormKeeps }
{}

/// The window behind any answer at a form reads back, with its counts, as the frames around the form with what the answer leaves in their hole.
pub fn answer_reads()
    ensures law { AnswerReads }
{}

/// An operation on one cell comes to the row of the term's operation, with the cell that it leaves and the window behind its answer.
pub fn cell_reads<X>()
    ensures law { CellReads X }
{}

/// The same of a watch that takes its mutex again.
pub fn retake_reads<X>()
    ensures law { RetakeReads X }
{}

/// The same of a name that is read.
pub fn name_reads<X>()
    ensures law { NameReads X }
{}

/// The same of an operation that makes a cell.
pub fn new_reads()
    ensures law { NewReads }
{}

/// What a fork leaves at its form, and the window of the thread that begins.
pub fn fork_reads()
    ensures law { ForkReads }
{}

/// What a join leaves at its form, by how the thread ended.
pub fn join_reads()
    ensures law { JoinReads }
{}

/// What an export leaves at its form.
pub fn export_reads()
    ensures law { ExportReads }
{}

/// The windows of a thread, and of a body whose caller's window lies elsewhere, read back, with their counts, as what begins there.
pub fn first_reads()
    ensures law { FirstReads }
{}

/// At its end a window has in its focus the value, or the raising, that is next in the term.
pub fn end_reads()
    ensures law { EndReads }
{}
