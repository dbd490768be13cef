//! Windows of the pure machine against its terms: laws and definitions. No code runs here.
#![tactic(auto)]

ghost use Rattle.obq_windows.specs.Acts.{AnswersRead, SelfIsOwn, WindowsBegin};
ghost use Rattle.obq_windows.specs.Laws.{OpeningReads, OpeningRuns, RunMoves, StepsAreThose, TreeMoves, WindowMoves};
ghost use Rattle.obq_windows.specs.Programs.{ProgramsAgree, ProgramsRun};
ghost use Rattle.obq_windows.specs.Rows.{ActsRead, AgainReads, ImportReads, NewReads, RowsComplete, RowsRead, ThreadsRead};

/// What stands next in the term of a window over trees is what its move says.
pub fn tree_moves<R>()
    ensures law { TreeMoves R }
{}

/// The same of each term that a window over nodes reads back as; and the window after the move is read so again.
pub fn window_moves<R>()
    ensures law { WindowMoves R }
{}

/// A run of moves of a window over nodes comes to what its pure steps of the term come to, with the same stop.
pub fn run_moves<R>()
    ensures law { RunMoves R }
{}

/// What an act leaves may stand at the act's form: a value (under its name where the form is that of a variable or of a turn of a
/// `foreach`), a raising, the body of a method or of a closure, another act's form, or a guard to test. The window then reads back
/// as the frames around that form with it in their hole.
pub fn answers_read<R>()
    ensures law { AnswersRead R }
{}

/// At an act's form the current self is the window's own: the object of the innermost method in it, or what lies around the window.
pub fn self_is_own<R>()
    ensures law { SelfIsOwn R }
{}

/// A new window reads back as what begins there: the call of a thread's closure; the body of a method, or of a closure that an engine
/// calls, where the caller's window lies elsewhere.
pub fn windows_begin<R>()
    ensures law { WindowsBegin R }
{}

/// What an act on one cell does, as code over plain values does it, is what its row does in terms: the same waits, the cell that it leaves, and
/// at the act's form what the answer leaves there.
pub fn rows_read<R, X>()
    ensures law { RowsRead R X }
{}

/// Such an act leaves a complete cell, and its answer is one that may stand at its form.
pub fn rows_complete<R>()
    ensures law { RowsComplete R }
{}

/// Both in one sentence, with the window: where an act on one cell ends, its row ends with the cell that it leaves and with what stands then in
/// the hole of the frames around its form, and the answered window reads back as those frames with that in their hole.
pub fn acts_read<R, X>()
    ensures law { ActsRead R X }
{}

/// The same of a watch that takes its mutex again, of an import, and of an operation that makes a cell.
pub fn again_reads<R, X>()
    ensures law { AgainReads R X }
{}

/// See `again_reads`.
pub fn import_reads<R, X>()
    ensures law { ImportReads R X }
{}

/// See `again_reads`.
pub fn new_reads<R>()
    ensures law { NewReads R }
{}

/// What a fork, a join and an export leave is what their answers say: a thread or the raising of `fork_limit`, how the thread ended, and `ok`.
pub fn threads_read<R>()
    ensures law { ThreadsRead R }
{}

/// Those pure steps are the ones that a journal's entry counts.
pub fn steps_are_those()
    ensures law { StepsAreThose }
{}

/// A source's main window reads back as what its block opens as.
pub fn opening_reads<R>()
    ensures law { OpeningReads R }
{}

/// Runs of that window come to the pure steps of the opening.
pub fn opening_runs<R>()
    ensures law { OpeningRuns R }
{}

/// The table of a program's procedures agrees with the store of its codes, whatever writer each source has.
pub fn programs_agree<R>()
    ensures law { ProgramsAgree R }
{}

/// A program that was resolved has a table under which the main window of each of its sources runs as the source's block opens.
pub fn programs_run<R>()
    ensures law { ProgramsRun R }
{}
