//! What a site does for threads that end, fork, join, export and import.

ghost use Rattle.std.specs.Prelude.{◌≡◌, IfOk, IsTrue, None, option_map};
ghost use Rattle.obq_host.specs.Endings.{ending_of, kept_at, plain_ending};
ghost use Rattle.obq_host.specs.Exports.{seeks_at, value_at};
ghost use Rattle.obq_host.specs.Places.{IsWith, at_place};
ghost use Rattle.obq_host.specs.Threads.{DueExport, DueFork, DueImport, DueJoin, due_at, plain_due};
ghost use Rattle.obq_host.specs.Turns.{ActsOnThreads, ComesOf, EndsHere, ExportsHere, ForksHere, ImportsHere, InPlace, JoinsHere, OfWindow, awaits_at};
ghost use Rattle.obq_model.specs.Config as config;
ghost use Rattle.obq_moves.specs.Views.{plain_value, shown};

use crate::endings::end_of;
use crate::host::{Ending, Host};
use crate::names::{after_export, import_name, is_missing, sought};
use crate::places::{look_at, put_at, take_at};
use crate::threads::{Due, awaited, due_at, fork_thread, join_thread};
use obq_base::limits::THREAD_LIMIT;
use obq_base::{Act, ActKind, Name, NoMemory, ThreadId, Value};
use obq_except::Window;
use obq_world::{Made, Refused, Tried};
use std::alloc::Global;

/// What is due in the thread's window.
fn due_of(alloc: Global, windows: &[Option<Window>], thread: ThreadId) -> Result<Due, NoMemory>
    ensures { IfOk result (λ due. InPlace windows.now thread.0 (λ s. plain_due due ≡ due_at s.focus)) }
{
    match look_at(windows, thread.0 as usize) {
        None => Ok(Due::End),
        Some(window) => due_at(alloc, &window.focus),
    }
}

/// The thread's window is gone; how the thread ends, if the window is at its end.
fn end_in(
    alloc: Global,
    windows: &mut Vec<Option<Window>>,
    thread: ThreadId,
) -> Result<Option<Ending>, NoMemory>
    ensures ending { IfOk result (λ ending. InPlace windows.old.items thread.0 (λ s. option_map plain_ending ending ≡ ending_of s)) }
    ensures windows { IsWith windows.old.items thread.0 None windows.new.items }
{
    match take_at(windows, thread.0 as usize) {
        None => Ok(None),
        Some(window) => end_of(alloc, window),
    }
}

fn act(kind: ActKind, thread: u32) -> Act
    ensures { result ≡ config.act kind thread }
{
    Act {
        kind,
        loc: u64::from(thread),
    }
}

impl Host {
    fn end(&mut self, thread: ThreadId) -> Result<(), Refused>
        ensures { IfOk result (λ _. EndsHere self.old thread.0 self.new) }
    {
        let Some(ending) = end_in(self.alloc, &mut self.windows, thread)? else {
            return Err(Refused::Beyond);
        };
        put_at(&mut self.endings, thread.0 as usize, ending)?;
        Ok(())
    }

    fn fork(&mut self, thread: ThreadId, procedure: Value, threads: u32) -> Result<bool, NoMemory>
        ensures { IfOk result (λ made. ForksHere self.old thread.0 (plain_value procedure) threads made self.new) }
    {
        fork_thread(self.alloc, &mut self.windows, thread, procedure, threads)
    }

    fn join(&mut self, thread: ThreadId, other: ThreadId) -> Result<bool, NoMemory>
        ensures { IfOk result (λ done. JoinsHere self.old thread.0 other.0 done self.new) }
    {
        join_thread(self.alloc, &mut self.windows, &self.endings, thread, other)
    }

    fn export(&mut self, thread: ThreadId, name: Name, value: Value) -> Result<(), NoMemory>
        ensures { IfOk result (λ _. ExportsHere self.old thread.0 name value self.new) }
    {
        self.names.export(name, value)?;
        after_export(&mut self.windows, thread)
    }

    fn import(&mut self, thread: ThreadId, name: &Name, engine: bool) -> Result<bool, NoMemory>
        ensures { IfOk result (λ done. ImportsHere self.old thread.0 name.now engine done self.new) }
    {
        import_name(
            self.alloc,
            &mut self.windows,
            &self.names,
            thread,
            name,
            engine,
        )
    }

    fn fork_off(
        &mut self,
        thread: ThreadId,
        procedure: Value,
        threads: u32,
    ) -> Result<Tried, Refused>
        ensures { IfOk result (λ tried. OfWindow self.old thread.0 (λ s. due_at s.focus ≡ DueFork (plain_value procedure)) → ActsOnThreads self.old thread.0 threads self.new tried) }
    {
        if self.fork(thread, procedure, threads)? {
            Ok(Tried::Did(act(ActKind::Fork, threads), Made::Thread))
        } else {
            Ok(Tried::Did(act(ActKind::Fork, THREAD_LIMIT), Made::Nothing))
        }
    }

    fn join_with(
        &mut self,
        thread: ThreadId,
        other: ThreadId,
        threads: u32,
    ) -> Result<Tried, Refused>
        ensures { IfOk result (λ tried. OfWindow self.old thread.0 (λ s. due_at s.focus ≡ DueJoin other.0) → ActsOnThreads self.old thread.0 threads self.new tried) }
    {
        if self.join(thread, other)? {
            Ok(Tried::Did(act(ActKind::Join, other.0), Made::Nothing))
        } else {
            Ok(Tried::Waits)
        }
    }

    fn export_name(
        &mut self,
        thread: ThreadId,
        name: Name,
        value: Value,
        threads: u32,
    ) -> Result<Tried, Refused>
        ensures { IfOk result (λ tried. OfWindow self.old thread.0 (λ s. due_at s.focus ≡ DueExport name (plain_value value)) → ActsOnThreads self.old thread.0 threads self.new tried) }
    {
        self.export(thread, name, value)?;
        Ok(Tried::Did(act(ActKind::Export, 0), Made::Nothing))
    }

    fn import_name(
        &mut self,
        thread: ThreadId,
        name: &Name,
        engine: bool,
        threads: u32,
    ) -> Result<Tried, Refused>
        ensures { IfOk result (λ tried. OfWindow self.old thread.0 (λ s. due_at s.focus ≡ DueImport name.now engine) → ActsOnThreads self.old thread.0 threads self.new tried) }
    {
        if self.import(thread, name, engine)? {
            Ok(Tried::Did(act(ActKind::Import, 0), Made::Nothing))
        } else {
            Ok(Tried::Waits)
        }
    }

    /// Does the act that is due in the thread's window, if it is the end, a fork, a join, an export or an import; so many threads were made before it.
    pub(crate) fn act_on_threads(
        &mut self,
        thread: ThreadId,
        threads: u32,
    ) -> Result<Option<Tried>, Refused>
        ensures { IfOk result (λ tried. ComesOf self.old thread.0 threads tried self.new) }
    {
        match due_of(self.alloc, &self.windows, thread)? {
            Due::Fork(procedure) => Ok(Some(self.fork_off(thread, procedure, threads)?)),
            Due::Join(other) => Ok(Some(self.join_with(thread, other, threads)?)),
            Due::Export(name, value) => Ok(Some(self.export_name(thread, name, value, threads)?)),
            Due::Import(name, engine) => Ok(Some(self.import_name(
                thread, &name, engine, threads,
            )?)),
            Due::Act => Ok(None),
            Due::End => {
                self.end(thread)?;
                Ok(Some(Tried::Did(act(ActKind::End, thread.0), Made::Nothing)))
            }
        }
    }

    /// Whether the thread waits for another to end.
    pub(crate) fn awaits(&self, thread: ThreadId) -> bool
        ensures { result ≡ awaits_at (kept_at self.now.endings.items) (option_map shown (at_place self.now.windows.items thread.0)) }
    {
        let Some(window) = look_at(&self.windows, thread.0 as usize) else {
            return false;
        };
        match awaited(&window.focus) {
            None => false,
            Some(other) => look_at(&self.endings, other.0 as usize).is_none(),
        }
    }

    /// Whether the thread waits for a name that isn't there. It may also be told `false` of one that does.
    pub(crate) fn seeks(&self, thread: ThreadId) -> bool
        ensures { IsTrue result → IsTrue (seeks_at (value_at self.now.names) (option_map shown (at_place self.now.windows.items thread.0))) }
    {
        let Some(window) = look_at(&self.windows, thread.0 as usize) else {
            return false;
        };
        match sought(&window.focus) {
            None => false,
            Some(name) => is_missing(self.alloc, &self.names, name),
        }
    }
}
