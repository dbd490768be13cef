//! The limits of the language and of a run, each once.

/// Bytes of a text.
pub const TEXT_LIMIT: usize = 65_536;

/// Items of an array.
pub const ARRAY_LIMIT: usize = 65_536;

/// Bytes of a source.
pub const SOURCE_LIMIT: usize = 1_048_576;

/// Bytes of a journal's text.
pub const JOURNAL_LIMIT: usize = 67_108_864;

/// Openers that a token of a source may stand inside of.
pub const NESTING_LIMIT: u32 = 200;

/// Sites of a run.
pub const SITE_LIMIT: usize = 16;

/// Threads of a run, ended ones included.
pub const THREAD_LIMIT: u32 = 64;

/// Turns that a thread may be given.
pub const TURN_LIMIT: u32 = 1_000_000;

/// Turns of a thread where the command line says nothing.
pub const DEFAULT_TURNS: u32 = 100_000;

/// Activations around a focus.
pub const CALL_LIMIT: u32 = 1_000;

/// The depth of a closure.
pub const CLOSURE_LIMIT: u32 = 1_000;

/// Worker threads.
pub const WORKER_LIMIT: u32 = 16;
