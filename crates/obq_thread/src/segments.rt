//! Parts of threads.

use obq_base::{SiteId, Text, ThreadId, Value};

/// A part of a thread at one site.
#[derive(Drop)]
pub struct Segment<W> {
    pub window: W,
    /// The pending call that it answers, by its site and number there.
    pub answers: Option<(SiteId, u64)>,
}

/// A segment that waits for the reply to a call.
#[derive(Drop)]
pub struct Suspended<W> {
    pub thread: ThreadId,
    pub segment: Segment<W>,
}

/// How a thread ended.
#[derive(Drop)]
pub enum Ended {
    Value(Value),
    /// By the exception with this text.
    Exn(Text),
}
