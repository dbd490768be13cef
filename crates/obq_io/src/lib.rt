//! The outside of the interpreter as traits that count their faults: files, sinks and a gate. Each
//! comes in memory, as one that never fails, and as the system's. Over any of them files are read to a
//! limit and texts are written whole. The words of the command line are read here, too.
#![tactic(auto)]

mod arguments;
mod disk;
mod files;
mod gates;
mod memory;
mod reading;
mod sinks;
mod stdio;
mod writing;

pub use arguments::words_of;
pub use disk::DiskFiles;
pub use files::{Failed, Files, Sink};
pub use gates::{Gate, GateAt, PlainGate};
pub use memory::{MemFiles, SureFiles};
pub use reading::{ReadRefused, read_file};
pub use sinks::{MemSink, SureSink};
pub use stdio::StdSink;
pub use writing::{write_pieces, write_text};
