//! One call of `obliq` over objects in memory.

use obq_base::NoMemory;
use obq_io::{Files, MemFiles, MemSink, PlainGate, Sink, SureFiles, SureSink};
use obq_run::{End, obliq};
use std::alloc::{AllocError, Global};
use std::sync::Wait;
use std::thread::Threads;

/// The room of a sink, in bytes, where a case doesn't say it.
const ROOM: u32 = 4096;

/// What is made of a call, and printed.
#[derive(Clone, Copy, PartialEq, Eq)]
pub enum Shown {
    /// How it ended, with what each sink got and the entries of its journal.
    Whole,
    /// The same with the number of entries alone.
    Brief,
    /// The same of a call over files that never fail, and sinks that keep the number of bytes alone.
    Counted,
    /// How a run with its journal ended, and what the replay of that journal comes to.
    Replayed,
    /// The same, and so of that run with few turns for each thread (`print_limits`).
    Limited,
    /// How the call ends with each cut of its last file, and with each other byte at each place there.
    Changed,
}

/// A case: the words of a call, and the files and sinks that it meets.
#[derive(Drop)]
pub struct Call {
    words: Vec<String>,
    files: Vec<(String, Vec<u8>)>,
    fails: Vec<u64>,
    room: u32,
    shown: Shown,
}

/// What came of a call, with what each sink got.
#[derive(Drop)]
pub struct Outcome {
    pub end: End,
    pub out: Vec<u8>,
    pub err: Vec<u8>,
}

/// What came of a call over sinks that keep the number of bytes alone.
#[derive(Drop)]
pub struct Counted {
    pub end: End,
    pub out: u64,
    pub err: u64,
}

fn end_of<R: Threads + Wait + Sync, F: Files, O: Sink, E: Sink>(
    rt: &R,
    alloc: Global,
    words: &[String],
    files: &mut F,
    out: &mut O,
    err: &mut E,
) -> End {
    obliq(rt, alloc, words, files, out, err, &PlainGate)
}

impl Call {
    /// A call without words and files, of which none fails and each sink has room.
    pub fn new(alloc: Global) -> Call {
        Call {
            words: Vec::new(alloc),
            files: Vec::new(alloc),
            fails: Vec::new(alloc),
            room: ROOM,
            shown: Shown::Whole,
        }
    }

    /// What is made of it.
    pub fn shown(&self) -> Shown {
        self.shown
    }

    /// The bytes of its last file.
    pub fn last_bytes(&self) -> &[u8] {
        match self.files.last() {
            Some((_, bytes)) => bytes,
            None => &[],
        }
    }

    /// Appends the files of another call.
    fn add_files_of(&mut self, alloc: Global, other: &Call) -> Result<(), AllocError> {
        for (path, bytes) in &other.files {
            self.add_file(alloc, path.as_str())?;
            self.add_bytes(1, bytes)?;
        }
        Ok(())
    }

    /// The same call, of which no file fails.
    pub fn copied(&self, alloc: Global) -> Result<Call, AllocError> {
        let mut call = Call::new(alloc);
        call.room = self.room;
        for word in &self.words {
            call.add_word(alloc, word.as_str())?;
        }
        call.add_files_of(alloc, self)?;
        Ok(call)
    }

    /// The same run with an option more, which has a number.
    pub fn with_number(
        &self,
        alloc: Global,
        option: &str,
        number: u32,
    ) -> Result<Call, AllocError> {
        let mut call = Call::new(alloc);
        call.room = self.room;
        for (place, word) in self.words.iter().enumerate() {
            if place == 1 {
                call.add_word(alloc, option)?;
                call.words.push(format!(in alloc; "{number}")?)?;
            }
            call.add_word(alloc, word.as_str())?;
        }
        call.add_files_of(alloc, self)?;
        Ok(call)
    }

    /// The same call with these bytes in its last file.
    pub fn with_last(&self, alloc: Global, last: &[u8]) -> Result<Call, AllocError> {
        let mut call = self.copied(alloc)?;
        if let Some(file) = call.files.last_mut() {
            file.1.clear();
            file.1.extend_from_slice(last)?;
        }
        Ok(call)
    }

    /// The replay of a journal, which is still to be added, over the same sources.
    pub fn replay(&self, alloc: Global) -> Result<Call, AllocError> {
        let mut call = Call::new(alloc);
        call.room = self.room;
        for word in ["replay", "--from", "journal"] {
            call.add_word(alloc, word)?;
        }
        for word in &self.words {
            if word.contains('=') {
                call.add_word(alloc, word.as_str())?;
            }
        }
        call.add_files_of(alloc, self)?;
        call.add_file(alloc, "journal")?;
        Ok(call)
    }

    pub fn add_word(&mut self, alloc: Global, word: &str) -> Result<(), AllocError> {
        self.words.push(String::from_str(alloc, word)?)?;
        Ok(())
    }

    /// A further file, which is empty.
    pub fn add_file(&mut self, alloc: Global, path: &str) -> Result<(), AllocError> {
        let path = String::from_str(alloc, path)?;
        self.files.push((path, Vec::new(alloc)))?;
        Ok(())
    }

    /// Appends bytes to the last file so many times.
    pub fn add_bytes(&mut self, count: u32, piece: &[u8]) -> Result<(), AllocError> {
        if let Some(file) = self.files.last_mut() {
            for _ in 0..count {
                file.1.extend_from_slice(piece)?;
            }
        }
        Ok(())
    }

    /// Appends the entries of a journal to the last file, a line each, which a comma and a space part.
    fn add_entries(&mut self, entries: &str) -> Result<(), AllocError> {
        for entry in entries.split(", ") {
            self.add_bytes(1, entry.as_bytes())?;
            self.add_bytes(1, b"\n")?;
        }
        Ok(())
    }

    /// What a line says: its first word, and what stands behind it.
    pub fn add_line(&mut self, alloc: Global, word: &str, rest: &str) -> Result<(), AllocError> {
        match word.as_bytes() {
            b"call" => {
                for word in rest.split_whitespace() {
                    self.add_word(alloc, word)?;
                }
            }
            b"file" => self.add_file(alloc, rest)?,
            b"text" => self.add_bytes(1, rest.as_bytes())?,
            b"line" => {
                self.add_bytes(1, rest.as_bytes())?;
                self.add_bytes(1, b"\n")?;
            }
            b"entries" => self.add_entries(rest)?,
            b"byte" => self.add_bytes(1, &[rest.parse::<u8>().unwrap_or(0)])?,
            b"times" => {
                let (count, piece) = rest.split_once(' ').unwrap_or((rest, " "));
                self.add_bytes(count.parse::<u32>().unwrap_or(0), piece.as_bytes())?;
            }
            b"fails" => self.fails.push(rest.parse::<u64>().unwrap_or(0))?,
            b"room" => self.room = rest.parse::<u32>().unwrap_or(0),
            b"brief" => self.shown = Shown::Brief,
            b"counted" => self.shown = Shown::Counted,
            b"replayed" => self.shown = Shown::Replayed,
            b"limited" => self.shown = Shown::Limited,
            b"changed" => self.shown = Shown::Changed,
            _ => {}
        }
        Ok(())
    }

    /// Makes the call over files and sinks in memory.
    pub fn outcome<R: Threads + Wait + Sync>(
        self,
        rt: &R,
        alloc: Global,
    ) -> Result<Outcome, NoMemory> {
        let mut files = MemFiles::new(self.files, self.fails);
        let mut out = MemSink::new(alloc, self.room)?;
        let mut err = MemSink::new(alloc, ROOM)?;
        let end = end_of(rt, alloc, &self.words, &mut files, &mut out, &mut err);
        Ok(Outcome {
            end,
            out: out.bytes().to_vec(alloc)?,
            err: err.bytes().to_vec(alloc)?,
        })
    }

    /// Makes the call over files that never fail, and sinks that keep the number of bytes alone.
    pub fn counted<R: Threads + Wait + Sync>(self, rt: &R, alloc: Global) -> Counted {
        let mut files = SureFiles::new(self.files);
        let mut out = SureSink::new();
        let mut err = SureSink::new();
        let end = end_of(rt, alloc, &self.words, &mut files, &mut out, &mut err);
        Counted {
            end,
            out: out.count(),
            err: err.count(),
        }
    }
}
