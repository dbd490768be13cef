//! A line of frames from one site to another.

ghost use Rattle.std.specs.Prelude.{◌≡◌, [], ◌∷◌, ◌++◌, length, slice_get, option_copied, MatchOption, OnOk, OnErr};

use obq_base::NoMemory;
use std::alloc::Global;
use std::collections::VecDeque;
use std::marker::Model;

/// Frames on their way, first in, first out. Contracts see the list of their bytes, the next to be taken first.
#[derive(Drop)]
pub struct Line {
    frames: VecDeque<Vec<u8>>,
}

impl Model for Line {
    ghost use Rattle.std.specs.Prelude.{List, ℕ, map};

    ghost Value = { List (List ℕ) };

    ghost view = { λ l. map (λ f. f.items) l.frames.items };
}

impl Line {
    /// Holds no frame yet, and takes no memory.
    pub fn new(alloc: Global) -> Line
        ensures { result ≡ [] }
    {
        Line {
            frames: VecDeque::new(alloc),
        }
    }

    /// Appends a frame, which it keeps. After `NoMemory` the line is as before, and the frame is lost.
    pub fn post(&mut self, frame: Vec<u8>) -> Result<(), NoMemory>
        ensures ok { OnOk result (self.new ≡ self.old ++ frame.items ∷ []) }
        ensures err { OnErr result (self.new ≡ self.old) }
    {
        self.frames.push_back(frame)?;
        Ok(())
    }

    /// Takes the frame that was posted before the others: none exactly where the line is empty. It takes no memory.
    pub fn take(&mut self) -> Option<Vec<u8>>
        ensures { MatchOption result ((self.old ≡ []) × (self.new ≡ [])) (λ frame. self.old ≡ frame.items ∷ self.new) }
    {
        self.frames.pop_front()
    }

    /// Shows the frame that `take` would give.
    pub fn first(&self) -> Option<&[u8]>
        ensures { option_copied result ≡ slice_get self.now 0 }
    {
        match self.frames.front() {
            Some(frame) => Some(frame.as_slice()),
            None => None,
        }
    }

    /// How many frames it holds.
    pub fn len(&self) -> u64
        ensures { result ≡ length self.now }
    {
        self.frames.len() as u64
    }
}
