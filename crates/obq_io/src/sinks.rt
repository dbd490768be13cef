//! Sinks in memory.

ghost use Rattle.std.specs.Prelude.{◌≡◌, ◌↔◌, ◌-◌, ◌≤◌, ◌<◌, ◌^◌, ◌+◌, [], None, Some, IfOk, OnErr, IsErr, length, min, take, vec_len, vec_capacity};
ghost use Rattle.std.specs.Io.{WritesAtMost};
ghost use Rattle.std.specs.Io.KnownBytes.{WriteAppends};
ghost use Rattle.obq_io.specs.Causes.{HasCause, capped};
ghost use Rattle.std.proofs.Common.{arith};

use crate::files::{Failed, Sink};
use obq_base::NoMemory;
use std::alloc::Global;

/// A sink in memory with room for so many bytes. Its memory is taken at once, so writing takes none.
#[derive(Drop)]
pub struct MemSink {
    bytes: Vec<u8>,
    room: usize,
    faults: u64,
    ghost within: { vec_len bytes + room ≤ vec_capacity bytes },
}

impl MemSink {
    ghost use Rattle.obq_io.specs.Memory.{room_of};

    /// An empty sink with room for so many bytes, which are allocated here.
    pub fn new(alloc: Global, room: u32) -> Result<MemSink, NoMemory>
        ensures empty { IfOk result (λ s. s.bytes.items ≡ []) }
        ensures room { IfOk result (λ s. room_of s ≡ room) }
        ensures faults { IfOk result (λ s. s.faults ≡ 0) }
    {
        let bytes = Vec::with_capacity(alloc, room as usize)?;
        Ok(MemSink {
            bytes,
            room: room as usize,
            faults: 0,
        })
    }

    /// The bytes written so far.
    pub fn bytes(&self) -> &[u8]
        ensures { result.now ≡ self.now.bytes.items }
    {
        self.bytes.as_slice()
    }
}

impl Sink for MemSink {
    ghost use Rattle.std.specs.Prelude.{◌≡◌, ◌↔◌, ◌-◌, ◌≤◌, ◌<◌, ◌^◌, ◌+◌, Some, IfOk, OnErr, IsErr, length, min};
    ghost use Rattle.std.specs.Io.{WritesAtMost};
    ghost use Rattle.std.specs.Io.KnownBytes.{WriteAppends};
    ghost use Rattle.obq_io.specs.Causes.{HasCause, capped};
    ghost use Rattle.obq_io.specs.Memory.{room_of};
    ghost use Rattle.std.proofs.Common.{arith};

    ghost written = { λ s. Some s.bytes.items };

    ghost faults = { λ s. capped s.faults };

    ghost bounded = { λ s. Prim.omega arith };

    /// Takes as much of the piece as there is room. It fails, and counts that once, exactly where
    /// the piece isn't empty and no room is left.
    fn write(&mut self, piece: &[u8]) -> Result<usize, Failed>
        ensures bound { WritesAtMost result piece.now }
        ensures some { 0 < length piece.now → IfOk result (λ count. 0 < count) }
        ensures bytes { WriteAppends (Some self.old.bytes.items) (Some self.new.bytes.items) result piece.now }
        ensures cause { HasCause (capped self.old.faults) (capped self.new.faults) result }
        ensures count { IfOk result (λ count. count ≡ min (room_of self.old) (length piece.now)) }
        ensures room { IfOk result (λ count. room_of self.new + count ≡ room_of self.old) }
        ensures full { IsErr result ↔ ((room_of self.old ≡ 0) × (0 < length piece.now)) }
        ensures once { OnErr result (capped self.new.faults ≡ min (self.old.faults + 1) (2 ^ 64 - 1)) }
        ensures quiet { IfOk result (λ count. self.new.faults ≡ self.old.faults) }
    {
        if self.room == 0 && !piece.is_empty() {
            self.faults = self.faults.saturating_add(1);
            return Err(Failed);
        }
        let count = self.room.min(piece.len());
        self.room -= count;
        match self.bytes.extend_from_slice(&piece[..count]) {
            Ok(()) => Ok(count),
            Err(_) => unreachable!(),
        }
    }
}

/// A sink that takes every piece whole, and keeps the number of bytes alone.
#[derive(Drop)]
pub struct SureSink {
    count: u64,
}

impl SureSink {
    ghost use Rattle.obq_io.specs.Memory.{count_of};

    /// A sink that has taken nothing.
    pub fn new() -> SureSink
        ensures { count_of result ≡ 0 }
    {
        SureSink { count: 0 }
    }

    /// How many bytes were taken, up to the largest number.
    pub fn count(&self) -> u64
        ensures { result ≡ count_of self.now }
    {
        self.count
    }
}

impl Sink for SureSink {
    ghost use Rattle.std.specs.Prelude.{◌≡◌, ◌-◌, ◌≤◌, ◌<◌, ◌^◌, ◌+◌, None, IfOk, length, min};
    ghost use Rattle.std.specs.Io.{WritesAtMost};
    ghost use Rattle.std.specs.Io.KnownBytes.{WriteAppends};
    ghost use Rattle.obq_io.specs.Causes.{HasCause};
    ghost use Rattle.obq_io.specs.Memory.{count_of};
    ghost use Rattle.std.proofs.Common.{arith};

    ghost written = { λ s. None };

    ghost faults = { λ s. 0 };

    ghost bounded = { λ s. Prim.omega arith };

    /// Takes the whole piece.
    fn write(&mut self, piece: &[u8]) -> Result<usize, Failed>
        ensures bound { WritesAtMost result piece.now }
        ensures some { 0 < length piece.now → IfOk result (λ count. 0 < count) }
        ensures bytes { WriteAppends None None result piece.now }
        ensures cause { HasCause 0 0 result }
        ensures whole { result ≡ Ok (length piece.now) }
        ensures count { count_of self.new ≡ min (count_of self.old + length piece.now) (2 ^ 64 - 1) }
    {
        self.count = self.count.saturating_add(piece.len() as u64);
        Ok(piece.len())
    }
}
