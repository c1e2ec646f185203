ghost use Rattle.std.specs.Prelude.{◌≡◌, ◌↔◌, ◌⊎◌, ◌<◌, ◌≤◌, ◌-◌, [], length, drop, min, vec_len, vec_capacity, None, Some, IfOk, IsErr, IsTrue, OnOk};
ghost use Rattle.std.specs.Io.{ReadsAtMost, WritesAtMost};
ghost use Rattle.std.specs.Io.KnownBytes.{ReadConsumes, WriteAppends};
ghost use Rattle.xsv_io.specs.Causes.{HasCause};

use crate::{Failed, Sink, Source};
use std::alloc::{AllocError, Global};

/// Which calls are to fail, by their numbers from 1 on, and how many were made.
#[derive(Drop)]
struct Script {
    fails: Vec<u32>,
    calls: u32,
}

impl Script {
    ghost use Rattle.xsv_io.specs.Memory.{next_call, IsToFail};

    /// Counts a call, and says whether it is to fail.
    fn next_fails(&mut self) -> bool
        ensures fails { IsTrue result ↔ IsToFail self.old.fails.items self.old.calls }
        ensures counted { self.new ≡ record self.old { calls = next_call self.old.calls } }
    {
        self.calls = self.calls.saturating_add(1);
        self.fails.contains(&self.calls)
    }
}

/// A source over bytes in memory, which fails at stated calls.
#[derive(Drop)]
pub struct MemSource {
    bytes: Vec<u8>,
    at: usize,
    piece: usize,
    script: Script,
    faults: u64,
    ghost within: { at ≤ vec_len bytes },
    ghost moves: { 1 ≤ piece },
}

impl MemSource {
    ghost use Rattle.xsv_io.specs.Memory.{source_rest, source_piece, source_fails, source_calls};

    /// A source of these bytes, in pieces of at most `piece` bytes. The calls with these numbers, counted
    /// from 1, fail.
    pub fn new(bytes: Vec<u8>, piece: usize, fails: Vec<u32>) -> Self
        requires { 1 ≤ piece }
        ensures rest { source_rest result ≡ bytes.items }
        ensures piece { source_piece result ≡ piece }
        ensures fails { source_fails result ≡ fails.items }
        ensures calls { source_calls result ≡ 0 }
        ensures faults { result.faults ≡ 0 }
    {
        MemSource {
            bytes,
            at: 0,
            piece,
            script: Script { fails, calls: 0 },
            faults: 0,
        }
    }
}

impl Source for MemSource {
    ghost use Rattle.xsv_io.specs.Bounds.{bound_of};
    ghost use Rattle.xsv_io.specs.BoundLaws.{bound_of-bounds};
    ghost use Rattle.xsv_io.specs.Memory.{source_rest, source_piece, source_fails, source_calls, next_call, IsToFail};

    ghost rest = { λ s. Some (source_rest s) };

    ghost faults = { λ s. s.faults };

    ghost fault_bound = { λ s. bound_of (source_fails s) s.faults };

    ghost bounded = { λ s. bound_of-bounds (source_fails s) s.faults };

    /// Fails at exactly the calls that are to fail. Any other call gives as many bytes as the buffer, the piece and what is
    /// left allow, and leaves the count of faults as it was.
    fn read(&mut self, into: &mut [u8]) -> Result<usize, Failed>
        ensures bound { ReadsAtMost result into.new }
        ensures bytes { ReadConsumes (Some (source_rest self.old)) (Some (source_rest self.new)) result into.new }
        ensures cause { HasCause self.old.faults self.new.faults result }
        ensures kept { bound_of (source_fails self.new) self.new.faults ≡ bound_of (source_fails self.old) self.old.faults }
        ensures scripted { IsErr result ↔ IsToFail (source_fails self.old) (source_calls self.old) }
        ensures size { IfOk result (λ n. n ≡ min (min (length into.old) (source_piece self.old)) (length (source_rest self.old))) }
        ensures steady { OnOk result (self.new.faults ≡ self.old.faults) }
        ensures counted { source_calls self.new ≡ next_call (source_calls self.old) }
        ensures script { source_fails self.new ≡ source_fails self.old }
        ensures piece { source_piece self.new ≡ source_piece self.old }
    {
        if self.script.next_fails() {
            self.faults = self.faults.saturating_add(1);
            return Err(Failed);
        }
        let left = self.bytes.len() - self.at;
        let count = into.len().min(self.piece).min(left);
        let end = self.at + count;
        into[..count].copy_from_slice(&self.bytes[self.at..end]);
        self.at = end;
        Ok(count)
    }
}

/// A sink in memory, with room for a stated number of bytes. It fails at stated calls, and where its
/// room does not suffice.
#[derive(Drop)]
pub struct MemSink {
    taken: Vec<u8>,
    room: usize,
    script: Script,
    faults: u64,
    ghost fits: { room ≤ vec_capacity taken },
}

impl MemSink {
    ghost use Rattle.xsv_io.specs.Memory.{sink_taken, sink_room, sink_fails, sink_calls};

    /// An empty sink with this room, in bytes. The calls with these numbers, counted from 1, fail.
    ///
    /// # Errors
    ///
    /// `AllocError` where there is no memory for that room.
    pub fn new(alloc: Global, room: usize, fails: Vec<u32>) -> Result<Self, AllocError>
        ensures taken { IfOk result (λ s. sink_taken s ≡ []) }
        ensures room { IfOk result (λ s. sink_room s ≡ room) }
        ensures fails { IfOk result (λ s. sink_fails s ≡ fails.items) }
        ensures calls { IfOk result (λ s. sink_calls s ≡ 0) }
        ensures faults { IfOk result (λ s. s.faults ≡ 0) }
    {
        Ok(MemSink {
            taken: Vec::with_capacity(alloc, room)?,
            room,
            script: Script { fails, calls: 0 },
            faults: 0,
        })
    }

    /// The bytes that were taken.
    pub fn taken(&self) -> &[u8]
        ensures { result.now ≡ sink_taken self.now }
    {
        &self.taken
    }
}

impl Sink for MemSink {
    ghost use Rattle.xsv_io.specs.Memory.{sink_taken, sink_room, sink_fails, sink_calls, next_call, IsToFail};

    ghost taken = { λ s. Some (sink_taken s) };

    ghost faults = { λ s. s.faults };

    ghost fault_bound = { λ _. None };

    ghost bounded = { λ _. tt };

    /// Fails at exactly the calls that are to fail and at those whose piece is past the room that is left. Any other call takes
    /// the whole piece, and leaves the count of faults as it was.
    fn write(&mut self, piece: &[u8]) -> Result<usize, Failed>
        ensures bound { WritesAtMost result piece.now }
        ensures some { IfOk result (λ n. 0 < length piece.now → 0 < n) }
        ensures bytes { WriteAppends (Some (sink_taken self.old)) (Some (sink_taken self.new)) result piece.now }
        ensures cause { HasCause self.old.faults self.new.faults result }
        ensures scripted { IsErr result ↔ (IsToFail (sink_fails self.old) (sink_calls self.old)
            ⊎ (sink_room self.old - length (sink_taken self.old) < length piece.now)) }
        ensures whole { IfOk result (λ n. n ≡ length piece.now) }
        ensures steady { OnOk result (self.new.faults ≡ self.old.faults) }
        ensures counted { sink_calls self.new ≡ next_call (sink_calls self.old) }
        ensures script { sink_fails self.new ≡ sink_fails self.old }
        ensures room { sink_room self.new ≡ sink_room self.old }
    {
        if self.script.next_fails() {
            self.faults = self.faults.saturating_add(1);
            return Err(Failed);
        }
        if self.room.saturating_sub(self.taken.len()) < piece.len() {
            self.faults = self.faults.saturating_add(1);
            return Err(Failed);
        }
        match self.taken.extend_from_slice(piece) {
            Ok(()) => Ok(piece.len()),
            Err(_) => unreachable!(),
        }
    }
}
