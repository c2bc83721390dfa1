ghost use Rattle.std.specs.Prelude.{◌≡◌, ◌≤◌, ◌<◌, ◌-◌, ◌^◌, ◌↔◌, [], length, take, min, Some, IfOk, IsErr, IsTrue, Contains};
ghost use Rattle.std.specs.Io.{ReadsAtMost};
ghost use Rattle.std.specs.Io.KnownBytes.{ReadConsumes, WriteAppends};
ghost use Rattle.wire_io.specs.Causes.{HasCause};

use crate::sink::Sink;
use crate::source::{Failed, Source};
use plain_data::List;
use std::alloc::Global;
use std::marker::Model;

/// A source in memory, which tells what is left. Its reads are numbered from 0, and those listed
/// fail.
#[derive(Debug, Drop)]
pub struct MemSource {
    bytes: List<u8>,
    at: usize,
    piece: usize,
    failing: List<u64>,
    calls: u64,
    faults: u64,
}

impl Model for MemSource {
    ghost use Rattle.std.specs.Prelude.{◌<◌, ◌≤◌, drop, length};
    ghost use Rattle.wire_io.specs.Memory.{Feed};

    ghost Value = { Feed };

    ghost view = { λ s. record { left = drop s.at s.bytes; piece = s.piece; failing = s.failing; calls = s.calls; faults = s.faults } };

    ghost invariant = { λ s. (0 < s.piece) × (s.at ≤ length s.bytes) };
}

impl MemSource {
    /// A source of these bytes that gives at most `piece` of them in one read.
    pub fn new(bytes: List<u8>, piece: usize, failing: List<u64>) -> MemSource
        requires { 0 < piece }
        ensures { result ≡ record { left = bytes; piece = piece; failing = failing; calls = 0; faults = 0 } }
    {
        MemSource {
            bytes,
            at: 0,
            piece,
            failing,
            calls: 0,
            faults: 0,
        }
    }
}

impl Source for MemSource {
    ghost left = { λ s. Some s.left };

    ghost faults = { λ s. s.faults };

    fn read(&mut self, into: &mut [u8]) -> Result<usize, Failed>
        requires { 0 < length into.old }
        ensures bound { ReadsAtMost result into.new }
        ensures bytes { ReadConsumes (Some self.old.left) (Some self.new.left) result into.new }
        ensures cause { HasCause self.old.faults self.new.faults result }
        ensures listed { IsErr result ↔ ((self.old.calls < 2 ^ 64 - 1) × Contains self.old.failing self.old.calls) }
    {
        let call = self.calls;
        self.calls = call.saturating_add(1);
        if call < u64::MAX && self.failing.as_slice().contains(&call) {
            self.faults = self.faults.saturating_add(1);
            return Err(Failed);
        }
        let rest = &self.bytes.as_slice()[self.at..];
        let count = copy_front(rest, into, self.piece);
        self.at += count;
        Ok(count)
    }
}

/// Copies as much as is there, fits and may be copied.
fn copy_front(from: &[u8], into: &mut [u8], at_most: usize) -> usize
    ensures count { result ≡ min (min (length from.now) (length into.old)) at_most }
    ensures front { take result into.new ≡ take result from.now }
{
    let count = from.len().min(into.len()).min(at_most);
    into[..count].copy_from_slice(&from[..count]);
    count
}

/// A sink in memory, which tells what it holds. Its writes are numbered from 0; those listed fail,
/// and so does one that finds no memory.
#[derive(Debug, Drop)]
pub struct MemSink {
    held: List<u8>,
    failing: List<u64>,
    calls: u64,
    faults: u64,
}

impl Model for MemSink {
    ghost use Rattle.wire_io.specs.Memory.{Store};

    ghost Value = { Store };

    ghost view = { λ s. record { held = s.held; failing = s.failing; calls = s.calls; faults = s.faults } };
}

impl MemSink {
    /// A sink that holds nothing.
    pub fn new(alloc: Global, failing: List<u64>) -> MemSink
        ensures { result ≡ record { held = []; failing = failing; calls = 0; faults = 0 } }
    {
        MemSink {
            held: List::new(alloc),
            failing,
            calls: 0,
            faults: 0,
        }
    }

    /// What was written.
    pub fn held(&self) -> &[u8]
        ensures { result.now ≡ self.now.held }
    {
        self.held.as_slice()
    }

    fn is_listed(&self) -> bool
        ensures { IsTrue result ↔ ((self.now.calls < 2 ^ 64 - 1) × Contains self.now.failing self.now.calls) }
    {
        self.calls < u64::MAX && self.failing.as_slice().contains(&self.calls)
    }
}

impl Sink for MemSink {
    ghost held = { λ s. Some s.held };

    ghost faults = { λ s. s.faults };

    fn write(&mut self, piece: &[u8]) -> Result<usize, Failed>
        requires { 0 < length piece.now }
        ensures some { IfOk result (λ n. 0 < n) }
        ensures bound { IfOk result (λ n. n ≤ length piece.now) }
        ensures bytes { WriteAppends (Some self.old.held) (Some self.new.held) result piece.now }
        ensures cause { HasCause self.old.faults self.new.faults result }
        ensures listed { (self.old.calls < 2 ^ 64 - 1) × Contains self.old.failing self.old.calls → IsErr result }
    {
        let listed = self.is_listed();
        self.calls = self.calls.saturating_add(1);
        if listed || self.held.extend_from_slice(piece).is_err() {
            self.faults = self.faults.saturating_add(1);
            return Err(Failed);
        }
        Ok(piece.len())
    }
}
