// A source and a sink in memory. They tell their bytes, and fail at the calls that they are told to fail at.
ghost use Rattle.std.specs.Prelude.{◌≡◌, ◌≤◌, ◌<◌, ◌+◌, ◌-◌, ◌⊎◌, ◌↔◌, List, ℕ, [], Some, length, min, take, drop, Contains, IfOk, OnOk, OnErr, IsErr, IsTrue, is_err, vec_capacity};
ghost use Rattle.std.specs.Io.{ReadsAtMost, WritesAtMost};
ghost use Rattle.cs_base.specs.Counts.{count_up};
ghost use Rattle.cs_outside.specs.Outside.{HasCause, Takes, Adds, IsAtEnd};
ghost use Rattle.cs_outside.specs.Memory.{Input, Output, counted};

use super::{Failed, Sink, Source};
use cs_base::Memory;
use std::alloc::Global;
use std::marker::Model;

/// A source of bytes in memory. It tells its bytes, fails exactly at the calls that it was made to fail at, and takes no
/// memory. Contracts see it as an `Input`.
#[derive(Drop)]
pub struct MemorySource {
    bytes: Vec<u8>,
    at: usize,
    step: usize,
    failing: Vec<u64>,
    calls: u64,
    faults: u64,
}

impl Model for MemorySource {
    ghost Value = { Input };

    ghost view = { λ s. record { left = drop s.at s.bytes.items; step = s.step; failing = s.failing.items; calls = s.calls; faults = s.faults } };

    ghost invariant = { λ s. record { within : s.at ≤ length s.bytes.items; gives : 0 < s.step } };
}

impl MemorySource {
    /// A source of these bytes. The calls of `read` whose numbers, counted from 1, stand in `failing` will fail.
    pub fn new(bytes: Vec<u8>, failing: Vec<u64>) -> MemorySource
        ensures { result ≡ record { left = bytes.items; step = usize.MAX; failing = failing.items; calls = 0; faults = 0 } }
    {
        MemorySource::in_steps(bytes, usize::MAX, failing)
    }

    /// The same, that gives at most `step` bytes at a call.
    pub fn in_steps(bytes: Vec<u8>, step: usize, failing: Vec<u64>) -> MemorySource
        requires { 0 < step }
        ensures { result ≡ record { left = bytes.items; step = step; failing = failing.items; calls = 0; faults = 0 } }
    {
        MemorySource {
            bytes,
            at: 0,
            step,
            failing,
            calls: 0,
            faults: 0,
        }
    }

    /// How often `read` was called, up to the last number of 64 bits.
    pub fn calls(&self) -> u64
        ensures { result ≡ self.now.calls }
    {
        self.calls
    }
}

/// Whether the call with this number is one that is to fail.
fn is_listed(failing: &[u64], call: u64) -> bool
    ensures { IsTrue result ↔ Contains failing.now call }
{
    failing.contains(&call)
}

/// Copies bytes from the start of `rest` into the start of `buf`, as many as fit and at most `step`, and answers how many.
fn fill(buf: &mut [u8], rest: &[u8], step: usize) -> usize
    requires { 0 < step }
    ensures count { result ≡ min step (min (length buf.old) (length rest.now)) }
    ensures bound { result ≤ length buf.new }
    ensures within { result ≤ length rest.now }
    ensures moved { take result buf.new ≡ take result rest.now }
    ensures none { result ≡ 0 → 0 < length buf.old → rest.now ≡ [] }
{
    let count = step.min(buf.len().min(rest.len()));
    buf[..count].copy_from_slice(&rest[..count]);
    count
}

impl Source for MemorySource {
    ghost left = { λ s. Some s.left };

    ghost faults = { λ s. s.faults };

    ghost calls = { λ s. s.calls };

    fn read(&mut self, buf: &mut [u8]) -> Result<usize, Failed>
        ensures bound { ReadsAtMost result buf.new }
        ensures ok { IfOk result (λ n. Takes (Some self.old.left) (Some self.new.left) (take n buf.new)) }
        ensures end { IfOk result (λ n. n ≡ 0 → 0 < length buf.old → IsAtEnd (Some self.new.left)) }
        ensures err { OnErr result (Some self.new.left ≡ Some self.old.left) }
        ensures cause { HasCause self.old.faults self.new.faults result }
        ensures called { self.new.calls ≡ count_up self.old.calls }
        ensures fails { IsErr result ↔ Contains self.old.failing (count_up self.old.calls) }
        ensures faults { self.new.faults ≡ counted (is_err result) self.old.faults }
        ensures failing { self.new.failing ≡ self.old.failing }
        ensures step { self.new.step ≡ self.old.step }
        ensures count { IfOk result (λ n. n ≡ min self.old.step (min (length buf.old) (length self.old.left))) }
    {
        self.calls = self.calls.saturating_add(1);
        if is_listed(&self.failing, self.calls) {
            self.faults = self.faults.saturating_add(1);
            return Err(Failed);
        }
        let count = fill(buf, &self.bytes[self.at..], self.step);
        self.at += count;
        Ok(count)
    }
}

/// A sink for bytes in memory. It tells its bytes, fails exactly at the calls that it was made to fail at and where it is
/// full, and its writes take no memory. Contracts see it as an `Output`.
#[derive(Drop)]
pub struct MemorySink {
    bytes: Vec<u8>,
    room: usize,
    step: usize,
    failing: Vec<u64>,
    calls: u64,
    faults: u64,
}

impl Model for MemorySink {
    ghost Value = { Output };

    ghost view = { λ s. record { held = s.bytes.items; room = s.room; step = s.step; failing = s.failing.items; calls = s.calls; faults = s.faults } };

    ghost invariant = { λ s. record { within : length s.bytes.items ≤ s.room; reserved : s.room ≤ vec_capacity s.bytes; takes : 0 < s.step } };
}

impl MemorySink {
    /// An empty sink with room for `room` bytes, whose memory is taken here. The calls of `write` whose numbers, counted
    /// from 1, stand in `failing` will fail, and so will each that hands a byte to a full sink.
    pub fn new(alloc: Global, room: usize, failing: Vec<u64>) -> Result<MemorySink, Memory>
        ensures { IfOk result (λ s. s ≡ record { held = []; room = room; step = usize.MAX; failing = failing.items; calls = 0; faults = 0 }) }
    {
        MemorySink::in_steps(alloc, room, usize::MAX, failing)
    }

    /// The same, that takes at most `step` bytes at a call.
    pub fn in_steps(
        alloc: Global,
        room: usize,
        step: usize,
        failing: Vec<u64>,
    ) -> Result<MemorySink, Memory>
        requires { 0 < step }
        ensures { IfOk result (λ s. s ≡ record { held = []; room = room; step = step; failing = failing.items; calls = 0; faults = 0 }) }
    {
        let bytes = Vec::with_capacity(alloc, room)?;
        Ok(MemorySink {
            bytes,
            room,
            step,
            failing,
            calls: 0,
            faults: 0,
        })
    }

    /// The bytes that are held.
    pub fn held(&self) -> &[u8]
        ensures { result.now ≡ self.now.held }
    {
        &self.bytes
    }

    /// How often `write` was called, up to the last number of 64 bits.
    pub fn calls(&self) -> u64
        ensures { result ≡ self.now.calls }
    {
        self.calls
    }
}

impl Sink for MemorySink {
    ghost held = { λ s. Some s.held };

    ghost faults = { λ s. s.faults };

    ghost calls = { λ s. s.calls };

    fn write(&mut self, piece: &[u8]) -> Result<usize, Failed>
        ensures bound { WritesAtMost result piece.now }
        ensures progress { IfOk result (λ n. 0 < length piece.now → 0 < n) }
        ensures ok { IfOk result (λ n. Adds (Some self.old.held) (Some self.new.held) (take n piece.now)) }
        ensures err { OnErr result (Some self.new.held ≡ Some self.old.held) }
        ensures cause { HasCause self.old.faults self.new.faults result }
        ensures called { self.new.calls ≡ count_up self.old.calls }
        ensures fails { IsErr result ↔ (Contains self.old.failing (count_up self.old.calls) ⊎ ((length self.old.held ≡ self.old.room) × (0 < length piece.now))) }
        ensures faults { self.new.faults ≡ counted (is_err result) self.old.faults }
        ensures failing { self.new.failing ≡ self.old.failing }
        ensures room { self.new.room ≡ self.old.room }
        ensures within { length self.new.held ≤ self.new.room }
        ensures step { self.new.step ≡ self.old.step }
        ensures count { IfOk result (λ n. n ≡ min self.old.step (min (self.old.room - length self.old.held) (length piece.now))) }
    {
        self.calls = self.calls.saturating_add(1);
        let free = self.room - self.bytes.len();
        if is_listed(&self.failing, self.calls) || (free == 0 && !piece.is_empty()) {
            self.faults = self.faults.saturating_add(1);
            return Err(Failed);
        }
        let count = self.step.min(free.min(piece.len()));
        match self.bytes.extend_from_slice(&piece[..count]) {
            Ok(()) => Ok(count),
            Err(_) => unreachable!(),
        }
    }
}
