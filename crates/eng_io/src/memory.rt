ghost use Rattle.std.specs.Prelude.{◌≡◌, ℕ, ◌+◌, ◌-◌, ◌^◌, ◌≤◌, ◌<◌, ◌↔◌, [], List, Option, Some, Contains, IsErr};
ghost use Rattle.std.specs.Prelude.{IfOk, OnErr, length, drop, min};
ghost use Rattle.std.specs.Io.{ReadsAtMost, WritesAtMost};
ghost use Rattle.std.specs.Io.KnownBytes.{ReadConsumes, WriteAppends};
ghost use Rattle.eng_io.specs.Causes.{ReadCause, WriteCause};

use crate::traits::{Failed, Sink, Source};
use mus_units::{Row, Text};
use std::alloc::Global;

/// Bytes in memory, given in pieces of at most `piece` bytes from index `at` on. Exactly the calls numbered in
/// `fails`, from 0, fail, and they take nothing.
#[derive(Drop)]
pub struct MemSource {
    pub bytes: Text,
    pub at: usize,
    pub piece: u32,
    pub fails: Row<u64>,
    pub calls: u64,
    pub faults: u64,
    ghost in_range: { at ≤ length bytes },
    ghost moves: { 1 ≤ piece },
}

impl MemSource {
    /// Returns the source that begins at the first of `bytes`. Takes no memory.
    pub fn new(bytes: Text, piece: u32, fails: Row<u64>) -> MemSource
        requires { 1 ≤ piece }
        ensures bytes { result.bytes ≡ bytes }
        ensures at { result.at ≡ 0 }
        ensures piece { result.piece ≡ piece }
        ensures fails { result.fails ≡ fails }
        ensures calls { result.calls ≡ 0 }
        ensures faults { result.faults ≡ 0 }
    {
        MemSource {
            bytes,
            at: 0,
            piece,
            fails,
            calls: 0,
            faults: 0,
        }
    }
}

impl Source for MemSource {
    ghost use Rattle.eng_io.specs.Memories.{IsSameSource};

    ghost left = { λ s. Some (drop s.at s.bytes) };

    ghost faults = { λ s. s.faults };

    fn read(&mut self, buf: &mut [u8]) -> Result<usize, Failed>
        ensures bound { ReadsAtMost result buf.new }
        ensures bytes { ReadConsumes (Some (drop self.old.at self.old.bytes)) (Some (drop self.new.at self.new.bytes))
            result buf.new }
        ensures never_falls { self.old.faults ≤ self.new.faults }
        ensures cause { ReadCause self.old.faults self.new.faults result }
        ensures fails { IsErr result ↔ Contains self.old.fails self.old.calls }
        ensures call { self.new.calls ≡ min (self.old.calls + 1) (2 ^ 64 - 1) }
        ensures same { IsSameSource self.old self.new }
        ensures count { IfOk result
            (λ n. n ≡ min self.old.piece (min (length buf.old) (length self.old.bytes - self.old.at))) }
    {
        let call = self.calls;
        self.calls = call.saturating_add(1);
        if self.fails.as_slice().contains(&call) {
            self.faults = self.faults.saturating_add(1);
            return Err(Failed);
        }
        let rest = &self.bytes.as_slice()[self.at..];
        let count = buf.len().min(rest.len()).min(self.piece as usize);
        buf[..count].copy_from_slice(&rest[..count]);
        self.at += count;
        Ok(count)
    }
}

/// A sink that keeps its bytes and takes at most `piece` of them in each call. The calls numbered in `fails`, from 0,
/// fail. Any other call may fail because memory runs out, and `refusals` counts those.
#[derive(Drop)]
pub struct MemSink {
    pub bytes: Text,
    pub piece: u32,
    pub fails: Row<u64>,
    pub calls: u64,
    pub faults: u64,
    pub refusals: u64,
}

impl MemSink {
    /// Returns the sink that has taken nothing. Takes no memory.
    pub fn new(alloc: Global, piece: u32, fails: Row<u64>) -> MemSink
        ensures bytes { result.bytes ≡ [] }
        ensures piece { result.piece ≡ piece }
        ensures fails { result.fails ≡ fails }
        ensures calls { result.calls ≡ 0 }
        ensures faults { result.faults ≡ 0 }
        ensures refusals { result.refusals ≡ 0 }
    {
        MemSink {
            bytes: Text::new(alloc),
            piece,
            fails,
            calls: 0,
            faults: 0,
            refusals: 0,
        }
    }

    /// Returns how many of the failed calls weren't numbered to fail.
    pub fn refused(&self) -> u64
        ensures { result ≡ self.now.refusals }
    {
        self.refusals
    }

    /// Returns the bytes taken so far.
    pub fn taken(&self) -> &[u8]
        ensures { result.now ≡ self.now.bytes }
    {
        self.bytes.as_slice()
    }
}

impl Sink for MemSink {
    ghost use Rattle.eng_io.specs.Memories.{IsSameSink, Refused};

    ghost taken = { λ s. Some s.bytes };

    ghost faults = { λ s. s.faults };

    fn write(&mut self, b: &[u8]) -> Result<usize, Failed>
        ensures bound { WritesAtMost result b.now }
        ensures bytes { WriteAppends (Some self.old.bytes) (Some self.new.bytes) result b.now }
        ensures never_falls { self.old.faults ≤ self.new.faults }
        ensures cause { WriteCause self.old.faults self.new.faults result (length b.now) }
        ensures fails { Contains self.old.fails self.old.calls → IsErr result }
        ensures refusals { Refused (Contains self.old.fails self.old.calls) self.old.refusals self.new.refusals result }
        ensures call { self.new.calls ≡ min (self.old.calls + 1) (2 ^ 64 - 1) }
        ensures same { IsSameSink self.old self.new }
        ensures count { IfOk result (λ n. n ≡ min self.old.piece (length b.now)) }
    {
        let call = self.calls;
        self.calls = call.saturating_add(1);
        if self.fails.as_slice().contains(&call) {
            self.faults = self.faults.saturating_add(1);
            return Err(Failed);
        }
        let count = b.len().min(self.piece as usize);
        if self.bytes.append(&b[..count]).is_err() {
            self.faults = self.faults.saturating_add(1);
            self.refusals = self.refusals.saturating_add(1);
            return Err(Failed);
        }
        if count == 0 && !b.is_empty() {
            self.faults = self.faults.saturating_add(1);
        }
        Ok(count)
    }
}
