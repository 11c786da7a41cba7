//! A source and a sink in memory, which fail at listed calls.
ghost use Rattle.std.specs.Prelude.{◌≡◌, ◌+◌, ◌-◌, ◌≤◌, ◌<◌, ◌++◌, ◌⊎◌, ◌↔◌, [], length, take, min, Contains, IfOk, IsErr, IsTrue, OnErr, is_err, if◌then◌else◌};
ghost use Rattle.outside_io.specs.Edges.{Rose, raised};

use crate::sink::Sink;
use crate::source::{Failed, Source};
use ndis_base::OutOfMemory;
use std::alloc::{AllocError, Global};
use std::marker::Model;

/// Whether a call is listed.
fn is_listed(failing: &[u64], call: u64) -> bool
    ensures { IsTrue result ↔ Contains failing.now call }
{
    failing.contains(&call)
}

/// Bytes in memory to be read, with the calls that fail, counted from 1.
#[derive(Drop)]
pub struct MemorySource {
    bytes: Vec<u8>,
    at: usize,
    failing: Vec<u64>,
    calls: u64,
    faults: u64,
}

impl Model for MemorySource {
    ghost use Rattle.std.specs.Prelude.{drop, vec_len, ◌≤◌};
    ghost use Rattle.outside_io.specs.Memory.{Reading};

    ghost Value = { Reading };

    ghost view = { λ s. record { left = drop s.at s.bytes.items; failing = s.failing.items; calls = s.calls; faults = s.faults } };

    ghost invariant = { λ s. s.at ≤ vec_len s.bytes };
}

impl MemorySource {
    /// A source of these bytes that fails at these calls. It takes no memory.
    pub fn make(bytes: Vec<u8>, failing: Vec<u64>) -> MemorySource
        ensures { result ≡ record { left = bytes.items; failing = failing.items; calls = 0; faults = 0 } }
    {
        MemorySource {
            bytes,
            at: 0,
            failing,
            calls: 0,
            faults: 0,
        }
    }
}

impl Source for MemorySource {
    ghost use Rattle.std.specs.Prelude.{Some};

    ghost left = { λ s. Some s.left };

    ghost faults = { λ s. s.faults };

    fn read(&mut self, out: &mut [u8]) -> Result<usize, Failed>
        requires { 0 < length out.old }
        ensures fails { IsErr result ↔ Contains self.old.failing (raised self.old.calls) }
        ensures takes { IfOk result (λ n. n ≡ min (length out.old) (length self.old.left)) }
        ensures told { IfOk result (λ n. self.old.left ≡ take n out.new ++ self.new.left) }
        ensures kept { OnErr result (self.new.left ≡ self.old.left) }
        ensures failing { self.new.failing ≡ self.old.failing }
        ensures calls { self.new.calls ≡ raised self.old.calls }
        ensures faults { self.new.faults ≡ (if is_err result then raised self.old.faults else self.old.faults) }
        ensures failed { OnErr result (Rose self.old.faults self.new.faults) }
        ensures count { self.old.faults ≤ self.new.faults }
    {
        self.calls = self.calls.saturating_add(1);
        if is_listed(&self.failing, self.calls) {
            self.faults = self.faults.saturating_add(1);
            return Err(Failed);
        }
        let rest = &self.bytes[self.at..];
        let n = out.len().min(rest.len());
        out[..n].copy_from_slice(&rest[..n]);
        self.at += n;
        Ok(n)
    }
}

/// A sink in memory of so much room, with the calls that fail, counted from 1.
#[derive(Drop)]
pub struct MemorySink {
    bytes: Vec<u8>,
    room: usize,
    failing: Vec<u64>,
    calls: u64,
    faults: u64,
}

impl Model for MemorySink {
    ghost use Rattle.std.specs.Prelude.{vec_len, vec_capacity, ◌≤◌};
    ghost use Rattle.outside_io.specs.Memory.{Writing};

    ghost Value = { Writing };

    ghost view = { λ s. record { held = s.bytes.items; room = s.room; failing = s.failing.items; calls = s.calls; faults = s.faults } };

    ghost invariant = { λ s. (vec_len s.bytes ≤ s.room) × (s.room ≤ vec_capacity s.bytes) };
}

impl MemorySink {
    /// An empty sink of this room, in bytes, that fails at these calls. The room is taken at once.
    pub fn make(alloc: Global, room: usize, failing: Vec<u64>) -> Result<MemorySink, OutOfMemory>
        ensures { IfOk result (λ s. s ≡ record { held = []; room = room; failing = failing.items; calls = 0; faults = 0 }) }
    {
        let bytes = Vec::with_capacity(alloc, room)?;
        Ok(MemorySink {
            bytes,
            room,
            failing,
            calls: 0,
            faults: 0,
        })
    }

    /// What the sink holds.
    pub fn bytes(&self) -> &[u8]
        ensures { result.now ≡ self.now.held }
    {
        self.bytes.as_slice()
    }
}

impl Sink for MemorySink {
    ghost use Rattle.std.specs.Prelude.{Some};

    ghost holds = { λ s. Some s.held };

    ghost faults = { λ s. s.faults };

    fn write(&mut self, piece: &[u8]) -> Result<usize, Failed>
        requires { 0 < length piece.now }
        ensures fails { IsErr result ↔ (length self.old.held ≡ self.old.room ⊎ Contains self.old.failing (raised self.old.calls)) }
        ensures takes { IfOk result (λ n. n ≡ min (length piece.now) (self.old.room - length self.old.held)) }
        ensures told { IfOk result (λ n. self.new.held ≡ self.old.held ++ take n piece.now) }
        ensures kept { OnErr result (self.new.held ≡ self.old.held) }
        ensures room { self.new.room ≡ self.old.room }
        ensures failing { self.new.failing ≡ self.old.failing }
        ensures calls { self.new.calls ≡ raised self.old.calls }
        ensures faults { self.new.faults ≡ (if is_err result then raised self.old.faults else self.old.faults) }
        ensures some { IfOk result (λ n. 0 < n) }
        ensures failed { OnErr result (Rose self.old.faults self.new.faults) }
        ensures count { self.old.faults ≤ self.new.faults }
    {
        self.calls = self.calls.saturating_add(1);
        if self.bytes.len() == self.room || is_listed(&self.failing, self.calls) {
            self.faults = self.faults.saturating_add(1);
            return Err(Failed);
        }
        let n = piece.len().min(self.room - self.bytes.len());
        match self.bytes.extend_from_slice(&piece[..n]) {
            Ok(()) => Ok(n),
            Err(AllocError) => unreachable!(),
        }
    }
}
