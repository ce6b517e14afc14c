//! The two ends in memory, which fail at chosen calls.
ghost use Rattle.std.specs.Prelude.{◌≡◌, ◌↔◌, ◌⊎◌, ◌+◌, ◌<◌, ◌≤◌, [], ◌++◌, length, min, drop, vec_len, vec_capacity, IfOk, IsErr, IsTrue, OnOk, OnErr, option_map};
ghost use Rattle.io_ends.specs.Faults.{one_more, after_call};
ghost use Rattle.io_ends.specs.Source.{TakesFirst, MemoryInput};
ghost use Rattle.io_ends.specs.Sink.{MemoryOutput};

use crate::{Failed, Sink, Source};
use rack::NoMemory;
use std::alloc::Global;
use std::marker::Model;

// Counts a call, and says whether it is the one that fails.
fn is_due(calls_before: &mut Option<u64>) -> bool
    ensures due { IsTrue result ↔ (calls_before.old ≡ Some 0) }
    ensures counted { calls_before.new ≡ after_call calls_before.old }
{
    match *calls_before {
        None => false,
        Some(0) => {
            *calls_before = None;
            true
        }
        Some(calls) => {
            *calls_before = Some(calls - 1);
            false
        }
    }
}

// Copies as many of the first bytes of `left` to the front of `into` as fit, and says how many.
fn copy_front(left: &[u8], into: &mut [u8]) -> usize
    requires { 0 < length into.old }
    ensures count { result ≡ min (length left.now) (length into.new) }
    ensures taken { TakesFirst result left.now (drop result left.now) into.new }
{
    let count = left.len().min(into.len());
    into[..count].copy_from_slice(&left[..count]);
    count
}

/// A source of the bytes of a `Vec`. One chosen call of it fails.
#[derive(Drop)]
pub struct MemSource {
    bytes: Vec<u8>,
    at: usize,
    fails_after: Option<u64>,
    faults: u64,
}

impl Model for MemSource {
    ghost Value = { MemoryInput };

    ghost view = { λ source. record {
      left = drop source.at source.bytes.items;
      fails_after = source.fails_after;
      faults = source.faults;
    } };

    ghost invariant = { λ source. source.at ≤ vec_len source.bytes };
}

impl MemSource {
    /// A source of `bytes` whose call number `fail_at`, counted from 0, fails, and no other. It
    /// takes no memory.
    pub fn new(bytes: Vec<u8>, fail_at: Option<u64>) -> MemSource
        ensures { result ≡ record { left = bytes.items; fails_after = fail_at; faults = 0 } }
    {
        MemSource {
            bytes,
            at: 0,
            fails_after: fail_at,
            faults: 0,
        }
    }
}

impl Source for MemSource {
    ghost left = { λ source. source.left };

    ghost told = { λ _. Unit {0} };

    ghost faults = { λ source. source.faults };

    fn take(&mut self, into: &mut [u8]) -> Result<usize, Failed>
        requires { 0 < length into.old }
        ensures bounded { IfOk result (λ count. count ≤ length into.new) }
        ensures taken { IfOk result (λ count.
            TakesFirst count self.old.left self.new.left into.new) }
        ensures kept { OnErr result (self.new.left ≡ self.old.left) }
        ensures faults { self.old.faults ≤ self.new.faults }

        // Exactly the chosen call fails, and is counted.
        ensures fails { IsErr result ↔ (self.old.fails_after ≡ Some 0) }
        ensures calls { self.new.fails_after ≡ after_call self.old.fails_after }
        ensures no_fault { OnOk result (self.new.faults ≡ self.old.faults) }
        ensures fault { OnErr result (self.new.faults ≡ one_more self.old.faults) }
    {
        if is_due(&mut self.fails_after) {
            self.faults = self.faults.saturating_add(1);
            return Err(Failed);
        }
        let (_, left) = self.bytes.as_slice().split_at(self.at);
        let count = copy_front(left, into);
        self.at += count;
        Ok(count)
    }
}

/// A sink that keeps its bytes, in room taken beforehand. One chosen call of it fails.
#[derive(Drop)]
pub struct MemSink {
    bytes: Vec<u8>,
    room: usize,
    fails_after: Option<u64>,
    faults: u64,
}

impl Model for MemSink {
    ghost Value = { MemoryOutput };

    ghost view = { λ sink. record {
      taken = sink.bytes.items;
      room = sink.room;
      fails_after = sink.fails_after;
      faults = sink.faults;
    } };

    ghost invariant = { λ sink. (vec_len sink.bytes ≤ sink.room) × (sink.room ≤ vec_capacity sink.bytes) };
}

impl MemSink {
    /// A sink with room for `room` bytes whose call number `fail_at`, counted from 0, fails.
    pub fn new(alloc: Global, room: usize, fail_at: Option<u64>) -> Result<MemSink, NoMemory>
        ensures { IfOk result (λ sink. sink ≡ record { taken = []; room = room; fails_after = fail_at; faults = 0 }) }
    {
        let bytes = Vec::with_capacity(alloc, room).map_err(|_| NoMemory)?;
        Ok(MemSink {
            bytes,
            room,
            fails_after: fail_at,
            faults: 0,
        })
    }

    /// All bytes that it has taken.
    pub fn bytes(&self) -> &[u8]
        ensures { result.now ≡ self.now.taken }
    {
        self.bytes.as_slice()
    }
}

impl Sink for MemSink {
    ghost taken = { λ sink. sink.taken };

    ghost told = { λ _. Unit {0} };

    ghost faults = { λ sink. sink.faults };

    fn put(&mut self, from: &[u8]) -> Result<(), Failed>
        ensures put { OnOk result (self.new.taken ≡ self.old.taken ++ from.now) }
        ensures kept { OnErr result (self.new.taken ≡ self.old.taken) }
        ensures faults { self.old.faults ≤ self.new.faults }

        // Exactly the chosen call and one past the room fail, and are counted.
        ensures fails { IsErr result ↔ ((self.old.fails_after ≡ Some 0)
            ⊎ (self.old.room < length self.old.taken + length from.now)) }
        ensures calls { self.new.fails_after ≡ after_call self.old.fails_after }
        ensures room { self.new.room ≡ self.old.room }
        ensures no_fault { OnOk result (self.new.faults ≡ self.old.faults) }
        ensures fault { OnErr result (self.new.faults ≡ one_more self.old.faults) }
    {
        let due = is_due(&mut self.fails_after);
        if due || self.room - self.bytes.len() < from.len() {
            self.faults = self.faults.saturating_add(1);
            return Err(Failed);
        }
        self.bytes.extend_from_slice(from).unwrap();
        Ok(())
    }
}
