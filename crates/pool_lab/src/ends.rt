//! The ends of a run: a script that is given a line, or a byte, at a time, and a sink that keeps when each piece came.

ghost use Rattle.std.specs.Prelude.{◌<◌, ◌≤◌, ◌^◌, length};

use io_ends::{Failed, Sink, Source};
use std::cell::Cell;

/// How the ends of a run fail.
#[derive(Clone, Copy, Drop)]
pub struct Ends {
    /// The number of the source's call that fails, counted from 0.
    pub take: Option<u64>,
    /// The number of the sink's call that fails, counted from 0.
    pub put: Option<u64>,
    /// The source gives one byte a call, and not a line.
    pub narrow: bool,
}

/// Ends that don't fail.
pub const SOUND: Ends = Ends {
    take: None,
    put: None,
    narrow: false,
};

/// A script as a source. It gives no more than the rest of a line at each call, and keeps how many calls the drives
/// had answered when each line was asked for: those of the lines before it.
#[derive(Drop)]
pub struct ScriptSource<'a> {
    script: &'a [u8],
    at: usize,
    ends: Ends,
    takes: u64,
    calls: &'a Cell<u64>,
    starts: Vec<u64>,
    faults: u64,
    ghost counted: { faults < 2 ^ 64 },
}

impl<'a> ScriptSource<'a> {
    /// The source of a script beside the count of the drives' calls.
    pub fn new(
        script: &'a [u8],
        ends: Ends,
        calls: &'a Cell<u64>,
        starts: Vec<u64>,
    ) -> ScriptSource<'a> {
        ScriptSource {
            script,
            at: 0,
            ends,
            takes: 0,
            calls,
            starts,
            faults: 0,
        }
    }

    /// How many calls the drives had answered when each line was asked for, and the end of the input after them.
    pub fn into_starts(self) -> Vec<u64> {
        self.starts
    }

    // The piece that the next call gives.
    fn piece(&self) -> &'a [u8] {
        let rest = self.script.get(self.at..).unwrap_or(&[]);
        if self.ends.narrow {
            return rest.get(..1).unwrap_or(rest);
        }
        match rest.iter().position(|byte| *byte == b'\n') {
            Some(end) => rest.get(..=end).unwrap_or(rest),
            None => rest,
        }
    }

    // Whether the next byte begins a line, or the input ends where one would.
    fn begins(&self) -> bool {
        let before = self.at.checked_sub(1);
        let last = before.and_then(|at| self.script.get(at).copied());
        last.is_none() || last == Some(b'\n')
    }
}

// Copies as many of the first bytes of a piece as fit, and says how many.
fn copy_front(piece: &[u8], into: &mut [u8]) -> usize
    ensures { result ≤ length into.new }
{
    let count = piece.len().min(into.len());
    into[..count].copy_from_slice(&piece[..count]);
    count
}

impl<'a> Source for ScriptSource<'a> {
    ghost use Rattle.std.specs.Prelude.{[]};

    ghost left = { λ source. [] };

    ghost told = { λ source. ⊥ };

    ghost faults = { λ source. source.faults };

    fn take(&mut self, into: &mut [u8]) -> Result<usize, Failed> {
        let number = self.takes;
        self.takes = number.saturating_add(1);
        if self.ends.take == Some(number) {
            self.faults = self.faults.saturating_add(1);
            return Err(Failed);
        }
        if self.begins() {
            let _ = self.starts.push(self.calls.get());
        }
        let count = copy_front(self.piece(), into);
        self.at = self.at.saturating_add(count);
        Ok(count)
    }
}

/// A sink that keeps, for each piece that it is given, how many calls the drives had answered before it.
#[derive(Drop)]
pub struct WatchedSink<'a, O> {
    /// The sink.
    pub sink: O,
    /// The count of the drives' calls.
    pub calls: &'a Cell<u64>,
    /// How many calls the drives had answered when each piece came.
    pub puts: Vec<u64>,
}

impl<'a, O: Sink> Sink for WatchedSink<'a, O> {
    ghost taken = { λ watched. O.taken watched.sink };

    ghost told = { λ watched. O.told watched.sink };

    ghost faults = { λ watched. O.faults watched.sink };

    fn put(&mut self, from: &[u8]) -> Result<(), Failed> {
        let _ = self.puts.push(self.calls.get());
        self.sink.put(from)
    }
}
