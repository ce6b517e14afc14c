//! Readers and writers of the standard library as the two ends.
ghost use Rattle.std.specs.Prelude.{◌≡◌, ◌+◌, ◌-◌, ◌^◌, ◌<◌, ◌≤◌, ◌++◌, length, take, IfOk, OnOk, OnErr};
ghost use Rattle.io_ends.specs.Faults.{one_more};
ghost use Rattle.io_ends.specs.Known.{IsKnown, bytes_of};

use crate::{Failed, Sink, Source};
use std::io::{Read, Write};

/// A reader as a source. Its bytes are told where the reader tells them.
#[derive(Drop)]
pub struct StdSource<R> {
    reader: R,
    faults: u64,
}

impl<R: Read + Drop> StdSource<R> {
    /// The source that reads from `reader`.
    pub fn new(reader: R) -> StdSource<R>
        ensures reader { result.reader ≡ reader }
        ensures faults { result.faults ≡ 0 }
    {
        StdSource { reader, faults: 0 }
    }
}

impl<R: Read + Drop> Source for StdSource<R> {
    ghost left = { λ source. bytes_of (R.remaining source.reader) };

    ghost told = { λ source. IsKnown (R.remaining source.reader) };

    ghost faults = { λ source. source.faults };

    fn take(&mut self, into: &mut [u8]) -> Result<usize, Failed> {
        match self.reader.read(into) {
            Ok(count) => Ok(count),
            Err(_) => {
                self.faults = self.faults.saturating_add(1);
                Err(Failed)
            }
        }
    }
}

/// A writer as a sink. Its bytes are told where the writer tells them.
#[derive(Drop)]
pub struct StdSink<W> {
    writer: W,
    faults: u64,
}

impl<W: Write + Drop> StdSink<W> {
    /// The sink that writes to `writer`.
    pub fn new(writer: W) -> StdSink<W>
        ensures writer { result.writer ≡ writer }
        ensures faults { result.faults ≡ 0 }
    {
        StdSink { writer, faults: 0 }
    }

    // Writes a first part of `piece`, and says how much of it. A writer that takes nothing has
    // failed.
    fn write_some(&mut self, piece: &[u8]) -> Result<usize, Failed>
        requires { 0 < length piece.now }
        ensures bounded { IfOk result (λ count. (0 < count) × (count ≤ length piece.now)) }
        ensures written { IsKnown (W.contents self.old.writer) → IfOk result (λ count.
            bytes_of (W.contents self.new.writer)
            ≡ bytes_of (W.contents self.old.writer) ++ take count piece.now) }
        ensures kept { IsKnown (W.contents self.old.writer) → OnErr result (
            bytes_of (W.contents self.new.writer) ≡ bytes_of (W.contents self.old.writer)) }
        ensures told { IsKnown (W.contents self.old.writer) → IsKnown (W.contents self.new.writer) }
        ensures no_fault { OnOk result (self.new.faults ≡ self.old.faults) }
        ensures fault { OnErr result (self.new.faults ≡ one_more self.old.faults) }
    {
        match self.writer.write(piece) {
            Ok(count) if count > 0 => Ok(count),
            _ => {
                self.faults = self.faults.saturating_add(1);
                Err(Failed)
            }
        }
    }
}

impl<W: Write + Drop> Sink for StdSink<W> {
    ghost taken = { λ sink. bytes_of (W.contents sink.writer) };

    ghost told = { λ sink. IsKnown (W.contents sink.writer) };

    ghost faults = { λ sink. sink.faults };

    fn put(&mut self, from: &[u8]) -> Result<(), Failed> {
        let mut done = 0;
        while done < from.len() {
            done += self.write_some(&from[done..])?;
        }
        Ok(())
    }
}
