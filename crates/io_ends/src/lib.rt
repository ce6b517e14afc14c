//! The two ends of a program: a source of input bytes and a sink for output bytes.
//!
//! A [`Source`] is modelled by the bytes it has left, a [`Sink`] by all bytes that it has taken,
//! each beside a count of faults that never falls. An end may keep its bytes to itself: what a
//! contract says of them has the premise that they are told, as they are in memory.
//!
//! The contract for the layer above: whoever calls `take` until it answers 0 has read exactly the
//! bytes that were left, and after any row of `put` that answered `Ok` the bytes taken are the
//! pieces in order. [`Failed`] comes only where the fault count rose.
#![tactic(auto)]

ghost use Rattle.std.specs.Prelude.{◌≡◌, ◌<◌, ◌≤◌, ◌++◌, ℕ, List, length, IfOk, OnOk, OnErr};
ghost use Rattle.rack.specs.Seen.{Rose};
ghost use Rattle.io_ends.specs.Source.{TakesFirst};
ghost use Rattle.io_ends.specs.Sink.{AddsPrefix};

mod memory;
mod standard;

pub use memory::{MemSink, MemSource};
pub use standard::{StdSink, StdSource};

/// A read or a write that failed. The end has counted the fault.
#[derive(Debug, Clone, Copy, PartialEq, Eq)]
pub struct Failed;

/// A stream of input bytes.
pub trait Source: Drop {
    // The bytes that calls will give from here on.
    ghost left: { Self → List ℕ };

    // Whether clauses speak of the bytes left.
    ghost told: { Self → Type 0 };

    // How many calls have failed, at most 2^64 - 1.
    ghost faults: { Self → ℕ };

    /// Moves the next bytes to the front of `into`, and answers how many. It takes no memory.
    ///
    /// 0 is the end of the input. After `Failed` no byte is lost, and what `into` holds is open.
    fn take(&mut self, into: &mut [u8]) -> Result<usize, Failed>
        requires { 0 < length into.old }
        ensures bounded { IfOk result (λ count. count ≤ length into.new) }
        ensures taken { told self.old → IfOk result (λ count.
            TakesFirst count (left self.old) (left self.new) into.new) }
        ensures kept { told self.old → OnErr result (left self.new ≡ left self.old) }
        ensures told { told self.old → told self.new }
        ensures faults { faults self.old ≤ faults self.new }
        ensures failed { OnErr result (Rose (faults self.old) (faults self.new)) };
}

/// A stream of output bytes.
pub trait Sink: Drop {
    // All bytes that it has taken.
    ghost taken: { Self → List ℕ };

    // Whether clauses speak of the bytes taken.
    ghost told: { Self → Type 0 };

    // How many calls have failed, at most 2^64 - 1.
    ghost faults: { Self → ℕ };

    /// Takes all bytes of `from`, or fails after a prefix of them. It takes no memory.
    fn put(&mut self, from: &[u8]) -> Result<(), Failed>
        ensures put { told self.old → OnOk result (taken self.new ≡ taken self.old ++ from.now) }
        ensures prefix { told self.old → OnErr result (
            AddsPrefix (taken self.old) (taken self.new) from.now) }
        ensures told { told self.old → told self.new }
        ensures faults { faults self.old ≤ faults self.new }
        ensures failed { OnErr result (Rose (faults self.old) (faults self.new)) };
}

impl<S: Source> Source for &mut S {
    ghost left = { λ source. S.left source.now };

    ghost told = { λ source. S.told source.now };

    ghost faults = { λ source. S.faults source.now };

    fn take(&mut self, into: &mut [u8]) -> Result<usize, Failed> {
        (**self).take(into)
    }
}

impl<S: Sink> Sink for &mut S {
    ghost taken = { λ sink. S.taken sink.now };

    ghost told = { λ sink. S.told sink.now };

    ghost faults = { λ sink. S.faults sink.now };

    fn put(&mut self, from: &[u8]) -> Result<(), Failed> {
        (**self).put(from)
    }
}

#[cfg(test)]
mod tests {
    use super::*;
    use std::test::Fail;

    // Copies what is left of a source to a sink, three bytes a piece.
    fn copy<I: Source, O: Sink>(mut input: I, mut output: O) -> Result<(), Failed> {
        let mut piece = [0; 3];
        for _ in 0..u64::MAX {
            let count = input.take(&mut piece)?;
            if count == 0 {
                return Ok(());
            }
            output.put(&piece[..count])?;
        }
        Ok(())
    }

    #[test]
    fn a_failed_take_loses_no_byte(rt: HostRuntime) -> Result<(), Fail> {
        let bytes = b"superblock".to_vec(rt.alloc())?;
        let mut source = MemSource::new(bytes, Some(2));
        let mut sink = MemSink::new(rt.alloc(), 10, None)?;
        assert_eq!(rt; copy(&mut source, &mut sink), Err(Failed));
        assert_eq!(rt; sink.bytes(), b"superb".as_slice());
        assert_eq!(rt; copy(&mut source, &mut sink), Ok(()));
        assert_eq!(rt; sink.bytes(), b"superblock".as_slice());
        Ok(())
    }

    #[test]
    fn a_sink_fails_past_its_room_and_at_its_call(rt: HostRuntime) -> Result<(), Fail> {
        let mut sink = MemSink::new(rt.alloc(), 5, Some(3))?;
        let puts = [
            ("abc", Ok(())),
            ("def", Err(Failed)),
            ("d", Ok(())),
            ("e", Err(Failed)),
            ("e", Ok(())),
        ];
        for (piece, want) in puts {
            assert_eq!(rt; sink.put(piece.as_bytes()), want);
        }
        assert_eq!(rt; sink.bytes(), b"abcde".as_slice());
        Ok(())
    }

    #[test]
    fn readers_and_writers_are_ends(rt: HostRuntime) -> Result<(), Fail> {
        let source = StdSource::new(b"two mirrors".as_slice());
        let mut sink = MemSink::new(rt.alloc(), 11, None)?;
        assert_eq!(rt; copy(source, &mut sink), Ok(()));
        assert_eq!(rt; sink.bytes(), b"two mirrors".as_slice());

        let mut room = [0; 8];
        let short = StdSink::new(&mut room[..]);
        let bytes = b"two mirrors".to_vec(rt.alloc())?;
        assert_eq!(rt; copy(MemSource::new(bytes, None), short), Err(Failed));
        assert_eq!(rt; room, *b"two mirr");
        Ok(())
    }
}
