//! Gates: which record counts, and whether it is pending.

ghost use Rattle.std.specs.Prelude.{◌≡◌, ◌≤◌, ◌==◌, None, Some, MatchOption, bytes_eq, length, replicate};
ghost use Rattle.shr_base.specs.Blocks.{bytes_at, put_at};
ghost use Rattle.shr_base.specs.Crc.{crc32_of};
ghost use Rattle.log_laws.specs.Bytes as spec;
ghost use Rattle.log_laws.specs.Bytes.{is_gate};
ghost use Rattle.array_image.specs.Record.{gate_of};

use shr_base::crc32;
use shr_base::fields::{put_bytes, put_u32, put_u64, u32_at, u64_at};

/// The first word of a gate.
const WORD: [u8; 8] = *b"SHRGATE1";

/// A gate: open while the targets of its record may be unwritten.
#[derive(Clone, Copy)]
pub(crate) struct Gate {
    pub(crate) open: bool,
    pub(crate) number: u64,
}

impl Gate {
    /// Its sector.
    pub(crate) fn encode(&self) -> [u8; 512]
        ensures gate { gate_of result ≡ Some (record { is_open = self.now.open; number = self.now.number }) }
        ensures sized { length result ≡ 512 }
    {
        let mut block = [0; 512];
        put_gate(&mut block, if self.open { 1 } else { 0 }, self.number);
        block
    }

    /// The gate in a sector, if it is well formed.
    pub(crate) fn decode(block: &[u8; 512]) -> Option<Gate>
        ensures { MatchOption result (gate_of block.now ≡ None) (λ g. gate_of block.now ≡ Some (record { is_open = g.open; number = g.number })) }
    {
        if is_well_formed(block) {
            Some(Gate {
                open: u32_at(block, 12) == 1,
                number: u64_at(block, 16),
            })
        } else {
            None
        }
    }
}

/// The gate of a new log: closed, with number 0 (docs/FORMATS.md, 'Commit log').
pub fn first_gate() -> [u8; 512]
    ensures { result ≡ spec.first_gate }
{
    let mut gate = [0; 512];
    put_bytes(&mut gate, 0, &WORD);
    let sum = crc32(&gate);
    put_u32(&mut gate, 8, sum);
    gate
}

// The fields of a gate, and then the sum over its sector.
fn put_gate(block: &mut [u8], flag: u32, number: u64)
    requires { length block.old ≡ 512 }
    ensures { gate_of block.new ≡ Some (record { is_open = flag == 1; number = number }) }
{
    put_bytes(block, 0, &WORD);
    put_u32(block, 8, 0);
    put_u32(block, 12, flag);
    put_u64(block, 16, number);
    let sum = crc32(block);
    put_u32(block, 8, sum);
}

/// Whether a sector has the first word and the sum of a gate.
fn is_well_formed(block: &[u8; 512]) -> bool
    ensures { result ≡ is_gate block.now }
{
    begins_with(block, &WORD) && u32_at(block, 8) == sum_of(block)
}

/// Whether bytes begin with a word.
#[tactic(auto, unfolding(shr_base::specs::Blocks::bytes_at))]
pub(crate) fn begins_with(bytes: &[u8], word: &[u8; 8]) -> bool
    requires { 8 ≤ length bytes.now }
    ensures { result ≡ bytes_eq (bytes_at 0 8 bytes.now) word.now }
{
    &bytes[0..8] == word.as_slice()
}

/// The CRC-32 of a gate's sector with zeros for the sum itself.
fn sum_of(block: &[u8; 512]) -> u32
    ensures { result ≡ crc32_of (put_at 8 4 (replicate 4 0) block.now) }
{
    let mut plain = *block;
    put_u32(&mut plain, 8, 0);
    crc32(&plain)
}
