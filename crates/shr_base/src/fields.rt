//! Fields of a block of bytes, read and written: numbers with their lowest byte first, ids, and bytes as
//! they stand. Each field lies inside the block.

ghost use Rattle.std.specs.Prelude.{◌≡◌, ℕ, ◌≤◌, ◌<◌, ◌+◌, ◌*◌, ◌^◌, length, slice_index, FitsSigned};
ghost use Rattle.std.specs.Int.{w32, cast_unsigned};
ghost use Rattle.std.specs.List.{flat_map};
ghost use Rattle.byteorder.specs.Endian.{little_bytes};
ghost use Rattle.shr_base.specs.Blocks.{bytes_at, number_at, signed_at, put_at};

use crate::ids::Id;
use byteorder::{ByteOrder, LittleEndian};

/// The byte at `offset`.
#[tactic(auto, unfolding(crate::specs::Blocks::number_at, crate::specs::Blocks::bytes_at))]
pub fn u8_at(block: &[u8], offset: usize) -> u8
    requires { offset < length block.now }
    ensures { result ≡ number_at offset 1 block.now }
{
    block[offset]
}

/// The number of 32 bits at `offset`.
#[tactic(auto, unfolding(crate::specs::Blocks::number_at, crate::specs::Blocks::bytes_at))]
pub fn u32_at(block: &[u8], offset: usize) -> u32
    requires { offset + 4 ≤ length block.now }
    ensures { result ≡ number_at offset 4 block.now }
{
    LittleEndian::read_u32(&block[offset..offset + 4])
}

/// The number of 64 bits at `offset`.
#[tactic(auto, unfolding(crate::specs::Blocks::number_at, crate::specs::Blocks::bytes_at))]
pub fn u64_at(block: &[u8], offset: usize) -> u64
    requires { offset + 8 ≤ length block.now }
    ensures { result ≡ number_at offset 8 block.now }
{
    LittleEndian::read_u64(&block[offset..offset + 8])
}

/// The number of 32 bits with a sign at `offset`.
#[tactic(auto, unfolding(crate::specs::Blocks::number_at, crate::specs::Blocks::bytes_at))]
pub fn i32_at(block: &[u8], offset: usize) -> i32
    requires { offset + 4 ≤ length block.now }
    ensures { result ≡ signed_at offset block.now }
{
    LittleEndian::read_i32(&block[offset..offset + 4])
}

/// The id at `offset`, in the order of its text.
#[tactic(auto, unfolding(crate::specs::Blocks::bytes_at))]
pub fn id_at(block: &[u8], offset: usize) -> Id
    requires { offset + 16 ≤ length block.now }
    ensures { result.0 ≡ bytes_at offset 16 block.now }
{
    let mut id = [0; 16];
    id.copy_from_slice(&block[offset..offset + 16]);
    Id(id)
}

/// Writes a byte.
pub fn put_u8(block: &mut [u8], offset: usize, number: u8)
    requires { offset < length block.old }
    ensures fits { number < 2 ^ 8 }
    ensures written { block.new ≡ put_at offset 1 (little_bytes 1 number) block.old }
{
    put_bytes(block, offset, &[number]);
}

/// Writes a number of 32 bits.
#[tactic(auto, unfolding(crate::specs::Blocks::put_at))]
pub fn put_u32(block: &mut [u8], offset: usize, number: u32)
    requires { offset + 4 ≤ length block.old }
    ensures fits { number < 2 ^ 32 }
    ensures written { block.new ≡ put_at offset 4 (little_bytes 4 number) block.old }
{
    LittleEndian::write_u32(&mut block[offset..offset + 4], number);
}

/// Writes a number of 64 bits.
#[tactic(auto, unfolding(crate::specs::Blocks::put_at))]
pub fn put_u64(block: &mut [u8], offset: usize, number: u64)
    requires { offset + 8 ≤ length block.old }
    ensures fits { number < 2 ^ 64 }
    ensures written { block.new ≡ put_at offset 8 (little_bytes 8 number) block.old }
{
    LittleEndian::write_u64(&mut block[offset..offset + 8], number);
}

/// Writes a number of 32 bits with a sign.
#[tactic(auto, unfolding(crate::specs::Blocks::put_at))]
pub fn put_i32(block: &mut [u8], offset: usize, number: i32)
    requires { offset + 4 ≤ length block.old }
    ensures fits { FitsSigned w32 number }
    ensures written { block.new ≡ put_at offset 4 (little_bytes 4 (cast_unsigned w32 number)) block.old }
{
    LittleEndian::write_i32(&mut block[offset..offset + 4], number);
}

/// Writes bytes as they stand.
#[tactic(auto, unfolding(crate::specs::Blocks::put_at))]
pub fn put_bytes<const N: usize>(block: &mut [u8], offset: usize, bytes: &[u8; N])
    requires { offset + N ≤ length block.old }
    ensures fits { length bytes.now ≡ N }
    ensures written { block.new ≡ put_at offset N bytes.now block.old }
{
    block[offset..offset + N].copy_from_slice(bytes);
}

/// Writes numbers of 16 bits one after the other.
#[tactic(auto, unfolding(crate::specs::Blocks::put_at))]
pub fn put_numbers(block: &mut [u8], offset: usize, numbers: &[u16])
    requires { offset + 2 * length numbers.now ≤ length block.old }
    ensures fits { (k : ℕ) → slice_index numbers.now k < 2 ^ 16 }
    ensures written { block.new ≡ put_at offset (2 * length numbers.now) (flat_map (little_bytes 2) numbers.now) block.old }
{
    LittleEndian::write_u16_into(numbers, &mut block[offset..offset + 2 * numbers.len()]);
}
