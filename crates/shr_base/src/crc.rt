ghost use Rattle.std.specs.Prelude.{◌≡◌, ◌<◌, ◌+◌, ◌*◌};
ghost use Rattle.shr_base.specs.Crc.{times_x_to, after_byte, remainder_from, crc32_of, lvm_crc_of};

use crate::remainders::REMAINDERS;
use byteorder::{ByteOrder, LittleEndian};

/// What LVM2's checks start from.
const LVM_START: u32 = 0xf597_a6cf;

/// CRC-32 of some bytes, as GPT (UEFI 5.3.2) and zlib take it.
pub fn crc32(bytes: &[u8]) -> u32
    ensures { result ≡ crc32_of bytes.now }
{
    remainder(u32::MAX, bytes) ^ u32::MAX
}

/// The check of LVM2's labels, metadata headers and texts.
pub fn lvm_crc(bytes: &[u8]) -> u32
    ensures { result ≡ lvm_crc_of bytes.now }
{
    remainder(LVM_START, bytes)
}

/// The register once the bytes have gone through it, eight at a time as long as there are eight.
fn remainder(start: u32, bytes: &[u8]) -> u32
    ensures { result ≡ remainder_from start bytes.now }
{
    let mut register = start;
    let mut rest = bytes;
    while let Some((chunk, after)) = rest.split_first_chunk::<8>() {
        register = after_chunk(register, chunk);
        rest = after;
    }
    remainder_by_bytes(register, rest)
}

/// The register once the bytes have gone through it one at a time.
fn remainder_by_bytes(start: u32, bytes: &[u8]) -> u32
    ensures { result ≡ remainder_from start bytes.now }
{
    let mut register = start;
    for byte in bytes {
        let low = register.to_le_bytes()[0];
        register = (register >> 8) ^ entry(0, low ^ *byte);
    }
    register
}

/// The register once eight bytes have gone through it.
fn after_chunk(register: u32, chunk: &[u8; 8]) -> u32
    ensures { result ≡ remainder_from register chunk.now }
{
    after_word(u64::from(register) ^ LittleEndian::read_u64(chunk))
}

/// The register once 64 bits have gone through it, the register before them added to the first.
fn after_word(word: u64) -> u32
    ensures { result ≡ times_x_to 64 word }
{
    let [b0, b1, b2, b3, b4, b5, b6, b7] = word.to_le_bytes();
    entry(7, b0)
        ^ entry(6, b1)
        ^ entry(5, b2)
        ^ entry(4, b3)
        ^ entry(3, b4)
        ^ entry(2, b5)
        ^ entry(1, b6)
        ^ entry(0, b7)
}

/// The remainder of a byte with `8 * (table + 1)` zero bits behind it.
fn entry(table: usize, byte: u8) -> u32
    requires { table < 8 }
    ensures { result ≡ times_x_to (8 * (table + 1)) byte }
{
    REMAINDERS[table][byte as usize]
}
