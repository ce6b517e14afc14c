//! Fields of fixed width: read at an offset, and written one behind the other into zeros.

ghost use Rattle.lvm_label.specs.Fields.{number_at, padded};
ghost use Rattle.std.specs.Prelude.{◌+◌, ◌++◌, ◌≡◌, ◌≤◌, List, drop, length, ℕ};

use byteorder::{ByteOrder, LittleEndian};

/// The number in the four bytes at an offset.
pub(crate) fn u32_at(bytes: &[u8], offset: usize) -> u32
    requires { offset + 4 ≤ length bytes.now }
    ensures { result ≡ number_at 4 offset bytes.now }
{
    LittleEndian::read_u32(from(bytes, offset))
}

/// The number in the eight bytes at an offset.
pub(crate) fn u64_at(bytes: &[u8], offset: usize) -> u64
    requires { offset + 8 ≤ length bytes.now }
    ensures { result ≡ number_at 8 offset bytes.now }
{
    LittleEndian::read_u64(from(bytes, offset))
}

/// The bytes from an offset on.
pub(crate) fn from(bytes: &[u8], offset: usize) -> &[u8]
    requires { offset ≤ length bytes.now }
    ensures rest { result.now ≡ drop offset bytes.now }
    ensures len { length result.now + offset ≡ length bytes.now }
{
    bytes.split_at(offset).1
}

/// Writes the bytes at `at`, and answers where they end.
pub(crate) fn put(buffer: &mut [u8], at: usize, bytes: &[u8]) -> usize
    requires { at + length bytes.now ≤ length buffer.old }
    ensures end { result ≡ at + length bytes.now }
    ensures appended { (size : ℕ) (text : List ℕ) → length buffer.old ≡ size → length text ≡ at → buffer.old ≡ padded size text → buffer.new ≡ padded size (text ++ bytes.now) }
{
    let end = at + bytes.len();
    buffer[at..end].copy_from_slice(bytes);
    end
}
