//! The buffer of a file.

ghost use Rattle.std.specs.Prelude.{◌≡◌, ◌≤◌, ◌<◌, ◌+◌, ◌*◌, ◌++◌, length, take, drop};

use rack::NoMemory;
use std::alloc::Global;
use std::os::unix::fs::FileExt;

const BUFFER_BYTES: usize = 1 << 16;

/// A buffer of 128 places, each a sector of 512 bytes.
#[derive(Drop)]
pub struct Buffer {
    bytes: Vec<u8>,
    ghost sized: { length bytes.items ≡ 65536 },
}

impl Buffer {
    /// A buffer of zeros.
    pub fn new(alloc: Global) -> Result<Buffer, NoMemory> {
        match vec![in alloc; 0; BUFFER_BYTES] {
            Ok(bytes) => Ok(Buffer { bytes }),
            Err(_) => Err(NoMemory),
        }
    }

    /// Copies a place.
    pub fn get(&self, place: u64, into: &mut [u8; 512])
        requires { place < 128 }
        ensures { into.new ≡ take 512 (drop (512 * place) self.now.bytes.items) }
    {
        let at = 512 * place as usize;
        into.copy_from_slice(&self.bytes[at..at + 512]);
    }

    /// Copies a sector to a place.
    pub fn put(&mut self, place: u64, from: &[u8; 512])
        requires { place < 128 }
        ensures { self.new.bytes.items
            ≡ take (512 * place) self.old.bytes.items ++ from.now ++ drop (512 * place + 512) self.old.bytes.items }
    {
        let at = 512 * place as usize;
        self.bytes[at..at + 512].copy_from_slice(from);
    }

    /// Writes places in a row to a file, and says whether it took them all.
    pub fn write_to(&self, place: u64, count: u64, file: &impl FileExt, offset: u64) -> bool
        requires { place + count ≤ 128 }
    {
        let at = 512 * place as usize;
        let end = at + 512 * count as usize;
        file.write_all_at(&self.bytes[at..end], offset).is_ok()
    }

    /// Reads the first places from a file, and says whether it had them all.
    pub fn read_from(&mut self, count: u64, file: &impl FileExt, offset: u64) -> bool
        requires { count ≤ 128 }
    {
        read_first(
            self.bytes.as_mut_slice(),
            512 * count as usize,
            file,
            offset,
        )
    }
}

// Reads the first bytes of a slice.
fn read_first(bytes: &mut [u8], count: usize, file: &impl FileExt, offset: u64) -> bool
    requires { count ≤ length bytes.old }
{
    file.read_exact_at(&mut bytes[..count], offset).is_ok()
}
