//! Sectors and bytes of an image.

ghost use Rattle.std.specs.Prelude.{◌≡◌, ◌+◌, ◌*◌, ◌≤◌, ◌<◌, ◌^◌, ◌++◌, length, OnOk, OnErr, IfOk, Err, ◌≢◌};
ghost use Rattle.gpt_table.specs.Disk.{joined};
ghost use Rattle.image_text.specs.Contents.{bytes_from};
ghost use Rattle.image_text.specs.Reading.{Gives};

use rack::{Bay, Gone, NoMemory, Rack};
use std::alloc::Global;
use std::marker::Model;

/// Why bytes of an image couldn't be had.
#[derive(Clone, Copy, Debug, PartialEq, Eq)]
pub enum Unread {
    /// The disk refused a read.
    Gone,
    /// There was no memory for them.
    Memory,
}

/// Bytes in a row.
#[derive(Debug, Drop)]
pub struct Bytes {
    items: Vec<u8>,
}

impl Model for Bytes {
    ghost use Rattle.std.specs.Prelude.{ℕ, List};

    ghost Value = { List ℕ };

    ghost view = { λ bytes. bytes.items.items };
}

impl Bytes {
    ghost use Rattle.std.specs.Prelude.{[]};

    /// No bytes, and room for so many.
    pub fn with_room(alloc: Global, room: usize) -> Result<Bytes, NoMemory>
        ensures { IfOk result (λ bytes. bytes ≡ []) }
    {
        match Vec::with_capacity(alloc, room) {
            Ok(items) => Ok(Bytes { items }),
            Err(_) => Err(NoMemory),
        }
    }

    /// Appends bytes; without memory nothing changes.
    pub fn append(&mut self, more: &[u8]) -> Result<(), NoMemory>
        ensures ok { OnOk result (self.new ≡ self.old ++ more.now) }
        ensures err { OnErr result (self.new ≡ self.old) }
    {
        match self.items.extend_from_slice(more) {
            Ok(()) => Ok(()),
            Err(_) => Err(NoMemory),
        }
    }

    /// Them, one after the other.
    pub fn as_slice(&self) -> &[u8]
        ensures { result.now ≡ self.now }
    {
        self.items.as_slice()
    }
}

/// Two sectors in a row.
pub fn read_pair<B: Bay>(
    bay: &mut B,
    disk: u32,
    first: u64,
    low: &mut [u8; 512],
    high: &mut [u8; 512],
) -> Result<(), Unread>
    requires disk { disk < (B.seen bay.old).disks }
    requires inside { first + 2 ≤ (B.seen bay.old).sectors disk }
    requires bounded { first < 2 ^ 63 }
    ensures gives { Gives (B.seen bay.old) (B.seen bay.new) disk (λ image done. (low.new ≡ image first) × (high.new ≡ image (first + 1))) result }
    ensures cause { result ≢ Err Unread.Memory }
{
    if bay.read(disk, first, low).is_err() {
        return Err(Unread::Gone);
    }
    if bay.read(disk, first + 1, high).is_err() {
        return Err(Unread::Gone);
    }
    Ok(())
}

/// The bytes of sectors in a row.
fn read_sectors<B: Bay>(
    alloc: Global,
    bay: &mut B,
    disk: u32,
    first: u64,
    count: usize,
) -> Result<Bytes, Unread>
    requires disk { disk < (B.seen bay.old).disks }
    requires inside { first + count ≤ (B.seen bay.old).sectors disk }
    requires bounded { first < 2 ^ 62 }
    requires few { count ≤ 4096 }
    ensures gives { Gives (B.seen bay.old) (B.seen bay.new) disk (λ image bytes. bytes ≡ joined image first count) result }
    ensures long { IfOk result (λ bytes. length bytes ≡ 512 * count) }
{
    let Ok(mut bytes) = Bytes::with_room(alloc, 512 * count) else {
        return Err(Unread::Memory);
    };
    for place in 0..count {
        let mut sector = [0; 512];
        if let Err(_) = bay.read(disk, first + place as u64, &mut sector) {
            return Err(Unread::Gone);
        }
        if let Err(_) = bytes.append(&sector) {
            return Err(Unread::Memory);
        }
    }
    Ok(bytes)
}

/// Appends so many bytes, from one of the image on.
pub fn append_bytes<B: Bay>(
    alloc: Global,
    bay: &mut B,
    disk: u32,
    at: u64,
    count: usize,
    into: &mut Bytes,
) -> Result<(), Unread>
    requires disk { disk < (B.seen bay.old).disks }
    requires inside { at + count ≤ 512 * (B.seen bay.old).sectors disk }
    requires bounded { at < 2 ^ 62 }
    requires few { count ≤ 1048576 }
    ensures gives { Gives (B.seen bay.old) (B.seen bay.new) disk (λ image done. into.new ≡ into.old ++ bytes_from image at count) result }
    ensures long { OnOk result (length into.new ≡ length into.old + count) }
{
    let skipped = (at % 512) as usize;
    let sectors = (skipped + count + 511) / 512;
    let bytes = match read_sectors(alloc, bay, disk, at / 512, sectors) {
        Ok(bytes) => bytes,
        Err(why) => return Err(why),
    };
    match into.append(&bytes.as_slice()[skipped..skipped + count]) {
        Ok(()) => Ok(()),
        Err(_) => Err(Unread::Memory),
    }
}
