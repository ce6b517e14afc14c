//! One copy of a table as bytes, and back.
#![tactic(auto)]

ghost use Rattle.std.specs.Prelude.{◌≡◌, ◌≤◌, ◌<◌, ◌+◌, ◌^◌, ℕ, length, bytes_eq, codes, IfSome};
ghost use Rattle.std.specs.List.{list_all};
ghost use Rattle.shr_base.specs.Blocks.{bytes_at, number_at};
ghost use Rattle.shr_base.specs.Ids.{guid_order};
ghost use Rattle.gpt_table.specs.Format as spec;
ghost use Rattle.gpt_table.specs.Format.{table_of, IsWritableOn, is_inside, slot_of, entries_of, entry_of};

use crate::{ENTRIES, ENTRIES_BYTES, Entry, FEWEST_SECTORS, Slice, Table, TableCopy};
use arrayvec::ArrayVec;
use shr_base::fields::{id_at, put_bytes, u32_at, u64_at};
use shr_base::{Id, crc32, guid_id};

/// What a header begins with.
const SIGNATURE: &[u8; 8] = b"EFI PART";

/// The sector of a copy's header.
pub(crate) fn header_sector(copy: TableCopy, sectors: u64) -> u64
    requires { 0 < sectors }
    ensures { result ≡ spec.header_sector copy sectors }
{
    match copy {
        TableCopy::Primary => 1,
        TableCopy::Backup => sectors - 1,
    }
}

/// The first sector of its entries.
pub(crate) fn entries_sector(copy: TableCopy, sectors: u64) -> u64
    requires { FEWEST_SECTORS ≤ sectors }
    ensures { result ≡ spec.entries_sector copy sectors }
{
    match copy {
        TableCopy::Primary => 2,
        TableCopy::Backup => sectors - 33,
    }
}

/// The id whose GUID is stored at `offset`.
fn guid_at(block: &[u8], offset: usize) -> Id
    requires { offset + 16 ≤ length block.now }
    ensures { result.0 ≡ guid_order (bytes_at offset 16 block.now) }
{
    let stored = id_at(block, offset);
    guid_id(&stored.0)
}

/// Whether an entry's type is all zeros.
#[tactic(auto, unfolding(shr_base::specs::Blocks::bytes_at))]
fn is_unused(slot: &[u8]) -> bool
    requires { length slot.now ≡ 128 }
    ensures { result ≡ spec.is_unused slot.now }
{
    slot[0..16].iter().all(|byte| *byte == 0)
}

/// What an entry says.
#[tactic(auto, unfolding(crate::specs::Format::slice_of))]
fn slice_of(slot: &[u8]) -> Slice
    requires { length slot.now ≡ 128 }
    ensures { result ≡ spec.slice_of slot.now }
{
    let kind = guid_at(slot, 0);
    let id = guid_at(slot, 16);
    let first = u64_at(slot, 32);
    let last = u64_at(slot, 40);
    Slice {
        kind,
        id,
        first,
        last,
    }
}

/// The bytes of one of the 128 entries.
#[tactic(auto, unfolding(shr_base::specs::Blocks::bytes_at))]
fn slot_at(bytes: &[u8; ENTRIES_BYTES], place: usize) -> &[u8]
    requires { place < 128 }
    ensures slot { result.now ≡ slot_of place bytes.now }
    ensures long { length result.now ≡ 128 }
{
    let start = 128 * place;
    &bytes[start..start + 128]
}

/// The entry at one of the 128 places, if it is in use.
fn entry_at(bytes: &[u8; ENTRIES_BYTES], place: usize) -> Option<Entry>
    requires { place < 128 }
    ensures { result ≡ entry_of bytes.now place }
{
    let slot = slot_at(bytes, place);
    if is_unused(slot) {
        return None;
    }
    let number = place as u32 + 1;
    let slice = slice_of(slot);
    Some(Entry { number, slice })
}

/// The entries in use.
fn entries_in(bytes: &[u8; ENTRIES_BYTES]) -> ArrayVec<Entry, ENTRIES>
    ensures { result.items ≡ entries_of bytes.now }
{
    let mut entries = ArrayVec::new();
    for place in 0..ENTRIES {
        if let Some(entry) = entry_at(bytes, place) {
            entries.push(entry);
        }
    }
    entries
}

/// The sum of a header over its first `size` bytes, its own field as zeros.
fn header_sum(header: &[u8; 512], size: u32) -> u32
    requires small { size ≤ 512 }
    requires said { size ≡ number_at 12 4 header.now }
    ensures { result ≡ spec.header_sum header.now }
{
    let mut copied = *header;
    put_bytes(&mut copied, 16, &[0; 4]);
    crc32(&copied[0..size as usize])
}

/// Whether a sector is the header of this copy, whole.
fn is_header(copy: TableCopy, sectors: u64, header: &[u8; 512]) -> bool
    requires { FEWEST_SECTORS ≤ sectors }
    ensures { result ≡ spec.is_header copy sectors header.now }
{
    let size = u32_at(header, 12);
    has_signature(header)
        && 92 <= size
        && size <= 512
        && u32_at(header, 16) == header_sum(header, size)
        && u64_at(header, 24) == header_sector(copy, sectors)
        && u64_at(header, 72) == entries_sector(copy, sectors)
        && u32_at(header, 80) == 128
        && u32_at(header, 84) == 128
}

/// Whether a header begins as one.
#[tactic(auto, unfolding(shr_base::specs::Blocks::bytes_at))]
fn has_signature(header: &[u8; 512]) -> bool
    ensures { result ≡ bytes_eq (bytes_at 0 8 header.now) (codes "EFI PART") }
{
    &header[0..8] == SIGNATURE.as_slice()
}

/// Whether each entry lies inside the disk.
fn all_inside(entries: &[Entry], sectors: u64) -> bool
    ensures { result ≡ list_all (λ entry. is_inside sectors entry.slice) entries.now }
{
    entries.iter().all(|entry| entry.slice.first <= entry.slice.last && entry.slice.last < sectors)
}

/// The table of a copy, if it is valid.
pub(crate) fn decode(
    copy: TableCopy,
    sectors: u64,
    header: &[u8; 512],
    bytes: &[u8; ENTRIES_BYTES],
) -> Option<Table>
    requires { FEWEST_SECTORS ≤ sectors }
    ensures table { result ≡ table_of copy sectors header.now bytes.now }
    ensures writable { IfSome result (λ table. IsWritableOn sectors table) }
{
    if !is_header(copy, sectors, header) || u32_at(header, 88) != crc32(bytes) {
        return None;
    }
    let entries = entries_in(bytes);
    if !all_inside(&entries, sectors) {
        return None;
    }
    let disk_id = guid_at(header, 56);
    Some(Table {
        disk_id,
        sectors,
        entries,
    })
}
