//! One copy of a table as bytes: entries without attributes and names.
#![tactic(auto)]

ghost use Rattle.std.specs.Prelude.{◌≡◌, ◌≤◌, ◌<◌, ◌+◌, ◌*◌, ◌==◌, ◌^◌, length, replicate, false, Some};
ghost use Rattle.std.specs.List.{list_all};
ghost use Rattle.shr_base.specs.Blocks.{put_all};
ghost use Rattle.shr_base.specs.Ids.{guid_order};
ghost use Rattle.gpt_table.specs.Format.{IsWritable, IsWritten, AreWritten, header_fields, slot_fields, slot_bytes, is_unused, slice_of, entries_of};

use crate::codec::{entries_sector, header_sector};
use crate::{ENTRIES_BYTES, Slice, Table, TableCopy};
use shr_base::fields::{put_bytes, put_u32, put_u64};
use shr_base::{crc32, guid_bytes};

/// The 128 bytes of an entry with these GUIDs, as they are stored.
fn slot_with(kind: &[u8; 16], id: &[u8; 16], first: u64, last: u64) -> [u8; 128]
    ensures written { result ≡ put_all (slot_fields kind.now id.now first last) (replicate 128 0) }
    ensures kind_fits { length kind.now ≡ 16 }
    ensures id_fits { length id.now ≡ 16 }
    ensures first_fits { first < 2 ^ 64 }
    ensures last_fits { last < 2 ^ 64 }
{
    let mut slot = [0; 128];
    put_bytes(&mut slot, 0, kind);
    put_bytes(&mut slot, 16, id);
    put_u64(&mut slot, 32, first);
    put_u64(&mut slot, 40, last);
    slot
}

/// The 128 bytes of an entry.
fn slot_of(slice: &Slice) -> [u8; 128]
    ensures long { length result ≡ 128 }
    ensures written { result ≡ slot_bytes slice.now }
    ensures reads { slice_of result ≡ slice.now }
    ensures used { list_all (λ byte. byte == 0) slice.now.kind.0 ≡ false → is_unused result ≡ false }
{
    let kind = guid_bytes(&slice.kind);
    let id = guid_bytes(&slice.id);
    slot_with(&kind, &id, slice.first, slice.last)
}

/// The 16384 bytes of a table's entries.
pub(crate) fn encode_entries(table: &Table) -> [u8; ENTRIES_BYTES]
    requires { IsWritable table.now }
    ensures long { length result ≡ 16384 }
    ensures written { AreWritten table.now.entries.items result }
    ensures reads { entries_of result ≡ table.now.entries.items }
{
    let mut bytes = [0; ENTRIES_BYTES];
    for entry in table.entries.as_slice() {
        let place = entry.number as usize - 1;
        put_bytes(&mut bytes, 128 * place, &slot_of(&entry.slice));
    }
    bytes
}

/// The header of a copy, before its own sum is in it.
fn header_without_sum(copy: TableCopy, sectors: u64, guid: &[u8; 16], sum: u32) -> [u8; 512]
    requires { 67 ≤ sectors }
    ensures written { result ≡ put_all (header_fields copy sectors guid.now sum) (replicate 512 0) }
    ensures long { length result ≡ 512 }
    ensures guid_fits { length guid.now ≡ 16 }
    ensures sum_fits { sum < 2 ^ 32 }
    ensures sectors_fit { sectors < 2 ^ 64 }
{
    let mut header = [0; 512];
    let other = match copy {
        TableCopy::Primary => TableCopy::Backup,
        TableCopy::Backup => TableCopy::Primary,
    };
    put_bytes(&mut header, 0, b"EFI PART");
    put_u32(&mut header, 8, 0x0001_0000);
    put_u32(&mut header, 12, 92);
    put_u64(&mut header, 24, header_sector(copy, sectors));
    put_u64(&mut header, 32, header_sector(other, sectors));
    put_u64(&mut header, 40, 34);
    put_u64(&mut header, 48, sectors - 34);
    put_bytes(&mut header, 56, guid);
    put_u64(&mut header, 72, entries_sector(copy, sectors));
    put_u32(&mut header, 80, 128);
    put_u32(&mut header, 84, 128);
    put_u32(&mut header, 88, sum);
    header
}

/// The header of a copy with these entries.
pub(crate) fn encode_header(
    copy: TableCopy,
    table: &Table,
    bytes: &[u8; ENTRIES_BYTES],
) -> [u8; 512]
    requires writable { IsWritable table.now }
    requires written { AreWritten table.now.entries.items bytes.now }
    requires entries { entries_of bytes.now ≡ table.now.entries.items }
    ensures long { length result ≡ 512 }
    ensures written { IsWritten copy table.now result bytes.now }
{
    let guid = guid_bytes(&table.disk_id);
    let mut header = header_without_sum(copy, table.sectors, &guid, crc32(bytes));
    let sum = crc32(&header[0..92]);
    put_u32(&mut header, 16, sum);
    header
}
