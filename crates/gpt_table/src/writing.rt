//! Writing a table to a disk.
#![tactic(auto)]

ghost use Rattle.std.specs.Prelude.{◌≡◌, ◌≤◌, ◌<◌, ◌+◌, ◌*◌, ◌^◌, ◌⊎◌, ℕ, List, length, IfErr, OnOk};
ghost use Rattle.rack.specs.Seen.{Rose};
ghost use Rattle.shr_base.specs.Blocks.{bytes_at};
ghost use Rattle.gpt_table.specs.Format.{IsWritable, mbr_of};
ghost use Rattle.gpt_table.specs.Calls.{Follows};
ghost use Rattle.gpt_table.specs.Plans.{entries_plan, copy_plan, WritesPlan, WritesSectors, WritesCopy, WritesTable};

use crate::codec::{entries_sector, header_sector};
use crate::encoding::{encode_entries, encode_header};
use crate::{ENTRIES_BYTES, Table, TableCopy};
use rack::{Gone, Rack};
use shr_base::fields::{put_bytes, put_u32};

/// One sector of a copy's entries.
#[tactic(auto, unfolding(shr_base::specs::Blocks::bytes_at))]
fn piece_of(bytes: &[u8; ENTRIES_BYTES], place: usize) -> [u8; 512]
    requires { place < 32 }
    ensures { result ≡ bytes_at (512 * place) 512 bytes.now }
{
    let mut sector = [0; 512];
    let start = 512 * place;
    sector.copy_from_slice(&bytes[start..start + 512]);
    sector
}

/// Writes the sectors of one copy's entries. They aren't durable yet.
pub(crate) fn write_entries<R: Rack>(
    rack: &mut R,
    disk: u32,
    first: u64,
    bytes: &[u8; ENTRIES_BYTES],
) -> Result<(), Gone>
    requires fit { (R.seen rack.old).fit }
    requires disk { disk < (R.seen rack.old).disks }
    requires within { first + 32 ≤ (R.seen rack.old).sectors disk }
    requires bounded { first < 2 ^ 52 }
    ensures writes { WritesPlan (R.seen rack.old) (R.seen rack.new) disk (entries_plan first bytes.now) result }
    ensures runs { R.runs rack.old rack.new }
{
    for place in 0..32 {
        let sector = piece_of(bytes, place);
        if let Err(gone) = rack.write(disk, first + place as u64, &sector) {
            return Err(gone);
        }
    }
    Ok(())
}

/// Writes the sectors of one copy, and makes them durable.
fn write_sectors<R: Rack>(
    rack: &mut R,
    disk: u32,
    own: u64,
    header: &[u8; 512],
    first: u64,
    bytes: &[u8; ENTRIES_BYTES],
) -> Result<(), Gone>
    requires fit { (R.seen rack.old).fit }
    requires disk { disk < (R.seen rack.old).disks }
    requires own { own < (R.seen rack.old).sectors disk }
    requires within { first + 32 ≤ (R.seen rack.old).sectors disk }
    requires apart { (own < first) ⊎ (first + 32 ≤ own) }
    requires bounded { first < 2 ^ 52 }
    ensures writes { WritesSectors (R.seen rack.old) (R.seen rack.new) disk (copy_plan own header.now first bytes.now) result }
    ensures runs { R.runs rack.old rack.new }
{
    // With no sync between: a disk whose table is laid whole is no drive of a pool yet, whatever a stop leaves of it.
    if let Err(gone) = write_entries(rack, disk, first, bytes) {
        return Err(gone);
    }
    if let Err(gone) = rack.write(disk, own, header) {
        return Err(gone);
    }
    match rack.sync(disk) {
        Ok(()) => Ok(()),
        Err(gone) => Err(gone),
    }
}

/// Writes one copy of a table, and makes it durable.
fn write_copy<R: Rack>(rack: &mut R, disk: u32, copy: TableCopy, table: &Table) -> Result<(), Gone>
    requires fit { (R.seen rack.old).fit }
    requires disk { disk < (R.seen rack.old).disks }
    requires size { table.now.sectors ≡ (R.seen rack.old).sectors disk }
    requires writable { IsWritable table.now }
    ensures writes { WritesCopy (R.seen rack.old) (R.seen rack.new) disk copy table.now result }
    ensures runs { R.runs rack.old rack.new }
{
    let bytes = encode_entries(table);
    let header = encode_header(copy, table, &bytes);
    let sectors = rack.sectors(disk);
    let own = header_sector(copy, sectors);
    let first = entries_sector(copy, sectors);
    write_sectors(rack, disk, own, &header, first, &bytes)
}

/// The protective MBR of a disk (UEFI, 5.2.3): one partition over all that it can say of the disk.
fn protective_mbr(sectors: u64) -> [u8; 512]
    requires { 0 < sectors }
    ensures { result ≡ mbr_of sectors }
{
    let mut sector = [0; 512];
    let size = (sectors - 1).min(u64::from(u32::MAX)) as u32;
    put_bytes(&mut sector, 446, &[0, 0, 2, 0, 0xee, 0xff, 0xff, 0xff]);
    put_u32(&mut sector, 454, 1);
    put_u32(&mut sector, 458, size);
    put_bytes(&mut sector, 510, &[0x55, 0xaa]);
    sector
}

/// Writes a whole table over what the disk had: the protective MBR and both copies, the backup first.
///
/// At `Ok` both copies are durable and say this table.
pub fn write_whole<R: Rack>(rack: &mut R, disk: u32, table: &Table) -> Result<(), Gone>
    requires fit { (R.seen rack.old).fit }
    requires disk { disk < (R.seen rack.old).disks }
    requires size { table.now.sectors ≡ (R.seen rack.old).sectors disk }
    requires writable { IsWritable table.now }
    ensures writes { WritesTable (R.seen rack.old) (R.seen rack.new) disk table.now result }
    ensures runs { R.runs rack.old rack.new }
{
    if let Err(gone) = write_copy(rack, disk, TableCopy::Backup, table) {
        return Err(gone);
    }
    let mbr = protective_mbr(table.sectors);
    if let Err(gone) = rack.write(disk, 0, &mbr) {
        return Err(gone);
    }
    match write_copy(rack, disk, TableCopy::Primary, table) {
        Ok(()) => Ok(()),
        Err(gone) => Err(gone),
    }
}
