//! The tables of a new pool's drives.

ghost use Rattle.std.specs.Prelude.{◌≡◌, ◌<◌, ◌+◌, ◌≤◌, ◌^◌, length};
ghost use Rattle.gpt_table.specs.Plans.{WritesTable};
ghost use Rattle.pool_format.specs.Plan.{AreLow, HasRoom, IsPlan};
ghost use Rattle.pool_format.specs.Parts as spec;

use crate::Birth;
use crate::planning::{NewArray, NewPool, has_member};
use crate::states::{STATE_SECTOR, new_drive_id};
use arrayvec::ArrayVec;
use gpt_table::{Entry, Slice, Table, write_whole};
use rack::{Gone, Rack};
use shr_base::{Id, child_id};

/// The type of a log slice, 6B1F3C52-9D84-4E0A-A7C1-52E8D03F9B76.
const LOG_KIND: Id = Id([
    0x6b, 0x1f, 0x3c, 0x52, 0x9d, 0x84, 0x4e, 0x0a, 0xa7, 0xc1, 0x52, 0xe8, 0xd0, 0x3f, 0x9b, 0x76,
]);

/// The type of Linux RAID, A19D880F-05FC-4D3B-A006-743F0F84911E.
const RAID_KIND: Id = Id([
    0xa1, 0x9d, 0x88, 0x0f, 0x05, 0xfc, 0x4d, 0x3b, 0xa0, 0x06, 0x74, 0x3f, 0x0f, 0x84, 0x91, 0x1e,
]);

/// The sectors of a log slice.
pub(crate) const LOG_SECTORS: u64 = 8192;

/// The sectors of a member's slice before its data.
pub(crate) const DATA_SECTOR: u64 = 2048;

/// The entry of a drive's slice.
fn entry_of(drive: &Id, slice: u32, kind: Id, first: u64, sectors: u64) -> Entry
    requires slice { slice < 128 }
    requires some { 0 < first + sectors }
    requires room { first + sectors < 2 ^ 64 }
    ensures { result ≡ spec.entry_of drive.now.0 slice kind.0 first sectors }
{
    Entry {
        number: slice + 1,
        slice: Slice {
            kind,
            id: child_id(drive, 4, slice, 0),
            first,
            last: first + sectors - 1,
        },
    }
}

/// The entries of a place's drive.
fn entries_of(drive: &Id, arrays: &[NewArray], place: u32) -> ArrayVec<Entry, 128>
    requires few { length arrays.now ≤ 16 }
    requires room { AreLow arrays.now }
    ensures { result.items ≡ spec.entries_of drive.now.0 place arrays.now }
{
    let mut entries = ArrayVec::new();
    entries.push(entry_of(drive, 0, LOG_KIND, STATE_SECTOR, LOG_SECTORS));
    for number in 0..arrays.len() {
        let array = &arrays[number];
        if has_member(array, place) {
            entries.push(entry_of(
                drive,
                number as u32 + 1,
                RAID_KIND,
                array.first,
                array.size + DATA_SECTOR,
            ));
        }
    }
    entries
}

/// Writes the table of a place's drive, durably.
pub(crate) fn write_table<R: Rack>(
    rack: &mut R,
    plan: &NewPool,
    birth: &Birth,
    place: u32,
) -> Result<(), Gone>
    requires fit { (R.seen rack.old).fit }
    requires plan { IsPlan plan.now }
    requires room { HasRoom plan.now (R.seen rack.old) }
    requires place { place < length plan.now.units.items }
    ensures writes { WritesTable (R.seen rack.old) (R.seen rack.new) place (spec.new_table plan.now birth.now place ((R.seen rack.old).sectors place)) result }
    ensures runs { R.runs rack.old rack.new }
{
    let drive = new_drive_id(birth, place);
    let table = Table {
        disk_id: drive,
        sectors: rack.sectors(place),
        entries: entries_of(&drive, plan.arrays.as_slice(), place),
    };
    write_whole(rack, place, &table)
}
