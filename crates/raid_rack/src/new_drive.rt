//! A new drive at a place: its table, its slices, and what is written on it before it is one of the pool.

ghost use Rattle.std.specs.Prelude.{◌≡◌, ◌<◌, ◌≤◌, ◌+◌, ◌^◌, ◌≢◌, ℕ, All, length, slice_get, Some};
ghost use Rattle.array_model.specs.View.{View};
ghost use Rattle.gpt_table.specs.Format.{IsWritable};
ghost use Rattle.slice_rack.specs.SliceRack.{below_of, tables};
ghost use Rattle.slice_rack.specs.Slices.{seat_of as disk_at};
ghost use Rattle.slice_rack.specs.Sliced.{slices_of};
ghost use Rattle.raid_rack.specs.RaidRack.{is_written};
ghost use Rattle.raid_laws.specs.NewDrive as spec;
ghost use Rattle.raid_laws.specs.NewDrive.{LaysDrive, SeatsDrive};

use array_core::Array;
use arrayvec::ArrayVec;
use commit_log::first_gate;
use gpt_table::{Entry, Slice, Table, write_whole};
use rack::{Gone, Rack, write_durably};
use shr_base::{Id, child_id};
use slice_rack::SliceRack;

/// The type of a log slice, 6B1F3C52-9D84-4E0A-A7C1-52E8D03F9B76.
pub(crate) const LOG_KIND: Id = Id([
    0x6b, 0x1f, 0x3c, 0x52, 0x9d, 0x84, 0x4e, 0x0a, 0xa7, 0xc1, 0x52, 0xe8, 0xd0, 0x3f, 0x9b, 0x76,
]);

/// The type of Linux RAID, A19D880F-05FC-4D3B-A006-743F0F84911E.
pub(crate) const RAID_KIND: Id = Id([
    0xa1, 0x9d, 0x88, 0x0f, 0x05, 0xfc, 0x4d, 0x3b, 0xa0, 0x06, 0x74, 0x3f, 0x0f, 0x84, 0x91, 0x1e,
]);

/// The sector of the state: the first one of the log slice.
pub(crate) const STATE_SECTOR: u64 = 2048;

/// The sector of the gate, the second one of the log slice.
const GATE_SECTOR: u64 = 2049;

/// The sectors of a log slice.
pub(crate) const LOG_SECTORS: u64 = 8192;

/// Where the slices of members begin.
const ARRAYS_FIRST: u64 = 10240;

/// The sectors of a member's slice before its data.
pub(crate) const DATA_SECTOR: u64 = 2048;

/// The sectors of the backup of a table.
pub(crate) const BACKUP_SECTORS: u64 = 33;

/// A sector of zeros.
pub(crate) const ZEROS: [u8; 512] = [0; 512];

/// Where the slices of an array's members begin on each drive: behind those of the arrays of lower numbers.
pub(crate) fn first_in(arrays: &[Array], number: usize) -> u64
    requires few { length arrays.now ≤ 16 }
    requires number { number ≤ length arrays.now }
    requires small { All (λ (u : View). u.truth.size < 2 ^ 48) arrays.now }
    ensures first { result ≡ spec.first_in arrays.now number }
    ensures low { result < 2 ^ 54 }
{
    let mut first = ARRAYS_FIRST;
    for lower in 0..number {
        first += arrays[lower].truth().size + DATA_SECTOR;
    }
    first
}

/// Whether a place is a member of an array, and a disk of so many sectors reaches it.
fn joins(arrays: &[Array], place: u32, sectors: u64, number: usize) -> bool
    requires few { length arrays.now ≤ 16 }
    requires number { number < length arrays.now }
    requires small { All (λ (u : View). u.truth.size < 2 ^ 48) arrays.now }
    ensures { result ≡ spec.joins arrays.now place sectors number }
{
    let array = &arrays[number];
    let end = first_in(arrays, number) + array.truth().size + DATA_SECTOR + BACKUP_SECTORS;
    array.seat(place).is_some() && end <= sectors
}

/// The arrays that a place is a member of and that a disk of so many sectors reaches, by number.
pub(crate) fn joining(arrays: &[Array], place: u32, sectors: u64) -> [bool; 16]
    requires few { length arrays.now ≤ 16 }
    requires small { All (λ (u : View). u.truth.size < 2 ^ 48) arrays.now }
    ensures { (n : ℕ) → is_written result n ≡ spec.joins arrays.now place sectors n }
{
    let mut joining = [false; 16];
    for number in 0..arrays.len() {
        joining[number] = joins(arrays, place, sectors, number);
    }
    joining
}

/// Whether a place is no member of an array, or a disk of so many sectors reaches it.
fn is_reached(arrays: &[Array], place: u32, sectors: u64, number: usize) -> bool
    requires few { length arrays.now ≤ 16 }
    requires number { number < length arrays.now }
    requires small { All (λ (u : View). u.truth.size < 2 ^ 48) arrays.now }
    ensures { result ≡ spec.is_reached arrays.now place sectors number }
{
    arrays[number].seat(place).is_none() || joins(arrays, place, sectors, number)
}

/// Whether a disk of so many sectors has room for a drive's log slice and table, and reaches each array that the place is a member of.
pub(crate) fn reaches_all(arrays: &[Array], place: u32, sectors: u64) -> bool
    requires few { length arrays.now ≤ 16 }
    requires small { All (λ (u : View). u.truth.size < 2 ^ 48) arrays.now }
    ensures { result ≡ spec.reaches_all arrays.now place sectors }
{
    if sectors < ARRAYS_FIRST + BACKUP_SECTORS {
        return false;
    }
    for number in 0..arrays.len() {
        if !is_reached(arrays, place, sectors, number) {
            return false;
        }
    }
    true
}

/// The entry of a drive's slice.
pub(crate) fn entry_of(drive: &Id, slice: u32, kind: Id, first: u64, sectors: u64) -> Entry
    requires slice { slice < 128 }
    requires some { 0 < first + sectors }
    requires room { first + sectors < 2 ^ 64 }
    ensures { result ≡ spec.entry_of drive.now.0 slice kind.0 first sectors }
{
    Entry {
        number: slice + 1,
        slice: Slice {
            kind,
            id: child_id(drive, 4, slice, 0),
            first,
            last: first + sectors - 1,
        },
    }
}

/// The entry of a drive's member of an array.
pub(crate) fn member_entry(drive: &Id, arrays: &[Array], number: usize) -> Entry
    requires few { length arrays.now ≤ 16 }
    requires number { number < length arrays.now }
    requires small { All (λ (u : View). u.truth.size < 2 ^ 48) arrays.now }
    ensures { result ≡ spec.member_entry drive.now.0 arrays.now number }
{
    let first = first_in(arrays, number);
    let sectors = arrays[number].truth().size + DATA_SECTOR;
    entry_of(drive, number as u32 + 1, RAID_KIND, first, sectors)
}

/// The table of a place's new drive, on a disk of so many sectors.
pub(crate) fn table_of(drive: Id, arrays: &[Array], place: u32, sectors: u64) -> Table
    requires few { length arrays.now ≤ 16 }
    requires small { All (λ (u : View). u.truth.size < 2 ^ 48) arrays.now }
    ensures { result ≡ spec.drive_table drive.0 arrays.now place sectors (length arrays.now) }
{
    let mut entries = ArrayVec::new();
    entries.push(entry_of(&drive, 0, LOG_KIND, STATE_SECTOR, LOG_SECTORS));
    for number in 0..arrays.len() {
        if joins(arrays, place, sectors, number) {
            entries.push(member_entry(&drive, arrays, number));
        }
    }
    Table {
        disk_id: drive,
        sectors,
        entries,
    }
}

/// Writes zeros over the state's sector, the table and the first gate on a disk, each durable before the next.
pub(crate) fn lay_drive<R: Rack>(rack: &mut R, disk: u32, table: &Table) -> Result<(), Gone>
    requires fit { (R.seen rack.old).fit }
    requires disk { disk < (R.seen rack.old).disks }
    requires size { table.now.sectors ≡ (R.seen rack.old).sectors disk }
    requires room { 10273 ≤ table.now.sectors }
    requires writable { IsWritable table.now }
    ensures lays { LaysDrive (R.seen rack.old) (R.seen rack.new) disk table.now result }
    ensures runs { R.runs rack.old rack.new }
{
    // A stop between this and the commit leaves no state, and a table whose id no state lists: no drive of a pool.
    if let Err(gone) = write_durably(rack, disk, STATE_SECTOR, &ZEROS) {
        return Err(gone);
    }
    if let Err(gone) = write_whole(rack, disk, table) {
        return Err(gone);
    }
    // Of number 0, and durable before the commit: after a stop amid that one the gates of the others decide.
    write_durably(rack, disk, GATE_SECTOR, &first_gate())
}

/// Adds the slice of a place's member of an array, where its disk reaches it.
fn seat_member<R: Rack>(
    slices: &mut SliceRack<R>,
    arrays: &[Array],
    place: u32,
    sectors: u64,
    number: usize,
)
    requires few { length arrays.now ≤ 16 }
    requires number { number < length arrays.now }
    requires small { All (λ (u : View). u.truth.size < 2 ^ 48) arrays.now }
    requires place { place < 16 }
    requires fit { (slices_of (tables slices.old) (R.seen (below_of slices.old))).fit }
    requires laid { spec.AreLaid (R.seen (below_of slices.old)) arrays.now place sectors (number + 1) (tables slices.old) }
    ensures below { below_of slices.new ≡ below_of slices.old }
    ensures fit { (slices_of (tables slices.new) (R.seen (below_of slices.new))).fit }
    ensures others { spec.KeepsOthers place (tables slices.old) (tables slices.new) }
    ensures laid { spec.AreLaid (R.seen (below_of slices.old)) arrays.now place sectors (number + 2) (tables slices.new) }
{
    if joins(arrays, place, sectors, number) {
        let first = first_in(arrays, number);
        let length = arrays[number].truth().size + DATA_SECTOR;
        let _ = slices.add_slice(place, number as u32 + 1, first, length);
    }
}

/// Gives a place a disk of so many sectors, with its log slice and the slices of its members.
pub(crate) fn seat_drive<R: Rack>(
    slices: &mut SliceRack<R>,
    arrays: &[Array],
    place: u32,
    disk: u32,
    sectors: u64,
)
    requires few { length arrays.now ≤ 16 }
    requires small { All (λ (u : View). u.truth.size < 2 ^ 48) arrays.now }
    requires place { place < 16 }
    requires disk { disk < (R.seen (below_of slices.old)).disks }
    requires free { (p : ℕ) → disk_at (tables slices.old) p ≢ Some disk }
    requires size { sectors ≡ (R.seen (below_of slices.old)).sectors disk }
    requires room { 10273 ≤ sectors }
    requires fit { (slices_of (tables slices.old) (R.seen (below_of slices.old))).fit }
    ensures below { below_of slices.new ≡ below_of slices.old }
    ensures fit { (slices_of (tables slices.new) (R.seen (below_of slices.new))).fit }
    ensures seats { SeatsDrive arrays.now place disk sectors (tables slices.old) (tables slices.new) }
{
    slices.seat(place, disk);
    let _ = slices.add_slice(place, 0, STATE_SECTOR, LOG_SECTORS);
    for number in 0..arrays.len() {
        seat_member(slices, arrays, place, sectors, number);
    }
}
