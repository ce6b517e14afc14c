//! The slices of arrays' members on a drive, by its own table.

ghost use Rattle.std.specs.Prelude.{◌≡◌, ◌<◌, ◌+◌, ◌++◌, ◌∷◌, [], ◌==◌, ◌^◌, ℕ, length, MatchOption, true, find, Some, None, if◌then◌else◌};
ghost use Rattle.std.specs.Option.{option_copied};
ghost use Rattle.rack.specs.Sequences.{OnlyReads};
ghost use Rattle.gpt_table.specs.Format.{IsWritable, is_inside};
ghost use Rattle.slice_rack.specs.Slices.{seat_of, sectors_of};
ghost use Rattle.slice_rack.specs.Sliced.{slices_of};
ghost use Rattle.slice_rack.specs.SliceRack.{tables, below_of};
ghost use Rattle.array_image.specs.Places.{member_slice, slice_of};
ghost use Rattle.pool_image.specs.Replay.{slice_entry};
ghost use Rattle.pool_scan.specs.Choosing.{seat_by};
ghost use Rattle.pool_rest.specs.Members.{IsCutTo, KeepsOthers, AreLogsCut, IsCut, IsCutBelow};

use gpt_table::{Entry, Table, TableFault, read_table};
use pool_scan::Scan;
use pool_state::State;
use rack::{Places, Rack};
use shr_base::Id;
use slice_rack::SliceRack;

/// Where the first member's slice may begin: behind the log slice.
const ARRAYS_FIRST: u64 = 10240;

/// The sectors of a table's backup, at the end of a disk.
const BACKUP: u64 = 33;

/// The most arrays of a pool.
const ARRAYS: u32 = 16;

/// The type of a member's slice, Linux RAID.
const RAID: Id = Id([
    0xa1, 0x9d, 0x88, 0x0f, 0x05, 0xfc, 0x4d, 0x3b, 0xa0, 0x06, 0x74, 0x3f, 0x0f, 0x84, 0x91, 0x1e,
]);

/// Some sectors of a disk.
#[derive(Clone, Copy, Debug, PartialEq, Eq)]
struct Part {
    first: u64,
    sectors: u64,
}

/// The sectors of an entry, if they can be a member's slice on a disk of so many sectors: it has the type, and lies between the
/// log slice and the backup of the table.
fn part_of(sectors: u64, entry: &Entry) -> Option<Part>
    requires { is_inside sectors entry.now.slice ≡ true }
    ensures { MatchOption result (slice_entry sectors entry.now ≡ None) (λ p. slice_entry sectors entry.now ≡ Some (record { first = p.first; sectors = p.sectors })) }
{
    let slice = entry.slice;
    if slice.kind.0.as_slice() != RAID.0.as_slice() {
        return None;
    }
    if slice.first < ARRAYS_FIRST || sectors - slice.last <= BACKUP {
        return None;
    }
    Some(Part {
        first: slice.first,
        sectors: slice.last - slice.first + 1,
    })
}

/// The entry of a number.
fn entry_of(table: &Table, number: u32) -> Option<&Entry>
    ensures { option_copied result ≡ find (λ e. e.number == number) table.now.entries.items }
{
    table
        .entries
        .as_slice()
        .iter()
        .find(|entry| entry.number == number)
}

/// Adds the slice of an array's member, if the table has it.
fn lay_member<R: Rack>(slices: &mut SliceRack<R>, table: &Table, place: u32, array: u32)
    requires place { place < 16 }
    requires array { array < 16 }
    requires fit { (slices_of (tables slices.old) (R.seen (below_of slices.old))).fit }
    requires table { IsWritable table.now }
    requires cut { IsCutTo (R.seen (below_of slices.old)) (tables slices.old) table.now place array }
    ensures below { below_of slices.new ≡ below_of slices.old }
    ensures fit { (slices_of (tables slices.new) (R.seen (below_of slices.new))).fit }
    ensures others { KeepsOthers (tables slices.old) (tables slices.new) place }
    ensures cut { IsCutTo (R.seen (below_of slices.old)) (tables slices.new) table.now place (array + 1) }
{
    let Some(entry) = entry_of(table, array + 2) else {
        return;
    };
    let Some(part) = part_of(table.sectors, entry) else {
        return;
    };
    let _ = slices.add_slice(place, array + 1, part.first, part.sectors);
}

/// Adds the slices that the table of a place's drive has for members of arrays.
fn lay_members<R: Rack>(slices: &mut SliceRack<R>, table: &Table, place: u32)
    requires place { place < 16 }
    requires fit { (slices_of (tables slices.old) (R.seen (below_of slices.old))).fit }
    requires table { IsWritable table.now }
    requires cut { IsCutTo (R.seen (below_of slices.old)) (tables slices.old) table.now place 0 }
    ensures below { below_of slices.new ≡ below_of slices.old }
    ensures fit { (slices_of (tables slices.new) (R.seen (below_of slices.new))).fit }
    ensures others { KeepsOthers (tables slices.old) (tables slices.new) place }
    ensures cut { IsCutTo (R.seen (below_of slices.old)) (tables slices.new) table.now place 16 }
{
    for array in 0..ARRAYS {
        lay_member(slices, table, place, array);
    }
}

/// Adds the members' slices of a place's drive by its table. Answers whether the table was read, or there is no disk.
fn lay_drive<R: Rack>(slices: &mut SliceRack<R>, scan: &Scan, state: &State, place: u32) -> bool
    requires place { place < 16 }
    requires few { length scan.now.disks.items < 2 ^ 32 }
    requires fit { (slices_of (tables slices.old) (R.seen (below_of slices.old))).fit }
    requires seats { (p : ℕ) → p < 16 → seat_of (tables slices.old) p ≡ seat_by state.now scan.now.disks.items p }
    requires logs { AreLogsCut (tables slices.old) }
    requires upper { (n : ℕ) → n < 16 → sectors_of (tables slices.old) (member_slice place n) ≡ 0 }
    ensures only { OnlyReads (R.seen (below_of slices.old)) (R.seen (below_of slices.new)) }
    ensures fit { (slices_of (tables slices.new) (R.seen (below_of slices.new))).fit }
    ensures others { KeepsOthers (tables slices.old) (tables slices.new) place }
    ensures cut { IsCut (R.seen (below_of slices.old)) (R.seen (below_of slices.new)) (tables slices.new) place result }
    ensures runs { R.runs (below_of slices.old) (below_of slices.new) }
{
    let Some(disk) = scan.seat(state, place) else {
        return true;
    };
    match read_table(slices.inner(), disk) {
        Ok(found) => {
            lay_members(slices, &found.table, place);
            true
        }
        Err(TableFault::NoTable) => true,
        Err(TableFault::Gone) => false,
    }
}

/// Appends a place unless it is to be left out.
pub(crate) fn push_unless(places: &mut Places, place: u32, left_out: bool)
    requires { length places.old.items < 16 }
    ensures { places.new.items ≡ (if left_out then places.old.items else places.old.items ++ place ∷ []) }
{
    if !left_out {
        places.push(place);
    }
}

/// Adds the members' slices of all seated drives, each by its own table. Answers the places whose table couldn't be read.
pub(crate) fn lay_drives<R: Rack>(slices: &mut SliceRack<R>, scan: &Scan, state: &State) -> Places
    requires few { length scan.now.disks.items < 2 ^ 32 }
    requires fit { (slices_of (tables slices.old) (R.seen (below_of slices.old))).fit }
    requires seats { (p : ℕ) → p < 16 → seat_of (tables slices.old) p ≡ seat_by state.now scan.now.disks.items p }
    requires logs { AreLogsCut (tables slices.old) }
    requires upper { (k : ℕ) → 0 < slice_of k → sectors_of (tables slices.old) k ≡ 0 }
    ensures only { OnlyReads (R.seen (below_of slices.old)) (R.seen (below_of slices.new)) }
    ensures fit { (slices_of (tables slices.new) (R.seen (below_of slices.new))).fit }
    ensures cut { IsCutBelow (R.seen (below_of slices.old)) (R.seen (below_of slices.new)) 16 (tables slices.old) (tables slices.new) result.items }
    ensures runs { R.runs (below_of slices.old) (below_of slices.new) }
{
    let mut unread = Places::new();
    for place in 0..16 {
        let read = lay_drive(slices, scan, state, place);
        push_unless(&mut unread, place, read);
    }
    unread
}
