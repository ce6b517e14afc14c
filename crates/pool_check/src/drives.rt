//! The parts of one drive: its table, its copy of the state, its log and its superblocks.

ghost use Rattle.std.specs.Prelude.{◌≡◌, ◌==◌, ◌&&◌, ◌<◌, ◌^◌, ◌+◌, ℕ, is_some, not, bytes_eq, false, true, Ok, IfOk, IfErr, OnErr, OnOk, Some, None, option_map, if◌then◌else◌};
ghost use Rattle.std.specs.List.{list_all};
ghost use Rattle.std.specs.Option.{option_map_or};
ghost use Rattle.rack.specs.Sequences.{OnlyReads};
ghost use Rattle.gpt_table.specs.Changes.{the_table};
ghost use Rattle.array_image.specs.Places.{arrays_first, log_kind};
ghost use Rattle.array_image.specs.States.{id_of};
ghost use Rattle.pool_image.specs.Disks.{Seats as PlaceSeats};
ghost use Rattle.pool_image.specs.Meaning.{has_entry, has_slice, has_table, in_table};
ghost use Rattle.pool_scan.specs.Scanning.{Finds, copied_at};
ghost use Rattle.rack.specs.Seen.{Rose};
ghost use Rattle.pool_check.specs.Drives.{AreCopied, AreDrivesOf, Drives, IsFitState, IsSeating, flag_by, found_with, seats_by};
ghost use Rattle.pool_check.specs.Refusing.{IsDamage, IsFault, IsOfFew, Halts, damage_with, first_with, is_well, part_behind, part_by, refusal_by};
ghost use Rattle.pool_check.specs.Settling.{AreCompared, IsAgreement};
ghost use Rattle.pool_check.specs.Slots.{FitsOn, IsSoundDrive};
ghost use Rattle.pool_check.specs.Layers.{AreRead, extent_by, has_layer, is_member_of, is_sound_on, is_table_by, log_extent};

use crate::superblocks::seat_at;
use crate::{CheckFault, Extent, Flags, Halt, Layer, Part, Seats, Sight};
use gpt_table::{Compared, Table, TableFault, compare_copies};
use pool_scan::Scan;
use pool_state::State;
use rack::{Gone, Rack};
use shr_base::Id;

/// The type of a log slice's entry.
const LOG_KIND: Id = Id([
    0x6b, 0x1f, 0x3c, 0x52, 0x9d, 0x84, 0x4e, 0x0a, 0xa7, 0xc1, 0x52, 0xe8, 0xd0, 0x3f, 0x9b, 0x76,
]);

/// The type of the entry of a member's slice: Linux RAID.
const RAID_KIND: Id = Id([
    0xa1, 0x9d, 0x88, 0x0f, 0x05, 0xfc, 0x4d, 0x3b, 0xa0, 0x06, 0x74, 0x3f, 0x0f, 0x84, 0x91, 0x1e,
]);

/// Where the log slice lies on each drive.
const LOG: Extent = Extent {
    first: 2048,
    sectors: 8192,
};

/// The sectors of a backup table, but the last one.
const BACKUP_BEFORE_LAST: u64 = 32;

/// Whether a table has this entry.
fn has_entry(table: &Table, number: u32, kind: &Id, extent: Extent) -> bool
    ensures { result ≡ has_entry table.now number kind.now.0 (extent_by extent) }
{
    let end = extent.first + extent.sectors;
    table.entries.as_slice().iter().any(|entry| {
        entry.number == number
            && entry.slice.kind == *kind
            && entry.slice.first == extent.first
            && is_next(entry.slice.last, end)
    })
}

/// Whether a number is the next one.
fn is_next(number: u64, next: u64) -> bool
    ensures { result ≡ (number + 1 == next) }
{
    number < next && next - number == 1
}

/// Whether a table of a disk of so many sectors has this entry, and the slice ends before the backup.
fn has_slice(table: &Table, sectors: u64, number: u32, kind: &Id, extent: Extent) -> bool
    ensures { result ≡ has_slice sectors table.now number kind.now.0 (extent_by extent) }
{
    has_entry(table, number, kind, extent)
        && extent.first + extent.sectors + BACKUP_BEFORE_LAST < sectors
}

/// Whether a place is a member of an array.
fn is_member(layer: &Layer, place: u32) -> bool
    ensures { result ≡ is_member_of layer.now place }
{
    match layer.sights.as_slice().get(place as usize) {
        Some(sight) => *sight != Sight::Stranger,
        None => false,
    }
}

/// Whether a place has a valid superblock of an array, or is no member.
fn is_sound(layer: &Layer, place: u32) -> bool
    ensures { result ≡ is_sound_on place layer.now }
{
    match layer.sights.as_slice().get(place as usize) {
        Some(sight) => *sight != Sight::Invalid,
        None => true,
    }
}

/// Whether the slice of an array stands in the table of a place's disk, or the place is no member.
fn has_layer(layer: &Layer, table: &Table, sectors: u64, place: u32) -> bool
    ensures { result ≡ has_layer sectors table.now place layer.now }
{
    if !is_member(layer, place) {
        return true;
    }
    match layer.extent {
        Some(extent) => has_slice(table, sectors, layer.number + 2, &RAID_KIND, extent),
        None => false,
    }
}

/// Whether the slices of all arrays that a place is a member of stand in the table of its disk.
fn have_layers(layers: &[Layer], table: &Table, sectors: u64, place: u32) -> bool
    ensures { result ≡ list_all (has_layer sectors table.now place) layers.now }
{
    layers
        .iter()
        .all(|layer| has_layer(layer, table, sectors, place))
}

/// Whether an id is that of a place's drive.
fn is_drive(state: &State, place: u32, id: &Id) -> bool
    ensures { result ≡ option_map_or (bytes_eq id.now.0) (id_of state.now place) false }
{
    match state.drives.as_slice().get(place as usize) {
        Some(drive) => *id == drive.id,
        None => false,
    }
}

/// Whether the log slice and those of all arrays that a place is a member of stand in the table of its disk.
fn has_slices(layers: &[Layer], table: &Table, sectors: u64, place: u32) -> bool
    ensures { result ≡ (has_slice sectors table.now 1 log_kind log_extent && list_all (has_layer sectors table.now place) layers.now) }
{
    has_slice(table, sectors, 1, &LOG_KIND, LOG) && have_layers(layers, table, sectors, place)
}

/// Whether a table is that of a place's drive.
fn is_table(state: &State, layers: &[Layer], place: u32, table: &Table, sectors: u64) -> bool
    ensures { result ≡ is_table_by state.now layers.now place sectors table.now }
{
    is_drive(state, place, &table.disk_id) && has_slices(layers, table, sectors, place)
}

/// The table of a disk, if it has one, and whether both copies say it.
fn find_table<R: Rack>(rack: &mut R, disk: u32) -> Result<Option<Compared>, Gone>
    requires fit { (R.seen rack.old).fit }
    requires disk { disk < (R.seen rack.old).disks }
    ensures found { Finds (R.seen rack.old) (R.seen rack.new) disk
        (λ contents found. option_map (λ c. c.table) found ≡ the_table ((R.seen rack.old).sectors disk) contents) result }
    ensures agree { IfOk result (λ found. IsAgreement (R.seen rack.old) disk (option_map_or (λ c. c.agree) found false)) }
    ensures runs { R.runs rack.old rack.new }
{
    match compare_copies(rack, disk) {
        Ok(found) => Ok(Some(found)),
        Err(TableFault::NoTable) => Ok(None),
        Err(TableFault::Gone) => Err(Gone { disk }),
    }
}

/// Whether there is a table, and it is that of a place's drive.
fn is_found(
    state: &State,
    layers: &[Layer],
    place: u32,
    found: &Option<Compared>,
    sectors: u64,
) -> bool
    ensures { result ≡ option_map_or (is_table_by state.now layers.now place sectors) (option_map (λ c. c.table) found.now) false }
{
    match found {
        Some(found) => is_table(state, layers, place, &found.table, sectors),
        None => false,
    }
}

/// Whether there is a table, and both copies say it.
fn is_agreed(found: &Option<Compared>) -> bool
    ensures { result ≡ option_map_or (λ c. c.agree) found.now false }
{
    match found {
        Some(found) => found.agree,
        None => false,
    }
}

/// What is read of a table.
#[derive(Clone, Copy, Debug, PartialEq, Eq)]
struct TableRead {
    /// It is valid, and that of the place's drive.
    is_own: bool,
    /// Both copies are valid, and agree.
    is_agreed: bool,
}

/// Reads both copies of the table of a place's disk.
fn read_table<R: Rack>(
    rack: &mut R,
    state: &State,
    layers: &[Layer],
    place: u32,
    disk: u32,
) -> Result<TableRead, Gone>
    requires fit { (R.seen rack.old).fit }
    requires disk { disk < (R.seen rack.old).disks }
    requires place { place < 16 }
    requires small { (R.seen rack.old).sectors disk < 2 ^ 48 }
    ensures only { OnlyReads (R.seen rack.old) (R.seen rack.new) }
    ensures has { IfOk result (λ table. (seats : PlaceSeats) (o : Drives) → seats place ≡ Some disk → AreDrivesOf (R.seen rack.old) seats o
        → AreRead (found_with state.now seats o) layers.now → table.is_own ≡ has_table (found_with state.now seats o) place disk) }
    ensures agree { IfOk result (λ table. IsAgreement (R.seen rack.old) disk table.is_agreed) }
    ensures room { IfOk result (λ table. table.is_own ≡ true → arrays_first + 32 < (R.seen rack.old).sectors disk) }
    ensures fits { IfOk result (λ table. table.is_own ≡ true → FitsOn layers.now place ((R.seen rack.old).sectors disk)) }
    ensures gone { OnErr result (Rose ((R.seen rack.old).faults disk) ((R.seen rack.new).faults disk)) }
    ensures runs { R.runs rack.old rack.new }
{
    let sectors = rack.sectors(disk);
    let found = match find_table(rack, disk) {
        Ok(found) => found,
        Err(gone) => return Err(gone),
    };
    Ok(TableRead {
        is_own: is_found(state, layers, place, &found, sectors),
        is_agreed: is_agreed(&found),
    })
}

/// Whether a disk has a valid copy of the state.
fn has_copy(scan: &Scan, disk: u32) -> bool
    ensures { result ≡ is_some (copied_at scan.now.disks.items disk) }
{
    match scan.disks.as_slice().get(disk as usize) {
        Some(known) => known.copied.is_some(),
        None => false,
    }
}

/// Whether a place is the one whose log isn't well formed.
fn is_bad(bad: Option<u32>, place: u32) -> bool
    ensures { result ≡ not (is_well bad place) }
{
    match bad {
        Some(bad) => bad == place,
        None => false,
    }
}

/// Whether a place has a valid superblock of each array that it is a member of.
fn are_sound(layers: &[Layer], place: u32) -> bool
    ensures { result ≡ list_all (is_sound_on place) layers.now }
{
    layers.iter().all(|layer| is_sound(layer, place))
}

/// The first part of a place's drive that isn't valid, by whether its table is.
fn damage_on(
    scan: &Scan,
    layers: &[Layer],
    bad: Option<u32>,
    place: u32,
    disk: u32,
    has_table: bool,
) -> Option<Part>
    ensures { option_map part_by result ≡ (if not has_table then Some in_table
        else part_behind (is_some (copied_at scan.now.disks.items disk)) (is_well bad place) (list_all (is_sound_on place) layers.now)) }
{
    if !has_table {
        return Some(Part::Table);
    }
    if !has_copy(scan, disk) {
        return Some(Part::State);
    }
    if is_bad(bad, place) {
        return Some(Part::Log);
    }
    if !are_sound(layers, place) {
        return Some(Part::Superblock);
    }
    None
}

/// Checks the drive of a place, where it has a disk. Answers whether both copies of its table agree.
fn check_place<R: Rack>(
    rack: &mut R,
    scan: &Scan,
    state: &State,
    seats: &Seats,
    layers: &[Layer],
    bad: Option<u32>,
    place: u32,
) -> Result<bool, Halt>
    requires fit { (R.seen rack.old).fit }
    requires seating { IsSeating (R.seen rack.old) state.now (seats_by seats.now) }
    requires place { place < 16 }
    ensures only { OnlyReads (R.seen rack.old) (R.seen rack.new) }
    ensures sound { OnOk result ((o : Drives) → AreDrivesOf (R.seen rack.old) (seats_by seats.now) o
        → AreCopied scan.now.disks.items (seats_by seats.now) o → AreRead (found_with state.now (seats_by seats.now) o) layers.now
        → damage_with (is_well bad) (found_with state.now (seats_by seats.now) o) place ≡ None) }
    ensures agree { IfOk result (λ agree. (d : ℕ) → seats_by seats.now place ≡ Some d → IsAgreement (R.seen rack.old) d agree) }
    ensures drive { OnOk result ((d : ℕ) → seats_by seats.now place ≡ Some d → IsSoundDrive layers.now place ((R.seen rack.old).sectors d)) }
    ensures halts { IfErr result (λ halt. Halts (R.seen rack.old) (R.seen rack.new) (seats_by seats.now)
        (λ fault. (o : Drives) → AreDrivesOf (R.seen rack.old) (seats_by seats.now) o
        → AreCopied scan.now.disks.items (seats_by seats.now) o → AreRead (found_with state.now (seats_by seats.now) o) layers.now
        → IsDamage (is_well bad) (found_with state.now (seats_by seats.now) o) place fault) halt) }
    ensures few { IfErr result (λ halt. IsFault IsOfFew halt) }
    ensures runs { R.runs rack.old rack.new }
{
    let Some(disk) = seat_at(seats, place) else {
        return Ok(false);
    };
    let table = match read_table(rack, state, layers, place, disk) {
        Ok(table) => table,
        Err(_) => return Err(Halt::Went { place }),
    };
    match damage_on(scan, layers, bad, place, disk, table.is_own) {
        Some(part) => Err(Halt::Fault(CheckFault::Damaged { place, part })),
        None => Ok(table.is_agreed),
    }
}

/// Puts the flag of a place.
fn put_flag(flags: &mut Flags, place: u32, flag: bool)
    requires { place < 16 }
    ensures { (p : ℕ) → flag_by flags.new p ≡ (if p == place then flag else flag_by flags.old p) }
{
    flags[place as usize] = flag;
}

/// Checks the drives of all places that have a disk, the lowest place first. Answers of which of them both copies of the table agree.
pub(crate) fn check_places<R: Rack>(
    rack: &mut R,
    scan: &Scan,
    state: &State,
    seats: &Seats,
    layers: &[Layer],
    bad: Option<u32>,
) -> Result<Flags, Halt>
    requires fit { (R.seen rack.old).fit }
    requires seating { IsSeating (R.seen rack.old) state.now (seats_by seats.now) }
    requires state { IsFitState state.now }
    ensures only { OnlyReads (R.seen rack.old) (R.seen rack.new) }
    ensures sound { OnOk result ((o : Drives) → AreDrivesOf (R.seen rack.old) (seats_by seats.now) o
        → AreCopied scan.now.disks.items (seats_by seats.now) o → AreRead (found_with state.now (seats_by seats.now) o) layers.now
        → (place : ℕ) → place < 16 → damage_with (is_well bad) (found_with state.now (seats_by seats.now) o) place ≡ None) }
    ensures agreed { IfOk result (AreCompared (R.seen rack.old) (seats_by seats.now)) }
    ensures drives { OnOk result ((place d : ℕ) → place < 16 → seats_by seats.now place ≡ Some d → IsSoundDrive layers.now place ((R.seen rack.old).sectors d)) }
    ensures halts { IfErr result (λ halt. Halts (R.seen rack.old) (R.seen rack.new) (seats_by seats.now)
        (λ fault. (o : Drives) → AreDrivesOf (R.seen rack.old) (seats_by seats.now) o
        → AreCopied scan.now.disks.items (seats_by seats.now) o → AreRead (found_with state.now (seats_by seats.now) o) layers.now
        → first_with (is_well bad) (found_with state.now (seats_by seats.now) o) ≡ Some (refusal_by fault)) halt) }
    ensures few { IfErr result (λ halt. IsFault IsOfFew halt) }
    ensures runs { R.runs rack.old rack.new }
{
    let mut agreed = [false; 16];
    for place in 0..16 {
        match check_place(rack, scan, state, seats, layers, bad, place) {
            Ok(agree) => put_flag(&mut agreed, place, agree),
            Err(halt) => return Err(halt),
        }
    }
    Ok(agreed)
}
