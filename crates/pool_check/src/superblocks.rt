//! The superblocks of an array: which of them are valid, and reading them.

ghost use Rattle.std.specs.Prelude.{◌≡◌, ◌==◌, ◌&&◌, ◌<◌, ◌≤◌, ◌^◌, ℕ, nat_lt, bytes_eq, true, is_ok, length, count_by, IfErr, IfOk, OnErr, List};
ghost use Rattle.std.specs.List.{list_all, range_with_len};
ghost use Rattle.rack.specs.Seen.{Rose};
ghost use Rattle.rack.specs.Sequences.{OnlyReads};
ghost use Rattle.array_image.specs.Places.{array_id};
ghost use Rattle.array_image.specs.Supers.{has_role, has_roles, has_whole_row, is_named, is_super_of, named_places, only_if, super_in, super_of};
ghost use Rattle.pool_scan.specs.Scanning.{Finds};
ghost use Rattle.pool_image.specs.Drives.{slices_from};
ghost use Rattle.std.specs.Option.{option_map_or};
ghost use Rattle.pool_check.specs.Drives.{AreDrivesOf, Drives, Goes, IsFitState, IsSeating, found_with, seats_by};
ghost use Rattle.pool_check.specs.Founded.{HasContents, IsReadAt, super_by};
ghost use Rattle.pool_check.specs.Layers.{all_found, is_usable, super_on};

use crate::Seats;
use array_core::Found;
use arrayvec::ArrayVec;
use md_super::{Super, decode, profile};
use pool_state::State;
use rack::{Gone, Rack};
use shr_base::child_id;
use shr_base::fields::put_bytes;

/// Where a superblock stands in its slice.
const SUPER_SECTOR: u64 = 8;

/// The kind of an array's id.
const ARRAY_KIND: u8 = 2;

/// The feature bit of an array that is being reshaped.
const RESHAPING: u32 = 4;

/// The sectors of a chunk.
const CHUNK: u64 = 128;

/// The superblock in a sector; one of 128 roles ends with it.
fn super_of(sector: &[u8; 512]) -> Option<Super>
    ensures { result ≡ super_of sector.now }
{
    let mut block = [0; 1024];
    put_bytes(&mut block, 0, sector);
    decode(&block).ok()
}

/// Whether the roles give a place a position.
pub(crate) fn is_named(seen: &Super, place: usize) -> bool
    ensures { result ≡ is_named seen.now place }
{
    match seen.roles.as_slice().get(place) {
        Some(role) => *role < 0xfffe,
        None => false,
    }
}

/// Whether a place has this role.
fn has_role(seen: &Super, role: u32, place: usize) -> bool
    ensures { result ≡ has_role seen.now role place }
{
    match seen.roles.as_slice().get(place) {
        Some(given) => u32::from(*given) == role,
        None => false,
    }
}

/// How many places have a position.
fn named_count(seen: &Super) -> usize
    ensures { result ≡ length (named_places seen.now) }
{
    (0..seen.roles.len())
        .filter(|place| is_named(seen, *place))
        .count()
}

/// Whether each place with a position is one of so many drives.
fn are_listed(seen: &Super, drives: usize) -> bool
    ensures { result ≡ list_all (λ place. nat_lt place drives) (named_places seen.now) }
{
    (0..seen.roles.len())
        .filter(|place| is_named(seen, *place))
        .all(|place| place < drives)
}

/// How many places have this position.
fn role_count(seen: &Super, role: u32) -> usize
    ensures { result ≡ count_by (has_role seen.now role) (named_places seen.now) }
{
    (0..seen.roles.len())
        .filter(|place| is_named(seen, *place))
        .filter(|place| has_role(seen, role, *place))
        .count()
}

/// Whether each position has one place.
fn has_positions(seen: &Super) -> bool
    ensures { result ≡ list_all (λ n. count_by (has_role seen.now n) (named_places seen.now) == 1) (range_with_len 0 seen.now.raid_disks) }
{
    (0..seen.raid_disks).all(|role| role_count(seen, role) == 1)
}

/// Whether the roles name as many places as members, each one of so many drives, and each position once.
fn has_roles(seen: &Super, drives: usize) -> bool
    ensures { result ≡ has_roles drives seen.now }
{
    named_count(seen) == seen.raid_disks as usize && are_listed(seen, drives) && has_positions(seen)
}

/// Whether a reshape is one of RAID-5 to three members or more, and stands between two rows.
fn has_whole_row(seen: &Super) -> bool
    ensures { result ≡ has_whole_row seen.now }
{
    if seen.feature_map & RESHAPING != RESHAPING {
        return true;
    }
    seen.level == 5
        && seen.raid_disks > 2
        && seen.reshape_position % (CHUNK * (u64::from(seen.raid_disks) - 1)) == 0
}

/// Whether a superblock is that of a place's member of an array of the pool.
fn is_super_of(state: &State, array: u32, place: u32, seen: &Super) -> bool
    requires { 0 < state.now.extent }
    ensures { result ≡ is_super_of state.now.pool.0 state.now.extent (length state.now.drives.items) array place seen.now }
{
    profile(seen, state.extent).is_ok()
        && seen.set_id == child_id(&state.pool, ARRAY_KIND, array, 0)
        && seen.dev_number == place
        && seen.events > 0
        && seen.events < 1 << 63
        && has_whole_row(seen)
        && has_roles(seen, state.drives.len())
}

/// The valid superblock of a place's member that a sector holds.
fn valid_super(state: &State, array: u32, place: u32, sector: &[u8; 512]) -> Option<Super>
    requires { 0 < state.now.extent }
    ensures { result ≡ only_if (is_super_of state.now.pool.0 state.now.extent (length state.now.drives.items) array place) (super_of sector.now) }
{
    let seen = super_of(sector)?;
    if is_super_of(state, array, place, &seen) {
        Some(seen)
    } else {
        None
    }
}

/// Reads the superblock of a place's member of an array in a sector of its disk.
fn read_super<R: Rack>(
    rack: &mut R,
    state: &State,
    array: u32,
    place: u32,
    disk: u32,
    sector: u64,
) -> Result<Option<Super>, Gone>
    requires fit { (R.seen rack.old).fit }
    requires disk { disk < (R.seen rack.old).disks }
    requires state { IsFitState state.now }
    ensures found { Finds (R.seen rack.old) (R.seen rack.new) disk (λ contents found. found ≡ super_on state.now array place ((R.seen rack.old).sectors disk) sector contents) result }
    ensures usable { IfOk result (λ found. option_map_or is_usable found true ≡ true) }
    ensures valid { IfOk result (λ found. (block : List ℕ) × (found ≡ super_by state.now array place block)) }
    ensures runs { R.runs rack.old rack.new }
{
    if sector >= rack.sectors(disk) {
        return Ok(None);
    }
    let mut block = [0; 512];
    if let Err(gone) = rack.read(disk, sector, &mut block) {
        return Err(gone);
    }
    Ok(valid_super(state, array, place, &block))
}

/// The disk of a place.
pub(crate) fn seat_at(seats: &Seats, place: u32) -> Option<u32>
    ensures { result ≡ seats_by seats.now place }
{
    match seats.as_slice().get(place as usize) {
        Some(seat) => *seat,
        None => None,
    }
}

/// Reads the superblock of a place's member, where the slices of an array begin at a sector. A place without a disk has none.
fn read_place<R: Rack>(
    rack: &mut R,
    state: &State,
    seats: &Seats,
    array: u32,
    place: u32,
    first: u64,
) -> Result<Option<Super>, Gone>
    requires fit { (R.seen rack.old).fit }
    requires seating { IsSeating (R.seen rack.old) state.now (seats_by seats.now) }
    requires state { IsFitState state.now }
    requires first { first < 2 ^ 48 }
    requires array { array < 16 }
    ensures only { OnlyReads (R.seen rack.old) (R.seen rack.new) }
    ensures found { IfOk result (λ found. (o : Drives) → AreDrivesOf (R.seen rack.old) (seats_by seats.now) o
        → found ≡ super_in state.now (slices_from (found_with state.now (seats_by seats.now) o) first) array place) }
    ensures usable { IfOk result (λ found. option_map_or is_usable found true ≡ true) }
    // Whatever the disk tells.
    ensures valid { IfOk result (IsReadAt state.now (seats_by seats.now) array place) }
    ensures went { OnErr result (Goes (R.seen rack.old) (R.seen rack.new) (seats_by seats.now) place) }
    ensures runs { R.runs rack.old rack.new }
{
    match seat_at(seats, place) {
        Some(disk) => read_super(rack, state, array, place, disk, first + SUPER_SECTOR),
        None => Ok(None),
    }
}

/// Reads the superblocks of all places, where the slices of an array begin at a sector. Refused by the place whose disk went.
pub(crate) fn read_supers<R: Rack>(
    rack: &mut R,
    state: &State,
    seats: &Seats,
    array: u32,
    first: u64,
) -> Result<ArrayVec<Found, 16>, u32>
    requires fit { (R.seen rack.old).fit }
    requires seating { IsSeating (R.seen rack.old) state.now (seats_by seats.now) }
    requires state { IsFitState state.now }
    requires first { first < 2 ^ 48 }
    requires array { array < 16 }
    ensures only { OnlyReads (R.seen rack.old) (R.seen rack.new) }
    ensures found { IfOk result (λ found. (o : Drives) → AreDrivesOf (R.seen rack.old) (seats_by seats.now) o
        → found.items ≡ all_found (found_with state.now (seats_by seats.now) o) array first) }
    ensures usable { IfOk result (λ found. list_all (λ f. option_map_or is_usable f.seen true) found.items ≡ true) }
    // Whatever the disks tell.
    ensures contents { IfOk result (λ found. HasContents state.now (seats_by seats.now) array 16 found.items) }
    ensures went { IfErr result (Goes (R.seen rack.old) (R.seen rack.new) (seats_by seats.now)) }
    ensures runs { R.runs rack.old rack.new }
{
    let mut found = ArrayVec::new();
    for place in 0..16 {
        match read_place(rack, state, seats, array, place, first) {
            Ok(seen) => found.push(Found { place, seen }),
            Err(_) => return Err(place),
        }
    }
    Ok(found)
}
