//! What the superblocks of each array say, and the arrays that they make.

ghost use Rattle.std.specs.Prelude.{◌≡◌, ◌==◌, ◌<◌, ◌≤◌, ◌^◌, ◌+◌, ℕ, suc, true, false, is_some, not, nat_lt, if◌then◌else◌, find, map, length, slice_get, replicate, OnOk, IfOk, IfErr, Some, None, List, ◌++◌, ◌∷◌, []};
ghost use Rattle.std.specs.List.{list_all, range_with_len};
ghost use Rattle.std.specs.Option.{option_and_then, option_copied, option_map_or};
ghost use Rattle.rack.specs.Sequences.{OnlyReads};
ghost use Rattle.md_super.specs.declared.superblock.Super.{Super};
ghost use Rattle.pool_state.specs.declared.contents.State.{State};
ghost use Rattle.array_image.specs.Places.{data_sector};
ghost use Rattle.array_image.specs.Supers.{is_named};
ghost use Rattle.array_core.specs.Model.{is_truth};
ghost use Rattle.array_core.specs.Opening.{opened as opened_as, super_at as super_found, truth_of as found_truth};
ghost use Rattle.pool_image.specs.Disks.{Seats as PlaceSeats};
ghost use Rattle.pool_image.specs.Drives.{Found as Pool, extent_of, first_of};
ghost use Rattle.pool_image.specs.Meaning.{truth_of};
ghost use Rattle.pool_check.specs.Drives.{AreDrivesOf, Drives, Goes, HasFewPlaces, IsFitState, IsSeating, found_with, seats_by};
ghost use Rattle.pool_check.specs.Slots.{AreKept, IsBehind};
ghost use Rattle.pool_check.specs.Founded.{HasContents, is_stale, is_stale_on};
ghost use Rattle.pool_check.specs.Layers.{AreFoundedBy, AreLayers, Opens, all_found, is_usable, sight_by, sights_by};

use crate::superblocks::{is_named, read_supers};
use crate::{ArraysRead, Checked, Extent, Layer, Seats, Sight};
use array_core::{Array, ArrayFault, Found, truth_of};
use arrayvec::ArrayVec;
use md_super::Super;
use pool_state::State;
use rack::Rack;

/// Where the slice of the first array begins on a drive.
const ARRAYS_FIRST: u64 = 10240;

/// Where a member's data begins in its slice.
const DATA_SECTOR: u64 = 2048;

/// Each disk has fewer sectors.
const FAR: u64 = 1 << 48;

/// What a place has to do with an array of this truth.
fn sight(truth: &Super, found: &[Found], place: usize) -> Sight
    ensures { result ≡ sight_by (is_named truth.now place) (is_some (option_and_then (λ f. f.seen) (slice_get found.now place))) }
{
    let valid = match found.get(place) {
        Some(found) => found.seen.is_some(),
        None => false,
    };
    match (is_named(truth, place), valid) {
        (true, true) => Sight::Valid,
        (true, false) => Sight::Invalid,
        _ => Sight::Stranger,
    }
}

/// What each place has to do with it.
fn sights(truth: &Super, found: &[Found]) -> ArrayVec<Sight, 16>
    ensures { result.items ≡ map (sights_by truth.now found.now) (range_with_len 0 16) }
{
    let mut sights = ArrayVec::new();
    for place in 0..16 {
        sights.push(sight(truth, found, place));
    }
    sights
}

/// No place has to do with an array.
fn strangers() -> ArrayVec<Sight, 16>
    ensures { result.items ≡ replicate 16 Sight.Stranger }
{
    let mut sights = ArrayVec::new();
    for place in 0..16u32 {
        let _ = place;
        sights.push(Sight::Stranger);
    }
    sights
}

/// The arrays with one more, of which nothing is known: it has no valid superblock.
fn add_unknown(layers: &mut ArraysRead, number: u32)
    requires few { number < 16 }
    requires kept { AreKept number layers.old }
    ensures kept { AreKept (suc number) layers.new }
    ensures layers { (f : Pool) → truth_of f number ≡ None → extent_of f (suc number) ≡ None → first_of f (suc number) ≡ None
        → AreLayers f number layers.old → AreLayers f (suc number) layers.new }
    ensures founded { (s : State) (seats : PlaceSeats) → AreFoundedBy s seats (suc number) layers.new }
{
    layers.all.push(Layer {
        number,
        extent: None,
        sights: strangers(),
        fault: Some(ArrayFault::Foreign),
    });
    layers.next = None;
}

/// The arrays with one more, whose members are longer than every disk.
fn add_far(layers: &mut ArraysRead, number: u32, found: &[Found], truth: &Super)
    requires few { number < 16 }
    requires kept { AreKept number layers.old }
    requires far { 2 ^ 48 ≤ truth.now.size }
    requires truth { found_truth found.now ≡ Some truth.now }
    ensures kept { AreKept (suc number) layers.new }
    ensures layers { (f : Pool) (first : ℕ) → found.now ≡ all_found f number first → first_of f number ≡ Some first
        → HasFewPlaces f.state f.seats → AreLayers f number layers.old → AreLayers f (suc number) layers.new }
    ensures founded { (s : State) (seats : PlaceSeats) → AreFoundedBy s seats (suc number) layers.new }
{
    layers.all.push(Layer {
        number,
        extent: None,
        sights: sights(truth, found),
        fault: Some(ArrayFault::TooFew),
    });
    layers.next = None;
}

/// What was found on a place.
fn found_at(found: &[Found], place: u32) -> Option<&Found>
    ensures { option_copied result ≡ find (λ f. f.place == place) found.now }
{
    found.iter().find(|f| f.place == place)
}

/// The superblock that was found on a place.
fn super_at(found: &[Found], place: u32) -> Option<&Super>
    ensures { option_copied result ≡ super_found found.now place }
{
    match found_at(found, place) {
        Some(f) => f.seen.as_ref(),
        None => None,
    }
}

/// Whether the superblock of a place is stale.
fn is_stale_on(truth: &Super, found: &[Found], place: u32) -> bool
    ensures { result ≡ is_stale_on truth.now (super_found found.now) place }
{
    if !is_named(truth, place as usize) {
        return false;
    }
    match super_at(found, place) {
        Some(seen) => seen.events != truth.events,
        None => false,
    }
}

/// Whether the superblock of a member is stale.
#[tactic(auto, unfolding(crate::specs::Founded::is_stale))]
fn is_stale(truth: &Super, found: &[Found]) -> bool
    ensures { result ≡ is_stale truth.now (super_found found.now) }
{
    (0..16).any(|place| is_stale_on(truth, found, place))
}

/// Opens an array, and keeps it with the extent of its slices, and whether superblocks of it are stale.
fn open_array(
    opened: &mut Checked,
    number: u32,
    found: &[Found],
    young: bool,
    extent: Extent,
    stale: bool,
) -> Option<ArrayFault>
    requires few { number < 16 }
    requires truth { (t : Super) → found_truth found.now ≡ Some t → is_truth t ≡ true }
    requires room { length opened.old.arrays.items < 16 }
    requires lengths { length opened.old.extents.items ≡ length opened.old.arrays.items }
    requires flags { length opened.old.stale.items ≡ length opened.old.arrays.items }
    ensures { Opens opened.old opened.new extent stale (opened_as number young found.now) result }
{
    match Array::open(number, found, young) {
        Ok(array) => {
            opened.arrays.push(array);
            opened.extents.push(extent);
            opened.stale.push(stale);
            None
        }
        Err(fault) => Some(fault),
    }
}

/// Whether an array isn't ready for the volume.
fn is_young(state: &State, number: u32) -> bool
    ensures { result ≡ not (nat_lt number state.now.joined) }
{
    !(number < state.joined)
}

/// Where slices of members of this size lie, that begin at a sector.
fn extent_at(first: u64, size: u64) -> Extent
    requires first { first < 2 ^ 48 }
    requires size { size < 2 ^ 48 }
    ensures first { result.first ≡ first }
    ensures sectors { result.sectors ≡ data_sector + size }
{
    Extent {
        first,
        sectors: DATA_SECTOR + size,
    }
}

/// Where the slices behind these begin, unless that is past every disk.
fn next_of(extent: Extent) -> Option<u64>
    requires { extent.first + extent.sectors < 2 ^ 64 }
    ensures { result ≡ (if nat_lt (extent.first + extent.sectors) (2 ^ 48) then Some (extent.first + extent.sectors) else None) }
{
    let next = extent.first + extent.sectors;
    if next < FAR { Some(next) } else { None }
}

/// The arrays with one more, whose slices begin at a sector of each drive.
fn add_near(
    layers: &mut ArraysRead,
    state: &State,
    number: u32,
    first: u64,
    found: &[Found],
    truth: &Super,
)
    requires few { number < 16 }
    requires kept { AreKept number layers.old }
    requires first { first < 2 ^ 48 }
    requires past { IsBehind layers.old.opened.extents.items first }
    requires near { truth.now.size < 2 ^ 48 }
    requires truth { found_truth found.now ≡ Some truth.now }
    requires usable { is_truth truth.now ≡ true }
    ensures kept { AreKept (suc number) layers.new }
    ensures layers { (seats : PlaceSeats) (o : Drives) → found.now ≡ all_found (found_with state.now seats o) number first
        → first_of (found_with state.now seats o) number ≡ Some first → HasFewPlaces state.now seats
        → AreLayers (found_with state.now seats o) number layers.old → AreLayers (found_with state.now seats o) (suc number) layers.new }
    ensures founded { (seats : PlaceSeats) → HasContents state.now seats number 16 found.now
        → AreFoundedBy state.now seats number layers.old → AreFoundedBy state.now seats (suc number) layers.new }
{
    let extent = extent_at(first, truth.size);
    let fault = open_array(
        &mut layers.opened,
        number,
        found,
        is_young(state, number),
        extent,
        is_stale(truth, found),
    );
    layers.all.push(Layer {
        number,
        extent: Some(extent),
        sights: sights(truth, found),
        fault,
    });
    layers.next = next_of(extent);
}

/// The arrays with one more, by the superblocks of all places.
fn add_array(layers: &mut ArraysRead, state: &State, number: u32, first: u64, found: &[Found])
    requires few { number < 16 }
    requires kept { AreKept number layers.old }
    requires first { first < 2 ^ 48 }
    requires past { IsBehind layers.old.opened.extents.items first }
    requires usable { list_all (λ f. option_map_or is_usable f.seen true) found.now ≡ true }
    ensures kept { AreKept (suc number) layers.new }
    ensures layers { (seats : PlaceSeats) (o : Drives) → found.now ≡ all_found (found_with state.now seats o) number first
        → first_of (found_with state.now seats o) number ≡ Some first → HasFewPlaces state.now seats
        → AreLayers (found_with state.now seats o) number layers.old → AreLayers (found_with state.now seats o) (suc number) layers.new }
    ensures founded { (seats : PlaceSeats) → HasContents state.now seats number 16 found.now
        → AreFoundedBy state.now seats number layers.old → AreFoundedBy state.now seats (suc number) layers.new }
{
    match truth_of(found) {
        Some(truth) if truth.size >= FAR => add_far(layers, number, found, truth),
        Some(truth) => add_near(layers, state, number, first, found, truth),
        None => add_unknown(layers, number),
    }
}

/// Reads the superblocks of one more array. Refused by the place whose disk went.
fn read_array<R: Rack>(
    rack: &mut R,
    state: &State,
    seats: &Seats,
    number: u32,
    layers: &mut ArraysRead,
) -> Result<(), u32>
    requires fit { (R.seen rack.old).fit }
    requires seating { IsSeating (R.seen rack.old) state.now (seats_by seats.now) }
    requires state { IsFitState state.now }
    requires few { number < 16 }
    requires kept { AreKept number layers.old }
    ensures only { OnlyReads (R.seen rack.old) (R.seen rack.new) }
    ensures kept { OnOk result (AreKept (suc number) layers.new) }
    ensures layers { OnOk result ((o : Drives) → AreDrivesOf (R.seen rack.old) (seats_by seats.now) o
        → AreLayers (found_with state.now (seats_by seats.now) o) number layers.old
        → AreLayers (found_with state.now (seats_by seats.now) o) (suc number) layers.new) }
    ensures founded { OnOk result (AreFoundedBy state.now (seats_by seats.now) number layers.old
        → AreFoundedBy state.now (seats_by seats.now) (suc number) layers.new) }
    ensures went { IfErr result (Goes (R.seen rack.old) (R.seen rack.new) (seats_by seats.now)) }
    ensures runs { R.runs rack.old rack.new }
{
    let Some(first) = layers.next else {
        add_unknown(layers, number);
        return Ok(());
    };
    match read_supers(rack, state, seats, number, first) {
        Ok(found) => {
            add_array(layers, state, number, first, found.as_slice());
            Ok(())
        }
        Err(place) => Err(place),
    }
}

/// No array yet.
fn no_layers() -> ArraysRead
    ensures kept { AreKept 0 result }
    ensures layers { (f : Pool) → AreLayers f 0 result }
    ensures founded { (s : State) (seats : PlaceSeats) → AreFoundedBy s seats 0 result }
{
    ArraysRead {
        all: ArrayVec::new(),
        opened: Checked {
            arrays: ArrayVec::new(),
            extents: ArrayVec::new(),
            stale: ArrayVec::new(),
            agreed: [false; 16],
        },
        next: Some(ARRAYS_FIRST),
    }
}

/// Reads the superblocks of all arrays. Refused by the place whose disk went.
pub(crate) fn read_layers<R: Rack>(
    rack: &mut R,
    state: &State,
    seats: &Seats,
) -> Result<ArraysRead, u32>
    requires fit { (R.seen rack.old).fit }
    requires seating { IsSeating (R.seen rack.old) state.now (seats_by seats.now) }
    requires state { IsFitState state.now }
    ensures only { OnlyReads (R.seen rack.old) (R.seen rack.new) }
    ensures kept { IfOk result (AreKept state.now.made) }
    ensures layers { IfOk result (λ layers. (o : Drives) → AreDrivesOf (R.seen rack.old) (seats_by seats.now) o
        → AreLayers (found_with state.now (seats_by seats.now) o) state.now.made layers) }
    // Whatever the disks tell.
    ensures founded { IfOk result (AreFoundedBy state.now (seats_by seats.now) state.now.made) }
    ensures went { IfErr result (Goes (R.seen rack.old) (R.seen rack.new) (seats_by seats.now)) }
    ensures runs { R.runs rack.old rack.new }
{
    let mut layers = no_layers();
    for number in 0..state.made {
        if let Err(place) = read_array(rack, state, seats, number, &mut layers) {
            return Err(place);
        }
    }
    Ok(layers)
}
