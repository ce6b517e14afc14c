//! The check of all drives, once and until no disk goes.

ghost use Rattle.std.specs.Prelude.{◌≡◌, ◌==◌, ◌<◌, ◌≤◌, ◌+◌, ◌^◌, ℕ, is_none, count_by, find, length, MatchResult, IfSome, IfOk, IfErr, OnOk, Some, None, option_map, if◌then◌else◌};
ghost use Rattle.rack.specs.Sequences.{OnlyReads};
ghost use Rattle.array_image.specs.Places.{arrays_first};
ghost use Rattle.array_image.specs.States.{current_places, is_current};
ghost use Rattle.pool_scan.specs.Choosing.{seat_by};
ghost use Rattle.array_core.specs.Seats.{names};
ghost use Rattle.pool_check.specs.Drives.{AreCopied, AreDrivesOf, Drives, IsFitState, IsSeating, Loses, found_with, seats_by};
ghost use Rattle.pool_check.specs.Refusing.{CountsAbsent, Halts, IsFault, IsOfFew, absent_among, is_well, refusal_by, refused_with};
ghost use Rattle.pool_check.specs.Founded.{AreFounded};
ghost use Rattle.pool_check.specs.Settling.{AreCompared};
ghost use Rattle.pool_check.specs.Slots.{AreSlots};
ghost use Rattle.pool_check.specs.Checking.{IsChecked, first_number, is_dirty, is_few, refused_by_layers};

use crate::drives::check_places;
use crate::layers::read_layers;
use crate::{CheckFault, Checked, Halt, Layer, Seats};
use array_core::ArrayFault;
use pool_scan::Scan;
use pool_state::State;
use rack::{Places, Rack};

/// Whether a place is listed and not marked missing.
fn is_current(state: &State, place: usize) -> bool
    ensures { result ≡ is_current state.now place }
{
    match state.drives.as_slice().get(place) {
        Some(drive) => !drive.missing,
        None => false,
    }
}

/// Whether a place is one of a list.
fn is_listed(places: &Places, place: u32) -> bool
    ensures { result ≡ names places.now.items place }
{
    places.as_slice().iter().any(|listed| *listed == place)
}

/// The disk of a place: that of the scan, unless the place is one of those whose disks went.
fn seat_of(scan: &Scan, state: &State, gone: &Places, place: u32) -> Option<u32>
    requires few { length scan.now.disks.items < 2 ^ 32 }
    ensures { result ≡ (if names gone.now.items place then None else seat_by state.now scan.now.disks.items place) }
{
    if is_listed(gone, place) {
        None
    } else {
        scan.seat(state, place)
    }
}

/// The disk of each place: that of the scan, unless the place is one of those whose disks went.
pub fn seats_of(scan: &Scan, state: &State, gone: &Places) -> Seats
    requires few { length scan.now.disks.items < 2 ^ 32 }
    ensures each { (place : ℕ) → place < 16
        → seats_by result place ≡ (if names gone.now.items place then None else seat_by state.now scan.now.disks.items place) }
    ensures beyond { (place : ℕ) → 16 ≤ place → seats_by result place ≡ None }
{
    let mut seats = [None; 16];
    for place in 0..16 {
        put_seat(&mut seats, place, seat_of(scan, state, gone, place));
    }
    seats
}

/// Puts a disk or none in the seat of a place.
pub(crate) fn put_seat(seats: &mut Seats, place: u32, seat: Option<u32>)
    requires { place < 16 }
    ensures { (p : ℕ) → seats_by seats.new p ≡ (if p == place then seat else seats_by seats.old p) }
{
    seats[place as usize] = seat;
}

/// Whether a place has no disk.
fn is_empty(seats: &Seats, place: usize) -> bool
    ensures { result ≡ is_none (seats_by seats.now place) }
{
    match seats.as_slice().get(place) {
        Some(seat) => seat.is_none(),
        None => true,
    }
}

/// How many current places have no disk.
#[tactic(auto, unfolding(array_image::specs::States::current_places))]
fn absent_count(state: &State, seats: &Seats) -> usize
    ensures { result ≡ count_by (λ place. is_none (seats_by seats.now place)) (current_places state.now) }
{
    (0..state.drives.len())
        .filter(|place| is_current(state, *place))
        .filter(|place| is_empty(seats, *place))
        .count()
}

/// Whether an array has too few members, or no truth.
fn is_few(layer: &Layer) -> bool
    ensures { result ≡ is_few layer.now.fault }
{
    match layer.fault {
        Some(ArrayFault::Foreign | ArrayFault::TooFew) => true,
        _ => false,
    }
}

/// Whether a member of an array is wanting while rows are left to resync.
fn is_dirty(layer: &Layer) -> bool
    ensures { result ≡ is_dirty layer.now.fault }
{
    layer.fault == Some(ArrayFault::DirtyDegraded)
}

/// The lowest array that has too few members, or no truth.
fn first_few(layers: &[Layer]) -> Option<u32>
    ensures { result ≡ first_number is_few layers.now }
{
    match layers.iter().find(|layer| is_few(layer)) {
        Some(layer) => Some(layer.number),
        None => None,
    }
}

/// The lowest array of which a member is wanting while rows are left to resync.
fn first_dirty(layers: &[Layer]) -> Option<u32>
    ensures { result ≡ first_number is_dirty layers.now }
{
    match layers.iter().find(|layer| is_dirty(layer)) {
        Some(layer) => Some(layer.number),
        None => None,
    }
}

/// Why the arrays can't be opened: the first cause, of the lowest array.
fn fault_in(layers: &[Layer]) -> Option<CheckFault>
    ensures first { option_map refusal_by result ≡ refused_by_layers layers.now }
    ensures few { IfSome result IsOfFew }
{
    if let Some(array) = first_few(layers) {
        return Some(CheckFault::TooFew { array });
    }
    match first_dirty(layers) {
        Some(array) => Some(CheckFault::DirtyDegraded { array }),
        None => None,
    }
}

/// Checks the drives that have a disk, until one of these goes.
fn check_seated<R: Rack>(
    rack: &mut R,
    scan: &Scan,
    state: &State,
    seats: &Seats,
    bad: Option<u32>,
) -> Result<Checked, Halt>
    requires fit { (R.seen rack.old).fit }
    requires seating { IsSeating (R.seen rack.old) state.now (seats_by seats.now) }
    requires state { IsFitState state.now }
    ensures only { OnlyReads (R.seen rack.old) (R.seen rack.new) }
    ensures checked { IfOk result (λ checked. (o : Drives) → AreDrivesOf (R.seen rack.old) (seats_by seats.now) o
        → AreCopied scan.now.disks.items (seats_by seats.now) o → IsChecked (is_well bad) (found_with state.now (seats_by seats.now) o) checked) }
    ensures agreed { IfOk result (λ checked. AreCompared (R.seen rack.old) (seats_by seats.now) checked.agreed) }
    ensures slots { IfOk result (λ checked. AreSlots (R.seen rack.old).sectors (seats_by seats.now) checked.arrays.items checked.extents.items) }
    ensures pool { IfOk result (λ checked. AreFounded state.now (seats_by seats.now) checked.arrays.items checked.stale.items) }
    ensures room { OnOk result ((place d : ℕ) → seats_by seats.now place ≡ Some d → arrays_first + 32 < (R.seen rack.old).sectors d) }
    ensures halts { IfErr result (λ halt. Halts (R.seen rack.old) (R.seen rack.new) (seats_by seats.now)
        (λ fault. (o : Drives) → AreDrivesOf (R.seen rack.old) (seats_by seats.now) o → AreCopied scan.now.disks.items (seats_by seats.now) o
        → refused_with (is_well bad) None (found_with state.now (seats_by seats.now) o) ≡ Some (refusal_by fault)) halt) }
    ensures few { OnOk result (absent_among state.now (seats_by seats.now) ≤ 1) }
    ensures counts { IfErr result (λ halt. IsFault (CountsAbsent (absent_among state.now (seats_by seats.now))) halt) }
    ensures runs { R.runs rack.old rack.new }
{
    let count = absent_count(state, seats) as u32;
    if count > 1 {
        return Err(Halt::Fault(CheckFault::Absent { count }));
    }
    let layers = match read_layers(rack, state, seats) {
        Ok(layers) => layers,
        Err(place) => return Err(Halt::Went { place }),
    };
    let agreed = match check_places(rack, scan, state, seats, layers.all.as_slice(), bad) {
        Ok(agreed) => agreed,
        Err(halt) => return Err(halt),
    };
    match fault_in(layers.all.as_slice()) {
        Some(fault) => Err(Halt::Fault(fault)),
        None => Ok(Checked {
            agreed,
            ..layers.opened
        }),
    }
}

/// Checks the drives of a pool at rest, whose disks are `seats`, and opens its arrays. A place whose disk goes has none from then
/// on, and the check begins again without it. `bad` is the lowest place whose log isn't well formed; where that place's disk goes,
/// the logs of the others have to be looked at again. Nothing is written.
///
/// Refused by the first cause in the order of [`CheckFault`].
pub fn check_drives<R: Rack>(
    rack: &mut R,
    scan: &Scan,
    state: &State,
    seats: &mut Seats,
    bad: Option<u32>,
) -> Result<Checked, CheckFault>
    requires fit { (R.seen rack.old).fit }
    requires seating { IsSeating (R.seen rack.old) state.now (seats_by seats.old) }
    requires state { IsFitState state.now }
    ensures only { OnlyReads (R.seen rack.old) (R.seen rack.new) }
    // Each place that has lost its disk has its cause.
    ensures seats { Loses (R.seen rack.old) (R.seen rack.new) (seats_by seats.old) (seats_by seats.new) }
    // The answer is that of the pool that the disks left make.
    ensures exact { (o : Drives) → AreDrivesOf (R.seen rack.old) (seats_by seats.new) o → AreCopied scan.now.disks.items (seats_by seats.new) o
        → MatchResult result (IsChecked (is_well bad) (found_with state.now (seats_by seats.new) o))
        (λ fault. refused_with (is_well bad) None (found_with state.now (seats_by seats.new) o) ≡ Some (refusal_by fault)) }
    // Whatever the disks tell, it is want of drives exactly where two or more places have no disk, and says how many.
    ensures few { OnOk result (absent_among state.now (seats_by seats.new) ≤ 1) }
    ensures counts { IfErr result (λ fault. CountsAbsent (absent_among state.now (seats_by seats.new)) fault) }
    // Of each told disk it says whether both copies of its table agree, whatever the others tell.
    ensures agreed { IfOk result (λ checked. AreCompared (R.seen rack.old) (seats_by seats.new) checked.agreed) }
    // Whatever the disks tell, the members' slices lie one behind the other, and on their disks.
    ensures slots { IfOk result (λ checked. AreSlots (R.seen rack.old).sectors (seats_by seats.new) checked.arrays.items checked.extents.items) }
    // Whatever the disks tell, each array is that of valid superblocks of its members, and each member with a disk has one.
    ensures pool { IfOk result (λ checked. AreFounded state.now (seats_by seats.new) checked.arrays.items checked.stale.items) }
    // Whatever the disks tell, each disk has room for its log slice and a backup table behind it.
    ensures room { OnOk result ((place d : ℕ) → seats_by seats.new place ≡ Some d → arrays_first + 32 < (R.seen rack.old).sectors d) }
    ensures runs { R.runs rack.old rack.new }
{
    'again: loop {
        match check_seated(rack, scan, state, seats, bad) {
            Ok(checked) => return Ok(checked),
            Err(Halt::Fault(fault)) => return Err(fault),
            Err(Halt::Went { place }) => put_seat(seats, place, None),
        }
    }
}
