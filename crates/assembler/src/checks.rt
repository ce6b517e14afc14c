//! The drives of a pool at rest, checked: its arrays, and the slices of their members.

ghost use Rattle.std.specs.Prelude.{◌≡◌, ◌≢◌, ◌⊎◌, ◌<◌, ◌≤◌, ◌^◌, ◌+◌, ◌++◌, ◌∷◌, ◌==◌, ◌&&◌, ℕ, [], not, nat_lt, is_none, length, filter, true, false, if◌then◌else◌, IfOk, IfErr, OnOk, None};
ghost use Rattle.rack.specs.Sequences.{OnlyReads};
ghost use Rattle.slice_rack.specs.Slices.{place_of, seat_of, first_of, sectors_of};
ghost use Rattle.slice_rack.specs.SliceRack.{tables, below_of};
ghost use Rattle.slice_rack.specs.Sliced.{slices_of};
ghost use Rattle.pool_state.specs.Valid.{is_valid};
ghost use Rattle.arrayvec.specs.ArrayVec.{array_vec_len};
ghost use Rattle.array_image.specs.States.{current_places};
ghost use Rattle.pool_check.specs.Checking.{IsChecked};
ghost use Rattle.pool_check.specs.Drives.{AreCopied, AreDrivesOf, Drives, Loses, found_with, seats_by};
ghost use Rattle.pool_check.specs.Refusing.{absent_among, is_well};
ghost use Rattle.pool_check.specs.Settling.{AreCompared};
ghost use Rattle.pool_image.specs.Drives.{Found};
ghost use Rattle.log_laws.specs.View.{names};
ghost use Rattle.pool_scan.specs.Choosing.{seat_by};
ghost use Rattle.pool_scan.specs.Scanning.{IsUnfaulted};
ghost use Rattle.pool_rest.specs.Standing.{IsLaid};
ghost use Rattle.assembler_laws.specs.Holding.{HoldPool, IsFoundOn};
ghost use Rattle.assembler_laws.specs.Members.{AreMembers};
ghost use Rattle.assembler.specs.Refusing.{FailsCheck, seats_left};

use crate::refusal::{Refusal, by_check};
use commit_log::Log;
use pool_check::{Checked, Part, Seats, check_drives, lay_members, seats_of};
use pool_rest::AtRest;
use pool_state::State;
use rack::{Back, Places, Rack};
use raid_rack::current_places;
use slice_rack::SliceRack;

/// The arrays of a pool whose drives are sound, over the slices of these.
#[derive(Drop)]
pub(crate) struct Members<R> {
    /// The log slices of the drives that are there, and the slices of the arrays' members.
    pub(crate) slices: SliceRack<R>,
    pub(crate) state: State,
    pub(crate) checked: Checked,
    pub(crate) log: Log,
    /// The disk of each place.
    pub(crate) seats: Seats,
    /// The current places that have no disk, or whose disk went.
    pub(crate) absent: Places,
}

/// Whether a place has a disk.
fn has_disk(seats: &Seats, place: u32) -> bool
    ensures { result ≡ not (is_none (seats_by seats.now place)) }
{
    match seats.as_slice().get(place as usize) {
        Some(seat) => seat.is_some(),
        None => false,
    }
}

/// Appends a place unless it is to be left out.
fn push_unless(places: &mut Places, place: u32, left_out: bool)
    requires { array_vec_len places.old < 16 }
    ensures items { places.new.items ≡ places.old.items ++ (if left_out then [] else place ∷ []) }
    ensures few { array_vec_len places.new ≤ array_vec_len places.old + 1 }
{
    if !left_out {
        places.push(place);
    }
}

/// The current places without a disk.
pub(crate) fn absent_of(state: &State, seats: &Seats) -> Places
    ensures { result.items ≡ filter (λ p. is_none (seats_by seats.now p)) (current_places state.now) }
{
    let current = current_places(state);
    let mut places = Places::new();
    for place in current.as_slice() {
        push_unless(&mut places, *place, has_disk(seats, *place));
    }
    places
}

/// Takes the slices of a place away where it has lost its disk.
fn unseat_if<R: Rack>(slices: &mut SliceRack<R>, place: u32, lost: bool)
    requires place { place < 16 }
    requires fit { (slices_of (tables slices.old) (R.seen (below_of slices.old))).fit }
    ensures below { below_of slices.new ≡ below_of slices.old }
    ensures fit { (slices_of (tables slices.new) (R.seen (below_of slices.new))).fit }
    ensures seats { (p : ℕ) → seat_of (tables slices.new) p ≡ (if (p == place) && lost then None else seat_of (tables slices.old) p) }
    ensures firsts { (k : ℕ) → (place_of k ≢ place) ⊎ (lost ≡ false) → first_of (tables slices.new) k ≡ first_of (tables slices.old) k }
    ensures sectors { (k : ℕ) → (place_of k ≢ place) ⊎ (lost ≡ false) → sectors_of (tables slices.new) k ≡ sectors_of (tables slices.old) k }
{
    if lost {
        slices.unseat(place);
    }
}

/// Takes the slices of places away that have no disk, or have lost it.
fn unseat_lost<R: Rack>(slices: &mut SliceRack<R>, seats: &Seats)
    requires fit { (slices_of (tables slices.old) (R.seen (below_of slices.old))).fit }
    ensures below { below_of slices.new ≡ below_of slices.old }
    ensures fit { (slices_of (tables slices.new) (R.seen (below_of slices.new))).fit }
    ensures seats { (p : ℕ) → seat_of (tables slices.new) p ≡ (if nat_lt p 16 && is_none (seats_by seats.now p) then None else seat_of (tables slices.old) p) }
    ensures firsts { (k : ℕ) → seats_by seats.now (place_of k) ≢ None → first_of (tables slices.new) k ≡ first_of (tables slices.old) k }
    ensures sectors { (k : ℕ) → seats_by seats.now (place_of k) ≢ None → sectors_of (tables slices.new) k ≡ sectors_of (tables slices.old) k }
{
    for place in 0..16 {
        unseat_if(slices, place, !has_disk(seats, place));
    }
}

/// Checks the drives of a pool at rest, and lays the slices of its arrays' members. Nothing is written.
pub(crate) fn check<R: Rack>(rest: AtRest<R>) -> Result<Members<R>, Back<R, Refusal>>
    requires fit { (slices_of (tables rest.slices) (R.seen (below_of rest.slices))).fit }
    requires lasting { (R.seen (below_of rest.slices)).lasting }
    requires few { length rest.scan.disks.items < 2 ^ 32 }
    requires valid { is_valid rest.state 0 ≡ true }
    requires laid { IsLaid (R.seen (below_of rest.slices)) rest.scan.disks.items rest.state (tables rest.slices) rest.on.items }
    ensures only { IfOk result (λ m. OnlyReads (R.seen (below_of rest.slices)) (R.seen (below_of m.slices))) }
    ensures members { IfOk result (λ m. AreMembers m.state (tables m.slices) (R.seen (below_of m.slices)) m.checked m.absent.items) }
    ensures taken { IfOk result (λ m. (p : ℕ) → seats_by m.seats p ≡ seat_of (tables m.slices) p) }
    // Where the disks are told at rest, and none has refused a call, they hold their pool, and the arrays are its own.
    ensures holds { IfOk result (λ m. (f : Found)
        → IsFoundOn (R.seen (below_of rest.slices)) rest.scan.disks.items rest.state (tables rest.slices) rest.on.items rest.log rest.pending rest.damaged f
        → ((p d : ℕ) → names rest.gone.items p ≡ true → seat_by rest.state rest.scan.disks.items p ≡ Some d → ⊥) → IsUnfaulted (R.seen (below_of rest.slices)) (R.seen (below_of m.slices))
        → HoldPool m.state (tables m.slices) (R.seen (below_of m.slices)) m.log f × IsChecked (is_well None) f m.checked) }
    // Whatever the disks tell, the arrays are those of the pool that the disks left make, and no log is damaged.
    ensures are { IfOk result (λ m. (o : Drives) → AreDrivesOf (R.seen (below_of rest.slices)) (seat_of (tables m.slices)) o
        → AreCopied rest.scan.disks.items (seat_of (tables m.slices)) o → IsChecked (is_well None) (found_with rest.state (seat_of (tables m.slices)) o) m.checked) }
    ensures compared { IfOk result (λ m. AreCompared (R.seen (below_of rest.slices)) (seat_of (tables m.slices)) m.checked.agreed) }
    ensures loses { IfOk result (λ m. Loses (R.seen (below_of rest.slices)) (R.seen (below_of m.slices)) (seats_left rest.scan.disks.items rest.state rest.gone.items) (seat_of (tables m.slices))) }
    ensures few { IfOk result (λ m. absent_among rest.state (seat_of (tables m.slices)) ≤ 1) }
    ensures whole { OnOk result (rest.damaged ≡ None) }
    // The slices lie on the disks that were taken for the places.
    ensures seats { IfOk result (λ m. (p d : ℕ) → seat_of (tables m.slices) p ≡ Some d → seat_by rest.state rest.scan.disks.items p ≡ Some d) }
    ensures state { IfOk result (λ m. m.state ≡ rest.state) }
    ensures log { IfOk result (λ m. m.log ≡ rest.log) }
    ensures runs { IfOk result (λ m. R.runs (below_of rest.slices) (below_of m.slices)) }
    ensures kept { IfErr result (λ back. OnlyReads (R.seen (below_of rest.slices)) (R.seen back.rack)) }
    ensures refused { IfErr result (λ back. FailsCheck (R.seen (below_of rest.slices)) (R.seen back.rack) rest.scan.disks.items rest.state rest.gone.items rest.damaged back.why) }
    ensures returned { IfErr result (λ back. R.runs (below_of rest.slices) back.rack) }
{
    let mut slices = rest.slices;
    let mut seats = seats_of(&rest.scan, &rest.state, &rest.gone);
    let checked = match check_drives(
        slices.inner(),
        &rest.scan,
        &rest.state,
        &mut seats,
        rest.damaged,
    ) {
        Ok(checked) => checked,
        Err(fault) => {
            return Err(Back {
                rack: slices.into_inner(),
                why: by_check(fault),
            });
        }
    };
    // A place whose log isn't well formed is refused, though its disk has gone since: the record that is pending wasn't loaded.
    if let Some(place) = rest.damaged {
        return Err(Back {
            rack: slices.into_inner(),
            why: Refusal::Damaged {
                place,
                part: Part::Log,
            },
        });
    }
    unseat_lost(&mut slices, &seats);
    lay_members(&mut slices, &seats, &checked);
    let absent = absent_of(&rest.state, &seats);
    Ok(Members {
        slices,
        state: rest.state,
        checked,
        log: rest.log,
        seats,
        absent,
    })
}
