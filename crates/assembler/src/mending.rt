//! The copies of the partition tables of a pool's drives, made to agree.

ghost use Rattle.std.specs.Prelude.{◌≡◌, ◌<◌, ◌≤◌, ◌==◌, ◌&&◌, ℕ, if◌then◌else◌, None};
ghost use Rattle.slice_rack.specs.Slices.{seat_of};
ghost use Rattle.slice_rack.specs.SliceRack.{tables, below_of};
ghost use Rattle.slice_rack.specs.Sliced.{slices_of};
ghost use Rattle.log_laws.specs.View.{names};
ghost use Rattle.pool_check.specs.Drives.{seats_by};
ghost use Rattle.assembler_laws.specs.Mending.{MendsTables};
ghost use Rattle.assembler.specs.Sound.{HoldSound};
ghost use Rattle.pool_image.specs.Drives.{Found};
ghost use Rattle.pool_model.specs.Left.{NoStraySuperblock};
ghost use Rattle.pool_model.specs.Openings.{HaveGoodTables, RecoversInOpening};
ghost use Rattle.pool_model.specs.Stopped.{LieApart};
ghost use Rattle.pool_rest.specs.Resting.{IsIdle};
ghost use Rattle.pool_scan.specs.Scanning.{now_in};
ghost use Rattle.rack.specs.Moments.{Leaves};

use crate::checks::absent_of;
use pool_check::{Flags, Seats, settle_tables};
use pool_state::State;
use rack::{Places, Rack};
use slice_rack::SliceRack;

/// Whether a place is one of a list.
fn is_listed(places: &Places, place: u32) -> bool
    ensures { result ≡ names places.now.items place }
{
    places.as_slice().iter().any(|listed| *listed == place)
}

/// Takes the disk of a place away where it is left out.
fn leave_out_if(seats: &mut Seats, place: u32, left_out: bool)
    requires { place < 16 }
    ensures { (p : ℕ) → seats_by seats.new p ≡ (if (p == place) && left_out then None else seats_by seats.old p) }
{
    if left_out {
        seats[place as usize] = None;
    }
}

/// Takes the disks of the places away that have gone.
fn leave_out(seats: &mut Seats, gone: &Places)
    ensures each { (p : ℕ) → p < 16 → seats_by seats.new p ≡ (if names gone.now.items p then None else seats_by seats.old p) }
    ensures beyond { (p : ℕ) → 16 ≤ p → seats_by seats.new p ≡ seats_by seats.old p }
{
    for place in 0..16 {
        leave_out_if(seats, place, is_listed(gone, place));
    }
}

/// Makes both copies of the partition table of each drive agree, but of those that have gone; the flags say where they do already.
/// Answers the current places that have no disk, have gone, or whose disk went meanwhile.
///
/// At each moment each disk has the table that it had.
pub(crate) fn mend_tables<R: Rack>(
    slices: &mut SliceRack<R>,
    state: &State,
    seats: Seats,
    agreed: &Flags,
    gone: &Places,
) -> Places
    requires fit { (slices_of (tables slices.old) (R.seen (below_of slices.old))).fit }
    requires seats { (p : ℕ) → seats_by seats p ≡ seat_of (tables slices.old) p }
    ensures tables { tables slices.new ≡ tables slices.old }
    ensures mends { MendsTables (R.seen (below_of slices.old)) (R.seen (below_of slices.new)) state.now (seat_of (tables slices.old)) agreed.now gone.now.items result.items }
    ensures runs { R.runs (below_of slices.old) (below_of slices.new) }
    // Where the disks hold a sound pool at rest, of which each drive has its table and targets land in the slices, what a stop leaves holds it still, if no superblock
    // stands where a place that is no member would have a slice.
    ensures moments { (f : Found) → HoldSound (R.seen (below_of slices.old)) f → IsIdle (R.seen (below_of slices.old)) → HaveGoodTables f → LieApart f
        → ((p : ℕ) → seat_of (tables slices.old) p ≡ f.seats p) → NoStraySuperblock f (now_in (R.seen (below_of slices.old))) → (R.seen (below_of slices.old)).traced
        → Leaves (R.seen (below_of slices.old)) (R.seen (below_of slices.new)) (RecoversInOpening f 0) }
{
    let mut seats = seats;
    leave_out(&mut seats, gone);
    settle_tables(slices.inner(), &mut seats, agreed);
    absent_of(state, &seats)
}
