//! Seats of drives, and their log slices.

ghost use Rattle.std.specs.Prelude.{◌≡◌, ◌<◌, ◌^◌, ◌+◌, ℕ, List, length, Some};
ghost use Rattle.slice_rack.specs.Slices.{seat_of};
ghost use Rattle.slice_rack.specs.Sliced.{slices_of};
ghost use Rattle.slice_rack.specs.SliceRack.{tables, below_of};
ghost use Rattle.slice_rack.specs.Changes.{IsEmpty};
ghost use Rattle.pool_rest.specs.Laying.{LaysLog, IsLaidBelow};

use pool_scan::Scan;
use pool_state::State;
use rack::{Places, Rack};
use slice_rack::SliceRack;

/// Where a drive's log slice begins, and its sectors.
const LOG_FIRST: u64 = 2048;

const LOG_SECTORS: u64 = 8192;

/// Gives a place its disk, and its log slice where the disk has all of it. Answers whether it has.
fn lay_log<R: Rack>(slices: &mut SliceRack<R>, place: u32, disk: u32) -> bool
    requires place { place < 16 }
    requires disk { disk < (R.seen (below_of slices.old)).disks }
    requires free { (p : ℕ) → seat_of (tables slices.old) p ≡ Some disk → p ≡ place }
    requires fit { (slices_of (tables slices.old) (R.seen (below_of slices.old))).fit }
    ensures below { below_of slices.new ≡ below_of slices.old }
    ensures fit { (slices_of (tables slices.new) (R.seen (below_of slices.new))).fit }
    ensures lays { LaysLog (R.seen (below_of slices.old)) (tables slices.old) (tables slices.new) place disk result }
{
    slices.seat(place, disk);
    match slices.add_slice(place, 0, LOG_FIRST, LOG_SECTORS) {
        Ok(()) => true,
        Err(_) => false,
    }
}

/// Seats the disk of a place, if the state has it current and a disk stands for it.
fn seat_drive<R: Rack>(
    slices: &mut SliceRack<R>,
    on: &mut Places,
    scan: &Scan,
    state: &State,
    place: u32,
)
    requires place { place < 16 }
    requires count { length scan.now.disks.items ≡ (R.seen (below_of slices.old)).disks }
    requires few { length scan.now.disks.items < 2 ^ 32 }
    requires fit { (slices_of (tables slices.old) (R.seen (below_of slices.old))).fit }
    requires laid { IsLaidBelow (R.seen (below_of slices.old)) scan.now.disks.items state.now place (tables slices.old) on.old.items }
    ensures below { below_of slices.new ≡ below_of slices.old }
    ensures fit { (slices_of (tables slices.new) (R.seen (below_of slices.new))).fit }
    ensures laid { IsLaidBelow (R.seen (below_of slices.old)) scan.now.disks.items state.now (place + 1) (tables slices.new) on.new.items }
{
    let Some(disk) = scan.seat(state, place) else {
        return;
    };
    if lay_log(slices, place, disk) {
        on.push(place);
    }
}

/// Seats the disks of a state's current places, with their log slices. Answers the places that have one, the lowest first.
pub(crate) fn seat_drives<R: Rack>(slices: &mut SliceRack<R>, scan: &Scan, state: &State) -> Places
    requires empty { IsEmpty (tables slices.old) }
    requires count { length scan.now.disks.items ≡ (R.seen (below_of slices.old)).disks }
    requires few { length scan.now.disks.items < 2 ^ 32 }
    requires fit { (slices_of (tables slices.old) (R.seen (below_of slices.old))).fit }
    ensures below { below_of slices.new ≡ below_of slices.old }
    ensures fit { (slices_of (tables slices.new) (R.seen (below_of slices.new))).fit }
    ensures laid { IsLaidBelow (R.seen (below_of slices.old)) scan.now.disks.items state.now 16 (tables slices.new) result.items }
{
    let mut on = Places::new();
    for place in 0..16 {
        seat_drive(slices, &mut on, scan, state, place);
    }
    on
}
