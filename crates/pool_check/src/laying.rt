//! Slices of the arrays' members, laid behind the log slices of their drives.

ghost use Rattle.std.specs.Prelude.{◌≡◌, ◌<◌, ◌+◌};
ghost use Rattle.slice_rack.specs.Sliced.{slices_of};
ghost use Rattle.slice_rack.specs.SliceRack.{tables, below_of};
ghost use Rattle.pool_check.specs.Drives.{seats_by};
ghost use Rattle.pool_check.specs.Slots.{AreSlots};
ghost use Rattle.pool_check.specs.Laying.{HasLogsOnly, HasMembers, HasNoMembers, IsLaidTo, KeepsLogs, laid_at};

use crate::superblocks::{is_named, seat_at};
use crate::{Checked, Extent, Seats};
use rack::Rack;
use slice_rack::SliceRack;

/// Where the slice of a place's member lies, if the place is a member of the array and has a disk.
fn slot(seats: &Seats, checked: &Checked, number: u32, place: u32) -> Option<Extent>
    ensures { result ≡ laid_at (seats_by seats.now) checked.now.arrays.items checked.now.extents.items number place }
{
    let Some(array) = checked.arrays.as_slice().get(number as usize) else {
        return None;
    };
    if !is_named(array.truth(), place as usize) || seat_at(seats, place).is_none() {
        return None;
    }
    match checked.extents.as_slice().get(number as usize) {
        Some(extent) => Some(*extent),
        None => None,
    }
}

/// Lays the slice of a place's member, if it has one.
fn lay_member<R: Rack>(
    slices: &mut SliceRack<R>,
    seats: &Seats,
    checked: &Checked,
    number: u32,
    place: u32,
)
    requires number { number < 16 }
    requires place { place < 16 }
    requires fit { (slices_of (tables slices.old) (R.seen (below_of slices.old))).fit }
    requires logs { HasLogsOnly (tables slices.old) (seats_by seats.now) }
    requires slots { AreSlots (R.seen (below_of slices.old)).sectors (seats_by seats.now) checked.now.arrays.items checked.now.extents.items }
    requires laid { IsLaidTo (seats_by seats.now) checked.now.arrays.items checked.now.extents.items number place (tables slices.old) }
    ensures below { below_of slices.new ≡ below_of slices.old }
    ensures fit { (slices_of (tables slices.new) (R.seen (below_of slices.new))).fit }
    ensures logs { HasLogsOnly (tables slices.new) (seats_by seats.now) }
    ensures kept { KeepsLogs (tables slices.old) (tables slices.new) }
    ensures laid { IsLaidTo (seats_by seats.now) checked.now.arrays.items checked.now.extents.items number (place + 1) (tables slices.new) }
{
    let Some(extent) = slot(seats, checked, number, place) else {
        return;
    };
    let _ = slices.add_slice(place, number + 1, extent.first, extent.sectors);
}

/// Lays the slices of an array's members.
fn lay_array<R: Rack>(slices: &mut SliceRack<R>, seats: &Seats, checked: &Checked, number: u32)
    requires number { number < 16 }
    requires fit { (slices_of (tables slices.old) (R.seen (below_of slices.old))).fit }
    requires logs { HasLogsOnly (tables slices.old) (seats_by seats.now) }
    requires slots { AreSlots (R.seen (below_of slices.old)).sectors (seats_by seats.now) checked.now.arrays.items checked.now.extents.items }
    requires laid { IsLaidTo (seats_by seats.now) checked.now.arrays.items checked.now.extents.items number 0 (tables slices.old) }
    ensures below { below_of slices.new ≡ below_of slices.old }
    ensures fit { (slices_of (tables slices.new) (R.seen (below_of slices.new))).fit }
    ensures logs { HasLogsOnly (tables slices.new) (seats_by seats.now) }
    ensures kept { KeepsLogs (tables slices.old) (tables slices.new) }
    ensures laid { IsLaidTo (seats_by seats.now) checked.now.arrays.items checked.now.extents.items number 16 (tables slices.new) }
{
    for place in 0..16 {
        lay_member(slices, seats, checked, number, place);
    }
}

/// Lays the slices of all members that have a disk, by the extents of a check, on a rack that has the log slices of these disks
/// and no other slice. None is refused.
pub fn lay_members<R: Rack>(slices: &mut SliceRack<R>, seats: &Seats, checked: &Checked)
    requires fit { (slices_of (tables slices.old) (R.seen (below_of slices.old))).fit }
    requires logs { HasLogsOnly (tables slices.old) (seats_by seats.now) }
    requires empty { HasNoMembers (tables slices.old) }
    requires slots { AreSlots (R.seen (below_of slices.old)).sectors (seats_by seats.now) checked.now.arrays.items checked.now.extents.items }
    ensures below { below_of slices.new ≡ below_of slices.old }
    ensures fit { (slices_of (tables slices.new) (R.seen (below_of slices.new))).fit }
    ensures kept { KeepsLogs (tables slices.old) (tables slices.new) }
    ensures laid { HasMembers (seats_by seats.now) checked.now.arrays.items checked.now.extents.items (tables slices.new) }
{
    for number in 0..16 {
        lay_array(slices, seats, checked, number);
    }
}
