//! The slices of a new pool's drives, as a rack.

ghost use Rattle.std.specs.Prelude.{◌≡◌, ◌<◌, ◌+◌, ◌*◌, length};
ghost use Rattle.slice_rack.specs.Sliced.{slices_of};
ghost use Rattle.slice_rack.specs.SliceRack.{tables, below_of};
ghost use Rattle.pool_format.specs.Plan.{HasRoom, IsPlan};
ghost use Rattle.pool_format.specs.Slices.{AreLaid};

use crate::planning::{NewPool, array_at, has_member};
use crate::states::STATE_SECTOR;
use crate::tables::{DATA_SECTOR, LOG_SECTORS};
use rack::Rack;
use slice_rack::SliceRack;

/// Lays the slice of a place's member, if it is one.
fn lay_member<R: Rack>(slices: &mut SliceRack<R>, plan: &NewPool, place: u32, number: u32)
    requires plan { IsPlan plan.now }
    requires room { HasRoom plan.now (R.seen (below_of slices.old)) }
    requires place { place < length plan.now.units.items }
    requires number { number < 16 }
    requires fit { (slices_of (tables slices.old) (R.seen (below_of slices.old))).fit }
    requires laid { AreLaid plan.now.arrays.items (place + 1) (17 * place + number + 1) (tables slices.old) }
    ensures below { below_of slices.new ≡ below_of slices.old }
    ensures fit { (slices_of (tables slices.new) (R.seen (below_of slices.new))).fit }
    ensures laid { AreLaid plan.now.arrays.items (place + 1) (17 * place + number + 2) (tables slices.new) }
{
    if number as usize >= plan.arrays.len() {
        return;
    }
    let array = array_at(plan, number);
    if has_member(array, place) {
        let _ = slices.add_slice(place, number + 1, array.first, array.size + DATA_SECTOR);
    }
}

/// Gives a place its disk and its log slice.
fn lay_log<R: Rack>(slices: &mut SliceRack<R>, plan: &NewPool, place: u32)
    requires plan { IsPlan plan.now }
    requires room { HasRoom plan.now (R.seen (below_of slices.old)) }
    requires place { place < length plan.now.units.items }
    requires fit { (slices_of (tables slices.old) (R.seen (below_of slices.old))).fit }
    requires laid { AreLaid plan.now.arrays.items place (17 * place) (tables slices.old) }
    ensures below { below_of slices.new ≡ below_of slices.old }
    ensures fit { (slices_of (tables slices.new) (R.seen (below_of slices.new))).fit }
    ensures laid { AreLaid plan.now.arrays.items (place + 1) (17 * place + 1) (tables slices.new) }
{
    slices.seat(place, place);
    let _ = slices.add_slice(place, 0, STATE_SECTOR, LOG_SECTORS);
}

/// Gives a place its disk and its slices.
fn lay_drive<R: Rack>(slices: &mut SliceRack<R>, plan: &NewPool, place: u32)
    requires plan { IsPlan plan.now }
    requires room { HasRoom plan.now (R.seen (below_of slices.old)) }
    requires place { place < length plan.now.units.items }
    requires fit { (slices_of (tables slices.old) (R.seen (below_of slices.old))).fit }
    requires laid { AreLaid plan.now.arrays.items place (17 * place) (tables slices.old) }
    ensures below { below_of slices.new ≡ below_of slices.old }
    ensures fit { (slices_of (tables slices.new) (R.seen (below_of slices.new))).fit }
    ensures laid { AreLaid plan.now.arrays.items (place + 1) (17 * (place + 1)) (tables slices.new) }
{
    lay_log(slices, plan, place);
    for number in 0..16 {
        lay_member(slices, plan, place, number);
    }
}

/// The slices of all drives, over their disks.
pub(crate) fn lay_slices<R: Rack>(rack: R, plan: &NewPool) -> SliceRack<R>
    requires fit { (R.seen rack).fit }
    requires plan { IsPlan plan.now }
    requires room { HasRoom plan.now (R.seen rack) }
    ensures below { below_of result ≡ rack }
    ensures fit { (slices_of (tables result) (R.seen (below_of result))).fit }
    ensures laid { AreLaid plan.now.arrays.items (length plan.now.units.items) (17 * length plan.now.units.items) (tables result) }
{
    let mut slices = SliceRack::new(rack);
    for place in 0..plan.units.len() as u32 {
        lay_drive(&mut slices, plan, place);
    }
    slices
}
