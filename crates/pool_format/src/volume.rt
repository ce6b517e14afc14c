//! The volume of a new pool, on its arrays.

ghost use Rattle.std.specs.Prelude.{◌≡◌, ◌<◌, ◌*◌, ◌-◌, ◌^◌, ℕ, length, map, IfOk};
ghost use Rattle.slice_rack.specs.SliceRack.{tables, below_of};
ghost use Rattle.slice_rack.specs.Sliced.{slices_of};
ghost use Rattle.lvm_group.specs.Made as made;
ghost use Rattle.lvm_group.specs.Shown.{volume_of};
ghost use Rattle.lvm_group.specs.Volume.{below_of as rack_in, linear};
ghost use Rattle.raid_rack.specs.RaidRack.{arrays_in, arrays_of, raid_in, raid_seen, slices_in};
ghost use Rattle.pool_format.specs.Arrays.{new_views};
ghost use Rattle.pool_format.specs.Data as spec;
ghost use Rattle.pool_format.specs.Data.{IsGroupRead, IsNewGroup};
ghost use Rattle.pool_format.specs.Parts as parts;
ghost use Rattle.pool_format.specs.Plan.{HasRoom, IsPlan};
ghost use Rattle.pool_format.specs.Volume.{IsNewRaid};

use crate::Birth;
use crate::arrays::new_arrays;
use crate::planning::{NewPool, array_at};
use crate::slices::lay_slices;
use crate::states::new_state;
use arrayvec::ArrayVec;
use commit_log::Log;
use lvm_group::{NewGroup, Volume};
use rack::{NoMemory, Rack};
use raid_rack::RaidRack;
use shr_base::Id;
use std::alloc::Global;

/// The extents that the arrays offer, by number.
fn extents_of(plan: &NewPool) -> ArrayVec<u64, 16>
    ensures { result.items ≡ spec.extents_of plan.now }
{
    let mut extents = ArrayVec::new();
    for number in 0..plan.arrays.len() as u32 {
        extents.push(array_at(plan, number).extents);
    }
    extents
}

/// The sectors of the arrays, by number.
fn sizes_of(plan: &NewPool) -> ArrayVec<u64, 16>
    requires { IsPlan plan.now }
    ensures { result.items ≡ spec.sizes_of plan.now }
{
    let mut sizes = ArrayVec::new();
    for number in 0..plan.arrays.len() as u32 {
        let array = array_at(plan, number);
        sizes.push((array.members.len() as u64 - 1) * array.size);
    }
    sizes
}

/// The group of the volume.
pub(crate) fn new_group(alloc: Global, plan: &NewPool, birth: &Birth) -> Result<NewGroup, NoMemory>
    requires { IsPlan plan.now }
    ensures group { IfOk result (λ group. IsNewGroup plan.now birth.now group) }
    ensures read { IfOk result (λ group. IsGroupRead plan.now birth.now) }
{
    NewGroup::make(
        alloc,
        &Id(birth.pool),
        plan.extent,
        sizes_of(plan),
        extents_of(plan),
    )
}

/// The arrays of a new pool over its drives.
fn new_raid<R: Rack>(rack: R, plan: &NewPool, birth: &Birth, log: Log) -> RaidRack<R>
    requires fit { (R.seen rack).fit }
    requires plan { IsPlan plan.now }
    requires room { HasRoom plan.now (R.seen rack) }
    ensures below { below_of (slices_in result) ≡ rack }
    ensures fit { (slices_of (tables (slices_in result)) (R.seen (below_of (slices_in result)))).fit }
    ensures new { IsNewRaid plan.now birth.now (tables (slices_in result)) (arrays_in result) }
{
    let slices = lay_slices(rack, plan);
    let state = new_state(plan, birth);
    let arrays = new_arrays(plan, birth);
    RaidRack::new(slices, state, arrays, log, birth.seconds)
}

/// The volume over the arrays of a new pool. Nothing is called.
pub(crate) fn new_volume<R: Rack>(
    rack: R,
    plan: &NewPool,
    birth: &Birth,
    group: NewGroup,
    log: Log,
) -> Volume<RaidRack<R>>
    requires fit { (R.seen rack).fit }
    requires lasting { (R.seen rack).lasting }
    requires plan { IsPlan plan.now }
    requires room { HasRoom plan.now (R.seen rack) }
    requires group { IsNewGroup plan.now birth.now group }
    ensures below { below_of (slices_in (rack_in result)) ≡ rack }
    ensures fit { (volume_of (linear result) (raid_seen R.seen (rack_in result))).fit }
    ensures volume { linear result ≡ made.new_volume plan.now.extent (spec.extents_of plan.now) }
    ensures state { (raid_in (rack_in result)).state ≡ parts.new_state plan.now birth.now }
    ensures arrays { arrays_of (rack_in result) ≡ new_views birth.now 0 plan.now.arrays.items }
{
    let raid = new_raid(rack, plan, birth, log);
    Volume::over(raid, group)
}
