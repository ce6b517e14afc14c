//! The plan of a new pool, by the sizes of its drives.

ghost use Rattle.std.specs.Prelude.{◌≡◌, ◌≤◌, ◌<◌, ◌↔◌, ◌^◌, ◌*◌, ◌+◌, ℕ, true, length, slice_get, Some, Err, IfOk};
ghost use Rattle.pool_state.specs.Valid.{is_extent};
ghost use Rattle.layer_plan.specs.declared.PlanError.{PlanError};
ghost use Rattle.array_image.specs.Places.{arrays_first};
ghost use Rattle.pool_format.specs.Plan as spec;
ghost use Rattle.pool_format.specs.Plan.{HasRoom, IsPlan, IsPlanOf, IsUnplanned, arrays_from, has, units_on};

use arrayvec::ArrayVec;
use layer_plan::{Layer, MAX_DRIVES, PlanError, layout};
use rack::{Places, Rack};
use shr_base::units;

/// Where the slices of the arrays' members begin on a drive.
const ARRAYS_FIRST: u64 = 10240;

/// The sectors of a slice before its member's data, and in all more than its extents have.
const DATA_SECTOR: u64 = 2048;

const SLICE_SECTORS: u64 = 4096;

/// An array of a new pool: a layer, and where it lies on its drives.
#[derive(Debug, Default, Drop)]
pub struct NewArray {
    /// The places of its members, ascending.
    pub members: Places,
    /// The first sector of its members' slices.
    pub first: u64,
    /// The sectors of a member's data.
    pub size: u64,
    /// The extents that it offers.
    pub extents: u64,
}

/// A pool to be made.
#[derive(Debug, Drop)]
pub struct NewPool {
    /// The sectors of an extent.
    pub extent: u32,
    /// The units of the drives, by place.
    pub units: ArrayVec<u64, 16>,
    /// The arrays, by number.
    pub arrays: ArrayVec<NewArray, 16>,
}

/// The units of the disks, in their order.
fn drive_units<R: Rack>(rack: &R, extent: u32) -> ArrayVec<u64, 16>
    requires fit { (R.seen rack.now).fit }
    requires few { (R.seen rack.now).disks ≤ 16 }
    requires extent { 0 < extent }
    ensures { result.items ≡ units_on (R.seen rack.now) extent }
{
    let mut all = ArrayVec::new();
    for disk in 0..rack.disks() {
        all.push(units(rack.sectors(disk), extent));
    }
    all
}

/// The places of a list, once more.
fn copied(places: &Places) -> Places
    ensures { result.items ≡ places.now.items }
{
    let mut copy = Places::new();
    for index in 0..places.len() {
        copy.push(places[index]);
    }
    copy
}

/// The arrays of layers, whose slices lie one behind the other.
fn arrays_of(layers: &[Layer], extent: u32) -> ArrayVec<NewArray, 16>
    requires few { length layers.now ≤ 16 }
    requires room { (n : ℕ) → n ≤ length layers.now → spec.slices_before extent n layers.now < 2 ^ 62 }
    ensures { result.items ≡ arrays_from arrays_first extent layers.now }
{
    let mut arrays = ArrayVec::new();
    let mut first = ARRAYS_FIRST;
    for layer in layers {
        let sectors = layer.height * u64::from(extent);
        arrays.push(NewArray {
            members: copied(&layer.members),
            first,
            size: sectors + DATA_SECTOR,
            extents: layer.extents,
        });
        first += sectors + SLICE_SECTORS;
    }
    arrays
}

/// The array of a number.
pub(crate) fn array_at(plan: &NewPool, number: u32) -> &NewArray
    requires { number < length plan.now.arrays.items }
    ensures { slice_get plan.now.arrays.items number ≡ Some result.now }
{
    &plan.arrays[number as usize]
}

/// Whether a place is a member.
pub(crate) fn has_member(array: &NewArray, place: u32) -> bool
    ensures { result ≡ has array.now.members.items place }
{
    array.members.iter().any(|member| *member == place)
}

/// The plan of a rack's disks, in their order, or why they have none.
pub(crate) fn plan<R: Rack>(rack: &R, extent: u32) -> Result<NewPool, PlanError>
    requires fit { (R.seen rack.now).fit }
    requires small { (d : ℕ) → d < (R.seen rack.now).disks → (R.seen rack.now).sectors d < 2 ^ 48 }
    requires extent { is_extent extent ≡ true }
    ensures planned { (fault : PlanError) → (result ≡ Err fault) ↔ IsUnplanned (units_on (R.seen rack.now) extent) fault }
    ensures plan { IfOk result (λ plan. IsPlanOf (units_on (R.seen rack.now) extent) extent plan) }
    ensures sound { IfOk result (λ plan. IsPlan plan) }
    ensures room { IfOk result (λ plan. HasRoom plan (R.seen rack.now)) }
{
    if rack.disks() as usize > MAX_DRIVES {
        return Err(PlanError::TooMany);
    }
    let all = drive_units(rack, extent);
    match layout(all.as_slice()) {
        Ok(layers) => Ok(NewPool {
            extent,
            arrays: arrays_of(layers.layers.as_slice(), extent),
            units: all,
        }),
        Err(fault) => Err(fault),
    }
}
