//! The arrays of a new pool, in memory.

ghost use Rattle.std.specs.Prelude.{◌≡◌, ◌<◌, ℕ, length, map, slice_get, Some};
ghost use Rattle.array_model.specs.View.{View, IsArray};
ghost use Rattle.pool_format.specs.Plan.{IsNewArray, IsPlan};
ghost use Rattle.pool_format.specs.Arrays as spec;
ghost use Rattle.pool_state.specs.Valid.{is_extent};
ghost use Rattle.std.specs.Prelude.{true, ◌≤◌};

use crate::Birth;
use crate::planning::{NewArray, NewPool, array_at};
use crate::superblocks::new_super;
use array_core::{Array, Found};
use arrayvec::ArrayVec;

/// The superblocks of an array's members.
fn found_of(birth: &Birth, array: &NewArray, number: u32) -> ArrayVec<Found, 16>
    requires { number < 16 }
    ensures { result.items ≡ spec.new_found birth.now array.now number }
{
    let mut found = ArrayVec::new();
    for index in 0..array.members.len() {
        let place = array.members[index];
        found.push(Found {
            place,
            seen: Some(new_super(birth, array, number, place)),
        });
    }
    found
}

/// The array that the superblocks of its members make.
fn new_array(plan: &NewPool, birth: &Birth, number: u32) -> Array
    requires plan { IsPlan plan.now }
    requires number { number < length plan.now.arrays.items }
    ensures made { (a : NewArray) → slice_get plan.now.arrays.items number ≡ Some a → result ≡ spec.new_view birth.now a number }
    ensures is_array { IsArray result }
{
    let found = found_of(birth, array_at(plan, number), number);
    match Array::open(number, found.as_slice(), false) {
        Ok(array) => {
            array.rules();
            array
        }
        Err(_) => unreachable!(),
    }
}

/// All arrays, by number.
pub(crate) fn new_arrays(plan: &NewPool, birth: &Birth) -> ArrayVec<Array, 16>
    requires plan { IsPlan plan.now }
    ensures made { result.items ≡ spec.new_views birth.now 0 plan.now.arrays.items }
    ensures are { (n : ℕ) (v : View) → slice_get result.items n ≡ Some v → IsArray v }
{
    let mut arrays = ArrayVec::new();
    for number in 0..plan.arrays.len() as u32 {
        arrays.push(new_array(plan, birth, number));
    }
    arrays
}
