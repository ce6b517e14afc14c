//! The drives of a book, and what they have room for.

ghost use Rattle.std.specs.Prelude.{◌≡◌, ℕ, ◌+◌, ◌-◌, ◌*◌, ◌^◌, ◌<◌, ◌≤◌, IsTrue, length, slice_index, All};
ghost use Rattle.pool_state.specs.Valid.{has_places, is_valid};
ghost use Rattle.growth_plan.specs.Book.{IsBook, units_of, height_of};
ghost use Rattle.growth_plan.specs.Target.{planned, joining, extents_at_end, least_above, layer_above, new_layer};

use crate::{ArrayNow, MOST, Progress};
use arrayvec::ArrayVec;
use layer_plan::{Layer, between};
use pool_state::{Plan, State};

/// The fewest members of an array.
const FEWEST_MEMBERS: usize = 2;

/// The units of all drives in the list, with room for one more.
pub(crate) fn units_of(state: &State) -> ArrayVec<u64, 17>
    requires { IsTrue (is_valid state.now 0) }
    ensures units { result.items ≡ units_of state.now }
    ensures few { length result.items ≤ MOST }
    ensures small { All (λ own. own < 2 ^ 41) result.items }
{
    let mut units = ArrayVec::new();
    for drive in state.drives.as_slice() {
        units.push(drive.units);
    }
    units
}

/// The place of the plan's drive.
pub(crate) fn planned(plan: &Plan) -> Option<u32>
    ensures { result ≡ planned plan.now }
{
    match *plan {
        Plan::Nothing => None,
        Plan::Add { place } | Plan::Replace { place } => Some(place),
    }
}

fn units_at(state: &State, place: u32) -> u64
    requires { place < length state.now.drives.items }
    ensures { result ≡ slice_index (units_of state.now) place }
{
    state.drives.as_slice()[place as usize].units
}

/// The plan's drive, where it reaches an array of this top and isn't a member of it.
pub(crate) fn joining(state: &State, array: &ArrayNow, top: u64) -> Option<u32>
    requires { IsTrue (has_places state.now 0) }
    ensures { result ≡ joining state.now (record { number = 0; top = top; now = array.now }) }
{
    let place = planned(&state.plan)?;
    let reaches = top <= units_at(state, place);
    let is_member = array.members.as_slice().contains(&place);
    (reaches && !is_member).then_some(place)
}

/// The extents that an array of this top offers at the plan's end.
pub(crate) fn extents_at_end(state: &State, array: &ArrayNow, top: u64) -> u64
    requires places { IsTrue (has_places state.now 0) }
    requires pair { 2 ≤ length array.now.members.items }
    requires small { array.now.height < 2 ^ 52 }
    ensures value { result ≡ extents_at_end state.now (record { number = 0; top = top; now = array.now }) }
    ensures small { result < 2 ^ 57 }
{
    let joined = joining(state, array, top).is_some() as u64;
    (array.members.len() as u64 + joined - 1) * array.height
}

/// The least units above a level.
fn least_above(units: &[u64], level: u64) -> Option<u64>
    ensures { result ≡ least_above level units.now }
{
    let mut cut = None;
    for own in units {
        if level < *own {
            cut = Some(cut.map_or(*own, |least: u64| least.min(*own)));
        }
    }
    cut
}

/// The layer between a level and the next cut point, where it has two members or more.
pub(crate) fn layer_above(units: &[u64], level: u64) -> Option<Layer>
    requires drives { length units.now ≤ 16 }
    requires small { All (λ own. own < 2 ^ 41) units.now }
    ensures { result ≡ layer_above units.now level }
{
    let layer = between(units, level, least_above(units, level)?);
    if layer.members.len() >= FEWEST_MEMBERS {
        Some(layer)
    } else {
        None
    }
}

/// What all arrays take together of a drive that reaches them.
pub(crate) fn height_of(arrays: &[ArrayNow]) -> u64
    requires { height_of arrays.now < 2 ^ 64 }
    ensures { result ≡ height_of arrays.now }
{
    arrays.iter().map(|array| array.height).sum()
}

/// The layer that is still to be made.
#[tactic(auto, using(crate::proofs::Books::height_small))]
pub(crate) fn new_layer(state: &State, progress: &Progress) -> Option<Layer>
    requires { IsBook state.now progress.now }
    ensures { result ≡ new_layer state.now progress.now.arrays.items }
{
    if state.joined < state.made || state.made as usize >= MOST {
        return None;
    }
    layer_above(&units_of(state), height_of(&progress.arrays))
}
