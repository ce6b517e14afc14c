//! Which states a pool may have.

ghost use Rattle.std.specs.Prelude.{◌≡◌};
ghost use Rattle.std.specs.List.{list_all};
ghost use Rattle.pool_state.specs.Valid.{is_drive, is_extent, has_arrays, has_epoch, has_places, is_valid, place_of};

use crate::contents::{Drive, Plan, State};

/// Drives have fewer units than this.
const UNITS_END: u64 = 1 << 41;

/// Epochs are below this.
const EPOCH_END: u64 = 1 << 63;

/// Whether this is a state that a pool may have, and a place of its list.
pub fn is_state_of(state: &State, own: u32) -> bool
    ensures { result ≡ is_valid state.now own }
{
    is_extent_size(state.extent)
        && has_its_places(state, own)
        && has_its_arrays(state)
        && has_its_drives(state.drives.as_slice())
        && has_its_epoch(state)
}

fn is_extent_size(extent: u32) -> bool
    ensures { result ≡ is_extent extent }
{
    extent.is_power_of_two() && 128 <= extent && extent <= 65536
}

fn has_its_places(state: &State, own: u32) -> bool
    ensures { result ≡ has_places state.now own }
{
    let count = state.drives.len();
    2 <= count
        && count <= 16
        && (own as usize) < count
        && (plan_place(&state.plan) as usize) < count
}

pub(crate) fn plan_place(plan: &Plan) -> u32
    ensures { result ≡ place_of plan.now }
{
    match *plan {
        Plan::Nothing => 0,
        Plan::Add { place } | Plan::Replace { place } => place,
    }
}

fn has_its_arrays(state: &State) -> bool
    ensures { result ≡ has_arrays state.now }
{
    let (made, joined) = (state.made, state.joined);
    1 <= made && made <= 16 && 1 <= joined && joined <= made && made - joined <= 1
}

fn has_its_drives(drives: &[Drive]) -> bool
    ensures { result ≡ list_all is_drive drives.now }
{
    drives
        .iter()
        .all(|drive| 1 <= drive.units && drive.units < UNITS_END)
}

fn has_its_epoch(state: &State) -> bool
    ensures { result ≡ has_epoch state.now }
{
    1 <= state.epoch && state.epoch < EPOCH_END
}
