//! Places that answered `Gone`: which they are, what is noted of them, and the copies of a state for those that are left.

ghost use Rattle.std.specs.Prelude.{◌≡◌, ◌≤◌, ◌<◌, ◌+◌, ℕ, List, [], ◌∷◌, length, slice_get, Some, option_map, true};
ghost use Rattle.arrayvec.specs.ArrayVec.{array_vec_len};
ghost use Rattle.pool_state.specs.Valid.{is_valid};
ghost use Rattle.log_laws.specs.View.{most_sectors};
ghost use Rattle.array_core.specs.Seats.{gone, heeded, restarted};
ghost use Rattle.raid_laws.specs.Losses as spec;

use crate::marks::{current_places, push_unless};
use array_core::Array;
use commit_log::{Log, Target};
use pool_state::{State, encode_state};
use rack::Places;

/// The current places that went in an array, in their order: their loss isn't marked yet.
pub fn newly_gone(state: &State, arrays: &[Array]) -> Places
    ensures { result.items ≡ spec.newly_gone state.now arrays.now }
{
    let current = current_places(state);
    let mut places = Places::new();
    for place in current.as_slice() {
        push_unless(&mut places, *place, !has_gone(arrays, *place));
    }
    places
}

/// Whether another drive than that of a place is current.
pub(crate) fn has_other(state: &State, place: u32) -> bool
    ensures { result ≡ spec.has_other state.now place }
{
    let current = current_places(state);
    current.as_slice().iter().any(|other| *other != place)
}

/// Whether a place went in an array.
fn has_gone(arrays: &[Array], place: u32) -> bool
    ensures { result ≡ spec.has_gone arrays.now place }
{
    arrays.iter().any(|array| array.went().contains(&place))
}

/// The members at these places are missing in each array, and the places went in each.
pub fn note_gone(arrays: &mut [Array], lost: &Places)
    ensures { (n : ℕ) → slice_get arrays.new n ≡ option_map (gone lost.now.items) (slice_get arrays.old n) }
{
    for array in arrays.iter_mut() {
        array.gone(lost);
    }
}

/// Rebuilds that don't stand between two rows of their member's data begin again, in each array. On sound contents none is such.
pub fn restart_rebuilds(arrays: &mut [Array])
    ensures { (n : ℕ) → slice_get arrays.new n ≡ option_map restarted (slice_get arrays.old n) }
{
    for array in arrays.iter_mut() {
        array.restart_rebuilds();
    }
}

/// Nobody went in any array from then on.
pub fn heed_all(arrays: &mut [Array])
    ensures { (n : ℕ) → slice_get arrays.new n ≡ option_map heeded (slice_get arrays.old n) }
{
    for array in arrays.iter_mut() {
        array.heed();
    }
}

/// Adds a copy of the state to the log for each of these places, for the first sector of the place's log slice.
pub fn add_copies(state: &State, on: &Places, log: &mut Log)
    requires valid { (n place : ℕ) → slice_get on.now.items n ≡ Some place → is_valid state.now place ≡ true }
    requires places { (n place : ℕ) → slice_get on.now.items n ≡ Some place → place < 16 }
    requires room { length log.old.added + 16 ≤ most_sectors }
    ensures added { spec.AddsCopies state.now on.now.items log.old.added log.new.added }
    ensures log { log.new ≡ record log.old { added = log.new.added } }
{
    for place in on.as_slice() {
        add_copy(state, *place, log);
    }
}

/// Adds the copy of one place.
fn add_copy(state: &State, place: u32, log: &mut Log)
    requires valid { is_valid state.now place ≡ true }
    requires place { place < 16 }
    requires room { length log.old.added < most_sectors }
    ensures added { spec.AddsCopies state.now (place ∷ []) log.old.added log.new.added }
    ensures few { length log.new.added ≤ length log.old.added + 1 }
    ensures log { log.new ≡ record log.old { added = log.new.added } }
{
    let copy = encode_state(state, place);
    let at = Target {
        disk: 17 * place,
        sector: 0,
    };
    log.add(at, &copy);
}
