//! The marks of a state: which drives are missing.

ghost use Rattle.std.specs.Prelude.{◌≡◌, ◌≤◌, ◌<◌, ◌++◌, ◌∷◌, ◌+◌, [], length, if◌then◌else◌};
ghost use Rattle.arrayvec.specs.ArrayVec.{array_vec_len};
ghost use Rattle.array_image.specs.States.{current_places};
ghost use Rattle.log_laws.specs.View.{names};
ghost use Rattle.raid_laws.specs.Missing as spec;
ghost use Rattle.raid_laws.specs.Works.{closed};

use arrayvec::ArrayVec;
use pool_state::{Drive, Plan, State};
use rack::Places;

/// The last epoch of a valid state.
const LAST_EPOCH: u64 = (1 << 63) - 1;

/// The places of the drives that aren't marked missing, in their order.
pub fn current_places(state: &State) -> Places
    ensures { result.items ≡ current_places state.now }
{
    let mut places = Places::new();
    for place in 0..state.drives.len() {
        push_unless(&mut places, place as u32, state.drives[place].missing);
    }
    places
}

/// Marks the drives at these places missing, in a state of the next epoch. Other marks stay.
pub fn mark_missing(state: &mut State, lost: &Places)
    ensures { state.new ≡ spec.marked lost.now.items state.old }
{
    state.drives = marked(state.drives.as_slice(), lost);
    state.epoch = raised(state.epoch);
}

/// Ends the plan, in a state of the next epoch.
pub(crate) fn end_plan(state: &mut State)
    ensures { state.new ≡ closed state.old }
{
    state.plan = Plan::Nothing;
    state.epoch = raised(state.epoch);
}

/// One more epoch; it stands still at the last one.
pub(crate) fn raised(epoch: u64) -> u64
    ensures { result ≡ spec.raised epoch }
{
    if epoch < LAST_EPOCH { epoch + 1 } else { epoch }
}

/// Drives of which some are lost.
pub(crate) fn marked(drives: &[Drive], lost: &Places) -> ArrayVec<Drive, 16>
    requires { length drives.now ≤ 16 }
    ensures { result.items ≡ spec.marked_from lost.now.items 0 drives.now }
{
    let mut marked = ArrayVec::new();
    for place in 0..drives.len() {
        let missing = is_among(lost, place as u32);
        marked.push(missing_if(drives[place], missing));
    }
    marked
}

/// Whether a list has this place.
fn is_among(places: &Places, place: u32) -> bool
    ensures { result ≡ names places.now.items place }
{
    places.contains(&place)
}

/// A drive that is missing where it is lost.
fn missing_if(drive: Drive, lost: bool) -> Drive
    ensures { result ≡ spec.missing_if lost drive }
{
    Drive {
        id: drive.id,
        units: drive.units,
        missing: drive.missing || lost,
    }
}

/// Appends a place unless it is to be left out.
pub(crate) fn push_unless(places: &mut Places, place: u32, left_out: bool)
    requires { array_vec_len places.old < 16 }
    ensures items { places.new.items ≡ places.old.items ++ (if left_out then [] else place ∷ []) }
    ensures few { array_vec_len places.new ≤ array_vec_len places.old + 1 }
{
    if !left_out {
        places.push(place);
    }
}
