//! The state of a new pool, on each of its drives.

ghost use Rattle.std.specs.Prelude.{◌≡◌, ◌<◌, ◌≤◌, true, length, ℕ, OnOk};
ghost use Rattle.array_image.specs.Places.{drive_id, state_sector};
ghost use Rattle.pool_format.specs.Plan.{HasRoom, IsPlan};
ghost use Rattle.pool_format.specs.Parts as spec;
ghost use Rattle.pool_format.specs.Drives.{LeavesCleared, LeavesState};
ghost use Rattle.pool_format.specs.Stops.{CopiesInOrder};
ghost use Rattle.pool_format.specs.Writing.{InCleared, InStates, Lays};

use crate::Birth;
use crate::planning::NewPool;
use arrayvec::ArrayVec;
use pool_state::{Drive, Plan, State, encode_state};
use rack::{Gone, Rack, write_durably};
use shr_base::{Id, child_id};

/// The sector of the state: the first one of the log slice.
pub(crate) const STATE_SECTOR: u64 = 2048;

/// A sector of zeros.
const ZEROS: [u8; 512] = [0; 512];

/// The id of the drive of a place.
pub(crate) fn new_drive_id(birth: &Birth, place: u32) -> Id
    ensures { result.0 ≡ drive_id birth.now.pool place }
{
    child_id(&Id(birth.pool), 1, place, 0)
}

/// The drives of so many units.
fn new_drives(birth: &Birth, units: &[u64]) -> ArrayVec<Drive, 16>
    requires { length units.now ≤ 16 }
    ensures { result.items ≡ spec.new_drives birth.now units.now }
{
    let mut drives = ArrayVec::new();
    for place in 0..units.len() {
        drives.push(Drive {
            id: new_drive_id(birth, place as u32),
            units: units[place],
            missing: false,
        });
    }
    drives
}

/// The state of a new pool.
pub(crate) fn new_state(plan: &NewPool, birth: &Birth) -> State
    ensures { result ≡ spec.new_state plan.now birth.now }
{
    State {
        pool: Id(birth.pool),
        epoch: 1,
        extent: plan.extent,
        drives: new_drives(birth, plan.units.as_slice()),
        plan: Plan::Nothing,
        made: plan.arrays.len() as u32,
        joined: plan.arrays.len() as u32,
        serial: plan.units.len() as u32,
    }
}

/// Writes zeros over the state's sector of each drive, durably: no disk shows a pool from then on.
pub(crate) fn clear_states<R: Rack>(rack: &mut R, plan: &NewPool) -> Result<(), Gone>
    requires fit { (R.seen rack.old).fit }
    requires plan { IsPlan plan.now }
    requires room { HasRoom plan.now (R.seen rack.old) }
    ensures lays { Lays (InCleared plan.now) (R.seen rack.old) (R.seen rack.new) result }
    ensures cleared { OnOk result ((d : ℕ) → d < length plan.now.units.items → LeavesCleared d (R.seen rack.old) (R.seen rack.new)) }
    ensures runs { R.runs rack.old rack.new }
{
    for place in 0..plan.units.len() as u32 {
        if let Err(gone) = write_durably(rack, place, STATE_SECTOR, &ZEROS) {
            return Err(gone);
        }
    }
    Ok(())
}

/// Writes each drive's copy of the state, durably, one behind the other.
pub(crate) fn write_states<R: Rack>(rack: &mut R, plan: &NewPool, birth: &Birth) -> Result<(), Gone>
    requires fit { (R.seen rack.old).fit }
    requires plan { IsPlan plan.now }
    requires room { HasRoom plan.now (R.seen rack.old) }
    ensures lays { Lays (InStates plan.now) (R.seen rack.old) (R.seen rack.new) result }
    ensures states { OnOk result ((d : ℕ) → d < length plan.now.units.items → LeavesState plan.now birth.now d (R.seen rack.old) (R.seen rack.new)) }
    ensures copies { CopiesInOrder plan.now birth.now (R.seen rack.old) (R.seen rack.new) }
    ensures runs { R.runs rack.old rack.new }
{
    let state = new_state(plan, birth);
    for place in 0..plan.units.len() as u32 {
        let copy = encode_state(&state, place);
        if let Err(gone) = write_durably(rack, place, STATE_SECTOR, &copy) {
            return Err(gone);
        }
    }
    Ok(())
}
