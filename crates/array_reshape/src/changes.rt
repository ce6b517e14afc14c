//! The changes of an array's superblocks by which a reshape goes on.

ghost use Rattle.std.specs.Prelude.{◌≡◌, ◌<◌, ◌≤◌, ◌+◌, ◌*◌, ◌-◌, ◌^◌, ℕ, true, None, length, set};
ghost use Rattle.array_image.specs.Supers.{is_reshaping};
ghost use Rattle.array_image.specs.Places.{member_id};
ghost use Rattle.md_super.specs.Profile.{is_mirror, is_raid5};
ghost use Rattle.array_model.specs.View.{rows_of};
ghost use Rattle.array_core.specs.Model.{is_truth};
ghost use Rattle.array_core.specs.Seats.{seat_of};
ghost use Rattle.array_core.specs.Superblocks.{raised};
ghost use Rattle.reshape_laws.specs.Ahead.{ahead_by, begun, finished, next_row, taken_over};
ghost use Rattle.reshape_laws.specs.Reshapes.{joining_seat, step_to};
ghost use Rattle.array_model.specs.declared.Seat.TheVariants.{Whole};

use array_core::{Array, Change};
use arrayvec::ArrayVec;
use md_super::Super;
use raid_map::CHUNK_SECTORS;
use shr_base::{Id, child_id};

/// The last count of events of a valid superblock.
const LAST_EVENTS: u64 = (1 << 63) - 1;

/// The kind of a member's id.
const MEMBER: u8 = 3;

/// The slices of a place: its log's, and those of 16 arrays.
const SLICES: u32 = 17;

/// One more event; it stands still at the last count of a valid superblock.
fn raised(events: u64) -> u64
    ensures { result ≡ raised events }
{
    if events < LAST_EVENTS {
        events + 1
    } else {
        events
    }
}

/// A superblock once more.
fn copied(seen: &Super) -> Super
    ensures { result ≡ seen.now }
{
    Super {
        roles: copied_roles(&seen.roles),
        ..*seen
    }
}

/// Roles once more.
fn copied_roles(roles: &ArrayVec<u16, 384>) -> ArrayVec<u16, 384>
    ensures { result ≡ roles.now }
{
    let mut copy = ArrayVec::new();
    let _ = copy.try_extend_from_slice(roles.as_slice());
    copy
}

/// Roles in which a place has a position.
fn with_role(roles: &ArrayVec<u16, 384>, place: u32, position: u32) -> ArrayVec<u16, 384>
    requires place { place < length roles.now.items }
    requires position { position < 2 ^ 16 }
    ensures { result ≡ record { items = set roles.now.items place position } }
{
    let mut changed = copied_roles(roles);
    changed[place as usize] = position as u16;
    changed
}

/// A change of the truth alone.
fn of_truth(truth: Super) -> Change
    ensures { result ≡ record { truth = truth; place = None; to = 0 } }
{
    Change {
        truth,
        place: None,
        to: 0,
    }
}

/// A mirror of two members as RAID-5 of two.
pub(crate) fn taken_over(array: &Array) -> Change
    requires { is_mirror array.now.truth ≡ true }
    ensures change { result ≡ step_to array.now (taken_over array.now (raised array.now.truth.events)) }
    ensures truth { is_truth result.truth ≡ true }
{
    array.rules();
    array.truth_rules();
    let mut truth = copied(array.truth());
    truth.events = raised(truth.events);
    truth.level = 5;
    truth.layout = 2;
    truth.chunk = 128;
    of_truth(truth)
}

/// So many next rows are moved.
pub(crate) fn moved(array: &Array, rows: u64) -> Change
    requires reshaping { is_reshaping array.now.truth ≡ true }
    requires left { next_row array.now + rows ≤ rows_of array.now }
    ensures change { result ≡ step_to array.now (ahead_by array.now rows (raised array.now.truth.events)) }
    ensures truth { is_truth result.truth ≡ true }
{
    array.rules();
    array.truth_rules();
    let mut truth = copied(array.truth());
    truth.events = raised(truth.events);
    truth.reshape_position += CHUNK_SECTORS * rows * (u64::from(truth.raid_disks) - 1);
    of_truth(truth)
}

/// All rows are moved.
pub(crate) fn finished(array: &Array) -> Change
    requires { is_reshaping array.now.truth ≡ true }
    ensures change { result ≡ step_to array.now (finished array.now (raised array.now.truth.events)) }
    ensures truth { is_truth result.truth ≡ true }
{
    array.truth_rules();
    let mut truth = copied(array.truth());
    truth.events = raised(truth.events);
    truth.feature_map = 0;
    truth.new_level = 0;
    truth.delta_disks = 0;
    truth.reshape_position = 0;
    truth.new_layout = 0;
    truth.new_chunk = 0;
    of_truth(truth)
}

/// A reshape begins, with a member that joins on a place.
pub(crate) fn begun(array: &Array, place: u32, drive: &Id) -> Change
    requires raid5 { is_raid5 array.now.truth ≡ true }
    requires place { place < 16 }
    requires joins { seat_of array.now place ≡ None }
    ensures change { result ≡ step_to array.now (begun array.now (raised array.now.truth.events) place Whole (record { 0 = member_id drive.now.0 array.now.number })) }
    ensures truth { is_truth result.truth ≡ true }
{
    array.rules();
    array.truth_rules();
    let number = array.slice_at(0) % SLICES - 1;
    let mut truth = copied(array.truth());
    let members = truth.raid_disks;
    truth.events = raised(truth.events);
    truth.feature_map = 4;
    truth.raid_disks = members + 1;
    truth.new_level = 5;
    truth.delta_disks = 1;
    truth.reshape_position = 0;
    truth.new_layout = 2;
    truth.new_chunk = 128;
    truth.device_id = child_id(drive, MEMBER, number, 0);
    truth.roles = with_role(&truth.roles, place, members);
    of_truth(truth)
}
