//! The array that found superblocks make.

ghost use Rattle.std.specs.Prelude.{◌≡◌, ◌<◌, ◌≤◌, ◌-◌, ◌&&◌, ℕ, Some, None, Option, not, find, ◌==◌, nat_lt, true, length};
ghost use Rattle.std.specs.Option.{option_copied, option_map_or};
ghost use Rattle.array_image.specs.Foremost.{ahead};
ghost use Rattle.array_image.specs.Arrays.{place_with};
ghost use Rattle.array_image.specs.Supers.{is_unclean};
ghost use Rattle.array_core.specs.Slots.{place_by};
ghost use Rattle.array_core.specs.Model.{is_truth};
ghost use Rattle.array_core.specs.Opening as spec;

use crate::slots::Slot;
use crate::{Array, ArrayFault, Found};
use array_model::Seat;
use arrayvec::ArrayVec;
use md_super::Super;
use rack::Places;
use shr_base::Id;

/// The feature bit of a member that is being rebuilt.
pub(crate) const REBUILDING: u32 = 2;

/// The sectors of a chunk, which are a member's in a row.
pub(crate) const CHUNK: u64 = 128;

impl Array {
    /// Opens an array by the superblocks that were found on its places. No sector is read. The array is whole where each
    /// member is; one whose truth leaves rows to resync has all rows from there on left, unless it is young.
    pub fn open(number: u32, found: &[Found], young: bool) -> Result<Array, ArrayFault>
        requires few { number < 16 }
        requires truth { (t : Super) → spec.truth_of found.now ≡ Some t → is_truth t ≡ true }
        ensures { result ≡ spec.opened number young found.now }
    {
        let Some(truth) = truth_of(found) else {
            return Err(ArrayFault::Foreign);
        };
        if !share_set(found, &truth.set_id) {
            return Err(ArrayFault::Foreign);
        }
        let slots = slots_found(found, truth);
        let lacking = lacking(slots.as_slice());
        if lacking > 1 {
            return Err(ArrayFault::TooFew);
        }
        if lacking > 0 && !young && is_unclean(truth) {
            return Err(ArrayFault::DirtyDegraded);
        }
        Ok(Array {
            number,
            truth: copied(truth),
            slots,
            went: Places::new(),
            resync: resync_by(young, truth),
            young,
            marked: false,
        })
    }
}

/// What was found on a place.
fn found_at(found: &[Found], place: u32) -> Option<&Found>
    ensures { option_copied result ≡ find (λ f. f.place == place) found.now }
{
    found.iter().find(|f| f.place == place)
}

/// The superblock that was found on a place.
fn super_at(found: &[Found], place: u32) -> Option<&Super>
    ensures { option_copied result ≡ spec.super_at found.now place }
{
    match found_at(found, place) {
        Some(f) => f.seen.as_ref(),
        None => None,
    }
}

/// The superblock of more events, of equal ones the first.
fn ahead<'a>(first: Option<&'a Super>, second: Option<&'a Super>) -> Option<&'a Super>
    ensures { option_copied result
        ≡ option_map_or (λ t. ahead (λ t. t.events) t (option_copied second.entry)) (option_copied first.entry) (option_copied second.entry) }
{
    match (first, second) {
        (Some(t), Some(u)) if t.events >= u.events => Some(t),
        (Some(t), None) => Some(t),
        _ => second,
    }
}

/// The superblock of most events, of equal ones that of the lowest place; none where none was found.
pub fn truth_of(found: &[Found]) -> Option<&Super>
    ensures { option_copied result ≡ spec.truth_of found.now }
{
    let mut truth = None;
    for after in 0..16 {
        truth = ahead(super_at(found, 15 - after), truth);
    }
    truth
}

/// Whether all superblocks have this set id.
fn share_set(found: &[Found], set: &Id) -> bool
    ensures { result ≡ spec.share_set found.now set.now }
{
    found.iter().all(|f| match &f.seen {
        Some(t) => t.set_id == *set,
        None => true,
    })
}

/// Whether rows are left to resync, or in a young array to zero.
pub(crate) fn is_unclean(truth: &Super) -> bool
    ensures { result ≡ is_unclean truth.now }
{
    truth.resync_offset < truth.size
}

/// The first row left to resync.
pub(crate) fn resync_by(young: bool, truth: &Super) -> u64
    ensures { result ≡ spec.resync_by young truth.now }
{
    if !young && is_unclean(truth) {
        truth.resync_offset / CHUNK
    } else {
        truth.size / CHUNK
    }
}

/// A member's seat by its own superblock.
fn seat_by(own: &Super) -> Seat
    ensures { result ≡ spec.seat_by own.now }
{
    if own.feature_map & REBUILDING == REBUILDING {
        Seat::Rebuilding {
            to: own.recovery_offset,
        }
    } else {
        Seat::Whole
    }
}

/// The member of a place by its own superblock: missing without one.
fn slot_by(place: u32, own: Option<&Super>) -> Slot
    ensures { result ≡ spec.slot_by place (option_copied own.entry) }
{
    match own {
        Some(own) => Slot {
            place,
            seat: seat_by(own),
            device: own.device_id,
        },
        None => Slot {
            place,
            seat: Seat::Missing,
            device: Id([0; 16]),
        },
    }
}

/// The place that a superblock's roles give to a position, and 16 where they give none.
pub(crate) fn place_by(truth: &Super, position: u32) -> u32
    ensures { result ≡ place_by truth.now position }
{
    match place_with(truth.roles.as_slice(), position) {
        Some(place) => place as u32,
        None => 16,
    }
}

/// The place that roles give to a position.
fn place_with(roles: &[u16], position: u32) -> Option<usize>
    ensures { result ≡ place_with roles.now position }
{
    roles.iter().position(|role| u32::from(*role) == position)
}

/// The members that a superblock's roles name, by position.
fn slots_found(found: &[Found], truth: &Super) -> ArrayVec<Slot, 16>
    requires { truth.now.raid_disks ≤ 16 }
    ensures { result.items ≡ spec.slots_found found.now truth.now }
{
    let mut slots = ArrayVec::new();
    for position in 0..truth.raid_disks {
        let place = place_by(truth, position);
        slots.push(slot_by(place, super_at(found, place)));
    }
    slots
}

/// How many members are missing or rebuilding.
fn lacking(slots: &[Slot]) -> usize
    ensures { result ≡ spec.lacking slots.now }
{
    slots.iter().filter(|slot| slot.seat != Seat::Whole).count()
}

/// A superblock once more.
pub(crate) fn copied(seen: &Super) -> Super
    ensures { result ≡ seen.now }
{
    Super {
        roles: copied_roles(&seen.roles),
        ..*seen
    }
}

/// Roles once more.
fn copied_roles(roles: &ArrayVec<u16, 384>) -> ArrayVec<u16, 384>
    ensures { result ≡ roles.now }
{
    let mut copy = ArrayVec::new();
    let _ = copy.try_extend_from_slice(roles.as_slice());
    copy
}
