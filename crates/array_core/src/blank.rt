//! The blank array: a mirror of two missing members. It fills the unused places of an `ArrayVec`, and no pool has it.

ghost use Rattle.std.specs.Prelude.{◌≡◌, [], ◌∷◌, replicate};
ghost use Rattle.array_core.specs.Blank as spec;

use crate::Array;
use crate::slots::Slot;
use array_model::Seat;
use arrayvec::ArrayVec;
use md_super::Super;
use rack::Places;
use shr_base::Id;

/// The sectors of a blank member's data.
const BLANK_SIZE: u64 = 2176;

/// The roles of two members, on the first two places of 128.
fn blank_roles() -> ArrayVec<u16, 384>
    ensures { result.items ≡ spec.blank_roles }
{
    let mut roles = ArrayVec::new();
    roles.push(0);
    roles.push(1);
    for place in 0..126u32 {
        let _ = place;
        roles.push(0xffff);
    }
    roles
}

/// The truth of the blank array.
fn blank_truth() -> Super
    ensures { result ≡ spec.blank_truth }
{
    Super {
        feature_map: 0,
        set_id: Id([0; 16]),
        set_name: [0; 32],
        ctime: 0,
        level: 1,
        layout: 0,
        size: BLANK_SIZE,
        chunk: 0,
        raid_disks: 2,
        new_level: 0,
        reshape_position: 0,
        delta_disks: 0,
        new_layout: 0,
        new_chunk: 0,
        data_offset: 2048,
        data_size: BLANK_SIZE,
        super_offset: 8,
        recovery_offset: 0,
        dev_number: 0,
        device_id: Id([0; 16]),
        utime: 0,
        events: 1,
        resync_offset: u64::MAX,
        roles: blank_roles(),
    }
}

/// A missing member.
fn blank_slot(place: u32) -> Slot
    ensures { result ≡ spec.blank_slot place }
{
    Slot {
        place,
        seat: Seat::Missing,
        device: Id([0; 16]),
    }
}

/// The members of the blank array.
fn blank_slots() -> ArrayVec<Slot, 16>
    ensures { result.items ≡ spec.blank_slot 0 ∷ spec.blank_slot 1 ∷ [] }
{
    let mut slots = ArrayVec::new();
    slots.push(blank_slot(0));
    slots.push(blank_slot(1));
    slots
}

impl Default for Array {
    fn default() -> Array {
        Array {
            number: 0,
            truth: blank_truth(),
            slots: blank_slots(),
            went: Places::new(),
            resync: BLANK_SIZE / 128,
            young: true,
            marked: false,
        }
    }
}
