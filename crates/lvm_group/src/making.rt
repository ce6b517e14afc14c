//! Making a volume on arrays.

ghost use Rattle.std.specs.Prelude.{◌≡◌, ◌<◌, ◌≤◌, ◌+◌, ◌^◌, ℕ, IfOk, Ok, OnOk, length, map, slice_index, vec_capacity};
ghost use Rattle.lvm_text.specs.Group.{group_of};
ghost use Rattle.std.specs.List.{range_with_len};
ghost use Rattle.lvm_text.specs.Printed.{printed};
ghost use Rattle.lvm_group.specs.Runs.{extents_of};
ghost use Rattle.lvm_group.specs.Growth.{AreBelow, grown};
ghost use Rattle.lvm_group.specs.Own.{HoldAll};
ghost use Rattle.lvm_group.specs.Made.{Makes, new_group};
ghost use Rattle.lvm_group.specs.Writing.{Puts, new_targets};
ghost use Rattle.std.specs.Prelude.{[]};

use crate::growth::grow;
use crate::printing::print_own;
use crate::profile::MOST_SEGMENTS;
use crate::runs::Run;
use crate::writing::put_new;
use arrayvec::ArrayVec;
use lvm_label::{encoded_headers_decode, encoded_labels_decode};
use lvm_text::Text;
use rack::{Gone, NoMemory, Rack};
use shr_base::Id;
use std::alloc::Global;

/// Bytes of the longest text.
const MOST_TEXT: usize = 262144;

/// The room of a volume: twice for the runs of as many segments as a text may have, and for a text.
#[derive(Debug, Drop)]
pub(crate) struct Room {
    pub runs: Vec<Run>,
    pub spare: Vec<Run>,
    pub text: Text,
}

/// Takes the room of a volume.
pub(crate) fn take_room(alloc: Global) -> Result<Room, NoMemory>
    ensures runs { IfOk result (λ room. 1024 ≤ vec_capacity room.runs) }
    ensures spare { IfOk result (λ room. 1024 ≤ vec_capacity room.spare) }
    ensures text { IfOk result (λ room. 262144 ≤ room.text.spare) }
{
    let Ok(runs) = Vec::with_capacity(alloc, MOST_SEGMENTS) else {
        return Err(NoMemory);
    };
    let Ok(spare) = Vec::with_capacity(alloc, MOST_SEGMENTS) else {
        return Err(NoMemory);
    };
    let text = Text::with_room(alloc, MOST_TEXT)?;
    Ok(Room { runs, spare, text })
}

/// Takes the room to open a volume: its own, and that of a second text.
pub(crate) fn take_room_to_open(alloc: Global) -> Result<(Room, Text), NoMemory>
    ensures runs { IfOk result (λ rooms. 1024 ≤ vec_capacity rooms.0.runs) }
    ensures spare { IfOk result (λ rooms. 1024 ≤ vec_capacity rooms.0.spare) }
    ensures text { IfOk result (λ rooms. 262144 ≤ rooms.0.text.spare) }
    ensures kept { IfOk result (λ rooms. 262144 ≤ rooms.1.spare) }
{
    let room = take_room(alloc)?;
    let kept = Text::with_room(alloc, MOST_TEXT)?;
    Ok((room, kept))
}

/// How many extents runs have.
pub(crate) fn extents_in(runs: &[Run]) -> u64
    requires { extents_of runs.now < 2 ^ 64 }
    ensures { result ≡ extents_of runs.now }
{
    let mut sum = 0;
    let mut rest = runs;
    while let Some((run, after)) = rest.split_first() {
        sum += run.count;
        rest = after;
    }
    sum
}

/// The sectors of the first arrays, so many.
pub(crate) fn sizes<R: Rack>(rack: &R, arrays: u32) -> ArrayVec<u64, 16>
    requires fit { (R.seen rack.now).fit }
    requires arrays { arrays ≤ (R.seen rack.now).disks }
    requires few { arrays ≤ 16 }
    ensures { result.items ≡ map (R.seen rack.now).sectors (range_with_len 0 arrays) }
{
    let mut sizes = ArrayVec::new();
    for array in 0..arrays {
        sizes.push(rack.sectors(array));
    }
    sizes
}

/// Gives a room the runs of a new volume, and the text of its group on arrays of so many sectors.
#[tactic(auto, using(crate::proofs::NewVolume::new_fits))]
pub(crate) fn lay_out(pool: &Id, extent: u64, sectors: &[u64], numbers: &[u64], room: &mut Room)
    requires few { length numbers.now ≤ 16 }
    requires same { length sectors.now ≡ length numbers.now }
    requires below { AreBelow numbers.now }
    requires room_of_runs { 1024 ≤ vec_capacity room.old.runs }
    requires room_of_text { 262144 ≤ length room.old.text.bytes + room.old.text.spare }
    ensures runs_are { room.new.runs.items ≡ grown [] numbers.now }
    ensures runs_room { 1024 ≤ vec_capacity room.new.runs }
    ensures spare_room { vec_capacity room.old.spare ≤ vec_capacity room.new.spare }
    ensures text_room { 262144 ≤ length room.new.text.bytes + room.new.text.spare }
    ensures text { room.new.text.bytes ≡ printed (new_group pool.now.0 extent (slice_index sectors.now) numbers.now) }
    ensures most { length room.new.text.bytes ≤ 262144 }
    ensures read_back { group_of room.new.text.bytes ≡ Ok (new_group pool.now.0 extent (slice_index sectors.now) numbers.now) }
{
    grow(&[], 0, numbers, &mut room.runs);
    room.text.clear();
    print_own(
        pool,
        extent,
        sectors,
        1,
        numbers,
        room.runs.as_slice(),
        &mut room.text,
    );
}

/// Makes a group on the first arrays, as many as there are numbers of extents, with a volume of these.
pub(crate) fn make<R: Rack>(
    rack: &mut R,
    pool: &Id,
    extent: u64,
    numbers: &[u64],
    room: &mut Room,
) -> Result<(), Gone>
    requires fit { (R.seen rack.old).fit }
    requires some { 0 < length numbers.now }
    requires few { length numbers.now ≤ 16 }
    requires below { AreBelow numbers.now }
    requires arrays { length numbers.now ≤ (R.seen rack.old).disks }
    requires holds { HoldAll extent (R.seen rack.old).sectors 0 numbers.now }
    requires room_of_runs { 1024 ≤ vec_capacity room.old.runs }
    requires room_of_text { 262144 ≤ length room.old.text.bytes + room.old.text.spare }
    ensures runs_are { room.new.runs.items ≡ grown [] numbers.now }
    ensures runs_room { 1024 ≤ vec_capacity room.new.runs }
    ensures spare_room { vec_capacity room.old.spare ≤ vec_capacity room.new.spare }
    ensures text_room { 262144 ≤ length room.new.text.bytes + room.new.text.spare }
    ensures puts { Puts (R.seen rack.old) (R.seen rack.new)
        (new_targets pool.now.0 (R.seen rack.old).sectors [] (printed (new_group pool.now.0 extent (R.seen rack.old).sectors numbers.now)) (length numbers.now)) result }
    ensures makes { OnOk result (Makes pool.now.0 extent numbers.now (R.seen rack.old) (R.seen rack.new)) }
    ensures runs { R.runs rack.old rack.new }
{
    encoded_labels_decode();
    encoded_headers_decode();
    let arrays = numbers.len() as u32;
    let sectors = sizes(rack, arrays);
    lay_out(pool, extent, sectors.as_slice(), numbers, room);
    put_new(rack, pool, arrays, &[], room.text.as_slice())
}
