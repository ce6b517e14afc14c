ghost use Rattle.std.specs.Prelude.{◌≡◌, true, Some, length};
ghost use Rattle.std.specs.List.{list_all};
ghost use Rattle.std.specs.Option.{option_map_or};
ghost use Rattle.array_core.specs.Model.{is_truth};

use array_core::{Array, ArrayFault, Change, Found};
use array_model::Seat;
use arrayvec::ArrayVec;
use commit_log::Log;
use md_super::{Super, decode, encode};
use shr_base::Id;
use std::test::Fail;

/// The sectors of a member's data: 26 rows.
const SIZE: u64 = 2048 + 1280;

/// A superblock of RAID-5 on the places 0, 1 and 2, of these events, which leaves rows to resync from that sector on.
fn superblock(events: u64, resync_offset: u64) -> Super
    ensures truth { is_truth result ≡ true }
    ensures roles { length result.roles.items ≡ 128 }
{
    let mut roles = [0xffff; 384];
    roles[0] = 0;
    roles[1] = 1;
    roles[2] = 2;
    let mut roles = ArrayVec::from(roles);
    roles.truncate(128);
    Super {
        feature_map: 0,
        set_id: Id([1; 16]),
        set_name: [0; 32],
        ctime: 0,
        level: 5,
        layout: 2,
        size: SIZE,
        chunk: 128,
        raid_disks: 3,
        new_level: 0,
        reshape_position: 0,
        delta_disks: 0,
        new_layout: 0,
        new_chunk: 0,
        data_offset: 2048,
        data_size: SIZE,
        super_offset: 8,
        recovery_offset: 0,
        dev_number: 0,
        device_id: Id([2; 16]),
        utime: 0,
        events,
        resync_offset,
        roles,
    }
}

/// A superblock once it is written and read.
fn read_back(seen: &Super) -> Option<Super>
    requires { length seen.now.roles.items ≡ 128 }
    ensures { result ≡ Some seen.now }
{
    let mut block = [0; 1024];
    block[..512].copy_from_slice(&encode(seen));
    decode(&block).ok()
}

/// What is found of it on a place.
fn on(place: u32, seen: &Super) -> Found
    requires roles { length seen.now.roles.items ≡ 128 }
    requires truth { is_truth seen.now ≡ true }
    ensures { option_map_or is_truth result.seen true ≡ true }
{
    Found {
        place,
        seen: read_back(seen),
    }
}

/// Nothing is found on a place.
fn none_on(place: u32) -> Found
    ensures { option_map_or is_truth result.seen true ≡ true }
{
    Found { place, seen: None }
}

fn open(found: &[Found], young: bool) -> Result<Array, ArrayFault>
    requires { list_all (λ f. option_map_or is_truth f.seen true) found.now ≡ true }
{
    Array::open(3, found, young)
}

#[test]
fn refuses_by_the_first_cause(rt: HostRuntime) {
    let dirty = superblock(7, 0);
    let mut other = superblock(7, 0);
    other.set_id = Id([9; 16]);
    let none = [none_on(0), none_on(1), none_on(2)];
    // two members are missing as well
    let sets = [on(0, &dirty), on(1, &other), none_on(2)];
    // rows are left to resync as well
    let one = [none_on(0), on(1, &dirty), none_on(2)];
    let two = [on(0, &dirty), on(1, &dirty), none_on(2)];
    let faults = [
        open(&none, false).err(),
        open(&sets, false).err(),
        open(&one, false).err(),
        open(&two, false).err(),
        open(&two, true).err(),
    ];
    let wanted = [
        Some(ArrayFault::Foreign),
        Some(ArrayFault::Foreign),
        Some(ArrayFault::TooFew),
        Some(ArrayFault::DirtyDegraded),
        None,
    ];
    assert_eq!(rt; faults, wanted);
}

#[test]
fn opens_by_the_most_events(rt: HostRuntime) -> Result<(), Fail> {
    let old = superblock(7, 0);
    let new = superblock(8, u64::MAX);
    let array = open(&[on(0, &old), on(1, &new), none_on(2)], false)?;
    let numbers = (array.truth().events, array.sectors(), array.resync_from());
    assert_eq!(rt; numbers, (8, 2 * SIZE, array.rows()));
    for (place, seat) in [(1, Some(Seat::Whole)), (2, Some(Seat::Missing)), (3, None)] {
        assert_eq!(rt; array.seat(place), seat, "{place}");
    }
    Ok(())
}

#[test]
fn resyncs_from_the_row_of_the_truth(rt: HostRuntime) -> Result<(), Fail> {
    let dirty = superblock(7, 384);
    let array = open(&[on(2, &dirty), on(1, &dirty), on(0, &dirty)], false)?;
    assert_eq!(rt; (array.resync_from(), array.rows()), (3, 26));
    Ok(())
}

#[test]
fn stages_the_array_that_it_adopts(rt: HostRuntime) -> Result<(), Fail> {
    let whole = superblock(7, u64::MAX);
    let mut array = open(&[on(0, &whole), on(1, &whole), none_on(2)], false)?;
    assert_eq!(rt; array.seat(2), Some(Seat::Missing));
    array.renew(2, &Id([5; 16]));

    let change = Change {
        truth: superblock(8, u64::MAX),
        place: Some(2),
        to: 384,
    };
    let mut log = Log::make(rt.alloc())?;
    array.stage(&mut log, &change);
    array.adopt(&change);
    let seen = (log.room(), array.seat(2), array.truth().events);
    assert_eq!(rt; seen, (3993, Some(Seat::Rebuilding { to: 384 }), 8));
    Ok(())
}
