//! Arrays of both levels and of several members, newly opened and whole.

ghost use Rattle.std.specs.Prelude.{◌≡◌, ◌++◌, Some, true, length, replicate};
ghost use Rattle.std.specs.List.{list_all};
ghost use Rattle.std.specs.Option.{option_map_or};
ghost use Rattle.array_core.specs.Model.{is_truth};
ghost use Rattle.array_tests.specs.Supers.{whole_super};

use array_core::{Array, ArrayFault, Found};
use arrayvec::ArrayVec;
use md_super::{Super, decode, encode};
use shr_base::Id;
use std::alloc::Global;
use std::test::Fail;

/// The rows of a member's data: more than a record of the log has.
pub(crate) const ROWS: u64 = 40;

/// The sectors of a member's data.
pub(crate) const SIZE: u64 = ROWS * 128;

/// The number of the array.
pub(crate) const NUMBER: u32 = 3;

/// The level of an array and its members, which are on the first places.
#[derive(Clone, Copy, Debug, PartialEq, Eq)]
pub(crate) enum Geometry {
    /// A mirror of two.
    Mirror,
    /// RAID-5 of three.
    Three,
    /// RAID-5 of five.
    Five,
    /// RAID-5 of sixteen.
    Sixteen,
}

impl Geometry {
    /// How many members it has.
    pub(crate) fn members(self) -> u32 {
        match self {
            Geometry::Mirror => 2,
            Geometry::Three => 3,
            Geometry::Five => 5,
            Geometry::Sixteen => 16,
        }
    }

    /// A superblock of an array that is whole, with no row left to resync.
    fn superblock(self) -> Super
        ensures truth { is_truth result ≡ true }
        ensures roles { length result.roles.items ≡ 128 }
    {
        let none = 0xffff;
        match self {
            Geometry::Mirror => superblock(
                true,
                2,
                &[
                    0, 1, none, none, none, none, none, none, none, none, none, none, none, none,
                    none, none,
                ],
            ),
            Geometry::Three => superblock(
                false,
                3,
                &[
                    0, 1, 2, none, none, none, none, none, none, none, none, none, none, none,
                    none, none,
                ],
            ),
            Geometry::Five => superblock(
                false,
                5,
                &[
                    0, 1, 2, 3, 4, none, none, none, none, none, none, none, none, none, none, none,
                ],
            ),
            Geometry::Sixteen => superblock(
                false,
                16,
                &[0, 1, 2, 3, 4, 5, 6, 7, 8, 9, 10, 11, 12, 13, 14, 15],
            ),
        }
    }

    /// The array of that superblock on each place, as one that was made before or as a young one.
    pub(crate) fn open(self, alloc: Global, young: bool) -> Result<Array, Fail> {
        let seen = self.superblock();
        let mut found = Vec::new(alloc);
        for place in 0..16 {
            found.push(on(place, &seen))?;
        }
        Ok(open(found.as_slice(), young)?)
    }
}

/// The roles of the first places, and none of others.
fn roles(first: &[u16; 16]) -> ArrayVec<u16, 384>
    ensures { result.items ≡ first.now ++ replicate 112 0xffff }
{
    let mut roles = ArrayVec::new();
    let _ = roles.try_extend_from_slice(first);
    let _ = roles.try_extend_from_slice(&[0xffff; 112]);
    roles
}

/// A superblock of a mirror or of RAID-5.
fn superblock(mirror: bool, members: u32, first: &[u16; 16]) -> Super
    ensures { result ≡ whole_super mirror members first.now }
{
    Super {
        feature_map: 0,
        set_id: Id([1; 16]),
        set_name: [0; 32],
        ctime: 0,
        level: if mirror { 1 } else { 5 },
        layout: if mirror { 0 } else { 2 },
        size: SIZE,
        chunk: if mirror { 0 } else { 128 },
        raid_disks: members,
        new_level: 0,
        reshape_position: 0,
        delta_disks: 0,
        new_layout: 0,
        new_chunk: 0,
        data_offset: 2048,
        data_size: SIZE,
        super_offset: 8,
        recovery_offset: 0,
        dev_number: 0,
        device_id: Id([2; 16]),
        utime: 0,
        events: 7,
        resync_offset: u64::MAX,
        roles: roles(first),
    }
}

/// A superblock once it is written and read.
fn read_back(seen: &Super) -> Option<Super>
    requires { length seen.now.roles.items ≡ 128 }
    ensures { result ≡ Some seen.now }
{
    let mut block = [0; 1024];
    block[..512].copy_from_slice(&encode(seen));
    decode(&block).ok()
}

/// What is found of it on a place.
fn on(place: u32, seen: &Super) -> Found
    requires roles { length seen.now.roles.items ≡ 128 }
    requires truth { is_truth seen.now ≡ true }
    ensures { option_map_or is_truth result.seen true ≡ true }
{
    Found {
        place,
        seen: read_back(seen),
    }
}

fn open(found: &[Found], young: bool) -> Result<Array, ArrayFault>
    requires { list_all (λ f. option_map_or is_truth f.seen true) found.now ≡ true }
{
    Array::open(NUMBER, found, young)
}
