//! The superblocks of a new array's members.
//!
//! An array of two members is a mirror, of more it is RAID-5. Its members have positions in order of place, its events are 1, and each of its
//! superblocks leaves the rows from an offset on to resync: none in a new pool, and all in an array that is young.
//!
//! **Its model.** Each superblock is a function of the pool's id, the drive's id, the members, the array's number, the place, the sectors of a
//! member's data, the offset and the time (`new_super` of specs/Supers.antt). The lemmas of proofs/ say that it is a valid one of the pool:
//! its roles name the members (`Roles`), it has the profile of an array of the pool (`Supers`), and those of all members, or of all but a missing
//! one, make the array (`Opened`).
#![tactic(auto)]

ghost use Rattle.std.specs.Prelude.{◌≡◌, ◌<◌, ◌==◌, length, position};
ghost use Rattle.new_array.specs.Supers as spec;

use arrayvec::ArrayVec;
use md_super::Super;
use shr_base::{Id, child_id};

/// The roles of a superblock.
const ROLES: u32 = 128;

/// The role of a place that is no member.
const SPARE: u16 = 0xffff;

/// The name of an array, by its number.
fn set_name(number: u32) -> [u8; 32]
    requires { number < 16 }
    ensures { result ≡ spec.set_name number }
{
    match number {
        0 => *b"shr:0\0\0\0\0\0\0\0\0\0\0\0\0\0\0\0\0\0\0\0\0\0\0\0\0\0\0\0",
        1 => *b"shr:1\0\0\0\0\0\0\0\0\0\0\0\0\0\0\0\0\0\0\0\0\0\0\0\0\0\0\0",
        2 => *b"shr:2\0\0\0\0\0\0\0\0\0\0\0\0\0\0\0\0\0\0\0\0\0\0\0\0\0\0\0",
        3 => *b"shr:3\0\0\0\0\0\0\0\0\0\0\0\0\0\0\0\0\0\0\0\0\0\0\0\0\0\0\0",
        4 => *b"shr:4\0\0\0\0\0\0\0\0\0\0\0\0\0\0\0\0\0\0\0\0\0\0\0\0\0\0\0",
        5 => *b"shr:5\0\0\0\0\0\0\0\0\0\0\0\0\0\0\0\0\0\0\0\0\0\0\0\0\0\0\0",
        6 => *b"shr:6\0\0\0\0\0\0\0\0\0\0\0\0\0\0\0\0\0\0\0\0\0\0\0\0\0\0\0",
        7 => *b"shr:7\0\0\0\0\0\0\0\0\0\0\0\0\0\0\0\0\0\0\0\0\0\0\0\0\0\0\0",
        8 => *b"shr:8\0\0\0\0\0\0\0\0\0\0\0\0\0\0\0\0\0\0\0\0\0\0\0\0\0\0\0",
        9 => *b"shr:9\0\0\0\0\0\0\0\0\0\0\0\0\0\0\0\0\0\0\0\0\0\0\0\0\0\0\0",
        10 => *b"shr:10\0\0\0\0\0\0\0\0\0\0\0\0\0\0\0\0\0\0\0\0\0\0\0\0\0\0",
        11 => *b"shr:11\0\0\0\0\0\0\0\0\0\0\0\0\0\0\0\0\0\0\0\0\0\0\0\0\0\0",
        12 => *b"shr:12\0\0\0\0\0\0\0\0\0\0\0\0\0\0\0\0\0\0\0\0\0\0\0\0\0\0",
        13 => *b"shr:13\0\0\0\0\0\0\0\0\0\0\0\0\0\0\0\0\0\0\0\0\0\0\0\0\0\0",
        14 => *b"shr:14\0\0\0\0\0\0\0\0\0\0\0\0\0\0\0\0\0\0\0\0\0\0\0\0\0\0",
        _ => *b"shr:15\0\0\0\0\0\0\0\0\0\0\0\0\0\0\0\0\0\0\0\0\0\0\0\0\0\0",
    }
}

/// The position of a place among the members.
fn position_of(members: &[u32], place: u32) -> Option<usize>
    ensures { result ≡ position (λ p. p == place) members.now }
{
    members.iter().position(|member| *member == place)
}

/// The role of a place: its position among the members, and that of a spare where it is none.
pub fn role_of(members: &[u32], place: u32) -> u16
    requires { length members.now < 17 }
    ensures { result ≡ spec.role_of members.now place }
{
    match position_of(members, place) {
        Some(position) => position as u16,
        None => SPARE,
    }
}

/// The roles of all places.
fn new_roles(members: &[u32]) -> ArrayVec<u16, 384>
    requires { length members.now < 17 }
    ensures { result.items ≡ spec.new_roles members.now }
{
    let mut roles = ArrayVec::new();
    for place in 0..ROLES {
        roles.push(role_of(members, place));
    }
    roles
}

/// The level of an array of so many members: a mirror of two, RAID-5 of more.
fn level_of(members: u32) -> i32
    ensures { result ≡ spec.level_of members }
{
    if members == 2 { 1 } else { 5 }
}

/// Its layout: left-symmetric for RAID-5.
fn layout_of(members: u32) -> u32
    ensures { result ≡ spec.layout_of members }
{
    if members == 2 { 0 } else { 2 }
}

/// The sectors of its chunks.
fn chunk_of(members: u32) -> u32
    ensures { result ≡ spec.chunk_of members }
{
    if members == 2 { 0 } else { 128 }
}

/// The superblock of a place's member of an array: on a drive, of so many sectors of data, and with the rows from an offset on left to resync.
pub fn new_super(
    pool: &Id,
    drive: &Id,
    members: &[u32],
    number: u32,
    place: u32,
    size: u64,
    offset: u64,
    seconds: u64,
) -> Super
    requires number { number < 16 }
    requires few { length members.now < 17 }
    ensures { result ≡ spec.new_super pool.now drive.now members.now number place size offset seconds }
{
    let count = members.len() as u32;
    Super {
        feature_map: 0,
        set_id: child_id(pool, 2, number, 0),
        set_name: set_name(number),
        ctime: seconds,
        level: level_of(count),
        layout: layout_of(count),
        size,
        chunk: chunk_of(count),
        raid_disks: count,
        new_level: 0,
        reshape_position: 0,
        delta_disks: 0,
        new_layout: 0,
        new_chunk: 0,
        data_offset: 2048,
        data_size: size,
        super_offset: 8,
        recovery_offset: 0,
        dev_number: place,
        device_id: child_id(drive, 3, number, 0),
        utime: seconds,
        events: 1,
        resync_offset: offset,
        roles: new_roles(members),
    }
}
