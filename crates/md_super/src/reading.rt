ghost use Rattle.std.specs.Prelude.{◌≡◌, ◌≤◌};
ghost use Rattle.shr_base.specs.Blocks.{numbers_at};
ghost use Rattle.md_super.specs.Layout.{decoded, fields_of, max_dev, sum_of};

use crate::offsets::*;
use crate::superblock::{Super, SuperFault};
use arrayvec::ArrayVec;
use byteorder::{ByteOrder, LittleEndian};
use shr_base::fields::{i32_at, id_at, put_u32, u32_at, u64_at};
use shr_base::md_sum;

/// The most roles that fit a block of 1024 bytes.
const MOST_ROLES: u32 = 384;

/// What the block at a superblock's place says, or its first fault. Any feature bits are taken as
/// they stand.
pub fn decode(bytes: &[u8; 1024]) -> Result<Super, SuperFault>
    ensures { result ≡ decoded bytes.now }
{
    if u32_at(bytes, MAGIC) != MD_MAGIC || u32_at(bytes, MAJOR_VERSION) != 1 {
        return Err(SuperFault::NotMd);
    }
    let count = u32_at(bytes, MAX_DEV);
    if count > MOST_ROLES {
        return Err(SuperFault::TooLong);
    }
    if u32_at(bytes, SUM) != sum(bytes, count as usize) {
        return Err(SuperFault::BadSum);
    }
    Ok(fields(bytes, count as usize))
}

/// The sum of a superblock of `count` roles.
#[tactic(auto, unfolding(crate::specs::Layout::sum_of))]
fn sum(bytes: &[u8; 1024], count: usize) -> u32
    requires is_count { count ≡ max_dev bytes.now }
    requires fits { count ≤ 384 }
    ensures { result ≡ sum_of bytes.now }
{
    let mut cleared = *bytes;
    put_u32(&mut cleared, SUM, 0);
    md_sum(&cleared[..ROLES + 2 * count])
}

/// The fields of a superblock of `count` roles.
#[tactic(auto, unfolding(crate::specs::Layout::fields_of))]
fn fields(bytes: &[u8; 1024], count: usize) -> Super
    requires is_count { count ≡ max_dev bytes.now }
    requires fits { count ≤ 384 }
    ensures { result ≡ fields_of bytes.now }
{
    let mut set_name = [0; 32];
    set_name.copy_from_slice(&bytes[SET_NAME..SET_NAME + 32]);
    Super {
        feature_map: u32_at(bytes, FEATURE_MAP),
        set_id: id_at(bytes, SET_ID),
        set_name,
        ctime: u64_at(bytes, CTIME),
        level: i32_at(bytes, LEVEL),
        layout: u32_at(bytes, LAYOUT),
        size: u64_at(bytes, SIZE),
        chunk: u32_at(bytes, CHUNK),
        raid_disks: u32_at(bytes, RAID_DISKS),
        new_level: i32_at(bytes, NEW_LEVEL),
        reshape_position: u64_at(bytes, RESHAPE_POSITION),
        delta_disks: i32_at(bytes, DELTA_DISKS),
        new_layout: u32_at(bytes, NEW_LAYOUT),
        new_chunk: u32_at(bytes, NEW_CHUNK),
        data_offset: u64_at(bytes, DATA_OFFSET),
        data_size: u64_at(bytes, DATA_SIZE),
        super_offset: u64_at(bytes, SUPER_OFFSET),
        recovery_offset: u64_at(bytes, RECOVERY_OFFSET),
        dev_number: u32_at(bytes, DEV_NUMBER),
        device_id: id_at(bytes, DEVICE_ID),
        utime: u64_at(bytes, UTIME),
        events: u64_at(bytes, EVENTS),
        resync_offset: u64_at(bytes, RESYNC_OFFSET),
        roles: roles(bytes, count),
    }
}

/// The first `count` roles.
fn roles(bytes: &[u8; 1024], count: usize) -> ArrayVec<u16, 384>
    requires { count ≤ 384 }
    ensures { result.items ≡ numbers_at 256 2 count bytes.now }
{
    let mut all = [0u16; 384];
    LittleEndian::read_u16_into(&bytes[ROLES..], &mut all);
    let mut roles = ArrayVec::from(all);
    roles.truncate(count);
    roles
}
