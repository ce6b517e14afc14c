ghost use Rattle.std.specs.Prelude.{◌≡◌, ◌++◌, length, replicate, FitsSigned, Ok};
ghost use Rattle.std.specs.Int.{w32};
ghost use Rattle.shr_base.specs.Blocks.{put_all};
ghost use Rattle.md_super.specs.Layout.{decoded, LeavesZeros};
ghost use Rattle.md_super.specs.Written.{signed_fields};

use crate::offsets::*;
use crate::superblock::Super;
use shr_base::fields::{put_bytes, put_i32, put_numbers, put_u32, put_u64};
use shr_base::md_sum;

/// How many roles a superblock in one sector has room for.
const WRITTEN_ROLES: u32 = 128;

/// The sector in which a superblock of 128 roles is written: what `decode` reads back, with zeros in
/// the bytes that no field takes.
pub fn encode(seen: &Super) -> [u8; 512]
    requires { length seen.now.roles.items ≡ 128 }
    ensures read_back { decoded (result ++ replicate 512 0) ≡ Ok seen.now }
    ensures elsewhere { LeavesZeros result }
{
    let mut block = [0; 512];
    put_u32(&mut block, MAGIC, MD_MAGIC);
    put_u32(&mut block, MAJOR_VERSION, 1);
    put_u32(&mut block, FEATURE_MAP, seen.feature_map);
    put_bytes(&mut block, SET_ID, &seen.set_id.0);
    put_bytes(&mut block, SET_NAME, &seen.set_name);
    put_u64(&mut block, CTIME, seen.ctime);
    put_u32(&mut block, LAYOUT, seen.layout);
    put_u64(&mut block, SIZE, seen.size);
    put_u32(&mut block, CHUNK, seen.chunk);
    put_u32(&mut block, RAID_DISKS, seen.raid_disks);
    put_u64(&mut block, RESHAPE_POSITION, seen.reshape_position);
    put_signed(&mut block, seen);
    put_u32(&mut block, NEW_LAYOUT, seen.new_layout);
    put_u32(&mut block, NEW_CHUNK, seen.new_chunk);
    put_u64(&mut block, DATA_OFFSET, seen.data_offset);
    put_u64(&mut block, DATA_SIZE, seen.data_size);
    put_u64(&mut block, SUPER_OFFSET, seen.super_offset);
    put_u64(&mut block, RECOVERY_OFFSET, seen.recovery_offset);
    put_u32(&mut block, DEV_NUMBER, seen.dev_number);
    put_bytes(&mut block, DEVICE_ID, &seen.device_id.0);
    put_u64(&mut block, UTIME, seen.utime);
    put_u64(&mut block, EVENTS, seen.events);
    put_u64(&mut block, RESYNC_OFFSET, seen.resync_offset);
    put_u32(&mut block, MAX_DEV, WRITTEN_ROLES);
    put_numbers(&mut block, ROLES, seen.roles.as_slice());
    let sum = md_sum(&block);
    put_u32(&mut block, SUM, sum);
    block
}

/// Writes the fields that have a sign.
fn put_signed(block: &mut [u8; 512], seen: &Super)
    ensures level { FitsSigned w32 seen.now.level }
    ensures new_level { FitsSigned w32 seen.now.new_level }
    ensures delta_disks { FitsSigned w32 seen.now.delta_disks }
    ensures written { block.new ≡ put_all (signed_fields seen.now) block.old }
{
    put_i32(block, LEVEL, seen.level);
    put_i32(block, NEW_LEVEL, seen.new_level);
    put_i32(block, DELTA_DISKS, seen.delta_disks);
}
