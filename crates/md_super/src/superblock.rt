use arrayvec::ArrayVec;
use shr_base::Id;

/// What a superblock of version 1 says of an array and of the member that it stands on
/// (Linux md, `struct mdp_superblock_1`). Sizes, offsets and chunks are in sectors of 512 bytes.
#[derive(Clone, Debug, Drop, PartialEq, Eq)]
pub struct Super {
    /// Bit 1 says that `recovery_offset` counts, bit 2 that the array is being reshaped.
    pub feature_map: u32,
    pub set_id: Id,
    pub set_name: [u8; 32],
    /// When the array was made: seconds in the low 40 bits, microseconds above.
    pub ctime: u64,
    pub level: i32,
    pub layout: u32,
    /// Sectors that the array uses of each member.
    pub size: u64,
    pub chunk: u32,
    pub raid_disks: u32,
    pub new_level: i32,
    pub reshape_position: u64,
    pub delta_disks: i32,
    pub new_layout: u32,
    pub new_chunk: u32,
    pub data_offset: u64,
    pub data_size: u64,
    /// Where the superblock stands on its member.
    pub super_offset: u64,
    /// Sectors of the member that are rebuilt.
    pub recovery_offset: u64,
    /// The member's place in `roles`.
    pub dev_number: u32,
    pub device_id: Id,
    pub utime: u64,
    pub events: u64,
    /// Sectors from which members may differ: all ones where they agree.
    pub resync_offset: u64,
    /// The position in the array of each place: 0xffff for a spare, 0xfffe for a faulty one.
    pub roles: ArrayVec<u16, 384>,
}

/// Why a block is no superblock: the first fault in this order.
#[derive(Clone, Copy, Debug, PartialEq, Eq)]
pub enum SuperFault {
    /// The magic number or the major version is another one.
    NotMd,
    /// It has more than 384 roles, which end past the block.
    TooLong,
    /// The stored sum is another one.
    BadSum,
}

/// A field, or group of fields, that the pool's profile fixes.
#[derive(Clone, Copy, Debug, PartialEq, Eq)]
pub enum Field {
    FeatureMap,
    Level,
    Layout,
    Chunk,
    RaidDisks,
    Size,
    DataOffset,
    SuperOffset,
    DevNumber,
    MaxDev,
}

/// A superblock that is none of a pool's, by the first field that shows it.
#[derive(Clone, Copy, Debug, PartialEq, Eq)]
pub struct Unsupported {
    pub field: Field,
}
