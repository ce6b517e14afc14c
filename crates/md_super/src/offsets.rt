//! Where the fields of a superblock stand, in bytes from its start (Linux md, `struct mdp_superblock_1`).

pub(crate) const MAGIC: usize = 0;

pub(crate) const MAJOR_VERSION: usize = 4;

pub(crate) const FEATURE_MAP: usize = 8;

pub(crate) const SET_ID: usize = 16;

pub(crate) const SET_NAME: usize = 32;

pub(crate) const CTIME: usize = 64;

pub(crate) const LEVEL: usize = 72;

pub(crate) const LAYOUT: usize = 76;

pub(crate) const SIZE: usize = 80;

pub(crate) const CHUNK: usize = 88;

pub(crate) const RAID_DISKS: usize = 92;

pub(crate) const NEW_LEVEL: usize = 100;

pub(crate) const RESHAPE_POSITION: usize = 104;

pub(crate) const DELTA_DISKS: usize = 112;

pub(crate) const NEW_LAYOUT: usize = 116;

pub(crate) const NEW_CHUNK: usize = 120;

pub(crate) const DATA_OFFSET: usize = 128;

pub(crate) const DATA_SIZE: usize = 136;

pub(crate) const SUPER_OFFSET: usize = 144;

pub(crate) const RECOVERY_OFFSET: usize = 152;

pub(crate) const DEV_NUMBER: usize = 160;

pub(crate) const DEVICE_ID: usize = 168;

pub(crate) const UTIME: usize = 192;

pub(crate) const EVENTS: usize = 200;

pub(crate) const RESYNC_OFFSET: usize = 208;

pub(crate) const SUM: usize = 216;

pub(crate) const MAX_DEV: usize = 220;

pub(crate) const ROLES: usize = 256;

/// What the magic field of every md superblock holds.
pub(crate) const MD_MAGIC: u32 = 0xa92b_4efc;
