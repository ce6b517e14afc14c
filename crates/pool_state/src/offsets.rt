//! Where the parts of a state stand in its sector, in bytes from its start.

pub(crate) const NAME: usize = 0;

pub(crate) const VERSION: usize = 8;

pub(crate) const SUM: usize = 12;

pub(crate) const POOL: usize = 16;

pub(crate) const EPOCH: usize = 32;

pub(crate) const EXTENT: usize = 40;

pub(crate) const COUNT: usize = 44;

pub(crate) const OWN: usize = 45;

pub(crate) const PLAN_KIND: usize = 46;

pub(crate) const PLAN_PLACE: usize = 47;

pub(crate) const MADE: usize = 48;

pub(crate) const JOINED: usize = 49;

pub(crate) const SERIAL: usize = 56;
/// The drives, each with these parts in `DRIVE_BYTES` bytes.
pub(crate) const DRIVES: usize = 64;

pub(crate) const DRIVE_BYTES: usize = 28;
/// Room for 16 drives.
pub(crate) const TABLE_BYTES: usize = 16 * DRIVE_BYTES;

pub(crate) const DRIVE_UNITS: usize = 16;

pub(crate) const DRIVE_FLAGS: usize = 24;
/// The bytes that no part takes, but for those behind the last drive.
pub(crate) const AFTER_JOINED: usize = 50;

pub(crate) const AFTER_SERIAL: usize = 60;
