//! The GUID partition table of a disk, in its two copies (UEFI, chapter 5).
//!
//! The model is a disk's contents, sector by sector. specs/Format.antt says what the bytes of one copy
//! mean and when the copy is valid; the table of a disk is that of its first valid copy, the primary
//! before the backup (specs/Disk.antt). No field that was read is trusted before it was checked, and
//! attributes and names are read over.
//!
//! The contract for the layer above, over any [`rack::Rack`]: [`read_table`] gives the table of the
//! first valid copy and writes nothing; [`compare_copies`] does so too, and says whether both copies
//! agree; [`write_whole`] leaves two durable copies that say the given
//! table, and at no moment writes another sector; [`change_entry`] puts one entry into both copies,
//! and at every moment the table is the old one or the new one; [`settle_table`] makes both copies say
//! what the first valid one says, and at every moment the table is the same (specs/Changes.antt).
//! What is written is a copy to its last byte (`IsWritten` in specs/Format.antt), also where no reader
//! looks. None takes memory. A refusal of the disk comes only where its faults rose.
//!
//! A copy that is changed has its header cleared first, durably, and written last: while its entries
//! are partly old and partly new it isn't valid, whatever their sums.
#![tactic(auto)]

mod changing;
mod codec;
mod encoding;
mod reading;
mod settling;
mod writing;

use arrayvec::ArrayVec;
pub use changing::change_entry;
pub use reading::read_table;
pub use settling::{compare_copies, settle_table};
use shr_base::Id;
pub use writing::write_whole;

/// The entries of a table.
pub const ENTRIES: usize = 128;

/// The bytes of its entries.
pub const ENTRIES_BYTES: usize = 16384;

/// The fewest sectors of a disk that has room for both copies.
pub const FEWEST_SECTORS: u64 = 67;

/// A partition.
#[derive(Clone, Copy, Debug, PartialEq, Eq)]
pub struct Slice {
    /// What the partition is for (its type GUID).
    pub kind: Id,
    /// Which one it is (its unique GUID).
    pub id: Id,
    /// Its first sector.
    pub first: u64,
    /// Its last sector, which is still part of it.
    pub last: u64,
}

impl Default for Slice {
    fn default() -> Self {
        Slice {
            kind: Id([0; 16]),
            id: Id([0; 16]),
            first: 0,
            last: 0,
        }
    }
}

/// An entry of a table.
#[derive(Clone, Copy, Debug, Default, PartialEq, Eq)]
pub struct Entry {
    /// Its number, 1 to 128.
    pub number: u32,
    /// What it says.
    pub slice: Slice,
}

/// The table of a disk.
#[derive(Debug, PartialEq, Eq, Drop)]
pub struct Table {
    /// The disk's id.
    pub disk_id: Id,
    /// The sectors of the disk.
    pub sectors: u64,
    /// The entries in use, ascending by number.
    pub entries: ArrayVec<Entry, ENTRIES>,
}

/// Which copy of a table: that at the start of the disk, or that at its end.
#[derive(Clone, Copy, Debug, PartialEq, Eq)]
pub enum TableCopy {
    /// In sectors 1 to 33.
    Primary,
    /// In the last 33 sectors.
    Backup,
}

/// The table that a disk has.
#[derive(Debug, PartialEq, Eq, Drop)]
pub struct Seen {
    /// The table of the first valid copy, the primary before the backup.
    pub table: Table,
    /// The copy.
    pub copy: TableCopy,
}

/// What both copies of a table say.
#[derive(Debug, PartialEq, Eq, Drop)]
pub struct Compared {
    /// The table of the first valid copy, the primary before the backup.
    pub table: Table,
    /// Both copies are valid and say the same.
    pub agree: bool,
}

/// Why a disk shows no table.
#[derive(Clone, Copy, Debug, PartialEq, Eq)]
pub enum TableFault {
    /// Neither copy is valid.
    NoTable,
    /// The disk refused a call.
    Gone,
}
