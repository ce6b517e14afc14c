//! Checks the parts of a pool's drives, opens its arrays, and makes the copies of its partition tables agree.
//!
//! The pool is at rest: its pending record is replayed, its state is known, and each of its current places has a disk or none. Of each
//! seated drive a check reads both copies of the partition table and the superblocks once, and writes nothing. A drive that answers `Gone` is absent
//! from the start, and the check begins again without it; that happens once at most, since two absent drives are too many.
//!
//! **Its model** is `Found` of pool_image: the pool that the disks' contents make, with the seats that are left.
//!
//! **The contract for the layer above.** [`check_drives`] answers by that pool: the first refusal that it has but that of the volume
//! (`refused_with` of specs/Refusing.antt), or, where it has none, the arrays with the shapes that their truths give, where their
//! slices lie, and which of them have stale superblocks (`IsChecked` of specs/Checking.antt). Whatever the disks tell, each array is
//! one of valid superblocks that were read of its members (`AreFounded` of specs/Founded.antt), a flag of each place says whether both
//! copies of its disk's table agree (`AreCompared` of specs/Settling.antt), and want of drives is answered exactly where two
//! or more places have no disk, with their count (`CountsAbsent` of specs/Refusing.antt). Where nothing is pending and no disk's
//! faults rise, the answer is the meaning's refusal (proofs/Meant.antt). Whether a place's log is well formed is not read here: the
//! caller hands in the lowest place whose log isn't. [`lay_members`] lays the slices behind the log slices of a rack of slices, where
//! none is refused (`AreSlots` of specs/Slots.antt), and what they show is what the drives' slices hold (proofs/Shown.antt).
//! [`settle_tables`] writes only sectors of partition tables, and at each moment each disk has the table that it had
//! (specs/Settling.antt). It calls no disk of which the check has said that both copies agree.
#![tactic(auto)]

ghost use Rattle.std.specs.Prelude.{◌+◌, ◌<◌, ◌^◌};

mod checking;
mod drives;
mod layers;
mod laying;
mod settling;
mod superblocks;

use array_core::{Array, ArrayFault};
use arrayvec::ArrayVec;
pub use checking::{check_drives, seats_of};
pub use laying::lay_members;
pub use settling::settle_tables;

/// A part of a drive, in the order in which they are checked.
#[derive(Clone, Copy, Debug, PartialEq, Eq)]
pub enum Part {
    /// Its partition table.
    Table,
    /// Its copy of the pool's state.
    State,
    /// Its log: the gate, and the pending record where it is read from this drive.
    Log,
    /// Its superblock of an array that it is a member of.
    Superblock,
}

/// Why a pool's drives make no arrays, the first cause in this order.
#[derive(Clone, Copy, Debug, PartialEq, Eq)]
pub enum CheckFault {
    /// Two or more current places have no disk, or one that answered `Gone`.
    Absent {
        /// How many.
        count: u32,
    },
    /// A part of a current place's disk isn't valid: of the lowest such place the first one.
    Damaged {
        /// The place.
        place: u32,
        /// The part.
        part: Part,
    },
    /// Two or more members of an array are missing or rebuilding, or it has no valid superblock: the lowest such array.
    TooFew {
        /// The array.
        array: u32,
    },
    /// A member of an array is missing or rebuilding, and rows are left to resync: the lowest such array.
    DirtyDegraded {
        /// The array.
        array: u32,
    },
}

/// The disk of each place, none of one that isn't current, has no disk, or whose disk went.
pub type Seats = [Option<u32>; 16];

/// A flag of each place.
pub type Flags = [bool; 16];

/// Where the slices of an array lie, at the same sectors of each member's drive.
#[derive(Clone, Copy, Debug, PartialEq, Eq)]
pub struct Extent {
    /// The first sector.
    pub first: u64,
    /// How many sectors.
    pub sectors: u64,
    ghost near: { first + sectors < 2 ^ 63 },
}

impl Default for Extent {
    fn default() -> Extent {
        Extent {
            first: 0,
            sectors: 0,
        }
    }
}

/// The arrays of a pool whose drives are sound.
#[derive(Debug, Drop)]
pub struct Checked {
    /// The arrays that exist, by number.
    pub arrays: ArrayVec<Array, 16>,
    /// Where their slices lie, by number.
    pub extents: ArrayVec<Extent, 16>,
    /// Whether a member's superblock is stale, which is of other events than the array's truth, by number.
    pub stale: ArrayVec<bool, 16>,
    /// Whether both copies of the partition table of each place's disk agree.
    pub agreed: Flags,
}

/// What the disk of a place has to do with an array.
#[derive(Clone, Copy, Debug, Default, PartialEq, Eq)]
enum Sight {
    /// It is no member.
    #[default]
    Stranger,
    /// A member with a valid superblock.
    Valid,
    /// A member without one.
    Invalid,
}

/// What the superblocks of an array say.
#[derive(Debug, Drop)]
struct Layer {
    /// The array's number.
    number: u32,
    /// Where its slices lie, unless that is past every disk.
    extent: Option<Extent>,
    /// What each place has to do with it.
    sights: ArrayVec<Sight, 16>,
    /// Why it can't be opened.
    fault: Option<ArrayFault>,
    ghost few: { number < 16 },
}

impl Default for Layer {
    fn default() -> Layer {
        Layer {
            number: 0,
            extent: None,
            sights: ArrayVec::new(),
            fault: None,
        }
    }
}

/// The arrays as far as they are read.
#[derive(Debug, Drop)]
struct ArraysRead {
    /// What the superblocks of each array say.
    all: ArrayVec<Layer, 16>,
    /// The arrays that were opened.
    opened: Checked,
    /// Where the slices of the next array begin, unless that is past every disk or can't be known.
    next: Option<u64>,
}

/// Why a check comes to no end with these disks.
#[derive(Clone, Copy, Debug, PartialEq, Eq)]
enum Halt {
    /// The drives are refused.
    Fault(CheckFault),
    /// The disk of a place went.
    Went {
        /// The place.
        place: u32,
    },
}
