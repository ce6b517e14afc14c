//! Why a pool isn't opened.

ghost use Rattle.std.specs.Prelude.{◌≡◌};
ghost use Rattle.assembler.specs.Refusing.{by_check, by_finding, by_volume};

use lvm_group::VolumeFault;
use pool_check::{CheckFault, Part};
use pool_rest::FindFault;

/// Why a pool isn't opened, the first cause in this order.
#[derive(Clone, Copy, Debug, PartialEq, Eq)]
pub enum Refusal {
    /// No disk has a valid copy of a state.
    NoPool,
    /// Two disks have the states of different pools.
    TwoPools,
    /// Two or more current drives have no disk, or one that answered `Gone`.
    Absent {
        /// How many.
        count: u32,
    },
    /// A part of a current drive's disk isn't valid, and its reads succeeded: of the lowest such place the first one. A disk that refuses a call
    /// is absent, and called damaged only where its log was read before, and no other refusal applies to those that are left.
    Damaged {
        /// The drive's place.
        place: u32,
        /// The part.
        part: Part,
    },
    /// Two or more members of an array are missing or rebuilding, or it has no valid superblock: the lowest such array.
    TooFew {
        /// The array.
        array: u32,
    },
    /// A member of an array is missing or rebuilding, and rows are left to resync: the lowest such array.
    DirtyDegraded {
        /// The array.
        array: u32,
    },
    /// An array's part of the volume group is bad: the lowest such array.
    BadVolume {
        /// The array.
        array: u32,
    },
    /// No memory could be had, or epochs, events or numbers of commits are used up, which end at 2^63.
    Memory,
}

/// The refusal where no pool was found.
pub(crate) fn by_finding(fault: FindFault) -> Refusal
    ensures { result ≡ by_finding fault }
{
    match fault {
        FindFault::NoPool => Refusal::NoPool,
        FindFault::TwoPools => Refusal::TwoPools,
        FindFault::Memory => Refusal::Memory,
    }
}

/// The refusal of drives that were checked.
pub(crate) fn by_check(fault: CheckFault) -> Refusal
    ensures { result ≡ by_check fault }
{
    match fault {
        CheckFault::Absent { count } => Refusal::Absent { count },
        CheckFault::Damaged { place, part } => Refusal::Damaged { place, part },
        CheckFault::TooFew { array } => Refusal::TooFew { array },
        CheckFault::DirtyDegraded { array } => Refusal::DirtyDegraded { array },
    }
}

/// The refusal of a volume.
pub(crate) fn by_volume(fault: VolumeFault) -> Refusal
    ensures { result ≡ by_volume fault }
{
    match fault {
        VolumeFault::BadVolume { array } => Refusal::BadVolume { array },
        VolumeFault::Memory => Refusal::Memory,
    }
}
