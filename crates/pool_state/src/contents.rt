use arrayvec::ArrayVec;
use shr_base::Id;

/// A drive of the pool.
#[derive(Clone, Copy, Debug, Default, PartialEq, Eq)]
pub struct Drive {
    pub id: Id,
    /// How many extents its layers may take.
    pub units: u64,
    /// It was lost: it has no part in the pool until an operator brings it back.
    pub missing: bool,
}

/// The change that the pool is carrying out.
#[derive(Clone, Copy, Debug, PartialEq, Eq)]
pub enum Plan {
    Nothing,
    /// The drive of this place joins the pool.
    Add { place: u32 },
    /// The drive of this place takes the part of the one before it.
    Replace { place: u32 },
}

/// What the pool is at one epoch.
#[derive(Clone, Debug, Drop, PartialEq, Eq)]
pub struct State {
    pub pool: Id,
    /// Rises by one with each change of the state.
    pub epoch: u64,
    /// Sectors of an extent.
    pub extent: u32,
    /// The drives, each at its place.
    pub drives: ArrayVec<Drive, 16>,
    pub plan: Plan,
    /// How many arrays exist.
    pub made: u32,
    /// How many of them are ready for the volume.
    pub joined: u32,
    /// The serial number of the next new drive.
    pub serial: u32,
}

/// A state as one drive keeps it.
#[derive(Clone, Debug, Drop, PartialEq, Eq)]
pub struct Copied {
    pub state: State,
    /// The place of the drive that keeps this copy.
    pub own: u32,
}

/// Why a sector holds no state: the first fault in this order.
#[derive(Clone, Copy, Debug, PartialEq, Eq)]
pub enum StateFault {
    /// Its name or version is another one.
    NotState,
    /// The stored sum is another one.
    BadSum,
    /// A reserved byte isn't zero, or what stands there is no valid state.
    BadField,
}

/// A step of maintenance that the pool has still to do.
#[derive(Clone, Copy, Debug, PartialEq, Eq)]
pub enum Work {
    /// Makes one row agree after an unclean end.
    Resync { array: u32 },
    /// Writes one row of the drive of this place.
    Rebuild { array: u32, place: u32 },
    /// Turns a mirror into RAID-5 of two members.
    TakeOver { array: u32 },
    /// Starts a reshape in which the drive of this place joins.
    Begin { array: u32, place: u32 },
    /// Moves one row of a reshape.
    Reshape { array: u32 },
    /// Ends a reshape.
    Finish { array: u32 },
    /// Makes a new array of this height in extents.
    Make { array: u32, height: u64 },
    /// Writes zeros to one row of a new array.
    Zero { array: u32 },
    /// Gives a new array to the volume.
    Ready { array: u32 },
    /// Extends the volume over the extents that were gained.
    Extend,
    /// Ends the plan.
    Close,
}
