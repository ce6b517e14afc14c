//! Makes a pool on 2 to 16 drives of unequal size: [`format`] answers its volume, which is all zeros.
//!
//! The disks of a rack, in their order, are the places 0, 1 and so on. The plan is that of `layer_plan` over their units, and each of
//! its layers is an array. What is written, each part durable before the next: zeros over the state's sector of each drive; their
//! tables, and the data of all members, which are zeros but for the labels, headers and text of the volume's group; the closed gates
//! and the superblocks, with events 1 and no row left to resync; and the states last, drive by drive. All of it goes to the drives as
//! whole rows, with their parity; no array is written. The volume is handed out over arrays that these superblocks make, so that a clean
//! end writes none.
//!
//! | Module | What it writes or makes |
//! |---|---|
//! | `planning` | the plan: the units, and where the slices of each array's members lie |
//! | `states`, `tables`, `superblocks`, `members`, `drives` | the parts of each drive |
//! | `slices`, `arrays`, `volume` | the slices and the arrays in memory, the volume on them and its group |
//! | `formatting` | all of it, in its order |
//!
//! **Its model** is a `NewPool`, the plan of which each part is a function (specs/Plan.antt, specs/Parts.antt): the state, each
//! drive's table, each member's superblock and data (specs/Data.antt), the array that superblocks make (specs/Arrays.antt), and the
//! slices (specs/Slices.antt). What stands on a drive then is one definition (`IsNewDrive` of specs/Drives.antt), and so is what a stop
//! inside leaves (`IsStop` of specs/Stops.antt).
//!
//! **The contract of [`format`]**, whatever the disks tell. It is refused exactly where the units have no plan, with nothing called;
//! a drive is blamed only where its faults rose. The volume is fit, so each of its calls may be made, and it has all extents that the
//! plan offers, over the arrays and the state of the plan (`IsMade`). Each sector has one value then, and each disk that is told has
//! all that the plan says of its place. Only sectors of the tables and of the plan's slices are written, at no moment others, and also
//! where it is refused (`IsPart`, `IsGivenBack`). A stop at any moment, whether a drive went or not, leaves one of three: what the disks held,
//! but for states' sectors that may be cleared; no state's sector that says a copy; or all other parts of each drive, with the copies of
//! the first drives, the next one's or none, and none on those behind. A drive that goes meanwhile is blamed.
#![tactic(auto)]

mod arrays;
mod drives;
mod formatting;
mod members;
mod planning;
mod slices;
mod states;
mod superblocks;
mod tables;
mod volume;

pub use formatting::{CreateFault, format};
pub use planning::{NewArray, NewPool};

/// When a pool is made, and its id.
#[derive(Clone, Copy, Debug, PartialEq, Eq)]
pub struct Birth {
    /// Seconds since 1970.
    pub seconds: u64,
    /// The pool's id, random.
    pub pool: [u8; 16],
}
