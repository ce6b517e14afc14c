//! A pool of two to sixteen drives of unequal size, as one volume of sectors: [`Pool`].
//!
//! A pool is made by [`Pool::create`] on the disks of a bay (`pool_format`), or opened on them by [`Pool::open`] (`assembler`). Its
//! volume lies over arrays, each a layer of the drives; a drive that refuses a call is lost, which is marked on the others before the
//! call answers, and the pool goes on. A sector of which too many copies are lost is refused by name.
//!
//! **Its model** is a `View` (specs/View.antt): what its bay shows, where the slices of its drives lie, its book (the state and the
//! arrays, with their marks), and its volume as a rack of one disk.
//!
//! **The contract for the layer above**: each call does to the volume what it does to a flat array of sectors, at each moment that a
//! stop may meet, in all sectors that aren't spent when the call returns (`Refines` of specs/Volume.antt); it is refused exactly by its
//! cause (specs/Calls.antt); each step of maintenance takes one work off those that are left (specs/Works.antt); drives are marked lost
//! only where their faults rose, or the caller lost them (`Marks`); and of the bay's disks only sectors of slices are written (`CallFrame`).
//!
//! **A replaced drive.** [`Pool::replace`] attaches a disk and takes it in at a place whose drive is missing, or gives way to it
//! (`ReplacesDrive` of specs/Naming.antt). The volume goes on with its values; each refusal has its cause, in a fixed order
//! (specs/Replacing.antt); what a stop inside leaves is read as before it, or with the new drive and its table. A drive that gives way
//! is cleaned first, with all arrays, and is the place's until the new one is (specs/Entering.antt). Runs of calls that attach disks too are joined by
//! proofs/Continuing.antt (`Continues`, `KeepsOutside`).
//!
//! **A growth.** [`Pool::add`] takes a drive in at the next place (`AddsDrive` of specs/Adding.antt), and [`Pool::replace`] a larger one in
//! the place of another (`EnlargesDrive` of specs/Enlarging.antt): each by one commit, which has the drive and the plan to grow by it.
//! [`Pool::grow`] then does the works that are left of the plan, in their order. A mirror becomes RAID-5, an array gets a member more and its
//! rows are moved over all of them, a new array is made over what the arrays leave and is zeroed, the volume is extended, and the plan ends.
//!
//! Of a growth it is promised what each call does to the book: its own change and losses, each with its cause, or why it is refused
//! (`GrowsBy` of specs/Growing.antt). That the volume keeps its values meanwhile, and what stops leave, is tested only.
#![tactic(auto)]

mod adding;
mod calls;
mod enlarging;
mod growing;
mod making;
mod reaching;
mod replacing;
mod standing;
mod taking;
mod works;

pub use assembler::{Part, Refusal};
pub use calls::{LoseFault, SectorFault};
use lvm_group::Volume;
pub use pool_format::{Birth, CreateFault};
use rack::Rack;
use raid_rack::RaidRack;
pub use raid_rack::Stuck;
pub use replacing::GrowFault;

/// An opened pool.
#[derive(Drop)]
pub struct Pool<R> {
    /// The volume, over the arrays of the drives.
    volume: Volume<RaidRack<R>>,
}
