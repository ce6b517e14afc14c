//! Opens a pool from the disks of a rack: [`assemble`] makes its volume, or answers the first refusal that applies.
//!
//! The pool is brought to rest (`pool_rest`), its drives are checked and its arrays opened (`pool_check`), the slices of their members
//! are laid, gates that are open are closed, the copies of partition tables are made to agree, drives that are absent are marked missing,
//! superblocks that differ are made to agree (`raid_rack`), and the volume is opened on the arrays (`lvm_group`), after which superblocks are
//! made to agree once more where a text was written to an array. A drive that goes after the checks is a loss, as in any call.
//!
//! **Its model** is that of the parts: `Raid` of raid_laws, `Linear` of lvm_group, and the pool that contents of disks mean, of
//! pool_image.
//!
//! **The contract of [`assemble`]**. Whatever the disks tell the volume is fit, so each of its calls may be made, and where it is refused
//! before the drives have passed their checks nothing is written but the pending record, on drives of the pool (`WritesDrives` of
//! pool_rest). Where the disks hold a sound pool (`HoldSound` of specs/Sound.antt) and none refuses a call, the volume is the one that
//! they mean, over the slices of their pool's drives (`IsMeantBy`), and they are refused only as their meaning is (`IsMeantRefusal`), or for
//! want of memory; both copies of each drive's partition table are the table that its disk had, and the superblocks of each array agree,
//! durably (`HaveAgreed`). In all, only drives are written (`WritesPool` of specs/Writing.antt of assembler_laws). At each moment of it what a stop leaves holds the pool still, so that
//! it may be opened again (`StopsHold`, `RecoversInOpening` of pool_model), says its volume (`IsMeantBy.says`), isn't refused, and means it again
//! (`StopsMean`, `HoldMeaning` of pool_model). Targets land in that pool as they did in the one that there was, so
//! the next opening tells of its stops too, however often openings are stopped (`holds_opened`, `holds_left`, proofs/Again.antt; `holds_amid` for a call that was stopped,
//! `holds_landing` for what a pool leaves between its calls).
//!
//! Whatever the disks tell and whoever goes, a refusal has its cause in what was read of them (`HasRefusalCause` of specs/Causes.antt): no pool or two by the
//! copies of the state (`FindsNoPool`); the first refusal of the pool that the disks left make, where a place has lost its disk only where that refused a call,
//! each disk that is left was read, and the logs are those of the pool's drives (`RefusesDrives`); or a bad array of those that the disks left make
//! (`RefusesArrays`). How many drives are wanting is said, by what was read, of disks that tell nothing too. Sound disks that refuse no call mean what they meant after a
//! refusal before the arrays are made; where an array's part of the volume group is bad, what a stop leaves holds the arrays that the pool had, each
//! drive has its partition table, and in the end the disks hold a sound pool again, with the same group, shapes of arrays, bad arrays and volumes, are refused as they were, and targets land there as before (`KeepsPool`).
//! After want of memory it is one or the other, unless numbers are used up (`LeavesPool` of
//! specs/Wanting.antt). Whoever goes, a drive is marked missing only where it had no disk, or that refused a call (`MarksDrives` of specs/Marking.antt of assembler_laws).
//! The pool's epoch, the events of its arrays and the log's number rise by a bounded number (`most_opening` of specs/Raising.antt of assembler_laws; `IsMeantBy.epoch`,
//! `IsMeantBy.events`, `IsMeantBy.number`, `MarksDrives.epoch`): making the rack counts its commits, and opening the volume its calls.
//!
//! Inside the crate the arrays are those of the superblocks that were read, over the slices of the drives (`AreMembers` of
//! specs/Members.antt of assembler_laws), and they hold what the pool's contents give (`HoldsArrays` of specs/Holding.antt of assembler_laws). While they are made of disks at rest
//! (`HoldRested` of specs/Rested.antt), what a stop leaves holds the pool still (`making_leaves`, proofs/Stopping.antt).
#![tactic(auto)]

mod checks;
mod mending;
mod opening;
mod raid;
mod refusal;

pub use opening::assemble;
pub use pool_check::Part;
pub use refusal::Refusal;
