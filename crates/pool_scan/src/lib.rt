//! Scans the disks of a rack for a pool: which state is the newest, whether two pools are there, and which disk is which drive.
//!
//! Disks come in any order and any number, foreign ones among them. A disk with a valid copy of a state is the drive that the copy
//! names, whatever its table says; one without a copy is the drive whose id its table has (docs/FORMATS.md, 'State sector').
//! Nothing is written.
//!
//! **Its model** is `Identities` of pool_image: what each disk says. [`scan_disks`] reads of each disk the copy, and the table where it has
//! none, once; `specs/Scanning.antt` ties what it answers to what the disks hold: each part is as the disk has it, or the disk
//! refused the call and the part counts as not there.
//!
//! **The contract for the layer above**: over the identities that were read, [`Scan::newest`], [`Scan::has_other_pool`] and
//! [`Scan::seat`] answer `newest`, `has_other_pool` and `seat_of` of pool_image.
#![tactic(auto)]

mod choosing;
mod reading;

use pool_state::Copied;
pub use reading::scan_disks;
use shr_base::Id;

/// What a disk says of a pool.
#[derive(Debug, Drop)]
pub struct Known {
    /// Its copy of a state, if it has a valid one.
    pub copied: Option<Copied>,
    /// The id of the drive that it is: that which its copy names, or without a copy that of its table.
    pub id: Option<Id>,
    /// It refused a call of the scan.
    pub gone: bool,
}

/// What all disks of a rack say, by their numbers.
#[derive(Debug, Drop)]
pub struct Scan {
    /// One a disk.
    pub disks: Vec<Known>,
}
