//! One array over its members' slices: a mirror, or RAID-5, whole or with a member missing or rebuilding.
//!
//! An [`Array`] is opened from the superblocks of its members. It knows of each member the place of its drive, whether its data
//! counts and how far, and its id; and which rows the opening found left to resync. Some calls change what it knows, or build
//! the superblocks that say it; the others read and write its sectors over a rack of slices, and note whoever answers `Gone`.
//!
//! **Its model** is `View` of array_model: the array's number, its truth, which is the superblock of most events, the seats and
//! ids by position, the places that answered `Gone`, the first row left to resync, whether it is young, and whether its mark was
//! made in this run. Each call without a rack is an equation on it (`specs/Opening.antt`, `specs/Seats.antt`,
//! `specs/Superblocks.antt`), so what a call leaves alone stays as it was.
//!
//! **The contract for the layer above.** [`Array::open`] answers the view of the superblocks that were found, or the first of
//! three refusals whose cause holds; where these are the superblocks that contents of slices have, it answers what the contents
//! say, and the view's shape is theirs (`proofs/Opened.antt`). [`Array::stage`] adds the superblocks of a change to the log, and
//! [`Array::adopt`] makes the array that of the change: in any contents that have the added superblocks, the array has this
//! shape, its truth has these fields, and its superblocks agree where its rows do (`proofs/Staged.antt`).
//!
//! **Over a rack of slices** [`Array::read`], [`Array::member`], [`Array::sync`] and [`Array::settle`] are each one record of
//! array_model: what stops in the call leave says what the array held, it holds that after the call, and no other array is
//! touched. A member that answers `Gone` is noted and missing from then on, and the call goes on with the others; a sector is
//! refused exactly where it is spent after that. Members are a list that loops walk, and a row is a layout over its first
//! members, so an array that is being reshaped is read by two layouts and a border, and a member that is being rebuilt by its reach.
//!
//! **Writes.** [`Array::write`] is one such record too, under the pool's premises (`MayCommit` of `specs/Pool.antt`): images go by the
//! run's marks, nobody went since they were last heeded, and the log is kept. A whole array is marked first, once, and its rows go
//! past the log; so does a mirror with one member. Any other row is one commit of the log: copies, or a sector and its parity, on the
//! members that counted there when the call began, whoever went since. The log is kept for the next commit. In no image that a stop
//! leaves does a write change the truth of an array that isn't whole; [`Array::clean`] leaves the old truth, or the one with the
//! rows to resync that are left in this run (`LeavesTruth` of `specs/TruthLeft.antt`).
#![tactic(auto)]

mod blank;
mod logged;
mod members;
mod opening;
mod reading;
mod seats;
mod settling;
mod slots;
mod staging;
mod superblocks;
mod writing;

pub use array_model::Seat;
use arrayvec::ArrayVec;
use md_super::Super;
pub use opening::truth_of;
use rack::Places;
use slots::Slot;
use std::marker::Model;

/// A place, and the valid superblock of the array that was found there.
#[derive(Debug, Default, Drop)]
pub struct Found {
    /// The place of the drive.
    pub place: u32,
    /// None of a drive that is missing or absent.
    pub seen: Option<Super>,
}

/// Why superblocks make no array. They are looked for in this order.
#[derive(Clone, Copy, Debug, PartialEq, Eq)]
pub enum ArrayFault {
    /// Two of them have different set ids, or none is there.
    Foreign,
    /// Two members or more are missing or rebuilding.
    TooFew,
    /// A member is missing or rebuilding, and rows are left to resync.
    DirtyDegraded,
}

/// A sector of the array that can't be had any more: too many of its copies are lost.
#[derive(Clone, Copy, Debug, PartialEq, Eq)]
pub struct Spent {
    /// The sector of the array.
    pub sector: u64,
}

/// A change of the array's superblocks: other array fields, or how far a member is rebuilt.
#[derive(Debug, Drop)]
pub struct Change {
    /// The array fields from then on, and the id of a member that its roles newly name.
    pub truth: Super,
    /// The place of a member that is being rebuilt.
    pub place: Option<u32>,
    /// How many sectors of that member's data are rebuilt.
    pub to: u64,
}

/// One array.
#[derive(Debug, Drop)]
pub struct Array {
    number: u32,
    /// The superblock of most events.
    truth: Super,
    /// The members, by position.
    slots: ArrayVec<Slot, 16>,
    /// The places that answered `Gone` since they were last heeded.
    went: Places,
    /// The first row left to resync.
    resync: u64,
    young: bool,
    /// Whether its `resync_offset` was made 0 by a write of this run.
    marked: bool,
}

impl Model for Array {
    ghost use Rattle.array_model.specs.View.{View};

    ghost Value = { View };

    ghost use Rattle.array_core.specs.Model.{view_of, IsMade};

    ghost view = { view_of };

    ghost invariant = { IsMade };
}
