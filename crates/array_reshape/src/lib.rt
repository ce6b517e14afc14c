//! The steps by which an array takes one member more: takeover, begin, its rows, and finish.
//!
//! [`take_over`] makes RAID-5 of a mirror's two members, which hold the same bytes either way. [`begin`] gives RAID-5 a member more at
//! the last position, with no row moved yet. [`rows`] moves the next rows of the members' data to the layout of all members, as many as
//! one record of the log holds: each of their sectors is read as the array has it, whoever is missing, and zeros stand for sectors past
//! the array's old end. [`row`] moves one. [`finish`] ends a reshape that has no row left: the array is as large then as its members
//! make it.
//!
//! New rows stand on sectors of old rows. Each is moved by them or was moved before them (`proofs/Addresses.antt` of reshape_laws), so
//! what an old row still has to give is never overwritten. Each step is one commit of the log, with the superblocks of the array after
//! it: a stop leaves the array before the step or the one after it, and never a row of both.
//!
//! **Their model** is `View` of array_model. The array after each step is `taken_over`, `begun`, `ahead_by` or `finished`
//! (`specs/Ahead.antt` of reshape_laws); nothing else of it changes but losses, which are noted with their cause.
//!
//! **The contract for the layer above** is one record, `Reshapes` (`specs/Reshapes.antt` of reshape_laws; `ReshapesRows` has it of so
//! many rows), beside the frames of `Array::write`. Its first half (`StepsTo`) speaks of the array alone: it is as it was, or the step is done, and it is done where the
//! answer is Ok. The second half speaks of contents: at each moment they say the array as before with superblocks from before, or by the
//! new superblocks, and after it the array holds what it held, in each sector, also past its old end, where there are zeros. Once it is
//! done each stop leaves the new superblocks, and the log is kept for the next commit. A step is refused exactly where two members are
//! missing after the losses of the call, or aren't rebuilt to their end (`lacks_two`); a joining place that isn't among the places of
//! the log's commits is one of them (`lacks_joined`).
#![tactic(auto)]

mod changes;
mod members;
mod new_rows;
mod steps;

pub use steps::{begin, finish, row, rows, take_over};
