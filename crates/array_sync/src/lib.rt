//! The rows of an array that are left to resync, to rebuild or to zero: the next ones by one commit, at least one and at most as many
//! as the caller says.
//!
//! [`resync_rows`] takes the first rows that are left. A mirror's other members get the chunk of its first one, and of RAID-5 the parity
//! is computed from the data: the members whose sectors make the others of a row are one list (`makes_others` of `specs/Rows.antt` of sync_laws),
//! and what they give is one sum. One commit of the log has the sectors that are made of others and the superblocks that leave the
//! rows after them; those after the last row leave none. Rows whose members agree already are read and not written, so most of those
//! that a stop left share one commit of superblocks. A row of an array that is being reshaped goes by the layout of its side.
//!
//! [`rebuild_rows`] takes the next rows of a member that is being rebuilt. Its sectors are what the others of a row give
//! (`Array::member`), and one commit has them and the superblocks by which that member counts in the rows; those after the last row
//! end the rebuild. A row that doesn't have the member, in an array that is being reshaped, gets zeros.
//!
//! [`zero_rows`] takes the next rows of a young array. One commit has zeros for each member that counts in a row and the superblocks
//! that leave the rows after them. Its contract is `Zeroes`: the same for the array whose rows left to zero count as left to resync
//! (`zeroing`), where the rows before them keep their values, and once it is done each stop leaves zeros in the rows.
//!
//! [`resync_row`], [`rebuild_row`] and [`zero_row`] do one row.
//!
//! **Their model** is `View` of array_model: once rows are resynced the array has one more event, and its first row left to resync is
//! the one after them (`resynced` of `specs/Steps.antt` of sync_laws); once rows are rebuilt the member counts in them, and is whole
//! after the last (`rebuilt`). Nothing else of it changes but losses, which are noted with their cause.
//!
//! **The contract for the layer above** of the first two is one record, `StepsRows`, beside the frames of `Array::write`: so many rows, and
//! `Steps` for them. The array is as it was, or the rows are done, and they are done where the answer is Ok, which says how many. At each
//! moment contents say the array as before with superblocks from before, or by the new superblocks, and its values stay (`StepRefines` of
//! array_model); after it the array holds what it held, and the members of the rows agree. Once they are done each stop leaves the new
//! superblocks. The log is kept for the next commit. Rows of a resync are refused exactly where a member is missing after the losses of
//! the call, or isn't rebuilt past the first of them (`lacks_row`); those of a rebuild exactly where another member is so, or the first
//! of them is left to resync (`others_give`).
//!
//! The proofs of a step by one commit are over any change of an array's truth and seats (`Step` of `proofs/Stepping.antt` of sync_laws).
#![tactic(auto)]

mod alike;
mod members;
mod rebuilding;
mod resyncing;
mod rows;
mod zeroing;
mod zeros;

pub use rebuilding::{rebuild_row, rebuild_rows};
pub use resyncing::{resync_row, resync_rows};
pub use rows::lacks_row;
pub use zeroing::{zero_row, zero_rows};
