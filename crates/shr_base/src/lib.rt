//! Numbers that every layer of the pool shares: ids and their stored orders, the checksums of GPT,
//! LVM2 and md, and the units of a drive.
//!
//! Each call takes no memory and equals one definition of `specs/`, in the words of the public
//! standard: a cyclic redundancy check as the remainder by its polynomial, an id as the name-based
//! UUID of RFC 4122. How a call computes it is its own affair, so a layer above rests on the
//! definitions alone. `fields` reads and writes fields at fixed places of a block, for the codecs above.
#![tactic(auto)]

mod crc;
mod extents;
pub mod fields;
mod ids;
mod remainders;
mod sum;

pub use crc::{crc32, lvm_crc};
pub use extents::units;
pub use ids::{Id, child_id, guid_bytes, guid_id, lvm_id};
pub use sum::md_sum;
