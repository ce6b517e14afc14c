//! The superblock of Linux md, version 1, as a codec: a block of bytes to what it says and back.
//!
//! Its model is one table, `fields_of` in `specs/Layout.antt`, which says where each field of a
//! superblock stands. `decode` gives the fields of that table, or the first of three faults.
//! `encode` writes a block from which they are read again, with zeros in all bytes that the table
//! leaves free. `profile` says whether an array of these fields is one of this pool's.
//!
//! The one contract for the layer above: what `encode` writes, `decode` reads back.
#![tactic(auto)]

mod offsets;
mod pool_profile;
mod reading;
mod superblock;
mod writing;

pub use pool_profile::profile;
pub use reading::decode;
pub use superblock::{Field, Super, SuperFault, Unsupported};
pub use writing::encode;
