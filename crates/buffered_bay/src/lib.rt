//! A bay of files with a buffer for each: neighbouring sectors go to a file in one call and come from
//! it in one.
//!
//! A disk of a bay is read and written by sectors of 512 bytes. A [`BufferedBay`] keeps for each disk
//! a window of up to 128 sectors in a row (64 KiB) whose current values are in the disk's buffer. A
//! write changes the buffer alone. The part of the window that the file doesn't have yet, its dirty
//! sectors, goes out in one call: where a write doesn't join it, at a sync, and when the bay is
//! dropped. A read that follows on the read before it fills the window, any other reads one sector.
//!
//! **The files.** A [`FileStore`] is a numbered set of files, each with a buffer of 128 places: `put`
//! and `get` copy a sector to and from a place, `load` reads sectors in a row into the first places,
//! `store` writes places in a row to sectors in a row, `sync` makes durable what was stored. What it
//! shows (specs/View.antt) is the files as a rack, the places, and what a read of each file gives. A
//! value that was put for a sector is one of those that a stop may leave in it from then on, since
//! the file may take it at any time. It need not have it before a `store` is answered Ok.
//!
//! **The model.** The bay shows the files as the rack that they are: a put value is the current one
//! of its sector. The invariant (specs/Buffered.antt): a window's places have the current values of
//! its sectors, the file has the current value of each sector that isn't dirty, and each sector of a
//! disk that wasn't written since its last sync holds one value.
//!
//! **The contract for the layer above** is that of `Bay`, over any files. So a read gives what was
//! written last, wherever it stands, and a sync answers Ok only once the file has all current values
//! and was synced since.
//!
//! **Faults.** A `store` that is refused is a fault of its disk: the call that meets it answers
//! `Gone`, the sectors stay dirty, and no sync of the disk answers Ok until they are stored. A `load`
//! that is refused is counted too, and the one sector that was asked for is read by itself. Room is
//! taken when a disk is attached, and none later. A disk that wasn't written since its last sync
//! isn't synced again; the first sync after it was attached is made.
#![tactic(auto)]

mod bay;
mod files;
mod windows;

pub use bay::BufferedBay;
pub use files::FileStore;

/// Places of a buffer, a sector each.
pub const PLACES: u64 = 128;
