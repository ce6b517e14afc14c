//! A bay whose disks are in memory, for tests and for the model of a stop.
//!
//! **The model.** A [`MemBay`] is a shelf of disks, each with contents before the first call, and the
//! list of all calls that it has kept (specs/Memory.antt). The values of a sector are told by those
//! calls (specs/History.antt): a write appends one, a sync of the disk keeps the last one alone. The
//! clock is the number of kept calls, and a stop after the first `k` of them leaves in each sector
//! one of the values that it had then.
//!
//! **The contract.** A `MemBay` meets `Bay` and tells everything: values, stops and what is ready. A
//! call is refused exactly where the room is full, the call is one that is to fail or its disk has
//! failed. [`MemBay::image_at`] gives a bay over the contents that a stop at a moment leaves
//! (specs/Picked.antt), so that a test can open them again.
//!
//! **Cost.** A read or a write looks up one entry of a table; no call scans those before it. All
//! memory is taken by `new`. An image costs, for each write, the calls back to the value it takes.
#![tactic(auto)]

mod calls;
mod image;
mod memory;
mod table;

pub use memory::MemBay;
use rack::Name;

/// A disk on the shelf of a bay.
#[derive(Debug, Drop)]
pub struct DiskSpec {
    /// The name by which it is attached.
    pub name: Name,
    /// Its sectors, fewer than 2^48.
    pub sectors: u64,
}

/// Which value a stop leaves in each sector.
#[derive(Clone, Copy, Debug, PartialEq, Eq)]
pub enum Pick {
    /// The oldest one, as if nothing since the disk's last sync had reached it.
    Oldest,
    /// The last one.
    Newest,
    /// Value number `(seed + 31 * disk + sector) % count` of the `count` values of a sector, the
    /// sum wrapping and the oldest value being number 0.
    Seeded {
        /// Another seed leaves another image.
        seed: u64,
    },
}
