//! The outside of the pool: racks of disks, and bays that attach disks by name.
//!
//! A [`Rack`] is a numbered set of disks of 512-byte sectors. Everything that the engine stores goes
//! through it: image files, disks in memory, slices of disks and whole arrays are racks, and each
//! layer works over any rack by this contract alone.
//!
//! **The model.** What a rack shows to contracts is one record, `RackView` (specs/RackView.antt): for each
//! sector the values since its disk's last sync, the last one current; a clock; what a stop at each
//! moment may leave; a count of faults for each disk; and the sectors that are spent. A sector write
//! is atomic, and after a stop each sector holds one of its values, each sector by itself.
//!
//! **The contract.** `read` gives the current value, `write` appends one, `sync` keeps the last one
//! alone, and a refusal comes only where that disk's faults rose. Each call has one clause, a
//! relation between what the rack shows before and after it (specs/Calls.antt). What a layer below
//! promises beyond that reaches the layers above through the relations `runs`, of calls in a row, and
//! `once`, of a single one.
//!
//! **Calls in a row** are one: reads alone, writes of a list of targets on disks of which some go, syncs
//! of many disks, a write made durable (specs/Sequences.antt). The lemmas that join them are promises
//! of this crate: specs/Joins.antt for two calls, proofs/Reading.antt, Phases.antt and Durably.antt for
//! any number; proofs/Calling.antt counts them (specs/Several.antt).
#![tactic(auto)]

mod durable;
mod name;
mod references;

ghost use Rattle.std.specs.Prelude.{◌≡◌, ℕ, ◌<◌, ◌^◌, List, length, false};
ghost use Rattle.rack.specs.Seen.{RackView};
ghost use Rattle.rack.specs.Moments.{IsSound};
ghost use Rattle.rack.specs.Calls.{Reads, Writes, Syncs};
ghost use Rattle.rack.specs.Shelf.{Shelf, KeepsShelf, Attaches};

use arrayvec::ArrayVec;
pub use durable::write_durably;
pub use name::Name;

/// Bytes in a sector.
pub const SECTOR_BYTES: usize = 512;

/// Places of drives in a pool: at most 16.
pub type Places = ArrayVec<u32, 16>;

/// No memory could be had; the call changed nothing else.
#[derive(Clone, Copy, Debug, PartialEq, Eq)]
pub struct NoMemory;

/// A disk refused a call; its count of faults rose.
#[derive(Clone, Copy, Debug, PartialEq, Eq)]
pub struct Gone {
    /// The number of the disk that was called.
    pub disk: u32,
}

/// A rack that was handed in by value, with the reason why it comes back.
#[derive(Debug, Drop)]
pub struct Back<R, E> {
    /// The rack, as the refused call left it.
    pub rack: R,
    /// Why the call refused.
    pub why: E,
}

/// Why a name couldn't be attached. Nothing has changed but the bay's count of faults.
#[derive(Clone, Copy, Debug, PartialEq, Eq)]
pub enum AttachFault {
    /// There is no such disk, or it can't be opened; the bay's own count of faults rose.
    Failed,
    /// The name is attached already.
    Twice {
        /// The number of its disk.
        disk: u32,
    },
    /// No memory could be had.
    Memory,
}

/// A numbered set of disks.
pub trait Rack: Drop {
    /// All that contracts see of a rack.
    ghost seen: { Self → RackView };

    /// What calls in a row do to the layers below, beyond the disks that this rack shows: a rack of arrays
    /// says here what images of its drives say of its books. A rack over another one passes it on.
    ghost runs: { Self → Self → Type 0 };

    /// What a single call does to them. A run says nothing of how many calls it has: a rack of arrays bounds here by how much the
    /// numbers of its books rise.
    ghost once: { Self → Self → Type 0 };

    /// What calls in a row that only read keep, beyond what all runs do: a rack of arrays says here that it has written none.
    ghost unwritten: { Self → Self → Type 0 };

    /// The number of disks. No call of `Rack` changes it.
    fn disks(&self) -> u32
        requires { (seen self.now).fit }
        ensures { result ≡ (seen self.now).disks };

    /// The sectors of a disk, fewer than 2^52. No call of `Rack` changes them.
    fn sectors(&self, disk: u32) -> u64
        requires fit { (seen self.now).fit }
        requires disk { disk < (seen self.now).disks }
        ensures number { result ≡ (seen self.now).sectors disk }
        ensures bounded { result < 2 ^ 52 };

    /// Reads the current value of a sector.
    fn read(&mut self, disk: u32, sector: u64, into: &mut [u8; 512]) -> Result<(), Gone>
        requires fit { (seen self.old).fit }
        requires disk { disk < (seen self.old).disks }
        requires sector { sector < (seen self.old).sectors disk }
        ensures reads { Reads (seen self.old) (seen self.new) disk sector into.new result }
        ensures unwritten { unwritten self.old self.new }
        ensures runs { runs self.old self.new }
        ensures once { once self.old self.new };

    /// Appends a value to those of a sector. It is durable once the disk has been synced.
    fn write(&mut self, disk: u32, sector: u64, from: &[u8; 512]) -> Result<(), Gone>
        requires fit { (seen self.old).fit }
        requires disk { disk < (seen self.old).disks }
        requires sector { sector < (seen self.old).sectors disk }
        ensures writes { Writes (seen self.old) (seen self.new) disk sector from.now result }
        ensures runs { runs self.old self.new }
        ensures once { once self.old self.new };

    /// Makes the current values of a disk durable.
    fn sync(&mut self, disk: u32) -> Result<(), Gone>
        requires fit { (seen self.old).fit }
        requires disk { disk < (seen self.old).disks }
        ensures syncs { Syncs (seen self.old) (seen self.new) disk result }
        ensures runs { runs self.old self.new }
        ensures once { once self.old self.new };

    /// At any moment a stop leaves held values, and may leave the contents as they read.
    ghost sound: { (x : Self) → (seen x).fit → (seen x).traced → IsSound (seen x) };

    /// No call is a run, and runs in a row are one.
    ghost runs_same: { (x : Self) → runs x x };

    ghost runs_then: { (x y z : Self) → runs x y → runs y z → runs x z };

    /// So it is with calls that only read.
    ghost unwritten_same: { (x : Self) → unwritten x x };

    ghost unwritten_then: { (x y z : Self) → unwritten x y → unwritten y z → unwritten x z };
}

/// A rack whose disks are attached by name.
pub trait Bay: Rack {
    /// The names, attached and not.
    ghost shelf: { Self → Shelf };

    /// What all calls in a row keep, attaching included: the reference through which the bay is reached, so that a caller that
    /// lent it gets it back, and what a bay promises of disks that it doesn't show.
    ghost frame: { Self → Self → Type 0 };

    /// Adds the disk of this name, with the next number, and gives that number.
    fn attach(&mut self, name: &str) -> Result<u32, AttachFault>
        ensures attaches { Attaches (Self.seen self.old) (Self.seen self.new) (shelf self.old) (shelf self.new) name.now result }
        ensures frame { frame self.old self.new };

    /// A bay needs no tables of its own.
    ghost always_fit: { (x : Self) → (Self.seen x).fit };

    /// No sector of a drive is spent.
    ghost unspent: { (x : Self) (d s : ℕ) → (Self.seen x).spent d s ≡ false };

    /// None ever will be.
    ghost lasting: { (x : Self) → (Self.seen x).lasting };

    /// A disk of a bay has fewer than 2^48 sectors.
    ghost bounded: { (x : Self) (d : ℕ) → d < (Self.seen x).disks → (Self.seen x).sectors d < 2 ^ 48 };

    /// Calls of a rack leave the names, what waits and the bay's own count of faults alone.
    ghost runs_shelf: { (x y : Self) → Self.runs x y → KeepsShelf (shelf x) (shelf y) };

    /// They keep the frame, as calls in a row do.
    ghost runs_frame: { (x y : Self) → Self.runs x y → frame x y };

    ghost frame_same: { (x : Self) → frame x x };

    ghost frame_then: { (x y z : Self) → frame x y → frame y z → frame x z };

    /// Each disk has its name.
    ghost numbered: { (x : Self) → length (shelf x).names ≡ (Self.seen x).disks };
}
