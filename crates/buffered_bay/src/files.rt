//! Files with buffers.

ghost use Rattle.std.specs.Prelude.{◌≡◌, ◌≢◌, ◌<◌, ◌≤◌, ◌+◌, ◌^◌, ℕ, Some, slice_get, length, IfSome, IfNone};
ghost use Rattle.rack.specs.Values.{MayLeave};
ghost use Rattle.rack.specs.Seen.{IsLive};
ghost use Rattle.rack.specs.Moments.{IsSound};
ghost use Rattle.rack.specs.Shelf.{Shelf, KeepsShelf};
ghost use Rattle.buffered_bay.specs.View.{View, IsPlain};
ghost use Rattle.buffered_bay.specs.StoreCalls.{Puts, ReadsFile, Loads, Stores, SyncsFile, AttachesFile};

use rack::{AttachFault, Gone};

/// A numbered set of files of whole sectors, each with a buffer of [`PLACES`](crate::PLACES) places. A call with a count works on
/// so many sectors in a row, in one call of the system where it can.
pub trait FileStore: Drop {
    /// All that contracts see of the files.
    ghost view: { Self → View };

    /// The names, attached and not.
    ghost shelf: { Self → Shelf };

    /// Files of this kind tell what they hold.
    ghost tells: { Type 0 };

    /// The number of attached files.
    fn disks(&self) -> u32
        ensures { result ≡ (view self.now).seen.disks };

    /// The sectors of a file.
    fn sectors(&self, disk: u32) -> u64
        requires { disk < (view self.now).seen.disks }
        ensures { result ≡ (view self.now).seen.sectors disk };

    /// The number of the file that is attached by a name.
    fn named(&self, name: &str) -> Option<u32>
        ensures found { IfSome result (λ d. slice_get (shelf self.now).names d ≡ Some name.now) }
        ensures only { IfSome result (λ d. (e : ℕ) → slice_get (shelf self.now).names e ≡ Some name.now → e ≡ d) }
        ensures none { IfNone result ((d : ℕ) → slice_get (shelf self.now).names d ≢ Some name.now) };

    /// Attaches a file by a name that isn't attached, with room for its buffer.
    fn attach(&mut self, name: &str) -> Result<u32, AttachFault>
        requires { (d : ℕ) → slice_get (shelf self.old).names d ≢ Some name.now }
        ensures { AttachesFile (view self.old) (view self.new) (shelf self.old) (shelf self.new) name.now result };

    /// Copies a place of a file's buffer.
    fn get(&self, disk: u32, place: u64, into: &mut [u8; 512])
        requires disk { disk < (view self.now).seen.disks }
        requires place { place < 128 }
        ensures { (view self.now).seen.told disk → into.new ≡ (view self.now).buffer disk place };

    /// Copies a sector's new value to a place of its file's buffer.
    fn put(&mut self, disk: u32, sector: u64, place: u64, from: &[u8; 512]) -> Result<(), Gone>
        requires disk { disk < (view self.old).seen.disks }
        requires sector { sector < (view self.old).seen.sectors disk }
        requires place { place < 128 }
        ensures puts { Puts (view self.old) (view self.new) disk sector place from.now result }
        ensures shelf { KeepsShelf (shelf self.old) (shelf self.new) };

    /// Reads one sector from its file, past the buffer.
    fn read(&mut self, disk: u32, sector: u64, into: &mut [u8; 512]) -> Result<(), Gone>
        requires disk { disk < (view self.old).seen.disks }
        requires sector { sector < (view self.old).seen.sectors disk }
        ensures reads { ReadsFile (view self.old) (view self.new) disk sector into.new result }
        ensures shelf { KeepsShelf (shelf self.old) (shelf self.new) };

    /// Reads sectors in a row into the first places of the file's buffer.
    fn load(&mut self, disk: u32, sector: u64, count: u64) -> Result<(), Gone>
        requires disk { disk < (view self.old).seen.disks }
        requires sectors { sector + count ≤ (view self.old).seen.sectors disk }
        requires places { count ≤ 128 }
        ensures loads { Loads (view self.old) (view self.new) disk sector count result }
        ensures shelf { KeepsShelf (shelf self.old) (shelf self.new) };

    /// Writes places in a row, which have the current values of these sectors, to the file.
    fn store(&mut self, disk: u32, sector: u64, place: u64, count: u64) -> Result<(), Gone>
        requires disk { disk < (view self.old).seen.disks }
        requires sectors { sector + count ≤ (view self.old).seen.sectors disk }
        requires places { place + count ≤ 128 }
        requires current { tells → (p : ℕ) → p < count
            → (view self.old).buffer disk (place + p) ≡ ((view self.old).seen.held disk (sector + p)).current }
        ensures stores { Stores (view self.old) (view self.new) disk sector place count result }
        ensures shelf { KeepsShelf (shelf self.old) (shelf self.new) };

    /// Makes what the file has durable.
    fn sync(&mut self, disk: u32) -> Result<(), Gone>
        requires { disk < (view self.old).seen.disks }
        ensures syncs { SyncsFile (view self.old) (view self.new) disk result }
        ensures shelf { KeepsShelf (shelf self.old) (shelf self.new) };

    /// Files tell all or nothing, have no spent sectors and fewer than 2^48 of them each.
    ghost plain: { (x : Self) → IsPlain tells (view x).seen };

    /// At any moment a stop leaves held values, and may leave the contents as they read.
    ghost sound: { (x : Self) → (view x).seen.traced → IsSound (view x).seen };

    /// What a file has a stop may leave.
    ghost left: { (x : Self) (d s : ℕ) → IsLive (view x).seen (view x).seen d s → MayLeave ((view x).seen.held d s) ((view x).stored d s) };

    /// Each file has its name.
    ghost numbered: { (x : Self) → length (shelf x).names ≡ (view x).seen.disks };
}
