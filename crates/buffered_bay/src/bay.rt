//! The bay.

ghost use Rattle.std.specs.Prelude.{◌≡◌, ◌≢◌, ◌⊎◌, ◌<◌, ◌++◌, ◌∷◌, [], ℕ, OnOk, vec_len, vec_capacity};
ghost use Rattle.rack.specs.Seen.{Rose};
ghost use Rattle.rack.specs.Calls.{Reads, Writes, Syncs};
ghost use Rattle.rack.specs.Sequences.{OnlyReads};
ghost use Rattle.rack.specs.Shelf.{KeepsShelf};
ghost use Rattle.buffered_bay.specs.View.{IsWritten, KeepsFile};
ghost use Rattle.buffered_bay.specs.Buffered.{AreWindows, HasClean, HasEmpty, HasTaking, Quiet};

use crate::PLACES;
use crate::files::FileStore;
use crate::windows::Window;
use rack::{AttachFault, Bay, Gone, Rack};
use std::alloc::Global;

/// A bay over files, with a window of sectors for each of its disks.
pub struct BufferedBay<F: FileStore> {
    files: F,
    windows: Vec<Window>,
    ghost buffered: { AreWindows F.tells (F.view files) windows.items },
}

impl<F: FileStore> BufferedBay<F> {
    /// A bay over files of which none is attached.
    pub fn new(alloc: Global, files: F) -> BufferedBay<F>
        requires { (F.view files).seen.disks ≡ 0 }
        ensures { result.files ≡ files }
    {
        BufferedBay {
            files,
            windows: Vec::new(alloc),
        }
    }

    /// The files.
    pub fn files(&self) -> &F
        ensures { result.now ≡ self.now.files }
    {
        &self.files
    }

    /// Stores all dirty sectors. A disk that refuses them counts a fault, and they stay dirty.
    pub fn write_back_all(&mut self)
        ensures reads { OnlyReads (F.view self.old.files).seen (F.view self.new.files).seen }
        ensures shelf { KeepsShelf (F.shelf self.old.files) (F.shelf self.new.files) }
        ensures written { (d : ℕ) → d < (F.view self.old.files).seen.disks
            → IsWritten F.tells (F.view self.new.files) d
            ⊎ Rose ((F.view self.old.files).seen.faults d) ((F.view self.new.files).seen.faults d) }
    {
        for disk in 0..self.files.disks() {
            self.try_write_back(disk);
        }
    }

    // Stores the dirty sectors of a disk, or counts its fault.
    fn try_write_back(&mut self, disk: u32)
        requires { disk < (F.view self.old.files).seen.disks }
        ensures reads { OnlyReads (F.view self.old.files).seen (F.view self.new.files).seen }
        ensures shelf { KeepsShelf (F.shelf self.old.files) (F.shelf self.new.files) }
        ensures written { IsWritten F.tells (F.view self.new.files) disk
            ⊎ Rose ((F.view self.old.files).seen.faults disk) ((F.view self.new.files).seen.faults disk) }
        ensures others { (d : ℕ) → d < (F.view self.old.files).seen.disks → d ≢ disk
            → KeepsFile F.tells (F.view self.old.files) (F.view self.new.files) d }
    {
        match self.write_back(disk) {
            Ok(()) => {}
            Err(_) => {}
        }
    }

    // Stores the dirty sectors of a disk, in one call.
    fn write_back(&mut self, disk: u32) -> Result<(), Gone>
        requires { disk < (F.view self.old.files).seen.disks }
        ensures quiet { Quiet (F.view self.old.files) (F.view self.new.files) (F.shelf self.old.files) (F.shelf self.new.files) disk result }
        ensures clean { OnOk result (HasClean self.new.windows.items disk) }
        ensures others { (d : ℕ) → d < (F.view self.old.files).seen.disks → d ≢ disk
            → KeepsFile F.tells (F.view self.old.files) (F.view self.new.files) d }
    {
        let mut window = self.windows[disk as usize];
        let count = window.dirty_to - window.dirty_from;
        if count == 0 {
            return Ok(());
        }
        let sector = window.first + window.dirty_from;
        match self.files.store(disk, sector, window.dirty_from, count) {
            Ok(()) => {
                window.clean();
                self.windows[disk as usize] = window;
                Ok(())
            }
            Err(gone) => Err(gone),
        }
    }

    // Makes the window take a sector's new value.
    fn make_room(&mut self, disk: u32, sector: u64) -> Result<(), Gone>
        requires disk { disk < (F.view self.old.files).seen.disks }
        requires sector { sector < (F.view self.old.files).seen.sectors disk }
        ensures quiet { Quiet (F.view self.old.files) (F.view self.new.files) (F.shelf self.old.files) (F.shelf self.new.files) disk result }
        ensures takes { OnOk result (HasTaking self.new.windows.items disk sector) }
    {
        if self.windows[disk as usize].takes(sector) {
            return Ok(());
        }
        self.restart(disk, sector)
    }

    // Stores the dirty sectors of a disk, whose window begins anew at a sector.
    fn restart(&mut self, disk: u32, sector: u64) -> Result<(), Gone>
        requires disk { disk < (F.view self.old.files).seen.disks }
        requires sector { sector < (F.view self.old.files).seen.sectors disk }
        ensures quiet { Quiet (F.view self.old.files) (F.view self.new.files) (F.shelf self.old.files) (F.shelf self.new.files) disk result }
        ensures empty { OnOk result (HasEmpty self.new.windows.items disk sector) }
    {
        match self.write_back(disk) {
            Ok(()) => {}
            Err(gone) => return Err(gone),
        }
        let mut window = self.windows[disk as usize];
        window.restart(sector);
        self.windows[disk as usize] = window;
        Ok(())
    }

    // Puts a sector's value into the window, which takes it.
    fn put(&mut self, disk: u32, sector: u64, from: &[u8; 512]) -> Result<(), Gone>
        requires disk { disk < (F.view self.old.files).seen.disks }
        requires sector { sector < (F.view self.old.files).seen.sectors disk }
        requires takes { HasTaking self.old.windows.items disk sector }
        ensures writes { Writes (F.view self.old.files).seen (F.view self.new.files).seen disk sector from.now result }
        ensures shelf { KeepsShelf (F.shelf self.old.files) (F.shelf self.new.files) }
    {
        let mut window = self.windows[disk as usize];
        let place = sector - window.first;
        match self.files.put(disk, sector, place, from) {
            Ok(()) => {
                window.mark(place);
                self.windows[disk as usize] = window;
                Ok(())
            }
            Err(gone) => Err(gone),
        }
    }

    // Reads a sector and those behind it into the window, where the file gives them.
    fn read_ahead(&mut self, disk: u32, sector: u64) -> Result<(), Gone>
        requires disk { disk < (F.view self.old.files).seen.disks }
        requires sector { sector < (F.view self.old.files).seen.sectors disk }
        ensures quiet { Quiet (F.view self.old.files) (F.view self.new.files) (F.shelf self.old.files) (F.shelf self.new.files) disk result }
    {
        match self.restart(disk, sector) {
            Ok(()) => {}
            Err(gone) => return Err(gone),
        }
        let count = PLACES.min(self.files.sectors(disk) - sector);
        let mut window = self.windows[disk as usize];
        match self.files.load(disk, sector, count) {
            Ok(()) => {
                window.fill(count);
                self.windows[disk as usize] = window;
            }
            // The one sector is read by itself.
            Err(_) => {}
        }
        Ok(())
    }

    // Fills the window where a read of a sector follows on the one before it.
    fn follow(&mut self, disk: u32, sector: u64) -> Result<(), Gone>
        requires disk { disk < (F.view self.old.files).seen.disks }
        requires sector { sector < (F.view self.old.files).seen.sectors disk }
        ensures quiet { Quiet (F.view self.old.files) (F.view self.new.files) (F.shelf self.old.files) (F.shelf self.new.files) disk result }
    {
        let window = self.windows[disk as usize];
        if window.shows(sector) || window.next != Some(sector) {
            return Ok(());
        }
        self.read_ahead(disk, sector)
    }

    // Reads a sector from the buffer where it is there, and else from the file.
    fn read_now(&mut self, disk: u32, sector: u64, into: &mut [u8; 512]) -> Result<(), Gone>
        requires disk { disk < (F.view self.old.files).seen.disks }
        requires sector { sector < (F.view self.old.files).seen.sectors disk }
        ensures reads { Reads (F.view self.old.files).seen (F.view self.new.files).seen disk sector into.new result }
        ensures shelf { KeepsShelf (F.shelf self.old.files) (F.shelf self.new.files) }
    {
        let window = self.windows[disk as usize];
        if window.shows(sector) {
            self.files.get(disk, sector - window.first, into);
            return Ok(());
        }
        self.files.read(disk, sector, into)
    }

    // Syncs a disk of which nothing is dirty, where it was written since its last sync.
    fn sync_clean(&mut self, disk: u32) -> Result<(), Gone>
        requires disk { disk < (F.view self.old.files).seen.disks }
        requires clean { HasClean self.old.windows.items disk }
        ensures syncs { Syncs (F.view self.old.files).seen (F.view self.new.files).seen disk result }
        ensures shelf { KeepsShelf (F.shelf self.old.files) (F.shelf self.new.files) }
    {
        let mut window = self.windows[disk as usize];
        if !window.unsynced {
            return Ok(());
        }
        match self.files.sync(disk) {
            Ok(()) => {
                window.unsynced = false;
                self.windows[disk as usize] = window;
                Ok(())
            }
            Err(gone) => Err(gone),
        }
    }

    // Takes note of the sector that is read.
    fn note_read(&mut self, disk: u32, sector: u64)
        requires { disk < (F.view self.old.files).seen.disks }
        ensures { self.new.files ≡ self.old.files }
    {
        let mut window = self.windows[disk as usize];
        window.next = sector.checked_add(1);
        self.windows[disk as usize] = window;
    }
}

impl<F: FileStore> Rack for BufferedBay<F> {
    ghost use Rattle.rack.specs.Shelf.{keeps_shelf_same, keeps_shelf_then};

    ghost seen = { λ bay. (F.view bay.files).seen };

    ghost runs = { λ old new. KeepsShelf (F.shelf old.files) (F.shelf new.files) };

    ghost once = { λ old new. Unit {0} };

    ghost unwritten = { λ old new. Unit {0} };

    fn disks(&self) -> u32 {
        self.files.disks()
    }

    fn sectors(&self, disk: u32) -> u64 {
        self.files.sectors(disk)
    }

    fn read(&mut self, disk: u32, sector: u64, into: &mut [u8; 512]) -> Result<(), Gone> {
        match self.follow(disk, sector) {
            Ok(()) => {}
            Err(gone) => return Err(gone),
        }
        self.note_read(disk, sector);
        self.read_now(disk, sector, into)
    }

    fn write(&mut self, disk: u32, sector: u64, from: &[u8; 512]) -> Result<(), Gone> {
        match self.make_room(disk, sector) {
            Ok(()) => self.put(disk, sector, from),
            Err(gone) => Err(gone),
        }
    }

    fn sync(&mut self, disk: u32) -> Result<(), Gone> {
        // What waits here goes to the file first: a stop after the sync would take it else.
        match self.write_back(disk) {
            Ok(()) => self.sync_clean(disk),
            Err(gone) => Err(gone),
        }
    }

    ghost sound = { λ bay fit traced. F.sound bay.files traced };

    ghost runs_same = { λ bay. keeps_shelf_same (F.shelf bay.files) };

    ghost runs_then = { λ x y z. keeps_shelf_then (F.shelf x.files) (F.shelf y.files) (F.shelf z.files) };

    ghost unwritten_same = { λ x. tt };

    ghost unwritten_then = { λ x y z one two. tt };
}

impl<F: FileStore> Bay for BufferedBay<F> {
    ghost shelf = { λ bay. F.shelf bay.files };

    ghost frame = { λ old new. Unit {0} };

    fn attach(&mut self, name: &str) -> Result<u32, AttachFault> {
        if let Some(disk) = self.files.named(name) {
            return Err(AttachFault::Twice { disk });
        }
        if self.windows.reserve(1).is_err() {
            return Err(AttachFault::Memory);
        }
        match self.files.attach(name) {
            Ok(disk) => {
                push_within(&mut self.windows, Window::new());
                Ok(disk)
            }
            Err(fault) => Err(fault),
        }
    }

    ghost always_fit = { λ bay. (F.plain bay.files).fit };

    ghost unspent = { λ bay. (F.plain bay.files).unspent };

    ghost lasting = { λ bay. (F.plain bay.files).lasting };

    ghost bounded = { λ bay. (F.plain bay.files).bounded };

    ghost runs_shelf = { λ x y runs. runs };

    ghost runs_frame = { λ x y runs. tt };

    ghost frame_same = { λ x. tt };

    ghost frame_then = { λ x y z one two. tt };

    ghost numbered = { λ bay. F.numbered bay.files };
}

// What is dirty is stored before the files are closed and their locks given back.
impl<F: FileStore> Drop for BufferedBay<F> {
    fn drop(mut self) {
        self.write_back_all();
        let BufferedBay {
            files: _,
            windows: _,
        } = self;
    }
}

// Adds a window, for which there is room.
fn push_within(windows: &mut Vec<Window>, window: Window)
    requires { vec_len windows.old < vec_capacity windows.old }
    ensures { windows.new.items ≡ windows.old.items ++ window ∷ [] }
{
    windows.push(window).unwrap();
}
