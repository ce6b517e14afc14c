//! The files.

ghost use Rattle.std.specs.Prelude.{◌≡◌, ◌≢◌, ◌<◌, ◌≤◌, ◌+◌, ◌^◌, ◌++◌, [], ◌∷◌, ℕ, length, slice_get, Some, None, OnErr, IfOk, IfErr, IfSome, IfNone, vec_len, vec_capacity, refl};
ghost use Rattle.rack.specs.declared.AttachFault.TheVariants.{Failed, Memory};
ghost use Rattle.rack.specs.Seen.{Rose};
ghost use Rattle.rack.specs.Shelf.{KeepsShelf};
ghost use Rattle.rack_file.specs.Files.{names_of, Differ, files_seen, files_shelf, NotesFault};

use crate::buffer::Buffer;
use crate::disk::{FileDisk, SECTOR_BYTES, open_disk};
use buffered_bay::FileStore;
use rack::{AttachFault, Gone};
use std::alloc::Global;
use std::fs::File;
use std::os::unix::fs::FileExt;

// Disks of a bay at most, so that their numbers fit.
const MOST_DISKS: usize = 1 << 16;

/// Image files, attached by their paths, with a buffer for each.
#[derive(Drop)]
pub struct ImageFiles<'a> {
    rt: &'a HostRuntime,
    alloc: Global,
    disks: Vec<FileDisk<File>>,
    buffers: Vec<Buffer>,
    faults: u64,
    ghost counted: { faults < 2 ^ 64 },
    ghost few: { length disks.items ≤ 65536 },
    ghost differ: { Differ (names_of disks.items) },
    ghost matched: { length buffers.items ≡ length disks.items },
}

impl<'a> ImageFiles<'a> {
    /// No files yet.
    pub fn new(rt: &'a HostRuntime, alloc: Global) -> ImageFiles<'a>
        ensures { result.disks.items ≡ [] }
    {
        ImageFiles {
            rt,
            alloc,
            disks: Vec::new(alloc),
            buffers: Vec::new(alloc),
            faults: 0,
        }
    }

    // The disk that a path is attached as.
    fn position(&self, name: &str) -> Option<usize>
        ensures found { IfSome result (λ d. slice_get (names_of self.now.disks.items) d ≡ Some name.now) }
        ensures none { IfNone result ((d : ℕ) → slice_get (names_of self.now.disks.items) d ≢ Some name.now) }
    {
        for (at, disk) in self.disks.iter().enumerate() {
            if disk.name.bytes() == name.as_bytes() {
                return Some(at);
            }
        }
        None
    }

    // Adds a disk of a new name.
    fn add(&mut self, disk: FileDisk<File>, buffer: Buffer) -> Result<u32, AttachFault>
        requires room { length self.old.disks.items < 65536 }
        requires new { (d : ℕ) → slice_get (names_of self.old.disks.items) d ≢ Some disk.name }
        ensures added { IfOk result (λ number. (number ≡ length self.old.disks.items) × (self.new.disks.items ≡ self.old.disks.items ++ disk ∷ [])) }
        ensures refused { IfErr result (λ e. (e ≡ Memory) × (self.new.disks.items ≡ self.old.disks.items)) }
        ensures faults { self.new.faults ≡ self.old.faults }
    {
        let number = self.disks.len();
        if self.buffers.reserve(1).is_err() {
            return Err(AttachFault::Memory);
        }
        match self.disks.push(disk) {
            Ok(()) => {
                push_within(&mut self.buffers, buffer);
                Ok(number as u32)
            }
            Err(_) => Err(AttachFault::Memory),
        }
    }

    // Counts a fault of a disk.
    fn note_fault(&mut self, disk: u32)
        requires { disk < length self.old.disks.items }
        ensures noted { NotesFault self.old.disks.items self.new.disks.items disk }
        ensures shelf { KeepsShelf (files_shelf self.old.disks.items self.old.faults) (files_shelf self.new.disks.items self.new.faults) }
    {
        let file = &mut self.disks[disk as usize];
        file.faults = file.faults.saturating_add(1);
    }

    // Counts a fault of the files.
    fn refuse(&mut self) -> AttachFault
        ensures why { result ≡ Failed }
        ensures disks { self.new.disks.items ≡ self.old.disks.items }
        ensures rose { Rose self.old.faults self.new.faults }
        ensures grows { self.old.faults ≤ self.new.faults }
    {
        self.faults = self.faults.saturating_add(1);
        AttachFault::Failed
    }
}

impl<'a> FileStore for ImageFiles<'a> {
    ghost use Rattle.rack_file.specs.Untold.{files_view, plain_files};
    ghost use Rattle.rack_file.specs.FilesLaws.{names-length};

    ghost view = { λ files. files_view files.disks.items };

    ghost shelf = { λ files. files_shelf files.disks.items files.faults };

    ghost tells = { ⊥ };

    fn disks(&self) -> u32 {
        self.disks.len() as u32
    }

    fn sectors(&self, disk: u32) -> u64 {
        self.disks[disk as usize].sectors
    }

    fn named(&self, name: &str) -> Option<u32> {
        match self.position(name) {
            Some(disk) => Some(disk as u32),
            None => None,
        }
    }

    fn attach(&mut self, name: &str) -> Result<u32, AttachFault> {
        if self.disks.len() >= MOST_DISKS {
            return Err(self.refuse());
        }
        let Ok(buffer) = Buffer::new(self.alloc) else {
            return Err(AttachFault::Memory);
        };
        match open_disk(self.rt, self.alloc, name) {
            Ok(disk) => self.add(disk, buffer),
            Err(AttachFault::Memory) => Err(AttachFault::Memory),
            Err(_) => Err(self.refuse()),
        }
    }

    fn get(&self, disk: u32, place: u64, into: &mut [u8; 512]) {
        self.buffers[disk as usize].get(place, into);
    }

    fn put(&mut self, disk: u32, _sector: u64, place: u64, from: &[u8; 512]) -> Result<(), Gone> {
        self.buffers[disk as usize].put(place, from);
        Ok(())
    }

    fn read(&mut self, disk: u32, sector: u64, into: &mut [u8; 512]) -> Result<(), Gone> {
        let file = &self.disks[disk as usize].file;
        if file.read_exact_at(into, sector * SECTOR_BYTES).is_ok() {
            return Ok(());
        }
        self.note_fault(disk);
        Err(Gone { disk })
    }

    fn load(&mut self, disk: u32, sector: u64, count: u64) -> Result<(), Gone> {
        let file = &self.disks[disk as usize].file;
        let buffer = &mut self.buffers[disk as usize];
        if buffer.read_from(count, file, sector * SECTOR_BYTES) {
            return Ok(());
        }
        self.note_fault(disk);
        Err(Gone { disk })
    }

    fn store(&mut self, disk: u32, sector: u64, place: u64, count: u64) -> Result<(), Gone> {
        let file = &self.disks[disk as usize].file;
        let buffer = &self.buffers[disk as usize];
        if buffer.write_to(place, count, file, sector * SECTOR_BYTES) {
            return Ok(());
        }
        self.note_fault(disk);
        Err(Gone { disk })
    }

    fn sync(&mut self, disk: u32) -> Result<(), Gone> {
        if self.disks[disk as usize].file.sync_data().is_ok() {
            return Ok(());
        }
        self.note_fault(disk);
        Err(Gone { disk })
    }

    ghost plain = { λ files. plain_files files.disks.items };

    ghost sound = { λ files traced. absurd traced };

    ghost left = { λ files d s live. absurd live.is_told };

    ghost numbered = { λ files. names-length files.disks.items };
}

// Adds a buffer, for which there is room.
fn push_within(buffers: &mut Vec<Buffer>, buffer: Buffer)
    requires { vec_len buffers.old < vec_capacity buffers.old }
    ensures { buffers.new.items ≡ buffers.old.items ++ buffer ∷ [] }
{
    buffers.push(buffer).unwrap();
}
