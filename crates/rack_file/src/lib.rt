//! Image files as a bay: a thin edge that tells no contents.
//!
//! **The model.** A [`FileBay`] has the disks of the files that were attached, in their order, each
//! with its sectors of 512 bytes and its count of faults (specs/Files.antt). What a file holds isn't
//! told. `Gone` comes only where the disk's count rose, and `Failed` of attaching only where the
//! bay's did.
//!
//! **Buffers.** The files themselves are [`ImageFiles`]: positioned reads and writes of many sectors,
//! a sync, and a buffer of 64 KiB for each, as the crate `buffered_bay` asks. The bay is that crate's
//! over them, so neighbouring sectors go to a file in one call, and its contract says what of it is
//! proved over files that tell what they hold. What is dirty is written when the bay goes.
//!
//! **One bay a file.** A file's exclusive lock is taken when it is attached and kept until the bay
//! goes, so a file that another program has open as an image, or this bay by another path, can't be
//! attached. It is synced once when it is attached, so that no sector of it stands in memory alone.
//!
//! **The contract for the layer above** is that of `Bay`.
#![tactic(auto)]

ghost use Rattle.std.specs.Prelude.{◌≡◌, []};

mod buffer;
mod disk;
mod files;
mod lock;

use buffered_bay::BufferedBay;
pub use disk::FileDisk;
pub use files::ImageFiles;
pub use lock::LockFile;
use rack::{AttachFault, Bay, Gone, Rack};
use std::alloc::Global;

/// Image files, attached by their paths.
#[derive(Drop)]
pub struct FileBay<'a> {
    bay: BufferedBay<ImageFiles<'a>>,
}

impl<'a> FileBay<'a> {
    /// A bay with nothing attached.
    pub fn new(rt: &'a HostRuntime, alloc: Global) -> FileBay<'a>
        ensures { result.bay.files.disks.items ≡ [] }
    {
        FileBay {
            bay: BufferedBay::new(alloc, ImageFiles::new(rt, alloc)),
        }
    }
}

impl<'a> Rack for FileBay<'a> {
    ghost use Rattle.std.specs.Prelude.{refl};
    ghost use Rattle.rack_file.specs.Files.{files_seen, files_shelf};
    ghost use Rattle.rack.specs.Shelf.{KeepsShelf, keeps_shelf_same, keeps_shelf_then};

    ghost seen = { λ b. files_seen b.bay.files.disks.items };

    ghost runs = { λ old new. KeepsShelf (files_shelf old.bay.files.disks.items old.bay.files.faults) (files_shelf new.bay.files.disks.items new.bay.files.faults) };

    ghost once = { λ old new. Unit {0} };

    ghost unwritten = { λ old new. Unit {0} };

    fn disks(&self) -> u32 {
        self.bay.disks()
    }

    fn sectors(&self, disk: u32) -> u64 {
        self.bay.sectors(disk)
    }

    fn read(&mut self, disk: u32, sector: u64, into: &mut [u8; 512]) -> Result<(), Gone> {
        self.bay.read(disk, sector, into)
    }

    fn write(&mut self, disk: u32, sector: u64, from: &[u8; 512]) -> Result<(), Gone> {
        self.bay.write(disk, sector, from)
    }

    fn sync(&mut self, disk: u32) -> Result<(), Gone> {
        self.bay.sync(disk)
    }

    ghost sound = { λ b fit traced. absurd traced };

    ghost runs_same = { λ b. keeps_shelf_same (files_shelf b.bay.files.disks.items b.bay.files.faults) };

    ghost runs_then = { λ x y z. keeps_shelf_then (files_shelf x.bay.files.disks.items x.bay.files.faults) (files_shelf y.bay.files.disks.items y.bay.files.faults) (files_shelf z.bay.files.disks.items z.bay.files.faults) };

    ghost unwritten_same = { λ x. tt };

    ghost unwritten_then = { λ x y z one two. tt };
}

impl<'a> Bay for FileBay<'a> {
    ghost use Rattle.std.specs.Prelude.{refl};
    ghost use Rattle.rack_file.specs.Files.{files_shelf};
    ghost use Rattle.rack_file.specs.FilesLaws.{bounded_files, names-length};

    ghost shelf = { λ b. files_shelf b.bay.files.disks.items b.bay.files.faults };

    fn attach(&mut self, name: &str) -> Result<u32, AttachFault> {
        self.bay.attach(name)
    }

    ghost always_fit = { λ b. tt };

    ghost unspent = { λ b d s. refl };

    ghost lasting = { λ b. tt };

    ghost bounded = { λ b d inside. bounded_files b.bay.files.disks.items d };

    ghost frame = { λ old new. Unit {0} };

    ghost runs_shelf = { λ x y runs. runs };

    ghost runs_frame = { λ x y runs. tt };

    ghost frame_same = { λ x. tt };

    ghost frame_then = { λ x y z one two. tt };

    ghost numbered = { λ b. names-length b.bay.files.disks.items };
}

#[cfg(test)]
mod tests;
