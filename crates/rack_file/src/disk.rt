//! One image file.

ghost use Rattle.std.specs.Prelude.{◌≡◌, ◌⊎◌, ◌<◌, ◌^◌, IfOk, IfErr};
ghost use Rattle.rack.specs.declared.AttachFault.TheVariants.{Failed, Memory};

use crate::lock::LockFile;
use rack::{AttachFault, Name};
use std::alloc::Global;
use std::fs::{Files, OpenFile, OpenOptions};

/// An open image file.
#[derive(Drop)]
pub struct FileDisk<F> {
    /// The path that it was attached by.
    pub name: Name,
    /// The open file.
    pub file: F,
    /// Its sectors of 512 bytes.
    pub sectors: u64,
    /// How many calls it has refused; the count stands still at its last value.
    pub faults: u64,
    ghost bounded: { sectors < 2 ^ 48 },
    ghost counted: { faults < 2 ^ 64 },
}

/// Bytes in a sector.
pub const SECTOR_BYTES: u64 = 512;

const MOST_SECTORS: u64 = 1 << 48;

/// Opens an existing file of whole sectors, fewer than 2^48, for reading and writing, and holds its
/// exclusive lock until it is dropped. The file is synced once: what a process that was killed wrote
/// may stand in the system's memory alone, and a disk that is attached has one value in each sector.
pub fn open_disk<R: Files>(
    rt: &R,
    alloc: Global,
    name: &str,
) -> Result<FileDisk<R::File>, AttachFault>
where
    R::File: LockFile,
    ensures opened { IfOk result (λ disk. disk.name ≡ name.now) }
    ensures unfaulted { IfOk result (λ disk. disk.faults ≡ 0) }
    ensures refused { IfErr result (λ e. (e ≡ Failed) ⊎ (e ≡ Memory)) }
{
    let Ok(file) = OpenOptions::new().read(true).write(true).open(rt, name) else {
        return Err(AttachFault::Failed);
    };
    // Before anything is read of it: nobody else changes its length or its sectors from here on.
    if !file.try_lock_exclusive() {
        return Err(AttachFault::Failed);
    }
    let Ok(metadata) = file.metadata() else {
        return Err(AttachFault::Failed);
    };
    let bytes = metadata.len();
    let sectors = bytes / SECTOR_BYTES;
    if bytes % SECTOR_BYTES != 0 || sectors >= MOST_SECTORS || !metadata.is_file() {
        return Err(AttachFault::Failed);
    }
    if file.sync_data().is_err() {
        return Err(AttachFault::Failed);
    }
    match Name::of(alloc, name.as_bytes()) {
        Ok(name) => Ok(FileDisk {
            name,
            file,
            sectors,
            faults: 0,
        }),
        Err(_) => Err(AttachFault::Memory),
    }
}
