//! Disks in memory, which the tests run over.

use rack::{Bay, Gone, Name, Rack};
use rack_mem::{DiskSpec, MemBay};
use std::alloc::Global;
use std::process::Abort;
use std::test::Fail;

/// The names of the disks, by number.
const NAMES: [&str; 16] = [
    "a", "b", "c", "d", "e", "f", "g", "h", "i", "j", "k", "l", "m", "n", "o", "p",
];

/// The name of a disk.
fn name_of(disk: usize) -> &'static str {
    match NAMES.as_slice().get(disk) {
        Some(name) => name,
        None => "",
    }
}

/// A bay of disks of so many sectors, none of which is attached yet. It keeps so many calls. Those of some numbers fail.
pub(crate) fn shelf(
    rt: &impl Abort,
    alloc: Global,
    sizes: &[u64],
    failing: &[u64],
    room: u64,
) -> Result<MemBay, Fail> {
    let mut shelf = Vec::new(alloc);
    for sectors in sizes {
        let name = Name::of(alloc, name_of(shelf.len()).as_bytes())?;
        let sectors = *sectors;
        shelf.push(DiskSpec { name, sectors })?;
    }
    assert!(rt; shelf.len() < 1 << 32 && shelf.iter().all(|disk| disk.sectors < 1 << 48));
    Ok(MemBay::new(alloc, shelf, failing.to_vec(alloc)?, room)?)
}

/// Attaches the first disks, so many.
pub(crate) fn attach<B: Bay>(rt: &impl Abort, bay: &mut B, count: u32) {
    for disk in 0..count {
        assert_eq!(rt; bay.attach(name_of(disk as usize)), Ok(disk));
    }
}

/// A bay of attached disks of so many sectors, which keeps so many calls.
pub(crate) fn bay(
    rt: &impl Abort,
    alloc: Global,
    sizes: &[u64],
    room: u64,
) -> Result<MemBay, Fail> {
    let mut bay = shelf(rt, alloc, sizes, &[], room)?;
    attach(rt, &mut bay, sizes.len().min(NAMES.len()) as u32);
    Ok(bay)
}

/// Writes a sector of a disk.
pub(crate) fn write(
    rt: &impl Abort,
    bay: &mut MemBay,
    disk: u32,
    sector: u64,
    bytes: &[u8; 512],
) -> Result<(), Gone> {
    assert!(rt; disk < bay.disks() && sector < bay.sectors(disk));
    bay.write(disk, sector, bytes)
}

/// Syncs a disk.
pub(crate) fn sync(rt: &impl Abort, bay: &mut MemBay, disk: u32) -> Result<(), Gone> {
    assert!(rt; disk < bay.disks());
    bay.sync(disk)
}
