//! The stops of the laboratory beside those of `rack_mem`, whose contract says what a stop may leave.

use crate::drives::{Contents, Drive, Place, Sector};
use crate::images::Moment;
use crate::lab::{Lab, LastRun};
use crate::machine::{Change, Entry};
use crate::trials::pick_of;
use rack::{Bay, Name, Rack};
use rack_mem::{DiskSpec, MemBay, Pick};
use std::alloc::{AllocError, Global};
use std::str;

// A bay of `rack_mem` with all drives of a case attached, of zeros, that keeps so many calls. None where there is no such bay.
fn bay_of(alloc: Global, drives: &[Drive], room: u64) -> Result<Option<MemBay>, AllocError> {
    let mut shelf = Vec::new(alloc);
    for drive in drives {
        let name = Name::of(alloc, drive.name.bytes()).map_err(|_| AllocError)?;
        let sectors = drive.sectors;
        shelf.push(DiskSpec { name, sectors })?;
    }
    if shelf.len() >= 1 << 32 || !shelf.iter().all(|disk| disk.sectors < 1 << 48) {
        return Ok(None);
    }
    let mut bay = MemBay::new(alloc, shelf, Vec::new(alloc), room).map_err(|_| AllocError)?;
    attach_all(&mut bay, drives);
    Ok(Some(bay))
}

// Attaches all drives in the order of the shelf.
fn attach_all(bay: &mut MemBay, drives: &[Drive]) {
    for drive in drives {
        if let Ok(name) = str::from_utf8(drive.name.bytes()) {
            let _ = bay.attach(name);
        }
    }
}

// Writes a sector of an attached drive.
fn write(bay: &mut MemBay, place: Place, value: &Sector) {
    if place.drive < bay.disks() && place.sector < bay.sectors(place.drive) {
        let _ = bay.write(place.drive, place.sector, &value.bytes);
    }
}

// Syncs an attached drive.
fn sync(bay: &mut MemBay, drive: u32) {
    if drive < bay.disks() {
        let _ = bay.sync(drive);
    }
}

// Does a call of a log.
fn repeat(bay: &mut MemBay, entry: &Entry) {
    match entry.change {
        Change::Write { sector, value } => {
            let place = Place {
                drive: entry.drive,
                sector,
            };
            write(bay, place, &value);
        }
        Change::Sync => sync(bay, entry.drive),
    }
}

// Whether all drives of a bay have these contents.
fn has(bay: &MemBay, drives: &[Drive], contents: &Contents) -> bool {
    for (number, drive) in (0..u32::MAX).zip(drives) {
        if !drive_has(bay, number, drive.sectors, contents) {
            return false;
        }
    }
    true
}

// Whether a drive of a bay has its contents.
fn drive_has(bay: &MemBay, drive: u32, sectors: u64, contents: &Contents) -> bool {
    for sector in 0..sectors {
        if bay.sector_now(drive, sector) != contents.get(Place { drive, sector }).bytes {
            return false;
        }
    }
    true
}

impl Lab {
    /// Compares what the laboratory and `rack_mem` say that a stop of the last run leaves: after each `every`-th call that
    /// changed something, under so many picks.
    pub fn compare_models(&mut self, every: u64, picks: u64) -> Result<(), AllocError> {
        let Some(last) = &self.last else {
            return self.complain(b"there was no run");
        };
        if !self.are_alike(last, every, picks)? {
            return self.complain(b"rack_mem leaves something else after a stop");
        }
        Ok(())
    }

    // Whether both leave the same after each of these stops.
    fn are_alike(&self, last: &LastRun, every: u64, picks: u64) -> Result<bool, AllocError> {
        let start = last.before.count();
        let room = start
            .saturating_add(last.ran.log.len() as u64)
            .saturating_add(self.drives.len() as u64);
        let Some(mut bay) = bay_of(self.alloc, &self.drives, room)? else {
            return Ok(false);
        };
        for (place, value) in last.before.sectors() {
            write(&mut bay, *place, value);
        }
        for drive in 0..bay.disks() {
            sync(&mut bay, drive);
        }
        let mut moment = Moment::first(self.alloc, &last.before, &last.ran.log)?;
        for (number, entry) in last.ran.log.iter().enumerate() {
            repeat(&mut bay, entry);
            let is_due = (number as u64).checked_rem(every) == Some(0);
            if is_due {
                moment.advance(entry.call.saturating_add(1))?;
                if !self.is_alike(&bay, &moment, picks)? {
                    return Ok(false);
                }
            }
        }
        Ok(true)
    }

    // Whether both leave the same after a stop here.
    fn is_alike(&self, bay: &MemBay, moment: &Moment<'_>, picks: u64) -> Result<bool, AllocError> {
        for number in 0..picks {
            let pick = pick_of(bay.calls(), number);
            let mut image = bay
                .image_at(self.alloc, bay.calls(), pick)
                .map_err(|_| AllocError)?;
            attach_all(&mut image, &self.drives);
            if !has(&image, &self.drives, &moment.image(self.alloc, pick)?) {
                return Ok(false);
            }
        }
        Ok(true)
    }
}
