//! Calls of an array over a bay that has the slices of all places.

ghost use Rattle.std.specs.Prelude.{◌≡◌, ◌<◌, true, false};
ghost use Rattle.array_image.specs.SoundArray.{first_unsynced};
ghost use Rattle.array_model.specs.View.{rows_of};
ghost use Rattle.array_model.specs.Members.{HasSlices};
ghost use Rattle.sync_laws.specs.Steps.{HasRowLeft};
ghost use Rattle.log_laws.specs.Phases.{AreLogs};
ghost use Rattle.rack_mem.specs.MemBay.{memory};
ghost use Rattle.rack_mem.specs.Memory.{seen_of};

use crate::geometries::{Geometry, NUMBER, SIZE};
use array_core::{Array, Seat, Spent};
use array_sync::{rebuild_rows, resync_rows, zero_rows};
use commit_log::Log;
use rack::{Bay, Name, Places, Rack};
use rack_mem::{DiskSpec, MemBay};
use shr_base::Id;
use std::alloc::Global;
use std::process::Abort;
use std::test::Fail;

/// Whether a bay has the log slice of each of these places.
fn are_logs<R: Rack>(rack: &R, on: &[u32]) -> bool
    requires fit { (R.seen rack.now).fit }
    requires disks { (R.seen rack.now).disks ≡ 272 }
    ensures { result ≡ true → AreLogs (R.seen rack.now).sectors on.now }
{
    for place in on {
        if *place >= 16 {
            return false;
        }
        if rack.sectors(17 * *place) != 8192 {
            return false;
        }
    }
    true
}

/// Whether each slice of a bay has room for a member of an array.
fn has_slices<R: Bay>(rack: &R, array: &Array) -> bool
    requires disks { (R.seen rack.now).disks ≡ 272 }
    ensures { result ≡ true → HasSlices array.now (R.seen rack.now) }
{
    array.rules();
    for slice in 0..272 {
        if rack.sectors(slice) < 2048 + array.truth().size {
            return false;
        }
    }
    true
}

/// Whether a row of a place's member is left to rebuild.
fn has_row_left(array: &Array, place: u32) -> bool
    ensures { result ≡ true → HasRowLeft array.now place }
{
    match array.seat(place) {
        Some(Seat::Rebuilding { to }) => to < array.truth().size && to % 128 == 0,
        Some(Seat::Whole) | Some(Seat::Missing) | None => false,
    }
}

/// The first row that an array's superblocks leave to resync or to zero.
pub(crate) fn first_unsynced(array: &Array) -> u64
    ensures { result ≡ first_unsynced array.now.truth }
{
    let truth = array.truth();
    if truth.resync_offset < truth.size {
        truth.resync_offset / 128
    } else {
        truth.size / 128
    }
}

/// The slice of the array on a place.
fn slice_of(place: u32) -> u32 {
    place.saturating_mul(17).saturating_add(NUMBER + 1)
}

/// All slices of sixteen places as disks of a bay, which keeps so many calls. Those of these numbers fail.
fn bay(rt: &impl Abort, alloc: Global, failing: &[u64], room: u64) -> Result<MemBay, Fail> {
    let mut shelf = Vec::new(alloc);
    for disk in 0..272u64 {
        let name = Name::of(alloc, format!(in alloc; "{disk}")?.as_bytes())?;
        let sectors = if disk % 17 == 0 { 8192 } else { 2048 + SIZE };
        shelf.push(DiskSpec { name, sectors })?;
    }
    assert!(rt; shelf.len() == 272 && shelf.iter().all(|disk| disk.sectors < 1 << 48));
    let mut bay = MemBay::new(alloc, shelf, failing.to_vec(alloc)?, room)?;
    for disk in 0..272u64 {
        assert!(rt; bay.attach(format!(in alloc; "{disk}")?.as_str()).is_ok());
    }
    Ok(bay)
}

/// The sector of a value: zeros of 0, else no byte is that of its neighbours.
pub(crate) fn sector_of(value: u64) -> [u8; 512] {
    let mut sector = [0; 512];
    let bytes = value.to_le_bytes();
    for at in 0..512 {
        sector[at] = bytes[at % 8].wrapping_mul((at % 251) as u8);
    }
    sector
}

/// The first places, without one that is given.
fn first_places(count: u32, without: Option<u32>) -> Places {
    let mut places = Places::new();
    for place in 0..count {
        if without != Some(place) && !places.is_full() {
            places.push(place);
        }
    }
    places
}

/// An array over a bay, with its log.
#[derive(Drop)]
pub(crate) struct Run {
    pub array: Array,
    pub bay: MemBay,
    log: Log,
    on: Places,
}

impl Run {
    /// A whole array over a new bay, where all members are places of the log.
    pub(crate) fn new(
        rt: &impl Abort,
        alloc: Global,
        geometry: Geometry,
        failing: &[u64],
        room: u64,
    ) -> Result<Run, Fail> {
        Ok(Run {
            array: geometry.open(alloc, false)?,
            bay: bay(rt, alloc, failing, room)?,
            log: Log::make(alloc)?,
            on: first_places(geometry.members(), None),
        })
    }

    /// The member of a place is missing from then on, and its place is none of the log's.
    pub(crate) fn lose(&mut self, place: u32) {
        self.array.lose(place);
        self.on = first_places(self.array.truth().raid_disks, Some(place));
    }

    /// The member of a place is on a new drive, and all members are places of the log again.
    pub(crate) fn renew(&mut self, rt: &impl Abort, place: u32) {
        assert!(rt; self.array.seat(place) == Some(Seat::Missing));
        self.array.renew(place, &Id([7; 16]));
        self.on = first_places(self.array.truth().raid_disks, None);
    }

    /// Whether the bay has all that a call of the array needs.
    fn is_ready(&self) -> bool
        ensures disks { result ≡ true → (seen_of (memory self.now.bay)).disks ≡ 272 }
        ensures slices { result ≡ true → HasSlices self.now.array (seen_of (memory self.now.bay)) }
        ensures logs { result ≡ true → AreLogs (seen_of (memory self.now.bay)).sectors self.now.on.items }
    {
        self.bay.disks() == 272
            && has_slices(&self.bay, &self.array)
            && are_logs(&self.bay, self.on.as_slice())
    }

    /// The array is young, and each row of it is left to zero.
    pub(crate) fn make_young(&mut self, alloc: Global, geometry: Geometry) -> Result<(), Fail> {
        self.array = geometry.open(alloc, true)?;
        self.leave_rows();
        Ok(())
    }

    /// Each row is left to resync, or to zero.
    pub(crate) fn leave_rows(&mut self) {
        let change = self.array.resynced_to(0);
        self.array.adopt(&change);
    }

    /// Writes a value into a member's data alone.
    pub(crate) fn spoil(&mut self, rt: &impl Abort, place: u32, sector: u64, value: u64) {
        assert!(rt; self.is_ready() && place < 16 && sector < SIZE);
        let slice = slice_of(place);
        assert!(rt; slice < self.bay.disks());
        assert!(rt; self.bay.sectors(slice) > 2048 + sector);
        assert!(rt;
            self.bay
                .write(slice, 2048 + sector, &sector_of(value))
                .is_ok()
        );
    }

    /// What a member's data holds at a sector.
    pub(crate) fn held(&self, place: u32, sector: u64) -> [u8; 512] {
        self.bay
            .sector_now(slice_of(place), sector.saturating_add(2048))
    }

    /// Rebuilds rows of a member, once all that it needs has been tested.
    pub(crate) fn rebuild(&mut self, rt: &impl Abort, place: u32, most: u64) -> Result<u64, Spent> {
        assert!(rt; self.is_ready() && has_row_left(&self.array, place) && most > 0);
        self.log.clear();
        rebuild_rows(
            &mut self.array,
            &mut self.bay,
            &mut self.log,
            &self.on,
            place,
            most,
        )
    }

    /// Resyncs rows, once all that it needs has been tested.
    pub(crate) fn resync(&mut self, rt: &impl Abort, most: u64) -> Result<u64, Spent> {
        assert!(rt; self.is_ready() && !self.array.is_young() && most > 0);
        assert!(rt; self.array.resync_from() < self.array.rows());
        self.log.clear();
        resync_rows(
            &mut self.array,
            &mut self.bay,
            &mut self.log,
            &self.on,
            most,
        )
    }

    /// Zeroes rows, once all that it needs has been tested.
    pub(crate) fn zero(&mut self, rt: &impl Abort, most: u64) -> Result<u64, Spent> {
        assert!(rt; self.is_ready() && self.array.is_young() && most > 0);
        assert!(rt; first_unsynced(&self.array) < self.array.rows());
        self.log.clear();
        zero_rows(
            &mut self.array,
            &mut self.bay,
            &mut self.log,
            &self.on,
            most,
        )
    }

    /// Writes a value, once all that it needs has been tested.
    pub(crate) fn write(&mut self, rt: &impl Abort, sector: u64, value: u64) -> Result<(), Spent> {
        assert!(rt; self.is_ready() && sector < self.array.sectors());
        self.log.clear();
        self.array.write(
            &mut self.bay,
            &mut self.log,
            &self.on,
            sector,
            &sector_of(value),
        )
    }

    /// Reads a sector.
    pub(crate) fn read(&mut self, rt: &impl Abort, sector: u64) -> Result<[u8; 512], Spent> {
        assert!(rt; self.is_ready() && sector < self.array.sectors());
        let mut block = [0; 512];
        self.array.read(&mut self.bay, sector, &mut block)?;
        Ok(block)
    }

    /// The place that went: it alone did, at the call of a number.
    pub(crate) fn gone(&self, rt: &impl Abort, call: u64) -> u32 {
        let went = self.array.went();
        assert_eq!(rt; went.len(), 1, "at {call}");
        went[0]
    }

    /// The calls of the bay so far.
    pub(crate) fn calls(&self) -> u64 {
        self.bay.calls()
    }
}
