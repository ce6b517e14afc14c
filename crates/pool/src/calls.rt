//! The calls of an opened pool.

ghost use Rattle.std.specs.Prelude.{◌≡◌, ◌<◌, ◌^◌, None, Some, OnErr, MatchOption, slice_get};
ghost use Rattle.array_image.specs.States.{is_current};
ghost use Rattle.pool.specs.View.{arrays_of, bay_in, book, view, volume};
ghost use Rattle.pool.specs.Volume.{size_of};
ghost use Rattle.pool.specs.Entering.{Cleaned};
ghost use Rattle.pool.specs.Taking.{Carries};
ghost use Rattle.pool.specs.Calls.{Ends, Flushes, LosesDrive, ReadsSector, WritesSector};
ghost use Rattle.raid_rack.specs.RaidRack.{arrays_of as arrays_by_number};

use crate::Pool;
use array_core::Array;
use pool_state::State;
use rack::{Bay, Rack};
use thiserror::Error;

/// Why a sector couldn't be read or written.
#[derive(Clone, Copy, Debug, PartialEq, Eq, Error)]
pub enum SectorFault {
    /// The sector is past the end of the volume. Nothing was done.
    #[error("the sector is past the end of the volume")]
    Range,
    /// Too many copies of the sector are lost: no call gives it any more.
    #[error("too many copies of the sector are lost")]
    Spent,
}

/// Why a drive can't be lost. Nothing was done.
#[derive(Clone, Copy, Debug, PartialEq, Eq, Error)]
pub enum LoseFault {
    /// No drive has this place, or it is missing.
    #[error("no drive has this place, or it is missing")]
    NoSuchDrive,
    /// No other drive is left.
    #[error("no other drive is left")]
    LastDrive,
}

impl<R: Bay> Pool<R> {
    /// The sectors of the volume.
    pub fn size(&self) -> u64
        requires { (volume (view R.seen R.shelf self.now)).fit }
        ensures size { result ≡ size_of (view R.seen R.shelf self.now) }
        ensures bounded { result < 2 ^ 52 }
    {
        self.volume.sectors(0)
    }

    /// The state of the pool, with the marks of the drives that are missing.
    pub fn state(&self) -> &State
        ensures { result.now ≡ (book (view R.seen R.shelf self.now)).state }
    {
        self.volume.below().state()
    }

    /// The array of a number, if there is one.
    pub fn array(&self, number: u32) -> Option<&Array>
        ensures { MatchOption result (slice_get (arrays_by_number (arrays_of self.now)) number ≡ None) (λ a. slice_get (arrays_by_number (arrays_of self.now)) number ≡ Some a.now) }
    {
        self.volume.below().array(number)
    }

    /// Reads the current value of a sector of the volume.
    pub fn read(&mut self, sector: u64, into: &mut [u8; 512]) -> Result<(), SectorFault>
        requires { (volume (view R.seen R.shelf self.old)).fit }
        ensures read { ReadsSector (view R.seen R.shelf self.old) (view R.seen R.shelf self.new) sector into.new result }
        ensures runs { R.runs (bay_in self.old) (bay_in self.new) }
    {
        if sector >= self.size() {
            return Err(SectorFault::Range);
        }
        match self.volume.read(0, sector, into) {
            Ok(()) => Ok(()),
            Err(_) => Err(SectorFault::Spent),
        }
    }

    /// Appends a value to those of a sector of the volume. It is durable once the volume has been flushed.
    pub fn write(&mut self, sector: u64, from: &[u8; 512]) -> Result<(), SectorFault>
        requires { (volume (view R.seen R.shelf self.old)).fit }
        ensures written { WritesSector (view R.seen R.shelf self.old) (view R.seen R.shelf self.new) sector from.now result }
        ensures runs { R.runs (bay_in self.old) (bay_in self.new) }
    {
        if sector >= self.size() {
            return Err(SectorFault::Range);
        }
        match self.volume.write(0, sector, from) {
            Ok(()) => Ok(()),
            Err(_) => Err(SectorFault::Spent),
        }
    }

    /// Makes the current values of all sectors durable: each drive that isn't missing is synced.
    pub fn flush(&mut self)
        requires { (volume (view R.seen R.shelf self.old)).fit }
        ensures flushes { Flushes (view R.seen R.shelf self.old) (view R.seen R.shelf self.new) }
        ensures runs { R.runs (bay_in self.old) (bay_in self.new) }
    {
        // Only a spent sector is refused, so a sync never is.
        let _ = self.volume.sync(0);
    }

    /// Whether a place is in the list and isn't marked missing.
    pub(crate) fn has_drive(&self, place: u32) -> bool
        ensures { result ≡ is_current (book (view R.seen R.shelf self.now)).state place }
    {
        match self.state().drives.get(place as usize) {
            Some(drive) => !drive.missing,
            None => false,
        }
    }

    /// Loses the drive of a place: its mark is durable on the others when this returns. From then on it isn't written.
    pub fn lose(&mut self, place: u32) -> Result<(), LoseFault>
        requires { (volume (view R.seen R.shelf self.old)).fit }
        ensures lost { LosesDrive (view R.seen R.shelf self.old) (view R.seen R.shelf self.new) place result }
        ensures kept { OnErr result (self.new ≡ self.old) }
        ensures runs { R.runs (bay_in self.old) (bay_in self.new) }
    {
        if !self.has_drive(place) {
            return Err(LoseFault::NoSuchDrive);
        }
        match self.volume.inner().lose(place) {
            Ok(()) => Ok(()),
            Err(_) => Err(LoseFault::LastDrive),
        }
    }

    /// Cleans all arrays: each one's members are synced before its superblocks are written, so no flush comes first.
    pub(crate) fn clean(&mut self)
        requires { (volume (view R.seen R.shelf self.old)).fit }
        ensures cleaned { Cleaned (view R.seen R.shelf self.old) (view R.seen R.shelf self.new) }
        ensures carries { Carries (view R.seen R.shelf self.old) (view R.seen R.shelf self.new) }
        ensures runs { R.runs (bay_in self.old) (bay_in self.new) }
    {
        self.volume.inner().clean();
    }

    /// Ends a run: all values are durable, and the superblocks of each array say that no row is left to resync, but for those that
    /// were left when the pool was opened.
    pub fn end(&mut self)
        requires { (volume (view R.seen R.shelf self.old)).fit }
        ensures ended { Ends (view R.seen R.shelf self.old) (view R.seen R.shelf self.new) }
        ensures runs { R.runs (bay_in self.old) (bay_in self.new) }
    {
        self.clean();
    }

    /// The bay, as it is.
    pub fn into_inner(self) -> R
        ensures { result ≡ bay_in self }
    {
        self.volume.into_inner().into_inner().into_inner()
    }
}
