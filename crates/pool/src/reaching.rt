//! Whether a new drive reaches the arrays of its place.

ghost use Rattle.std.specs.Prelude.{◌≡◌, ◌<◌, ◌^◌, is_some, length};
ghost use Rattle.array_core.specs.Seats.{seat_of};
ghost use Rattle.growth_plan.specs.Book.{IsBook, height_of};
ghost use Rattle.pool.specs.Moment.{views_of};
ghost use Rattle.pool.specs.Replacing as spec;
ghost use Rattle.pool.specs.View.{book, view, volume};
ghost use Rattle.pool.specs.Works.{progress_by};
ghost use Rattle.raid_laws.specs.NewDrive.{reaches_all};

use crate::Pool;
use growth_plan::{ArrayNow, Progress};
use rack::Bay;
use shr_base::units;

/// How many units these arrays have together.
fn height_of(arrays: &[ArrayNow]) -> u64
    requires { height_of arrays.now < 2 ^ 64 }
    ensures { result ≡ height_of arrays.now }
{
    arrays.iter().map(|array| array.height).sum()
}

impl<R: Bay> Pool<R> {
    /// Whether a place is a member of an array.
    fn is_member(&self, number: u32, place: u32) -> bool
        requires fit { (volume (view R.seen R.shelf self.now)).fit }
        requires number { number < (book (view R.seen R.shelf self.now)).state.made }
        ensures { result ≡ is_some (seat_of ((book (view R.seen R.shelf self.now)).arrays number) place) }
    {
        match self.array(number) {
            Some(array) => array.seat(place).is_some(),
            None => false,
        }
    }

    /// Whether a drive of so many units has all units up to the top of an array, or its place is no member of it.
    fn has_layer(&self, progress: &Progress, place: u32, units: u64, number: usize) -> bool
        requires fit { (volume (view R.seen R.shelf self.now)).fit }
        requires number { number < (book (view R.seen R.shelf self.now)).state.made }
        requires progress { progress.now ≡ progress_by (view R.seen R.shelf self.now).linear (book (view R.seen R.shelf self.now)) }
        requires book { IsBook (book (view R.seen R.shelf self.now)).state progress.now }
        ensures { result ≡ spec.has_layer (book (view R.seen R.shelf self.now)) place units number }
    {
        let arrays = progress.arrays.as_slice();
        !self.is_member(number as u32, place) || height_of(&arrays[..number + 1]) <= units
    }

    /// Whether it is so with each array.
    fn has_layers(&self, progress: &Progress, place: u32, units: u64) -> bool
        requires fit { (volume (view R.seen R.shelf self.now)).fit }
        requires progress { progress.now ≡ progress_by (view R.seen R.shelf self.now).linear (book (view R.seen R.shelf self.now)) }
        requires book { IsBook (book (view R.seen R.shelf self.now)).state progress.now }
        ensures { result ≡ spec.has_layers (book (view R.seen R.shelf self.now)) place units }
    {
        for number in 0..self.state().made as usize {
            if !self.has_layer(progress, place, units, number) {
                return false;
            }
        }
        true
    }

    /// Whether a disk of so many sectors has room for a drive's log slice and table, and reaches by its sectors each array that the place is a
    /// member of.
    fn reaches(&self, place: u32, sectors: u64) -> bool
        requires fit { (volume (view R.seen R.shelf self.now)).fit }
        ensures { result ≡ reaches_all (views_of (book (view R.seen R.shelf self.now))) place sectors }
    {
        self.volume.below().reaches(place, sectors)
    }

    /// Whether a disk of so many sectors reaches each array that a place is a member of, by its sectors and by its units.
    pub(crate) fn reaches_own(&self, progress: &Progress, place: u32, sectors: u64) -> bool
        requires fit { (volume (view R.seen R.shelf self.now)).fit }
        requires listed { place < length (book (view R.seen R.shelf self.now)).state.drives.items }
        requires progress { progress.now ≡ progress_by (view R.seen R.shelf self.now).linear (book (view R.seen R.shelf self.now)) }
        requires book { IsBook (book (view R.seen R.shelf self.now)).state progress.now }
        ensures { result ≡ spec.reaches_own (book (view R.seen R.shelf self.now)) place sectors }
    {
        let units = units(sectors, self.state().extent);
        self.reaches(place, sectors) && self.has_layers(progress, place, units)
    }
}
