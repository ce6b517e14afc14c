//! A place whose drive is missing gives its disk up, before another one is taken in there.

ghost use Rattle.std.specs.Prelude.{◌≡◌, ◌<◌, None, false};
ghost use Rattle.array_image.specs.States.{is_current};
ghost use Rattle.slice_rack.specs.Changes.{Seats};
ghost use Rattle.slice_rack.specs.SliceRack.{below_of, tables};
ghost use Rattle.raid_laws.specs.NewDrive.{reaches_all};
ghost use Rattle.raid_rack.specs.RaidRack.{IsFit, arrays_in, arrays_of, raid_in, slices_in, slices_seen};

use crate::arrays::RaidRack;
use crate::new_drive::reaches_all;
use rack::Rack;
use slice_rack::SliceRack;

impl<R: Rack> RaidRack<R> {
    /// The rack of slices, for reading alone.
    pub fn below(&self) -> &SliceRack<R>
        ensures { result.now ≡ slices_in self.now }
    {
        &self.slices
    }

    /// Whether a disk of so many sectors has room for a drive's log slice and table, and reaches each array that a place is a member of.
    pub fn reaches(&self, place: u32, sectors: u64) -> bool
        requires { IsFit (arrays_in self.now) (slices_seen R.seen self.now) }
        ensures { result ≡ reaches_all (arrays_of self.now) place sectors }
    {
        reaches_all(self.arrays.all.as_slice(), place, sectors)
    }

    /// Takes away the disk of a place whose drive is marked missing, with its slices. Nothing is called.
    pub fn vacate(&mut self, place: u32)
        requires fit { IsFit (arrays_in self.old) (slices_seen R.seen self.old) }
        requires place { place < 16 }
        requires missing { is_current (raid_in self.old).state place ≡ false }
        ensures seats { Seats (tables (slices_in self.old)) (tables (slices_in self.new)) place None }
        ensures below { below_of (slices_in self.new) ≡ below_of (slices_in self.old) }
        ensures rest { self.new ≡ record self.old { slices = slices_in self.new } }
        ensures fit { IsFit (arrays_in self.new) (slices_seen R.seen self.new) }
    {
        self.slices.unseat(place);
    }
}
