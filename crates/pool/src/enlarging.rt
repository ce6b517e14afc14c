//! A place gets a drive of other units.

ghost use Rattle.std.specs.Prelude.{◌≡◌, ◌<◌, ◌&&◌, None, Err, OnErr, true, false, not, length};
ghost use Rattle.array_image.specs.States.{is_current};
ghost use Rattle.growth_laws.specs.Losses.{LosesBook};
ghost use Rattle.growth_plan.specs.Admission.{is_serial_end};
ghost use Rattle.pool.specs.Enlarging.{Enlarges, EnlargesBy};
ghost use Rattle.pool.specs.Entering.{IsVacating};
ghost use Rattle.pool.specs.Moment.{moment_of};
ghost use Rattle.pool.specs.Replaced.{HasMarked};
ghost use Rattle.pool.specs.Replacing.{has_other_missing, has_same, reaches_own, refusal_of};
ghost use Rattle.pool.specs.Taking.{IsOfPlace};
ghost use Rattle.pool.specs.View.{arrays_of, bay_in, book, slices_shown, view, volume};
ghost use Rattle.raid_laws.specs.Moves.{RaisesBy};
ghost use Rattle.raid_rack.specs.RaidRack.{IsFit, arrays_in, slices_in};
ghost use Rattle.shr_base.specs.Units.{units_of};

use crate::{GrowFault, Pool};
use pool_state::Plan;
use rack::{Bay, Rack};
use raid_rack::EnlistFault;
use shr_base::units;

impl<R: Bay> Pool<R> {
    /// Takes the disk of a place away whose drive is missing. A drive that isn't keeps its disk.
    fn give_up(&mut self, place: u32)
        requires fit { (volume (view R.seen R.shelf self.old)).fit }
        requires listed { place < length (book (view R.seen R.shelf self.old)).state.drives.items }
        ensures tables { IsVacating (view R.seen R.shelf self.old) place (view R.seen R.shelf self.new).slices }
        ensures bay { bay_in self.new ≡ bay_in self.old }
        ensures rest { arrays_of self.new ≡ record (arrays_of self.old) { slices = slices_in (arrays_of self.new) } }
        ensures volume { self.new ≡ record self.old { volume = record self.old.volume { rack = arrays_of self.new } } }
        ensures fit { IsFit (arrays_in (arrays_of self.new)) (slices_shown (view R.seen R.shelf self.new)) }
    {
        if !self.has_drive(place) {
            self.volume.inner().vacate(place);
        }
    }

    /// Takes a disk in at a place, whose drive is missing or gives way to it, by a plan to grow. A drive that isn't missing is the place's until the
    /// commit that takes the new one in.
    fn take_larger(&mut self, place: u32, disk: u32) -> Result<(), GrowFault>
        requires fit { (volume (view R.seen R.shelf self.old)).fit }
        requires listed { place < length (book (view R.seen R.shelf self.old)).state.drives.items }
        requires disk { disk < (R.seen (bay_in self.old)).disks }
        requires other { IsOfPlace (moment_of (view R.seen R.shelf self.old)) disk → ⊥ }
        requires whole { has_other_missing (book (view R.seen R.shelf self.old)).state place ≡ false }
        requires serial { is_serial_end (book (view R.seen R.shelf self.old)).state ≡ false }
        requires some { 0 < units_of ((R.seen (bay_in self.old)).sectors disk) (book (view R.seen R.shelf self.old)).state.extent }
        requires reaches { reaches_own (book (view R.seen R.shelf self.old)) place ((R.seen (bay_in self.old)).sectors disk) ≡ true }
        ensures enlarges { EnlargesBy (view R.seen R.shelf self.old) (view R.seen R.shelf self.new) place disk result }
        ensures lost { result ≡ Err GrowFault.NotWhole → HasMarked (moment_of (view R.seen R.shelf self.old)) (moment_of (view R.seen R.shelf self.new)) }
        ensures loses { OnErr result (LosesBook (book (view R.seen R.shelf self.old)) (book (view R.seen R.shelf self.new))) }
        ensures kept { is_current (book (view R.seen R.shelf self.old)).state place ≡ true → OnErr result ((view R.seen R.shelf self.new).slices ≡ (view R.seen R.shelf self.old).slices) }
        ensures raises { RaisesBy 36 (book (view R.seen R.shelf self.old)) (book (view R.seen R.shelf self.new)) }
        ensures runs { R.runs (bay_in self.old) (bay_in self.new) }
    {
        self.give_up(place);
        // It isn't at its end, since a drive is admitted.
        let _ = self.serial();
        let sectors = self.volume.below().below().below().sectors(disk);
        let units = units(sectors, self.state().extent);
        let plan = Plan::Replace { place };
        match self.volume.inner().add_drive(place, disk, units, plan) {
            Ok(()) => Ok(()),
            Err(EnlistFault::Gone) => Err(GrowFault::Gone),
            Err(EnlistFault::NotWhole) => Err(GrowFault::NotWhole),
        }
    }

    /// Whether the drive of a place is missing, and no other one.
    fn lacks_alone(&self, place: u32) -> bool
        requires { place < length (book (view R.seen R.shelf self.now)).state.drives.items }
        ensures { result ≡ (not (is_current (book (view R.seen R.shelf self.now)).state place) && not (has_other_missing (book (view R.seen R.shelf self.now)).state place)) }
    {
        !self.has_drive(place) && !self.lacks_other(place)
    }

    /// Replaces the drive of a place by a disk of other units, where nothing that was looked at is against it. Where the drive itself is found gone
    /// meanwhile, it is as one that was missing.
    pub(crate) fn enlarge(&mut self, place: u32, disk: u32) -> Result<(), GrowFault>
        requires fit { (volume (view R.seen R.shelf self.old)).fit }
        requires listed { place < length (book (view R.seen R.shelf self.old)).state.drives.items }
        requires disk { disk < (R.seen (bay_in self.old)).disks }
        requires other { IsOfPlace (moment_of (view R.seen R.shelf self.old)) disk → ⊥ }
        requires admitted { refusal_of (view R.seen R.shelf self.old).linear (book (view R.seen R.shelf self.old)) place ((R.seen (bay_in self.old)).sectors disk) ≡ None }
        requires units { has_same (book (view R.seen R.shelf self.old)) place ((R.seen (bay_in self.old)).sectors disk) ≡ false }
        ensures enlarges { Enlarges (view R.seen R.shelf self.old) (view R.seen R.shelf self.new) place disk result }
        ensures runs { R.runs (bay_in self.old) (bay_in self.new) }
    {
        if !self.has_drive(place) {
            return self.take_larger(place, disk);
        }
        match self.take_larger(place, disk) {
            Ok(()) => Ok(()),
            Err(fault) => {
                if self.lacks_alone(place) {
                    self.take_larger(place, disk)
                } else {
                    Err(fault)
                }
            }
        }
    }
}
