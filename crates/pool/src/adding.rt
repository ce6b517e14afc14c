//! A drive is added to the pool: the disk of a name, on the next place.

ghost use Rattle.std.specs.Prelude.{◌≡◌, ◌<◌, ◌^◌, None, length};
ghost use Rattle.std.specs.Result.{result_err};
ghost use Rattle.growth_plan.specs.Book.{IsBook};
ghost use Rattle.pool.specs.Adding as spec;
ghost use Rattle.pool.specs.Moment.{moment_of};
ghost use Rattle.pool.specs.Replacing.{lacks_room};
ghost use Rattle.pool.specs.Taking.{IsOfPlace};
ghost use Rattle.pool.specs.View.{bay_in, book, view, volume};
ghost use Rattle.pool.specs.Works.{progress_by};

use crate::replacing::{fault_of, has_resync, is_planned, lacks_one, new_drive, planning};
use crate::{GrowFault, Pool};
use growth_plan::{Progress, admit_add, target};
use pool_state::{Plan, State};
use rack::{Bay, Rack};
use shr_base::units;

/// Whether a drive is marked missing, or the list has none.
fn lacks_drive(state: &State) -> bool
    ensures { result ≡ spec.lacks_drive state.now }
{
    state.drives.len() == 0 || lacks_one(state.drives.as_slice())
}

/// A state with the pool's next drive at the end of the list, of so many units, and with the plan that adds it. It takes no memory.
fn adding(units: u64, state: &State) -> State
    requires { length state.now.drives.items < 16 }
    ensures { result ≡ spec.adding units state.now }
{
    let place = state.drives.len() as u32;
    let mut planned = planning(Plan::Add { place }, state);
    planned.drives.push(new_drive(units, state));
    planned
}

impl<R: Bay> Pool<R> {
    /// Whether the volume doesn't fit over what the arrays offer once a drive of so many units is added.
    fn lacks_room(&self, progress: &Progress, units: u64) -> bool
        requires few { length (book (view R.seen R.shelf self.now)).state.drives.items < 16 }
        requires some { 0 < units }
        requires small { units < 2 ^ 41 }
        requires progress { progress.now ≡ progress_by (view R.seen R.shelf self.now).linear (book (view R.seen R.shelf self.now)) }
        requires book { IsBook (book (view R.seen R.shelf self.now)).state progress.now }
        ensures { result ≡ lacks_room (view R.seen R.shelf self.now).linear (book (view R.seen R.shelf self.now)) (spec.adding units (book (view R.seen R.shelf self.now)).state) }
    {
        let planned = adding(units, self.state());
        let extents = target(&planned, progress);
        !self.volume.fits(extents.as_slice())
    }

    /// Whether a drive of so many units may be added to a pool of which no drive is missing and no plan is being carried out: else the first
    /// refusal.
    fn admits_units(&self, units: u64) -> Result<(), GrowFault>
        requires fit { (volume (view R.seen R.shelf self.now)).fit }
        requires listed { 0 < length (book (view R.seen R.shelf self.now)).state.drives.items }
        requires small { units < 2 ^ 41 }
        ensures { result_err result ≡ spec.refusal_of_units (view R.seen R.shelf self.now).linear (book (view R.seen R.shelf self.now)) units }
    {
        let progress = self.progress();
        if has_resync(&progress) {
            return Err(GrowFault::NotResynced);
        }
        match admit_add(self.state(), &progress, units) {
            Ok(()) => {}
            Err(fault) => return Err(fault_of(fault)),
        }
        if self.lacks_room(&progress, units) {
            return Err(GrowFault::TooManySegments);
        }
        Ok(())
    }

    /// Whether a disk of so many sectors may be added: else the first refusal.
    fn admits_disk(&self, sectors: u64) -> Result<(), GrowFault>
        requires fit { (volume (view R.seen R.shelf self.now)).fit }
        requires small { sectors < 2 ^ 48 }
        ensures { result_err result ≡ spec.refusal_of_add (view R.seen R.shelf self.now).linear (book (view R.seen R.shelf self.now)) sectors }
    {
        let state = self.state();
        if is_planned(state.plan) {
            return Err(GrowFault::PlanPending);
        }
        if lacks_drive(state) {
            return Err(GrowFault::NotWhole);
        }
        self.admits_units(units(sectors, state.extent))
    }

    /// Takes a disk in as the drive of the next place, where nothing is against it.
    fn take_as_new(&mut self, disk: u32) -> Result<(), GrowFault>
        requires fit { (volume (view R.seen R.shelf self.old)).fit }
        requires disk { disk < (R.seen (bay_in self.old)).disks }
        requires other { IsOfPlace (moment_of (view R.seen R.shelf self.old)) disk → ⊥ }
        requires admitted { spec.refusal_of_add (view R.seen R.shelf self.old).linear (book (view R.seen R.shelf self.old)) ((R.seen (bay_in self.old)).sectors disk) ≡ None }
        ensures adds { spec.AddsBy (view R.seen R.shelf self.old) (view R.seen R.shelf self.new) disk result }
        ensures runs { R.runs (bay_in self.old) (bay_in self.new) }
    {
        // It isn't at its end, since a drive may be added.
        let _ = self.serial();
        let place = self.state().drives.len() as u32;
        let sectors = self.volume.below().below().below().sectors(disk);
        let units = units(sectors, self.state().extent);
        let plan = Plan::Add { place };
        match self.volume.inner().add_drive(place, disk, units, plan) {
            Ok(()) => Ok(()),
            Err(_) => Err(GrowFault::Gone),
        }
    }

    /// Adds a disk of the bay, which isn't that of a current drive.
    fn add_disk(&mut self, disk: u32) -> Result<(), GrowFault>
        requires fit { (volume (view R.seen R.shelf self.old)).fit }
        requires disk { disk < (R.seen (bay_in self.old)).disks }
        requires other { IsOfPlace (moment_of (view R.seen R.shelf self.old)) disk → ⊥ }
        ensures adds { spec.AddsBy (view R.seen R.shelf self.old) (view R.seen R.shelf self.new) disk result }
        ensures runs { R.runs (bay_in self.old) (bay_in self.new) }
    {
        let sectors = self.volume.below().below().below().sectors(disk);
        match self.admits_disk(sectors) {
            Ok(()) => self.take_as_new(disk),
            Err(fault) => Err(fault),
        }
    }

    /// Adds the disk of a name, which is attached where it isn't yet, as the drive of the next place: the pool's plan is then to add it. The
    /// disk gets a partition table with its log slice and the slices of the arrays that it reaches. It is a member of no array yet.
    ///
    /// The refusals are looked for in the order of [`GrowFault`], and nothing is written before `Gone`: the new drive refused a call, and
    /// the pool is as it was.
    pub fn add(&mut self, name: &str) -> Result<(), GrowFault>
        requires { (volume (view R.seen R.shelf self.old)).fit }
        ensures adds { spec.AddsDrive (view R.seen R.shelf self.old) (view R.seen R.shelf self.new) name.now result }
        ensures frame { R.frame (bay_in self.old) (bay_in self.new) }
    {
        match self.disk_of(name) {
            Ok(disk) => self.add_disk(disk),
            Err(fault) => Err(fault),
        }
    }
}
