//! The drive of a place is replaced by the disk of a name.

ghost use Rattle.std.specs.Prelude.{◌≡◌, ◌⊎◌, ◌<◌, Some, Err, true, false, length, slice_get, option_map};
ghost use Rattle.rack.specs.Shelf.{Attaches};
ghost use Rattle.array_image.specs.States.{is_current};
ghost use Rattle.pool.specs.Enlarging.{Enlarges, EnlargesDrive};
ghost use Rattle.pool.specs.Moment.{moment_of};
ghost use Rattle.pool.specs.Naming.{ReplacesDrive};
ghost use Rattle.pool.specs.Replaced.{is_vacant};
ghost use Rattle.pool.specs.Replacing.{IsAdmissible, IsAdmitted, has_other_missing};
ghost use Rattle.pool.specs.Taking.{AttachesDisk, IsOfPlace, ReplacesBy, TakesBy};
ghost use Rattle.pool.specs.View.{bay_in, book, view, volume, with_bay};

use crate::replacing::has_other_missing;
use crate::{GrowFault, Pool};
use pool_state::Plan;
use rack::{AttachFault, Bay, Rack};
use raid_rack::EnlistFault;

impl<R: Bay> Pool<R> {
    /// Whether a place is in the list and marked missing.
    fn is_vacant(&self, place: u32) -> bool
        ensures { result ≡ is_vacant (book (view R.seen R.shelf self.now)).state place }
    {
        match self.state().drives.get(place as usize) {
            Some(drive) => drive.missing,
            None => false,
        }
    }

    /// Whether a disk is that of a place that isn't missing.
    fn is_of_drive(&self, disk: u32) -> bool
        ensures found { result ≡ true → IsOfPlace (moment_of (view R.seen R.shelf self.now)) disk }
        ensures none { result ≡ false → IsOfPlace (moment_of (view R.seen R.shelf self.now)) disk → ⊥ }
    {
        match self.volume.below().below().seated(disk) {
            Some(place) => !self.is_vacant(place),
            None => false,
        }
    }

    /// Attaches the disk of a name to the bay.
    fn attach(&mut self, name: &str) -> Result<u32, AttachFault>
        ensures attaches { Attaches (R.seen (bay_in self.old)) (R.seen (bay_in self.new)) (R.shelf (bay_in self.old)) (R.shelf (bay_in self.new)) name.now result }
        ensures rest { self.new ≡ with_bay self.old (bay_in self.new) }
        ensures frame { R.frame (bay_in self.old) (bay_in self.new) }
    {
        self.volume.inner().slices().inner().attach(name)
    }

    /// The disk of a name, which is attached where it isn't yet, and isn't that of a current drive.
    pub(crate) fn disk_of(&mut self, name: &str) -> Result<u32, GrowFault>
        requires { (volume (view R.seen R.shelf self.old)).fit }
        ensures attaches { AttachesDisk (view R.seen R.shelf self.old) (view R.seen R.shelf self.new) name.now result }
        ensures rest { self.new ≡ with_bay self.old (bay_in self.new) }
        ensures frame { R.frame (bay_in self.old) (bay_in self.new) }
    {
        match self.attach(name) {
            Ok(disk) => Ok(disk),
            Err(AttachFault::Failed) => Err(GrowFault::Attach),
            Err(AttachFault::Memory) => Err(GrowFault::Memory),
            Err(AttachFault::Twice { disk }) => {
                if self.is_of_drive(disk) {
                    Err(GrowFault::Twice)
                } else {
                    Ok(disk)
                }
            }
        }
    }

    /// The units of the drive of a place.
    fn units_of(&self, place: u32) -> u64
        requires { place < length (book (view R.seen R.shelf self.now)).state.drives.items }
        ensures { option_map (λ d. d.units) (slice_get (book (view R.seen R.shelf self.now)).state.drives.items place) ≡ Some result }
    {
        self.state().drives[place as usize].units
    }

    /// The number of the next new drive.
    pub(crate) fn serial(&self) -> u32
        ensures { result ≡ (book (view R.seen R.shelf self.now)).state.serial }
    {
        self.state().serial
    }

    /// Whether another drive than that of a place is marked missing.
    pub(crate) fn lacks_other(&self, place: u32) -> bool
        requires { place < length (book (view R.seen R.shelf self.now)).state.drives.items }
        ensures { result ≡ has_other_missing (book (view R.seen R.shelf self.now)).state place }
    {
        has_other_missing(self.state(), place)
    }

    /// Puts a disk in the place of a drive that is missing.
    fn fill(&mut self, place: u32, disk: u32) -> Result<(), GrowFault>
        requires fit { (volume (view R.seen R.shelf self.old)).fit }
        requires listed { place < length (book (view R.seen R.shelf self.old)).state.drives.items }
        requires disk { disk < (R.seen (bay_in self.old)).disks }
        requires other { IsOfPlace (moment_of (view R.seen R.shelf self.old)) disk → ⊥ }
        requires missing { is_current (book (view R.seen R.shelf self.old)).state place ≡ false }
        requires admitted { IsAdmitted (book (view R.seen R.shelf self.old)) place ((R.seen (bay_in self.old)).sectors disk) }
        ensures takes { TakesBy (view R.seen R.shelf self.old) (view R.seen R.shelf self.new) place disk result }
        ensures runs { R.runs (bay_in self.old) (bay_in self.new) }
    {
        // It isn't at its end, since a drive is admitted.
        let _ = self.serial();
        let units = self.units_of(place);
        let raid = self.volume.inner();
        raid.vacate(place);
        match raid.enlist(place, disk, units, Plan::Replace { place }) {
            Ok(()) => Ok(()),
            Err(EnlistFault::Gone) => Err(GrowFault::Gone),
            Err(EnlistFault::NotWhole) => Err(GrowFault::NotWhole),
        }
    }

    /// Puts a disk in the place of a drive that isn't missing: that is the place's until the commit that takes the new one in.
    fn exchange(&mut self, place: u32, disk: u32) -> Result<(), GrowFault>
        requires fit { (volume (view R.seen R.shelf self.old)).fit }
        requires listed { place < length (book (view R.seen R.shelf self.old)).state.drives.items }
        requires disk { disk < (R.seen (bay_in self.old)).disks }
        requires other { IsOfPlace (moment_of (view R.seen R.shelf self.old)) disk → ⊥ }
        requires current { is_current (book (view R.seen R.shelf self.old)).state place ≡ true }
        requires admitted { IsAdmitted (book (view R.seen R.shelf self.old)) place ((R.seen (bay_in self.old)).sectors disk) }
        ensures takes { TakesBy (view R.seen R.shelf self.old) (view R.seen R.shelf self.new) place disk result }
        ensures runs { R.runs (bay_in self.old) (bay_in self.new) }
    {
        // It isn't at its end, since a drive is admitted.
        let _ = self.serial();
        let units = self.units_of(place);
        let raid = self.volume.inner();
        match raid.enlist(place, disk, units, Plan::Replace { place }) {
            Ok(()) => Ok(()),
            Err(EnlistFault::Gone) => Err(GrowFault::Gone),
            Err(EnlistFault::NotWhole) => Err(GrowFault::NotWhole),
        }
    }

    /// Puts a disk in the place of a drive that is missing, where no other one is.
    fn fill_alone(&mut self, place: u32, disk: u32) -> Result<(), GrowFault>
        requires fit { (volume (view R.seen R.shelf self.old)).fit }
        requires listed { place < length (book (view R.seen R.shelf self.old)).state.drives.items }
        requires disk { disk < (R.seen (bay_in self.old)).disks }
        requires other { IsOfPlace (moment_of (view R.seen R.shelf self.old)) disk → ⊥ }
        requires alone { has_other_missing (book (view R.seen R.shelf self.old)).state place ≡ false → (is_current (book (view R.seen R.shelf self.old)).state place ≡ false)
            × IsAdmitted (book (view R.seen R.shelf self.old)) place ((R.seen (bay_in self.old)).sectors disk) }
        ensures kept { has_other_missing (book (view R.seen R.shelf self.old)).state place ≡ true → (result ≡ Err GrowFault.NotWhole) × (self.new ≡ self.old) }
        ensures takes { has_other_missing (book (view R.seen R.shelf self.old)).state place ≡ false → TakesBy (view R.seen R.shelf self.old) (view R.seen R.shelf self.new) place disk result }
        ensures runs { R.runs (bay_in self.old) (bay_in self.new) }
    {
        if self.lacks_other(place) {
            return Err(GrowFault::NotWhole);
        }
        self.fill(place, disk)
    }

    /// Puts a disk in the place of a drive that isn't missing, where nothing that was looked at is against it. All arrays are cleaned first.
    /// Where the drive itself is found gone meanwhile, it is as one that was missing.
    fn give_way(&mut self, place: u32, disk: u32) -> Result<(), GrowFault>
        requires fit { (volume (view R.seen R.shelf self.old)).fit }
        requires listed { place < length (book (view R.seen R.shelf self.old)).state.drives.items }
        requires disk { disk < (R.seen (bay_in self.old)).disks }
        requires other { IsOfPlace (moment_of (view R.seen R.shelf self.old)) disk → ⊥ }
        requires current { is_current (book (view R.seen R.shelf self.old)).state place ≡ true }
        requires admitted { IsAdmissible (view R.seen R.shelf self.old).linear (book (view R.seen R.shelf self.old)) place ((R.seen (bay_in self.old)).sectors disk) }
        ensures replaces { ReplacesBy (view R.seen R.shelf self.old) (view R.seen R.shelf self.new) place disk result }
        ensures runs { R.runs (bay_in self.old) (bay_in self.new) }
    {
        // A stop after the commit that takes the disk in finds no row to resync beside a member that is rebuilding.
        self.clean();
        if self.lacks_other(place) {
            return Err(GrowFault::NotWhole);
        }
        if !self.has_drive(place) {
            return self.fill(place, disk);
        }
        match self.exchange(place, disk) {
            Ok(()) => Ok(()),
            Err(fault) => {
                if self.has_drive(place) {
                    Err(fault)
                } else {
                    self.fill_alone(place, disk)
                }
            }
        }
    }

    /// Puts a disk in the place of a drive, where nothing that was looked at is against it.
    fn take_in(&mut self, place: u32, disk: u32) -> Result<(), GrowFault>
        requires fit { (volume (view R.seen R.shelf self.old)).fit }
        requires listed { place < length (book (view R.seen R.shelf self.old)).state.drives.items }
        requires disk { disk < (R.seen (bay_in self.old)).disks }
        requires other { IsOfPlace (moment_of (view R.seen R.shelf self.old)) disk → ⊥ }
        requires admitted { IsAdmissible (view R.seen R.shelf self.old).linear (book (view R.seen R.shelf self.old)) place ((R.seen (bay_in self.old)).sectors disk) }
        ensures replaces { ReplacesBy (view R.seen R.shelf self.old) (view R.seen R.shelf self.new) place disk result }
        ensures runs { R.runs (bay_in self.old) (bay_in self.new) }
    {
        if self.has_drive(place) {
            self.give_way(place, disk)
        } else {
            self.fill(place, disk)
        }
    }

    /// Replaces the drive of a place by a disk of the bay, which isn't that of a current drive.
    fn replace_by(&mut self, place: u32, disk: u32) -> Result<(), GrowFault>
        requires fit { (volume (view R.seen R.shelf self.old)).fit }
        requires listed { place < length (book (view R.seen R.shelf self.old)).state.drives.items }
        requires disk { disk < (R.seen (bay_in self.old)).disks }
        requires other { IsOfPlace (moment_of (view R.seen R.shelf self.old)) disk → ⊥ }
        ensures replaces { ReplacesBy (view R.seen R.shelf self.old) (view R.seen R.shelf self.new) place disk result
            ⊎ Enlarges (view R.seen R.shelf self.old) (view R.seen R.shelf self.new) place disk result }
        ensures runs { R.runs (bay_in self.old) (bay_in self.new) }
    {
        let sectors = self.volume.below().below().below().sectors(disk);
        match self.admits(place, sectors) {
            Ok(()) => {
                if self.has_same(place, sectors) {
                    self.take_in(place, disk)
                } else {
                    self.enlarge(place, disk)
                }
            }
            Err(fault) => Err(fault),
        }
    }

    /// Replaces the drive of a place, missing or not, by the disk of a name, which is attached where it isn't yet. The disk gets a
    /// partition table, and slices for the log and for the arrays of the place; its members there are to be rebuilt from their start. No
    /// value of the volume moves. Where the disk has more units than the drive, its table has an entry for each array that it reaches, and the
    /// pool's plan is to grow by it.
    ///
    /// A drive that isn't missing is the place's until one commit on the others takes the new one in; from then on it isn't written.
    /// Before that all arrays are cleaned. Where it is found gone meanwhile, it is marked and the new drive is taken in as in the place of
    /// a missing one.
    ///
    /// The refusals are looked for in the order of [`GrowFault`]. Nothing is written before `Gone`, or `NotWhole` of another drive that was
    /// found gone.
    pub fn replace(&mut self, place: u32, name: &str) -> Result<(), GrowFault>
        requires { (volume (view R.seen R.shelf self.old)).fit }
        ensures replaced { ReplacesDrive (view R.seen R.shelf self.old) (view R.seen R.shelf self.new) place name.now result
            ⊎ EnlargesDrive (view R.seen R.shelf self.old) (view R.seen R.shelf self.new) place name.now result }
        ensures unlisted { result ≡ Err GrowFault.NoSuchDrive → self.new ≡ self.old }
        ensures frame { R.frame (bay_in self.old) (bay_in self.new) }
    {
        if place as usize >= self.state().drives.len() {
            return Err(GrowFault::NoSuchDrive);
        }
        match self.disk_of(name) {
            Ok(disk) => self.replace_by(place, disk),
            Err(fault) => Err(fault),
        }
    }
}
