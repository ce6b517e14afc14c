//! A new drive is taken in at a place, whose drive is missing or gives way to it.

ghost use Rattle.std.specs.Prelude.{◌≡◌, ◌≢◌, ◌<◌, ◌≤◌, ◌+◌, ◌-◌, ◌^◌, ℕ, Err, Some, OnOk, OnErr, true, false, [], ◌∷◌, length, slice_get, slice_set, option_map};
ghost use Rattle.slice_rack.specs.SliceRack.{below_of, tables};
ghost use Rattle.slice_rack.specs.Slices.{seat_of as disk_at};
ghost use Rattle.array_image.specs.States.{is_current};
ghost use Rattle.array_model.specs.declared.Seat.TheVariants.{Missing};
ghost use Rattle.array_core.specs.Seats.{gone, heeded, seat_of};
ghost use Rattle.raid_laws.specs.Moves.{IsHeeded, IsUnmarked, Mends, RaisesBy};
ghost use Rattle.raid_laws.specs.NewDrive.{ReachesAll, SeatsDrive, joins};
ghost use Rattle.raid_laws.specs.Settling.{HasStaged};
ghost use Rattle.raid_rack.specs.RaidRack.{IsFit, IsRunning, arrays_in, arrays_of, is_written, raid_by, raid_in, refused_in, slices_in, slices_seen, written_in};
ghost use Rattle.raid_laws.specs.Truths.{JoinsTruths, KeepsTruths};
ghost use Rattle.raid_laws.specs.Unlost.{KeepsUnlost};
ghost use Rattle.raid_laws.specs.Vacated.{vacated_state};
ghost use Rattle.raid_laws.specs.Enlisting as spec;

use crate::arrays::{Arrays, RaidRack};
use crate::losses::{add_copies, heed_all, newly_gone, note_gone};
use crate::marks::{current_places, marked, raised};
use crate::new_drive::{joining, lay_drive, seat_drive, table_of};
use arrayvec::ArrayVec;
use pool_state::{Drive, Plan, State};
use rack::{Places, Rack};
use shr_base::{Id, child_id};

/// Why a drive isn't taken in.
#[derive(Clone, Copy, Debug, PartialEq, Eq)]
pub enum EnlistFault {
    /// The new drive refused a call before it was one of the pool.
    Gone,
    /// Another drive than the new one was found gone, and is marked. It may be the one that gives way: then the place's drive is missing.
    NotWhole,
}

/// The id of the next new drive of a pool.
pub(crate) fn next_drive(state: &State) -> Id
    ensures { result ≡ spec.next_drive state.now }
{
    child_id(&state.pool, 1, state.serial, 0)
}

/// Drives of which one is another one.
fn replaced(drives: &[Drive], place: u32, drive: Drive) -> ArrayVec<Drive, 16>
    requires few { length drives.now ≤ 16 }
    ensures { result.items ≡ slice_set drives.now place drive }
{
    let mut replaced = ArrayVec::new();
    for at in 0..drives.len() {
        replaced.push(if at == place as usize {
            drive
        } else {
            drives[at]
        });
    }
    replaced
}

/// Puts a new drive of so many units in the list, in a state of the next epoch.
fn enlist_drive(state: &mut State, place: u32, units: u64, plan: Plan)
    requires serial { state.old.serial < 2 ^ 32 - 1 }
    ensures { state.new ≡ spec.enlisted place units plan state.old }
{
    let drive = Drive {
        id: next_drive(state),
        units,
        missing: false,
    };
    state.drives = replaced(state.drives.as_slice(), place, drive);
    state.epoch = raised(state.epoch);
    state.plan = plan;
    state.serial += 1;
}

impl Arrays {
    /// Settles all arrays, and answers whether nobody went. Else his loss is marked.
    pub(crate) fn settle_whole<S: Rack>(&mut self, rack: &mut S) -> bool
        requires running { IsRunning self.old (S.seen rack.old) }
        requires heeded { IsHeeded (raid_by self.old) }
        ensures whole { result ≡ true → spec.SettlesWhole (raid_by self.old) (raid_by self.new) (S.seen rack.old) (S.seen rack.new) }
        ensures empty { result ≡ true → self.new.log.added ≡ [] }
        ensures mends { result ≡ false → Mends (raid_by self.old) (raid_by self.new) (S.seen rack.old) (S.seen rack.new) }
        ensures lost { result ≡ false → spec.HasLost (raid_by self.old) (raid_by self.new) (S.seen rack.old) (S.seen rack.new) }
        ensures raises { RaisesBy 18 (raid_by self.old) (raid_by self.new) }
        ensures truths { result ≡ false → KeepsTruths (raid_by self.old) (raid_by self.new) (S.seen rack.old) (S.seen rack.new) }
        ensures unlost { result ≡ false → KeepsUnlost self.old.state self.new.state (S.seen rack.old) (S.seen rack.new) }
        ensures running { IsRunning self.new (S.seen rack.new) }
        ensures runs { S.runs rack.old rack.new }
    {
        self.log.clear();
        self.settle_all(rack);
        let lost = newly_gone(&self.state, self.all.as_slice());
        if !lost.is_empty() {
            self.mend(rack);
            return false;
        }
        heed_all(self.all.as_mut_slice());
        self.log.clear();
        true
    }

    /// Makes the drive of a place missing in memory alone, with its members, before a commit gives the place another one. It may be missing
    /// already. Nothing is called, and nobody has gone after it.
    pub(crate) fn retire(&mut self, place: u32)
        ensures state { self.new.state ≡ vacated_state place self.old.state }
        ensures each { (n : ℕ) → slice_get self.new.all.items n ≡ option_map heeded (option_map (gone (place ∷ [])) (slice_get self.old.all.items n)) }
        ensures rest { self.new ≡ record self.old { state = self.new.state; all = self.new.all } }
    {
        let mut places = Places::new();
        places.push(place);
        note_gone(self.all.as_mut_slice(), &places);
        heed_all(self.all.as_mut_slice());
        self.state.drives = marked(self.state.drives.as_slice(), &places);
    }

    /// Makes the member of a place one that is to be rebuilt from its start, in these arrays. It is missing there.
    fn renew_members(&mut self, place: u32, joining: &[bool; 16])
        requires few { length self.old.all.items ≤ 16 }
        requires missing { (n : ℕ) → is_written joining.now n ≡ true → seat_of ((raid_by self.old).arrays n) place ≡ Some Missing }
        ensures each { (n : ℕ) → slice_get self.new.all.items n ≡ spec.renewed_at place (spec.next_drive self.old.state) (is_written joining.now) n (slice_get self.old.all.items n) }
        ensures rest { self.new ≡ record self.old { all = self.new.all } }
    {
        let drive = next_drive(&self.state);
        for number in 0..self.all.len() {
            if joining[number] {
                self.all[number].renew(place, &drive);
            }
        }
    }

    /// Adds the superblocks of all arrays to the log. No array is marked.
    fn stage_all(&mut self)
        requires few { length self.old.all.items ≤ 16 }
        requires empty { self.old.log.added ≡ [] }
        requires numbers { (n : ℕ) → n < length self.old.all.items → ((raid_by self.old).arrays n).number ≡ n }
        requires unmarked { (n : ℕ) → n < length self.old.all.items → IsUnmarked ((raid_by self.old).arrays n) }
        ensures staged { HasStaged (raid_by self.old) (length self.old.all.items) self.new.log.added }
        ensures rest { self.new ≡ record self.old { log = record self.old.log { added = self.new.log.added } } }
    {
        for number in 0..self.all.len() {
            let array = &self.all[number];
            array.rules();
            array.stage_own(&mut self.log);
        }
    }

    /// Makes a drive one of the pool, over slices that it has already: one commit on the drives that are left has the state with it,
    /// a copy for it too, and the superblocks, by which its members are to be rebuilt from their start.
    pub(crate) fn join<S: Rack>(
        &mut self,
        rack: &mut S,
        place: u32,
        units: u64,
        plan: Plan,
        sectors: u64,
    )
        requires running { IsRunning self.old (S.seen rack.old) }
        requires heeded { IsHeeded (raid_by self.old) }
        requires empty { self.old.log.added ≡ [] }
        requires unmarked { (n : ℕ) → n < self.old.state.made → IsUnmarked ((raid_by self.old).arrays n) }
        requires serial { self.old.state.serial < 2 ^ 32 - 1 }
        requires listed { place < length self.old.state.drives.items }
        requires missing { is_current self.old.state place ≡ false }
        requires others { (p : ℕ) → p < length self.old.state.drives.items → p ≢ place → is_current self.old.state p ≡ true }
        requires units { 0 < units }
        requires units_end { units < 2 ^ 41 }
        requires plan { plan ≡ Plan.Replace place }
        requires slices { spec.HasNewSlices self.old.all.items place sectors (S.seen rack.old) }
        requires reaches { ReachesAll self.old.all.items place sectors }
        ensures joined { spec.IsEnlisted place units plan (joins self.old.all.items place sectors) (raid_by self.old) (raid_by self.new) (S.seen rack.old) (S.seen rack.new) }
        ensures raises { RaisesBy 18 (raid_by self.old) (raid_by self.new) }
        ensures fit { IsFit self.new (S.seen rack.new) }
        ensures each { spec.JoinsEach place units plan (raid_by self.old) (raid_by self.new) (S.seen rack.old) (S.seen rack.new) }
        // Also where images have the place as current yet, by its old drive.
        ensures finds { spec.FindsEach place units plan (raid_by self.old) (raid_by self.new) (S.seen rack.old) (S.seen rack.new) }
        ensures truths { JoinsTruths (spec.with_drive place units plan (joins self.old.all.items place sectors) (raid_by self.old)) (raid_by self.new) (S.seen rack.old) (S.seen rack.new) }
        ensures runs { S.runs rack.old rack.new }
    {
        let on = current_places(&self.state);
        let joining = joining(self.all.as_slice(), place, sectors);
        self.renew_members(place, &joining);
        enlist_drive(&mut self.state, place, units, plan);
        self.stage_all();
        let current = current_places(&self.state);
        add_copies(&self.state, &current, &mut self.log);
        // A stop before it leaves the place as it was; after it the new drive has it, and its members count nowhere.
        let went = self.log.commit(rack, &on);
        note_gone(self.all.as_mut_slice(), &went);
        self.mend(rack);
    }
}

impl<R: Rack> RaidRack<R> {
    /// Takes a new drive in, on a disk of the rack of drives, at a place whose drive is marked missing or gives way to it. The disk gets a
    /// partition table, and slices for the log and for each array that the place is a member of, which it reaches; its members there are to
    /// be rebuilt from their start. It is one of the pool by one commit on the drives that are left, which is durable when this returns: in
    /// what a stop leaves before it the disk is none of the pool's. No value of an array moves. A drive that gives way isn't written from
    /// the time on when the slices of the new disk are added; it is the place's in what a stop leaves before the commit.
    ///
    /// `units` are those of the drive that it replaces, and the disk has room for the log slice and the table.
    ///
    /// `Gone`: the disk refused a call before the commit; the pool is as it was, and on the disk what is laid on a new drive may be written. `NotWhole`: another drive was found gone before it, it may be that of the place; it is marked, and but for
    /// this the pool is as it was. A drive that goes in the commit, also the new one, is marked when this returns.
    pub fn enlist(
        &mut self,
        place: u32,
        disk: u32,
        units: u64,
        plan: Plan,
    ) -> Result<(), EnlistFault>
        requires fit { IsFit (arrays_in self.old) (slices_seen R.seen self.old) }
        requires listed { place < length (raid_in self.old).state.drives.items }
        requires others { (p : ℕ) → p < length (raid_in self.old).state.drives.items → p ≢ place → is_current (raid_in self.old).state p ≡ true }
        requires units { option_map (λ d. d.units) (slice_get (raid_in self.old).state.drives.items place) ≡ Some units }
        requires plan { plan ≡ Plan.Replace place }
        requires serial { (raid_in self.old).state.serial < 2 ^ 32 - 1 }
        requires disk { disk < (R.seen (below_of (slices_in self.old))).disks }
        requires free { (p : ℕ) → disk_at (tables (slices_in self.old)) p ≢ Some disk }
        requires room { 10273 ≤ (R.seen (below_of (slices_in self.old))).sectors disk }
        // So it does where the pool is sound and the disk has those units.
        requires reaches { ReachesAll (arrays_of self.old) place ((R.seen (below_of (slices_in self.old))).sectors disk) }

        // Where it is taken in, the tables have its disk and its slices beside those that they had.
        ensures seats { OnOk result (SeatsDrive (arrays_of self.old) place disk ((R.seen (below_of (slices_in self.old))).sectors disk) (tables (slices_in self.old)) (tables (slices_in self.new))) }
        ensures enlists { OnOk result (spec.Enlists (tables (slices_in self.old)) (tables (slices_in self.new)) (arrays_of self.old) place disk units plan
            (raid_in self.old) (raid_in self.new) (R.seen (below_of (slices_in self.old))) (R.seen (below_of (slices_in self.new)))) }

        // Where it isn't, the tables are as before.
        ensures tables { OnErr result (tables (slices_in self.new) ≡ tables (slices_in self.old)) }
        ensures gone { result ≡ Err EnlistFault.Gone → spec.IsRefused (tables (slices_in self.old)) disk (spec.new_table (raid_in self.old).state (arrays_of self.old) place ((R.seen (below_of (slices_in self.old))).sectors disk))
            (raid_in self.old) (R.seen (below_of (slices_in self.old))) (R.seen (below_of (slices_in self.new))) }
        ensures kept { result ≡ Err EnlistFault.Gone → arrays_in self.new ≡ arrays_in self.old }
        ensures not_whole { result ≡ Err EnlistFault.NotWhole → spec.IsNotWhole (tables (slices_in self.old)) disk (spec.new_table (raid_in self.old).state (arrays_of self.old) place ((R.seen (below_of (slices_in self.old))).sectors disk))
            (raid_in self.old) (raid_in self.new)
            (R.seen (below_of (slices_in self.old))) (R.seen (below_of (slices_in self.new))) }
        ensures fit { IsFit (arrays_in self.new) (slices_seen R.seen self.new) }
        ensures refused { (n : ℕ) → refused_in self.new n ≡ refused_in self.old n }
        ensures written { (n : ℕ) → written_in self.new n ≡ written_in self.old n }
        ensures runs { R.runs (below_of (slices_in self.old)) (below_of (slices_in self.new)) }
    {
        let sectors = self.slices.below().sectors(disk);
        let drive = next_drive(&self.arrays.state);
        let table = table_of(drive, self.arrays.all.as_slice(), place, sectors);
        if let Err(_) = lay_drive(self.slices.inner(), disk, &table) {
            return Err(EnlistFault::Gone);
        }
        if !self.arrays.settle_whole(&mut self.slices) {
            return Err(EnlistFault::NotWhole);
        }
        self.arrays.retire(place);
        seat_drive(
            &mut self.slices,
            self.arrays.all.as_slice(),
            place,
            disk,
            sectors,
        );
        self.arrays
            .join(&mut self.slices, place, units, plan, sectors);
        Ok(())
    }
}
