//! A drive joins a pool that grows: which arrays it reaches, what is laid on it, and the commit that has it in the list.

ghost use Rattle.std.specs.Prelude.{◌≡◌, ◌≢◌, ◌<◌, ◌≤◌, ◌+◌, ◌-◌, ◌^◌, ℕ, All, Err, Some, OnOk, OnErr, IfErr, true, false, [], length};
ghost use Rattle.rack.specs.Seen.{Rose, SameRack};
ghost use Rattle.rack.specs.Sequences.{WritesOnly};
ghost use Rattle.gpt_table.specs.Format.{IsWritable};
ghost use Rattle.slice_rack.specs.SliceRack.{below_of, tables};
ghost use Rattle.slice_rack.specs.Slices.{seat_of as disk_at};
ghost use Rattle.slice_rack.specs.Runs.{IsSliced};
ghost use Rattle.slice_rack.specs.Sliced.{slices_of};
ghost use Rattle.array_image.specs.Places.{log_sectors, log_slice};
ghost use Rattle.array_image.specs.States.{is_current};
ghost use Rattle.array_model.specs.View.{View};
ghost use Rattle.raid_laws.specs.Enlisting.{HasLost, next_drive};
ghost use Rattle.raid_laws.specs.Moves.{IsHeeded, Mends, RaisesBy};
ghost use Rattle.raid_laws.specs.NewDrive.{ReachesAll, SeatsDrive, joins};
ghost use Rattle.raid_rack.specs.RaidRack.{IsFit, IsRunning, arrays_in, arrays_of, raid_by, raid_in, refused_in, slices_in, slices_seen, written_in};
ghost use Rattle.transition_laws.specs.Changes.{enlisted};
ghost use Rattle.growth_laws.specs.NewDrives as spec;

use crate::arrays::{Arrays, RaidRack};
use crate::enlisting::{EnlistFault, next_drive};
use crate::losses::{add_copies, note_gone};
use crate::marks::{current_places, raised};
use crate::new_drive::{
    BACKUP_SECTORS, DATA_SECTOR, LOG_KIND, LOG_SECTORS, STATE_SECTOR, ZEROS, entry_of, first_in,
    lay_drive, member_entry, seat_drive,
};
use array_core::Array;
use arrayvec::ArrayVec;
use gpt_table::Table;
use pool_state::{Drive, Plan, State};
use rack::{Gone, Rack, write_durably};
use shr_base::Id;

/// The superblock's sector of a member's slice.
const SUPER_SECTOR: u64 = 8;

/// The height of an array, in units of so many sectors.
fn height_of(array: &Array, extent: u32) -> u64
    requires extent { 0 < extent }
    requires small { array.now.truth.size < 2 ^ 48 }
    ensures height { result ≡ spec.height extent array.now }
    ensures low { result < 2 ^ 48 }
{
    array.truth().size.saturating_sub(DATA_SECTOR) / extent as u64
}

/// How many units the first arrays have together.
fn top_of(arrays: &[Array], extent: u32, many: usize) -> u64
    requires few { length arrays.now ≤ 16 }
    requires many { many ≤ length arrays.now }
    requires small { All (λ (u : View). u.truth.size < 2 ^ 48) arrays.now }
    requires extent { 0 < extent }
    ensures { result ≡ spec.top extent arrays.now many }
{
    let mut top = 0;
    for number in 0..many {
        top += height_of(&arrays[number], extent);
    }
    top
}

/// Whether a drive of so many units, on a disk of so many sectors, reaches an array: it has all units up to the array's top, and its slice
/// ends before the backup of the table.
fn reaches(arrays: &[Array], extent: u32, units: u64, sectors: u64, number: usize) -> bool
    requires few { length arrays.now ≤ 16 }
    requires number { number < length arrays.now }
    requires small { All (λ (u : View). u.truth.size < 2 ^ 48) arrays.now }
    requires extent { 0 < extent }
    ensures { result ≡ spec.reaches extent arrays.now units sectors number }
{
    let end = first_in(arrays, number) + arrays[number].truth().size + DATA_SECTOR + BACKUP_SECTORS;
    top_of(arrays, extent, number + 1) <= units && end <= sectors
}

/// Whether such a drive reaches an array of which its place is no member.
fn may_join(
    arrays: &[Array],
    extent: u32,
    place: u32,
    units: u64,
    sectors: u64,
    number: usize,
) -> bool
    requires few { length arrays.now ≤ 16 }
    requires number { number < length arrays.now }
    requires small { All (λ (u : View). u.truth.size < 2 ^ 48) arrays.now }
    requires extent { 0 < extent }
    ensures { result ≡ spec.may_join extent arrays.now place units sectors number }
{
    reaches(arrays, extent, units, sectors, number) && arrays[number].seat(place).is_none()
}

/// The table of a drive of so many units, on a disk of so many sectors: it has the log slice, and an entry for each array that the drive
/// reaches.
fn reached_table(drive: Id, arrays: &[Array], extent: u32, units: u64, sectors: u64) -> Table
    requires few { length arrays.now ≤ 16 }
    requires small { All (λ (u : View). u.truth.size < 2 ^ 48) arrays.now }
    requires extent { 0 < extent }
    ensures { result ≡ spec.reached_table drive.0 arrays.now (spec.reaches extent arrays.now units sectors) sectors (length arrays.now) }
{
    let mut entries = ArrayVec::new();
    entries.push(entry_of(&drive, 0, LOG_KIND, STATE_SECTOR, LOG_SECTORS));
    for number in 0..arrays.len() {
        if reaches(arrays, extent, units, sectors, number) {
            entries.push(member_entry(&drive, arrays, number));
        }
    }
    Table {
        disk_id: drive,
        sectors,
        entries,
    }
}

/// Writes zeros where a superblock would be of each array that the drive reaches and that its place is no member of: none that stands there is
/// one of the pool's then.
fn clear_supers<R: Rack>(
    rack: &mut R,
    disk: u32,
    arrays: &[Array],
    extent: u32,
    place: u32,
    units: u64,
) -> Result<(), Gone>
    requires few { length arrays.now ≤ 16 }
    requires small { All (λ (u : View). u.truth.size < 2 ^ 48) arrays.now }
    requires extent { 0 < extent }
    requires fit { (R.seen rack.old).fit }
    requires disk { disk < (R.seen rack.old).disks }
    ensures clears { spec.ClearsSupers (R.seen rack.old) (R.seen rack.new) disk arrays.now
        (spec.may_join extent arrays.now place units ((R.seen rack.old).sectors disk)) (length arrays.now) result }
    ensures runs { R.runs rack.old rack.new }
{
    let sectors = rack.sectors(disk);
    for number in 0..arrays.len() {
        if may_join(arrays, extent, place, units, sectors, number) {
            let sector = first_in(arrays, number) + SUPER_SECTOR;
            if let Err(gone) = write_durably(rack, disk, sector, &ZEROS) {
                return Err(gone);
            }
        }
    }
    Ok(())
}

/// Lays a drive that joins: zeros where superblocks would be, then what each new drive gets, each durable before the next.
fn lay_reached<R: Rack>(
    rack: &mut R,
    disk: u32,
    arrays: &[Array],
    extent: u32,
    place: u32,
    units: u64,
    table: &Table,
) -> Result<(), Gone>
    requires few { length arrays.now ≤ 16 }
    requires small { All (λ (u : View). u.truth.size < 2 ^ 48) arrays.now }
    requires extent { 0 < extent }
    requires fit { (R.seen rack.old).fit }
    requires disk { disk < (R.seen rack.old).disks }
    requires size { table.now.sectors ≡ (R.seen rack.old).sectors disk }
    requires room { 10273 ≤ table.now.sectors }
    requires writable { IsWritable table.now }
    ensures lays { spec.LaysReached (R.seen rack.old) (R.seen rack.new) disk arrays.now
        (spec.may_join extent arrays.now place units ((R.seen rack.old).sectors disk)) table.now result }
    ensures runs { R.runs rack.old rack.new }
{
    // Before the drive is listed: a stop after that commit finds no superblock that an array would take for a member's.
    if let Err(gone) = clear_supers(rack, disk, arrays, extent, place, units) {
        return Err(gone);
    }
    lay_drive(rack, disk, table)
}

/// Puts a new drive of so many units at the end of the list, in a state of the next epoch.
fn list_drive(state: &mut State, units: u64, plan: Plan)
    requires few { length state.old.drives.items < 16 }
    requires serial { state.old.serial < 2 ^ 32 - 1 }
    ensures { state.new ≡ enlisted (length state.old.drives.items) units plan state.old }
{
    let drive = Drive {
        id: next_drive(state),
        units,
        missing: false,
    };
    state.drives.push(drive);
    state.epoch = raised(state.epoch);
    state.plan = plan;
    state.serial += 1;
}

impl Arrays {
    /// Makes a drive of the next place one of the pool, over its log slice: one commit on the drives from before has the state with it, a copy
    /// for it too. It is a member of no array yet. Whoever goes is marked.
    fn add<S: Rack>(&mut self, rack: &mut S, units: u64, plan: Plan)
        requires running { IsRunning self.old (S.seen rack.old) }
        requires heeded { IsHeeded (raid_by self.old) }
        requires some { 0 < length self.old.state.drives.items }
        requires few { length self.old.state.drives.items < 16 }
        requires serial { self.old.state.serial < 2 ^ 32 - 1 }
        requires units { 0 < units }
        requires units_end { units < 2 ^ 41 }
        requires plan { plan ≡ Plan.Add (length self.old.state.drives.items) }
        requires log { (S.seen rack.old).sectors (log_slice (length self.old.state.drives.items)) ≡ log_sectors }
        ensures takes { spec.TakesIn (length self.old.state.drives.items) units plan (λ n. false) (raid_by self.old) (raid_by self.new) (S.seen rack.old) (S.seen rack.new) }
        ensures raises { RaisesBy 19 (raid_by self.old) (raid_by self.new) }
        ensures running { IsRunning self.new (S.seen rack.new) }
        ensures runs { S.runs rack.old rack.new }
    {
        let on = current_places(&self.state);
        list_drive(&mut self.state, units, plan);
        let current = current_places(&self.state);
        self.log.clear();
        add_copies(&self.state, &current, &mut self.log);
        // A stop before it leaves a disk that is none of the pool's; after it one that is listed, and of no array yet.
        let gone = self.log.commit(rack, &on);
        note_gone(self.all.as_mut_slice(), &gone);
        self.mend(rack);
    }
}

impl<R: Rack> RaidRack<R> {
    /// Gives a place of the list a new drive, which is laid on a disk of so many sectors: all arrays are settled, the place's drive is retired,
    /// and one commit on the drives that are left has the state with the new one. Its members are to be rebuilt from their start. Where somebody
    /// is found gone before it, he is marked instead, and the answer is false.
    fn exchange(&mut self, place: u32, disk: u32, units: u64, plan: Plan, sectors: u64) -> bool
        requires fit { IsFit (arrays_in self.old) (slices_seen R.seen self.old) }
        requires listed { place < length (raid_in self.old).state.drives.items }
        requires others { (p : ℕ) → p < length (raid_in self.old).state.drives.items → p ≢ place → is_current (raid_in self.old).state p ≡ true }
        requires plan { plan ≡ Plan.Replace place }
        requires serial { (raid_in self.old).state.serial < 2 ^ 32 - 1 }
        requires units { 0 < units }
        requires units_end { units < 2 ^ 41 }
        requires disk { disk < (R.seen (below_of (slices_in self.old))).disks }
        requires free { (p : ℕ) → disk_at (tables (slices_in self.old)) p ≢ Some disk }
        requires size { sectors ≡ (R.seen (below_of (slices_in self.old))).sectors disk }
        requires room { 10273 ≤ sectors }
        requires reaches { ReachesAll (arrays_of self.old) place sectors }

        ensures seats { result ≡ true → SeatsDrive (arrays_of self.old) place disk sectors (tables (slices_in self.old)) (tables (slices_in self.new)) }
        ensures takes { result ≡ true → spec.TakesIn place units plan (joins (arrays_of self.old) place sectors) (raid_in self.old) (raid_in self.new)
            (slices_of (tables (slices_in self.new)) (R.seen (below_of (slices_in self.old)))) (slices_seen R.seen self.new) }
        ensures mends { result ≡ false → Mends (raid_in self.old) (raid_in self.new) (slices_seen R.seen self.old) (slices_seen R.seen self.new) }
        ensures lost { result ≡ false → HasLost (raid_in self.old) (raid_in self.new) (slices_seen R.seen self.old) (slices_seen R.seen self.new) }
        ensures tables { result ≡ false → tables (slices_in self.new) ≡ tables (slices_in self.old) }
        ensures only { WritesOnly (R.seen (below_of (slices_in self.old))) (R.seen (below_of (slices_in self.new))) (IsSliced (tables (slices_in self.new))) }
        ensures fit { IsFit (arrays_in self.new) (slices_seen R.seen self.new) }
        ensures raises { RaisesBy 19 (raid_in self.old) (raid_in self.new) }
        ensures refused { (n : ℕ) → refused_in self.new n ≡ refused_in self.old n }
        ensures written { (n : ℕ) → written_in self.new n ≡ written_in self.old n }
        ensures runs { R.runs (below_of (slices_in self.old)) (below_of (slices_in self.new)) }
    {
        if !self.arrays.settle_whole(&mut self.slices) {
            return false;
        }
        self.arrays.retire(place);
        seat_drive(
            &mut self.slices,
            self.arrays.all.as_slice(),
            place,
            disk,
            sectors,
        );
        self.arrays
            .join(&mut self.slices, place, units, plan, sectors);
        true
    }

    /// Puts a new drive, which is laid on a disk of so many sectors, at the next place of the list, by one commit of the state. It has its log
    /// slice alone, and no array is settled.
    fn append(&mut self, place: u32, disk: u32, units: u64, plan: Plan, sectors: u64)
        requires fit { IsFit (arrays_in self.old) (slices_seen R.seen self.old) }
        requires may { spec.MayAppend (raid_in self.old).state place }
        requires plan { plan ≡ Plan.Add place }
        requires serial { (raid_in self.old).state.serial < 2 ^ 32 - 1 }
        requires units { 0 < units }
        requires units_end { units < 2 ^ 41 }
        requires disk { disk < (R.seen (below_of (slices_in self.old))).disks }
        requires free { (p : ℕ) → disk_at (tables (slices_in self.old)) p ≢ Some disk }
        requires size { sectors ≡ (R.seen (below_of (slices_in self.old))).sectors disk }
        requires room { 10273 ≤ sectors }

        ensures seats { SeatsDrive (arrays_of self.old) place disk sectors (tables (slices_in self.old)) (tables (slices_in self.new)) }
        ensures takes { spec.TakesIn place units plan (joins (arrays_of self.old) place sectors) (raid_in self.old) (raid_in self.new)
            (slices_of (tables (slices_in self.new)) (R.seen (below_of (slices_in self.old)))) (slices_seen R.seen self.new) }
        ensures only { WritesOnly (R.seen (below_of (slices_in self.old))) (R.seen (below_of (slices_in self.new))) (IsSliced (tables (slices_in self.new))) }
        ensures fit { IsFit (arrays_in self.new) (slices_seen R.seen self.new) }
        ensures raises { RaisesBy 19 (raid_in self.old) (raid_in self.new) }
        ensures refused { (n : ℕ) → refused_in self.new n ≡ refused_in self.old n }
        ensures written { (n : ℕ) → written_in self.new n ≡ written_in self.old n }
        ensures runs { R.runs (below_of (slices_in self.old)) (below_of (slices_in self.new)) }
    {
        seat_drive(
            &mut self.slices,
            self.arrays.all.as_slice(),
            place,
            disk,
            sectors,
        );
        self.arrays.add(&mut self.slices, units, plan);
    }

    /// Takes a new drive in, on a disk of the rack of drives, at the next place of the list or at one whose drive is missing or gives way to it.
    /// It has `units` units of the pool's extent. The disk gets a partition table, with the log slice and an entry for each array that the drive
    /// reaches; a superblock that stands where a slice begins that the drive has still to join is cleared. It gets the log slice, and the slices
    /// of the arrays that its place is a member of. It is one of the pool by one commit on the drives that are left: in what a stop leaves before
    /// it the disk is none of the pool's. At the next place it is a member of no array yet, and no array is settled; the works of the plan make it
    /// one. At a place of the list its members are to be rebuilt from their start, and all arrays are settled first. No value of an array moves.
    ///
    /// `Gone`: the disk refused a call before the commit; the pool is as it was, and on the disk what is laid on it may be written. `NotWhole`: another
    /// drive was found gone before the commit, it may be that of the place; it is marked, and but for this the pool is as it was. It isn't answered
    /// for the next place. A drive that goes in the commit, also the new one, is marked when this returns.
    pub fn add_drive(
        &mut self,
        place: u32,
        disk: u32,
        units: u64,
        plan: Plan,
    ) -> Result<(), EnlistFault>
        requires fit { IsFit (arrays_in self.old) (slices_seen R.seen self.old) }
        requires plan { spec.MayBegin (raid_in self.old).state (arrays_of self.old) place units ((R.seen (below_of (slices_in self.old))).sectors disk) plan }
        requires serial { (raid_in self.old).state.serial < 2 ^ 32 - 1 }
        requires units { 0 < units }
        // So it is with each disk of fewer than 2^48 sectors.
        requires units_end { units < 2 ^ 41 }
        requires disk { disk < (R.seen (below_of (slices_in self.old))).disks }
        requires free { (p : ℕ) → disk_at (tables (slices_in self.old)) p ≢ Some disk }
        requires room { 10273 ≤ (R.seen (below_of (slices_in self.old))).sectors disk }

        // Where it is taken in, the tables have its disk and its slices beside those that they had.
        ensures seats { OnOk result (SeatsDrive (arrays_of self.old) place disk ((R.seen (below_of (slices_in self.old))).sectors disk) (tables (slices_in self.old)) (tables (slices_in self.new))) }
        ensures takes { OnOk result (spec.TakesIn place units plan (joins (arrays_of self.old) place ((R.seen (below_of (slices_in self.old))).sectors disk)) (raid_in self.old) (raid_in self.new)
            (slices_of (tables (slices_in self.new)) (R.seen (below_of (slices_in self.old)))) (slices_seen R.seen self.new)) }

        // Where it isn't, the tables are as before.
        ensures tables { OnErr result (tables (slices_in self.new) ≡ tables (slices_in self.old)) }
        ensures gone { result ≡ Err EnlistFault.Gone → spec.IsDeclined (arrays_of self.old)
            (spec.joined_in (raid_in self.old).state (arrays_of self.old) place units ((R.seen (below_of (slices_in self.old))).sectors disk)) disk
            (spec.new_table (raid_in self.old).state (arrays_of self.old) units ((R.seen (below_of (slices_in self.old))).sectors disk))
            (R.seen (below_of (slices_in self.old))) (R.seen (below_of (slices_in self.new))) }
        ensures kept { result ≡ Err EnlistFault.Gone → arrays_in self.new ≡ arrays_in self.old }
        ensures lost { result ≡ Err EnlistFault.NotWhole → spec.IsLost (raid_in self.old) (raid_in self.new) (slices_seen R.seen self.old) (slices_seen R.seen self.new) }
        ensures whole { result ≡ Err EnlistFault.NotWhole → plan ≡ Plan.Add place → ⊥ }
        ensures only { WritesOnly (R.seen (below_of (slices_in self.old))) (R.seen (below_of (slices_in self.new))) (spec.IsLaidOrSliced (tables (slices_in self.new)) (arrays_of self.old)
            (spec.joined_in (raid_in self.old).state (arrays_of self.old) place units ((R.seen (below_of (slices_in self.old))).sectors disk)) disk
            (spec.new_table (raid_in self.old).state (arrays_of self.old) units ((R.seen (below_of (slices_in self.old))).sectors disk))) }
        ensures fit { IsFit (arrays_in self.new) (slices_seen R.seen self.new) }
        ensures raises { RaisesBy 36 (raid_in self.old) (raid_in self.new) }
        ensures refused { (n : ℕ) → refused_in self.new n ≡ refused_in self.old n }
        ensures written { (n : ℕ) → written_in self.new n ≡ written_in self.old n }
        ensures stays { SameRack (R.seen (below_of (slices_in self.old))) (R.seen (below_of (slices_in self.new))) }
        ensures runs { R.runs (below_of (slices_in self.old)) (below_of (slices_in self.new)) }
    {
        let sectors = self.slices.below().sectors(disk);
        let extent = self.arrays.state.extent;
        let drive = next_drive(&self.arrays.state);
        let table = reached_table(drive, self.arrays.all.as_slice(), extent, units, sectors);
        if let Err(_) = lay_reached(
            self.slices.inner(),
            disk,
            self.arrays.all.as_slice(),
            extent,
            place,
            units,
            &table,
        ) {
            return Err(EnlistFault::Gone);
        }
        if let Plan::Replace { .. } = plan {
            return if self.exchange(place, disk, units, plan, sectors) {
                Ok(())
            } else {
                Err(EnlistFault::NotWhole)
            };
        }
        self.append(place, disk, units, plan, sectors);
        Ok(())
    }
}
