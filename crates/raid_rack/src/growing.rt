//! Works of a growth of one array: a mirror becomes RAID-5, a drive joins it, its rows are moved, and its reshape ends.

ghost use Rattle.std.specs.Prelude.{◌≡◌, ◌⊎◌, ◌<◌, ◌≤◌, ℕ, true, false, is_ok, length, IfErr};
ghost use Rattle.array_model.specs.View.{IsArray};
ghost use Rattle.pool_state.specs.declared.contents.Work.TheVariants.{TakeOver, Begin, Reshape, Finish};
ghost use Rattle.array_image.specs.Supers.{is_reshaping};
ghost use Rattle.reshape_laws.specs.Reshapes.{lacks_joined, lacks_two};
ghost use Rattle.raid_laws.specs.Moves.{IsHeeded, RaisesBy};
ghost use Rattle.growth_laws.specs.Growing as spec;
ghost use Rattle.growth_laws.specs.Growing.{CleansAndReshapes, CleansBefore, Grows, IsFitToGrow, Lacks, MakesReshape, MovesRows};
ghost use Rattle.raid_laws.specs.Raid.{raid_of, StopsInside};
ghost use Rattle.transition_laws.specs.Growth.{AreReady, GrowsByZeros, KeepsOldSectors};
ghost use Rattle.raid_rack.specs.RaidRack.{IsFit, IsRunning, raid_by};

use crate::arrays::{Arrays, RaidRack};
use crate::disks::note_written;
use crate::marks::current_places;
use crate::new_drive::{BACKUP_SECTORS, DATA_SECTOR, first_in};
use crate::works::{Stuck, answered};
use array_core::Array;
use array_reshape::{begin, finish, rows, take_over};
use pool_state::State;
use rack::{Places, Rack};
use shr_base::Id;

/// Sectors of a drive: fewer than these.
pub(crate) const MOST_SECTORS: u64 = 1 << 48;

/// The feature bit of a reshape.
const RESHAPE: u32 = 4;

/// Whether no mark of this run's writes stands on an array, and its superblocks leave no row to resync.
fn is_clean(array: &Array) -> bool
    ensures { result ≡ spec.is_clean array.now }
{
    array.truth().resync_offset == u64::MAX && !array.is_marked()
}

/// The position of a reshape that has moved all rows.
fn whole_position(array: &Array) -> u64
    ensures { result ≡ spec.whole_position array.now }
{
    array.rules();
    (u64::from(array.truth().raid_disks) - 1) * array.truth().size
}

/// Whether two members are missing, or not rebuilt to their end.
fn lacks_two(array: &Array) -> bool
    ensures { result ≡ lacks_two array.now }
{
    array.rules();
    array.wanting(array.truth().size.saturating_sub(1)) > 1
}

/// Whether two members are missing with a joining place that isn't among the places of the log's commits.
fn lacks_with(array: &Array, on: &Places, place: u32) -> bool
    ensures { result ≡ lacks_joined array.now on.now.items place }
{
    array.rules();
    let wanting = array.wanting(array.truth().size.saturating_sub(1));
    if on.contains(&place) {
        wanting > 1
    } else {
        wanting > 0
    }
}

/// Whether an array is being reshaped.
fn is_reshaping(array: &Array) -> bool
    ensures { result ≡ is_reshaping array.now.truth }
{
    array.truth().feature_map & RESHAPE == RESHAPE
}

/// The id of a drive of the list.
pub(crate) fn drive_id(state: &State, place: u32) -> Id
    requires { place < length state.now.drives.items }
    ensures { result ≡ spec.drive_id state.now place }
{
    state.drives[place as usize].id
}

impl Arrays {
    /// Whether an array is the volume's, and no row of it is left to resync.
    fn is_synced(&self, number: u32) -> bool
        requires count { length self.now.all.items ≡ self.now.state.made }
        ensures { result ≡ spec.is_synced (raid_by self.now) number }
    {
        if number >= self.state.made {
            return false;
        }
        let array = &self.all[number as usize];
        !array.is_young() && array.resync_from() == array.rows()
    }

    /// Whether all slices of members together end on a drive.
    fn has_room(&self) -> bool
        requires count { length self.now.all.items ≡ self.now.state.made }
        requires few { self.now.state.made ≤ 16 }
        requires arrays { (n : ℕ) → n < self.now.state.made → IsArray ((raid_by self.now).arrays n) }
        ensures { result ≡ spec.has_room (raid_by self.now) }
    {
        first_in(self.all.as_slice(), self.all.len()) + BACKUP_SECTORS <= MOST_SECTORS
    }

    /// Whether an array is a mirror that may become RAID-5.
    fn may_take_over(&self, number: u32) -> bool
        requires count { length self.now.all.items ≡ self.now.state.made }
        ensures { result ≡ spec.is_due (raid_by self.now) (TakeOver number) }
    {
        self.is_synced(number) && self.all[number as usize].truth().level == 1
    }

    /// Whether the drive of a place may join an array.
    fn may_begin(&self, number: u32, place: u32) -> bool
        requires count { length self.now.all.items ≡ self.now.state.made }
        ensures { result ≡ spec.is_due (raid_by self.now) (Begin number place) }
    {
        if !self.is_synced(number) {
            return false;
        }
        let array = &self.all[number as usize];
        let truth = array.truth();
        truth.level == 5
            && !is_reshaping(array)
            && truth.raid_disks < 16
            && (place as usize) < self.state.drives.len()
            && array.seat(place).is_none()
    }

    /// Whether a row is left to move.
    fn may_move(&self, number: u32) -> bool
        requires count { length self.now.all.items ≡ self.now.state.made }
        ensures { result ≡ spec.is_due (raid_by self.now) (Reshape number) }
    {
        if !self.is_synced(number) {
            return false;
        }
        let array = &self.all[number as usize];
        is_reshaping(array) && array.truth().reshape_position < whole_position(array)
    }

    /// Whether a reshape has moved all rows, and may end.
    fn may_finish(&self, number: u32) -> bool
        requires count { length self.now.all.items ≡ self.now.state.made }
        requires few { self.now.state.made ≤ 16 }
        requires arrays { (n : ℕ) → n < self.now.state.made → IsArray ((raid_by self.now).arrays n) }
        ensures { result ≡ spec.is_due (raid_by self.now) (Finish number) }
    {
        if !self.is_synced(number) {
            return false;
        }
        let array = &self.all[number as usize];
        is_reshaping(array)
            && array.truth().reshape_position == whole_position(array)
            && self.has_room()
    }

    /// Whether an array can't do a step of a growth: nobody is left, numbers are used up, or it lacks two members.
    pub(crate) fn lacks(&self, number: u32) -> bool
        requires count { length self.now.all.items ≡ self.now.state.made }
        requires few { length self.now.state.drives.items ≤ 16 }
        requires heeded { IsHeeded (raid_by self.now) }
        requires number { number < self.now.state.made }
        ensures { result ≡ spec.lacks (raid_by self.now) number }
    {
        self.is_ended() || lacks_two(&self.all[number as usize])
    }

    /// Makes RAID-5 of a mirror, by one commit of superblocks. It is cleaned first, so that they leave no row to resync: as RAID-5 it has
    /// no row whose members may differ. Whoever goes is marked.
    fn take_over_array<S: Rack>(&mut self, rack: &mut S, number: u32) -> bool
        requires running { IsRunning self.old (S.seen rack.old) }
        requires heeded { IsHeeded (raid_by self.old) }
        requires due { spec.is_due (raid_by self.old) (TakeOver number) ≡ true }
        ensures grows { Grows (TakeOver number) (Lacks (TakeOver number)) (raid_by self.old) (raid_by self.new) (S.seen rack.old) (S.seen rack.new) result }
        ensures contents { CleansAndReshapes S.seen (spec.change_of (TakeOver number)) (Lacks (TakeOver number)) number (raid_by self.old) (raid_by self.new) (S.seen rack.old) (S.seen rack.new) result }
        ensures old { (r q : ℕ → ℕ) → ((at : S) → StopsInside (S.seen at)) → AreReady (raid_by self.old)
            → KeepsOldSectors self.old.state.joined (raid_of (IsFit self.old (S.seen rack.old)) r (raid_by self.old) (S.seen rack.old)) (raid_of (IsFit self.new (S.seen rack.new)) q (raid_by self.new) (S.seen rack.new))
            × GrowsByZeros self.old.state.joined (raid_by self.old) (raid_by self.new) (S.seen rack.old) (S.seen rack.new) }
        ensures raises { RaisesBy 36 (raid_by self.old) (raid_by self.new) }
        ensures running { IsRunning self.new (S.seen rack.new) }
        ensures runs { S.runs rack.old rack.new }
    {
        self.clean_array(rack, number as usize);
        if !self.may_take_over(number) || !is_clean(&self.all[number as usize]) {
            return false;
        }
        let on = current_places(&self.state);
        self.log.clear();
        let array = &mut self.all[number as usize];
        let _ = take_over(array, rack, &mut self.log, &on);
        let _places = array.went();
        self.mend(rack);
        !self.lacks(number)
    }

    /// Begins the reshape of an array that was cleaned, to which the drive of a place joins, by one commit of superblocks. Where the place
    /// isn't missing, its slice is there. Nothing is called where the array lacks two members with the place. Whoever goes is marked.
    fn begin_array<S: Rack>(&mut self, rack: &mut S, number: u32, place: u32) -> bool
        requires running { IsRunning self.old (S.seen rack.old) }
        requires heeded { IsHeeded (raid_by self.old) }
        requires due { spec.is_due (raid_by self.old) (Begin number place) ≡ true }
        requires clean { spec.is_clean ((raid_by self.old).arrays number) ≡ true }
        requires slice { spec.HasJoiningSlice (raid_by self.old) number place (S.seen rack.old) }
        ensures grows { Grows (Begin number place) (Lacks (Begin number place)) (raid_by self.old) (raid_by self.new) (S.seen rack.old) (S.seen rack.new) result }
        ensures contents { spec.HasSettledSlice (raid_by self.old) number place (S.seen rack.old)
            → MakesReshape (spec.change_of (Begin number place)) (Lacks (Begin number place)) number (raid_by self.old) (raid_by self.new) (S.seen rack.old) (S.seen rack.new) result }
        ensures raises { RaisesBy 18 (raid_by self.old) (raid_by self.new) }
        ensures running { IsRunning self.new (S.seen rack.new) }
        ensures runs { S.runs rack.old rack.new }
    {
        let on = current_places(&self.state);
        if lacks_with(&self.all[number as usize], &on, place) {
            return false;
        }
        let drive = drive_id(&self.state, place);
        self.log.clear();
        let array = &mut self.all[number as usize];
        let _ = begin(array, rack, &mut self.log, &on, place, &drive);
        let _places = array.went();
        self.mend(rack);
        !self.lacks(number)
    }

    /// Moves the next rows of a reshape, by one commit, and answers how many: at most so many, and at least one. Whoever goes is marked. It
    /// is refused exactly where the array lacks two members after that, nobody is left or numbers are used up.
    fn move_rows<S: Rack>(&mut self, rack: &mut S, number: u32, most: u64) -> Result<u64, Stuck>
        requires running { IsRunning self.old (S.seen rack.old) }
        requires heeded { IsHeeded (raid_by self.old) }
        requires due { spec.is_due (raid_by self.old) (Reshape number) ≡ true }
        requires some { 0 < most }
        ensures grows { MovesRows number most (raid_by self.old) (raid_by self.new) (S.seen rack.old) (S.seen rack.new) result }
        ensures named { IfErr result (λ e. e.array ≡ number) }
        ensures raises { RaisesBy 18 (raid_by self.old) (raid_by self.new) }
        ensures running { IsRunning self.new (S.seen rack.new) }
        ensures runs { S.runs rack.old rack.new }
    {
        let on = current_places(&self.state);
        self.log.clear();
        let array = &mut self.all[number as usize];
        let moved = rows(array, rack, &mut self.log, &on, most);
        let _places = array.went();
        self.mend(rack);
        answered(moved, self.lacks(number), number)
    }

    /// Ends a reshape that has moved all rows, by one commit of superblocks. Whoever goes is marked.
    fn finish_array<S: Rack>(&mut self, rack: &mut S, number: u32) -> bool
        requires running { IsRunning self.old (S.seen rack.old) }
        requires heeded { IsHeeded (raid_by self.old) }
        requires due { spec.is_due (raid_by self.old) (Finish number) ≡ true }
        ensures grows { Grows (Finish number) (Lacks (Finish number)) (raid_by self.old) (raid_by self.new) (S.seen rack.old) (S.seen rack.new) result }
        ensures contents { MakesReshape (spec.change_of (Finish number)) (Lacks (Finish number)) number (raid_by self.old) (raid_by self.new) (S.seen rack.old) (S.seen rack.new) result }
        ensures raises { RaisesBy 18 (raid_by self.old) (raid_by self.new) }
        ensures running { IsRunning self.new (S.seen rack.new) }
        ensures runs { S.runs rack.old rack.new }
    {
        let on = current_places(&self.state);
        self.log.clear();
        let array = &mut self.all[number as usize];
        let _ = finish(array, rack, &mut self.log, &on);
        let _places = array.went();
        self.mend(rack);
        !self.lacks(number)
    }
}

impl<R: Rack> RaidRack<R> {
    ghost use Rattle.std.specs.Prelude.{None};
    ghost use Rattle.array_core.specs.Pool.{Goes};
    ghost use Rattle.array_core.specs.Seats.{seat_of};
    ghost use Rattle.slice_rack.specs.SliceRack.{below_of, tables};
    ghost use Rattle.slice_rack.specs.Slices.{seat_of as disk_at};
    ghost use Rattle.raid_rack.specs.RaidRack.{SliceRuns, arrays_in, raid_in, raid_seen, refused_in, slices_by, slices_in, slices_seen, written_in};
    ghost use Rattle.raid_rack.specs.Growing.{CannotLay, LaysMember, LaysSlice, ReshapesWith};

    /// Makes RAID-5 of a mirror, durably. No value moves. It is refused where the array is no mirror, is young or has rows left to resync, and
    /// then nothing changes; else where it can't be done once the losses of this call are marked.
    pub fn take_over(&mut self, array: u32) -> Result<(), Stuck>
        requires fit { IsFit (arrays_in self.old) (slices_seen R.seen self.old) }
        ensures idle { spec.is_due (raid_in self.old) (TakeOver array) ≡ false → (is_ok result ≡ false) × (self.new ≡ self.old) }
        ensures grows { spec.is_due (raid_in self.old) (TakeOver array) ≡ true
            → Grows (TakeOver array) (Lacks (TakeOver array)) (raid_in self.old) (raid_in self.new) (slices_seen R.seen self.old) (slices_seen R.seen self.new) (is_ok result) }
        ensures contents { spec.is_due (raid_in self.old) (TakeOver array) ≡ true
            → CleansAndReshapes (slices_by R.seen) (spec.change_of (TakeOver array)) (Lacks (TakeOver array)) array (raid_in self.old) (raid_in self.new) (slices_seen R.seen self.old) (slices_seen R.seen self.new) (is_ok result) }
        ensures old { AreReady (raid_in self.old) → KeepsOldSectors (raid_in self.old).state.joined (raid_seen R.seen self.old) (raid_seen R.seen self.new) }
        ensures zeros { AreReady (raid_in self.old) → GrowsByZeros (raid_in self.old).state.joined (raid_in self.old) (raid_in self.new) (slices_seen R.seen self.old) (slices_seen R.seen self.new) }
        ensures named { IfErr result (λ e. e.array ≡ array) }
        ensures fit { IsFit (arrays_in self.new) (slices_seen R.seen self.new) }
        ensures raises { RaisesBy 36 (raid_in self.old) (raid_in self.new) }
        ensures refused { (n : ℕ) → refused_in self.new n ≡ refused_in self.old n }
        ensures written { (n : ℕ) → (n ≡ array → ⊥) → written_in self.new n ≡ written_in self.old n }
        ensures runs { SliceRuns R.seen R.runs (slices_in self.old) (slices_in self.new) }
    {
        if !self.arrays.may_take_over(array) {
            return Err(Stuck { array });
        }
        note_written(&mut self.written, array);
        if self.arrays.take_over_array(&mut self.slices, array) {
            Ok(())
        } else {
            Err(Stuck { array })
        }
    }

    /// Moves the next rows of a reshape, durably, and answers how many: as many as one commit takes, at least one and at most so many. No value
    /// moves. It is refused where the array has no such row, and then nothing changes; else exactly where nobody is left, numbers are used up
    /// or two members are missing once the losses of this call are marked.
    pub fn reshape_rows(&mut self, array: u32, most: u64) -> Result<u64, Stuck>
        requires fit { IsFit (arrays_in self.old) (slices_seen R.seen self.old) }
        requires some { 0 < most }
        ensures idle { spec.is_due (raid_in self.old) (Reshape array) ≡ false → (is_ok result ≡ false) × (self.new ≡ self.old) }
        ensures grows { spec.is_due (raid_in self.old) (Reshape array) ≡ true
            → MovesRows array most (raid_in self.old) (raid_in self.new) (slices_seen R.seen self.old) (slices_seen R.seen self.new) result }
        ensures old { IsFitToGrow (raid_in self.old) → KeepsOldSectors (raid_in self.old).state.joined (raid_seen R.seen self.old) (raid_seen R.seen self.new) }
        ensures zeros { IsFitToGrow (raid_in self.old) → GrowsByZeros (raid_in self.old).state.joined (raid_in self.old) (raid_in self.new) (slices_seen R.seen self.old) (slices_seen R.seen self.new) }
        ensures named { IfErr result (λ e. e.array ≡ array) }
        ensures fit { IsFit (arrays_in self.new) (slices_seen R.seen self.new) }
        ensures raises { RaisesBy 18 (raid_in self.old) (raid_in self.new) }
        ensures refused { (n : ℕ) → refused_in self.new n ≡ refused_in self.old n }
        ensures written { (n : ℕ) → (n ≡ array → ⊥) → written_in self.new n ≡ written_in self.old n }
        ensures runs { SliceRuns R.seen R.runs (slices_in self.old) (slices_in self.new) }
    {
        if !self.arrays.may_move(array) {
            return Err(Stuck { array });
        }
        note_written(&mut self.written, array);
        self.arrays.move_rows(&mut self.slices, array, most)
    }

    /// Moves the next row of a reshape, as `reshape_rows` does.
    pub fn reshape(&mut self, array: u32) -> Result<(), Stuck>
        requires fit { IsFit (arrays_in self.old) (slices_seen R.seen self.old) }
        ensures idle { spec.is_due (raid_in self.old) (Reshape array) ≡ false → (is_ok result ≡ false) × (self.new ≡ self.old) }
        ensures grows { spec.is_due (raid_in self.old) (Reshape array) ≡ true
            → Grows (Reshape array) (Lacks (Reshape array)) (raid_in self.old) (raid_in self.new) (slices_seen R.seen self.old) (slices_seen R.seen self.new) (is_ok result) }
        ensures contents { spec.is_due (raid_in self.old) (Reshape array) ≡ true
            → MakesReshape (spec.change_of (Reshape array)) (Lacks (Reshape array)) array (raid_in self.old) (raid_in self.new) (slices_seen R.seen self.old) (slices_seen R.seen self.new) (is_ok result) }
        ensures old { IsFitToGrow (raid_in self.old) → KeepsOldSectors (raid_in self.old).state.joined (raid_seen R.seen self.old) (raid_seen R.seen self.new) }
        ensures zeros { IsFitToGrow (raid_in self.old) → GrowsByZeros (raid_in self.old).state.joined (raid_in self.old) (raid_in self.new) (slices_seen R.seen self.old) (slices_seen R.seen self.new) }
        ensures named { IfErr result (λ e. e.array ≡ array) }
        ensures fit { IsFit (arrays_in self.new) (slices_seen R.seen self.new) }
        ensures raises { RaisesBy 18 (raid_in self.old) (raid_in self.new) }
        ensures refused { (n : ℕ) → refused_in self.new n ≡ refused_in self.old n }
        ensures written { (n : ℕ) → (n ≡ array → ⊥) → written_in self.new n ≡ written_in self.old n }
        ensures runs { SliceRuns R.seen R.runs (slices_in self.old) (slices_in self.new) }
    {
        match self.reshape_rows(array, 1) {
            Ok(_) => Ok(()),
            Err(stuck) => Err(stuck),
        }
    }

    /// Ends a reshape that has moved all rows, durably: the array is as long from then on as its members make it. No value moves. It is refused
    /// where no such reshape has to end, and then nothing changes; else exactly as a row is.
    pub fn finish(&mut self, array: u32) -> Result<(), Stuck>
        requires fit { IsFit (arrays_in self.old) (slices_seen R.seen self.old) }
        ensures idle { spec.is_due (raid_in self.old) (Finish array) ≡ false → (is_ok result ≡ false) × (self.new ≡ self.old) }
        ensures grows { spec.is_due (raid_in self.old) (Finish array) ≡ true
            → Grows (Finish array) (Lacks (Finish array)) (raid_in self.old) (raid_in self.new) (slices_seen R.seen self.old) (slices_seen R.seen self.new) (is_ok result) }
        ensures contents { spec.is_due (raid_in self.old) (Finish array) ≡ true
            → MakesReshape (spec.change_of (Finish array)) (Lacks (Finish array)) array (raid_in self.old) (raid_in self.new) (slices_seen R.seen self.old) (slices_seen R.seen self.new) (is_ok result) }
        ensures old { IsFitToGrow (raid_in self.old) → KeepsOldSectors (raid_in self.old).state.joined (raid_seen R.seen self.old) (raid_seen R.seen self.new) }
        ensures zeros { IsFitToGrow (raid_in self.old) → GrowsByZeros (raid_in self.old).state.joined (raid_in self.old) (raid_in self.new) (slices_seen R.seen self.old) (slices_seen R.seen self.new) }
        ensures named { IfErr result (λ e. e.array ≡ array) }
        ensures fit { IsFit (arrays_in self.new) (slices_seen R.seen self.new) }
        ensures raises { RaisesBy 18 (raid_in self.old) (raid_in self.new) }
        ensures refused { (n : ℕ) → refused_in self.new n ≡ refused_in self.old n }
        ensures written { (n : ℕ) → (n ≡ array → ⊥) → written_in self.new n ≡ written_in self.old n }
        ensures runs { SliceRuns R.seen R.runs (slices_in self.old) (slices_in self.new) }
    {
        if !self.arrays.may_finish(array) {
            return Err(Stuck { array });
        }
        note_written(&mut self.written, array);
        if self.arrays.finish_array(&mut self.slices, array) {
            Ok(())
        } else {
            Err(Stuck { array })
        }
    }

    /// Begins the reshape of an array to which the drive of a place joins, durably: it has one member more from then on. No value moves. The
    /// array is cleaned first. It is refused where the drive can't join, and then nothing changes; else where it can't be done once the losses
    /// of this call are marked, or where the place's slice has no room on its disk.
    pub fn begin(&mut self, array: u32, place: u32) -> Result<(), Stuck>
        requires fit { IsFit (arrays_in self.old) (slices_seen R.seen self.old) }
        ensures idle { spec.is_due (raid_in self.old) (Begin array place) ≡ false → (is_ok result ≡ false) × (self.new ≡ self.old) }
        ensures grows { spec.is_due (raid_in self.old) (Begin array place) ≡ true
            → Grows (Begin array place) (λ mid w. Lacks (Begin array place) mid w ⊎ CannotLay (tables (slices_in self.old)) (R.seen (below_of (slices_in self.old))) mid place array)
            (raid_in self.old) (raid_in self.new) (slices_seen R.seen self.old) (slices_seen R.seen self.new) (is_ok result) }
        ensures contents { spec.is_due (raid_in self.old) (Begin array place) ≡ true
            → CleansBefore (slices_by R.seen) array (raid_in self.old) (slices_seen R.seen self.old)
            (λ mid at. ReshapesWith R.seen (spec.change_of (Begin array place)) (λ mid w. Lacks (Begin array place) mid w ⊎ CannotLay (tables (slices_in self.old)) (R.seen (below_of (slices_in self.old))) mid place array)
            array place mid (raid_in self.new) at (slices_in self.new) (is_ok result)
            (AreReady (raid_in self.old) → KeepsOldSectors (raid_in self.old).state.joined (raid_seen R.seen self.old) (raid_seen R.seen self.new))) }
        ensures named { IfErr result (λ e. e.array ≡ array) }
        ensures fit { IsFit (arrays_in self.new) (slices_seen R.seen self.new) }
        ensures raises { RaisesBy 36 (raid_in self.old) (raid_in self.new) }
        ensures refused { (n : ℕ) → refused_in self.new n ≡ refused_in self.old n }
        ensures written { (n : ℕ) → (n ≡ array → ⊥) → written_in self.new n ≡ written_in self.old n }
        ensures seats { (p : ℕ) → disk_at (tables (slices_in self.new)) p ≡ disk_at (tables (slices_in self.old)) p }
        ensures goes { Goes (R.seen (below_of (slices_in self.old))) (R.seen (below_of (slices_in self.new))) }
        ensures runs { R.runs (below_of (slices_in self.old)) (below_of (slices_in self.new)) }
    {
        if !self.arrays.may_begin(array, place) {
            return Err(Stuck { array });
        }
        note_written(&mut self.written, array);
        self.arrays.clean_array(&mut self.slices, array as usize);
        if !self.arrays.may_begin(array, place) || !is_clean(&self.arrays.all[array as usize]) {
            return Err(Stuck { array });
        }
        if self.join_member(array, place) {
            Ok(())
        } else {
            Err(Stuck { array })
        }
    }

    /// Begins the reshape of an array that was cleaned, once the slice of the joining place is laid. It is taken away again where the place
    /// hasn't joined.
    fn join_member(&mut self, array: u32, place: u32) -> bool
        requires fit { IsFit (arrays_in self.old) (slices_seen R.seen self.old) }
        requires due { spec.is_due (raid_in self.old) (Begin array place) ≡ true }
        requires clean { spec.is_clean ((raid_in self.old).arrays array) ≡ true }
        ensures grows { Grows (Begin array place) (λ mid w. Lacks (Begin array place) mid w ⊎ CannotLay (tables (slices_in self.old)) (R.seen (below_of (slices_in self.old))) mid place array)
            (raid_in self.old) (raid_in self.new) (slices_seen R.seen self.old) (slices_seen R.seen self.new) result }
        ensures contents { ReshapesWith R.seen (spec.change_of (Begin array place)) (λ mid w. Lacks (Begin array place) mid w ⊎ CannotLay (tables (slices_in self.old)) (R.seen (below_of (slices_in self.old))) mid place array)
            array place (raid_in self.old) (raid_in self.new) (slices_in self.old) (slices_in self.new) result
            (AreReady (raid_in self.old) → KeepsOldSectors (raid_in self.old).state.joined (raid_seen R.seen self.old) (raid_seen R.seen self.new)) }
        ensures fit { IsFit (arrays_in self.new) (slices_seen R.seen self.new) }
        ensures raises { RaisesBy 18 (raid_in self.old) (raid_in self.new) }
        ensures refused { (n : ℕ) → refused_in self.new n ≡ refused_in self.old n }
        ensures written { (n : ℕ) → written_in self.new n ≡ written_in self.old n }
        ensures seats { (p : ℕ) → disk_at (tables (slices_in self.new)) p ≡ disk_at (tables (slices_in self.old)) p }
        ensures goes { Goes (R.seen (below_of (slices_in self.old))) (R.seen (below_of (slices_in self.new))) }
        ensures runs { R.runs (below_of (slices_in self.old)) (below_of (slices_in self.new)) }
    {
        if !self.lay_member(array, place) {
            return false;
        }
        let begun = self.arrays.begin_array(&mut self.slices, array, place);
        self.drop_member(array, place);
        begun
    }

    /// Lays the slice of a place's member of an array, unless the place is missing. The place is no member of it yet. The answer is false
    /// only where the slice can't be laid, and then nothing changes.
    fn lay_member(&mut self, array: u32, place: u32) -> bool
        requires fit { IsFit (arrays_in self.old) (slices_seen R.seen self.old) }
        requires array { array < (raid_in self.old).state.made }
        requires place { place < length (raid_in self.old).state.drives.items }
        requires apart { seat_of ((raid_in self.old).arrays array) place ≡ None }
        ensures lays { LaysMember (raid_in self.old) place array (slices_in self.old) (slices_in self.new) }
        ensures laid { result ≡ true → spec.HasJoiningSlice (raid_in self.old) array place (slices_seen R.seen self.new) }
        ensures cannot { result ≡ false → CannotLay (tables (slices_in self.old)) (R.seen (below_of (slices_in self.old))) (raid_in self.old) place array }
        ensures arrays { arrays_in self.new ≡ arrays_in self.old }
        ensures refused { (n : ℕ) → refused_in self.new n ≡ refused_in self.old n }
        ensures written { (n : ℕ) → written_in self.new n ≡ written_in self.old n }
        ensures seats { (p : ℕ) → disk_at (tables (slices_in self.new)) p ≡ disk_at (tables (slices_in self.old)) p }
        ensures below { below_of (slices_in self.new) ≡ below_of (slices_in self.old) }
        ensures fit { IsFit (arrays_in self.new) (slices_seen R.seen self.new) }
    {
        if self.arrays.state.drives[place as usize].missing {
            return true;
        }
        let all = self.arrays.all.as_slice();
        let first = first_in(all, array as usize);
        let length = all[array as usize].truth().size + DATA_SECTOR;
        self.slices
            .add_slice(place, array + 1, first, length)
            .is_ok()
    }

    /// Takes the slice of a place's member of an array away, unless the place has joined it.
    fn drop_member(&mut self, array: u32, place: u32)
        requires fit { IsFit (arrays_in self.old) (slices_seen R.seen self.old) }
        requires array { array < (raid_in self.old).state.made }
        requires place { place < 16 }
        ensures drops { LaysSlice place array 0 0 (slices_in self.old) (slices_in self.new) }
        ensures apart { (tables (slices_in self.new) ≡ tables (slices_in self.old)) ⊎ (seat_of ((raid_in self.old).arrays array) place ≡ None) }
        ensures arrays { arrays_in self.new ≡ arrays_in self.old }
        ensures refused { (n : ℕ) → refused_in self.new n ≡ refused_in self.old n }
        ensures written { (n : ℕ) → written_in self.new n ≡ written_in self.old n }
        ensures seats { (p : ℕ) → disk_at (tables (slices_in self.new)) p ≡ disk_at (tables (slices_in self.old)) p }
        ensures below { below_of (slices_in self.new) ≡ below_of (slices_in self.old) }
        ensures fit { IsFit (arrays_in self.new) (slices_seen R.seen self.new) }
    {
        if self.arrays.all[array as usize].seat(place).is_none() {
            let _ = self.slices.add_slice(place, array + 1, 0, 0);
        }
    }
}
