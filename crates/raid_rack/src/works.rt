//! Works of maintenance of the arrays: a row left to resync or to rebuild, and the end of a plan.

ghost use Rattle.std.specs.Prelude.{◌≡◌, ◌⊎◌, ◌-◌, ◌<◌, ◌≤◌, ◌||◌, ℕ, true, false, not, is_ok, length, Ok, OnOk, OnErr, IfOk, IfErr};
ghost use Rattle.std.specs.Option.{option_map_or};
ghost use Rattle.array_model.specs.View.{IsArray, rows_of};
ghost use Rattle.sync_laws.specs.Rows.{lacks_row};
ghost use Rattle.raid_laws.specs.Moves.{IsHeeded, RaisesBy};
ghost use Rattle.raid_rack.specs.RaidRack.{IsRunning, raid_by};
ghost use Rattle.raid_laws.specs.Truths.{KeepsTruths};
ghost use Rattle.raid_laws.specs.Works as spec;
ghost use Rattle.sync_laws.specs.Steps.{DoesRows, resynced};
ghost use Rattle.transition_laws.specs.Changes.{closed};
ghost use Rattle.growth_laws.specs.Growing.{AnyValues, MakesTurn};
ghost use Rattle.growth_laws.specs.Rows.{MakesWorks, RebuildsNext, ResyncsNext};

use crate::arrays::{Arrays, RaidRack};
use crate::losses::{add_copies, note_gone};
use crate::marks::{current_places, end_plan};
use array_core::{Seat, Spent};
use array_sync::{lacks_row, rebuild_rows, resync_rows};
use pool_state::{Plan, Work};
use rack::Rack;

/// Sectors of a chunk: a row of a member's data.
pub(crate) const CHUNK_SECTORS: u64 = 128;

/// An array can't do a work: too many of its members are missing, or the work isn't one that it has to do.
#[derive(Clone, Copy, Debug, PartialEq, Eq)]
pub struct Stuck {
    /// The number of the array.
    pub array: u32,
}

impl Arrays {
    /// Whether a row of an array can't be resynced: nothing is left of it, numbers are used up, or a member of it is missing or not
    /// rebuilt past the row.
    fn is_stuck(&self, number: u32, row: u64) -> bool
        requires count { length self.now.all.items ≡ self.now.state.made }
        requires few { length self.now.state.drives.items ≤ 16 }
        requires heeded { IsHeeded (raid_by self.now) }
        requires number { number < self.now.state.made }
        requires array { IsArray ((raid_by self.now).arrays number) }
        requires row { row < rows_of ((raid_by self.now).arrays number) }
        ensures { result ≡ spec.is_stuck (raid_by self.now) number row }
    {
        self.is_ended() || lacks_row(&self.all[number as usize], row)
    }

    /// Whether an array has a row left to resync.
    fn has_row(&self, number: u32) -> bool
        requires count { length self.now.all.items ≡ self.now.state.made }
        ensures { result ≡ spec.has_row (raid_by self.now) number }
    {
        if number >= self.state.made {
            return false;
        }
        let array = &self.all[number as usize];
        array.resync_from() < array.rows()
    }

    /// Resyncs the first rows of an array that are left, by one commit, and answers how many: at most so many, and at least one. Whoever
    /// goes is marked. It is refused exactly where the first of them can't be resynced after that.
    fn resync_array<S: Rack>(&mut self, rack: &mut S, number: u32, most: u64) -> Result<u64, Stuck>
        requires running { IsRunning self.old (S.seen rack.old) }
        requires heeded { IsHeeded (raid_by self.old) }
        requires number { number < self.old.state.made }
        requires row { ((raid_by self.old).arrays number).resync < rows_of ((raid_by self.old).arrays number) }
        requires some { 0 < most }
        ensures rows { DoesRows (λ rows. spec.StepsOne (raid_by self.old) (raid_by self.new) (S.seen rack.old) (S.seen rack.new) number (resynced ((raid_by self.old).arrays number) rows))
            (rows_of ((raid_by self.old).arrays number) - ((raid_by self.old).arrays number).resync) most result }
        ensures contents { ResyncsNext number most (raid_by self.old) (raid_by self.new) (S.seen rack.old) (S.seen rack.new) result }
        ensures answer { is_ok result ≡ not (spec.is_stuck (raid_by self.new) number ((raid_by self.old).arrays number).resync) }
        ensures named { IfErr result (λ e. e.array ≡ number) }
        ensures raises { RaisesBy 18 (raid_by self.old) (raid_by self.new) }
        ensures truths { KeepsTruths (raid_by self.old) (raid_by self.new) (S.seen rack.old) (S.seen rack.new) }
        ensures running { IsRunning self.new (S.seen rack.new) }
        ensures runs { S.runs rack.old rack.new }
    {
        let on = current_places(&self.state);
        self.log.clear();
        let array = &mut self.all[number as usize];
        let row = array.resync_from();
        let rows = resync_rows(array, rack, &mut self.log, &on, most);
        let _places = array.went();
        self.mend(rack);
        answered(rows, self.is_stuck(number, row), number)
    }

    /// Whether an array has a member on a place that is being rebuilt. Its truth leaves rows to resync from a whole one on, as that of
    /// each sound array does.
    fn is_rebuilding(&self, number: u32, place: u32) -> bool
        requires count { length self.now.all.items ≡ self.now.state.made }
        ensures { result ≡ spec.is_rebuilding (raid_by self.now) number place }
    {
        if number >= self.state.made {
            return false;
        }
        let array = &self.all[number as usize];
        is_rebuilding_seat(array.seat(place)) && is_whole_row(array.truth().resync_offset)
    }

    /// Rebuilds the next rows of a place's member of an array, by one commit, and answers how many: at most so many, and at least one.
    /// Whoever goes is marked. It is refused only where the first of them can't be had after that.
    fn rebuild_array<S: Rack>(
        &mut self,
        rack: &mut S,
        number: u32,
        place: u32,
        most: u64,
    ) -> Result<u64, Stuck>
        requires running { IsRunning self.old (S.seen rack.old) }
        requires heeded { IsHeeded (raid_by self.old) }
        requires rebuilding { spec.is_rebuilding (raid_by self.old) number place ≡ true }
        requires some { 0 < most }
        ensures rebuilds { spec.Rebuilds (raid_by self.old) (raid_by self.new) (S.seen rack.old) (S.seen rack.new) number place most result }
        ensures contents { RebuildsNext number place most (raid_by self.old) (raid_by self.new) (S.seen rack.old) (S.seen rack.new) result }
        ensures named { IfErr result (λ e. e.array ≡ number) }
        ensures raises { RaisesBy 18 (raid_by self.old) (raid_by self.new) }
        ensures truths { KeepsTruths (raid_by self.old) (raid_by self.new) (S.seen rack.old) (S.seen rack.new) }
        ensures running { IsRunning self.new (S.seen rack.new) }
        ensures runs { S.runs rack.old rack.new }
    {
        let on = current_places(&self.state);
        self.log.clear();
        let array = &mut self.all[number as usize];
        let rows = rebuild_rows(array, rack, &mut self.log, &on, place, most);
        let _places = array.went();
        self.mend(rack);
        answered(rows, self.is_ended(), number)
    }

    /// Whether a plan has to end.
    fn has_plan(&self) -> bool
        ensures { result ≡ spec.is_plan (raid_by self.now).state.plan }
    {
        is_plan(&self.state.plan)
    }

    /// Ends the plan: one commit has the state without it, on the current places. Whoever goes is marked. Where no place is left, the
    /// plan ends in this run alone.
    fn end_plan<S: Rack>(&mut self, rack: &mut S)
        requires running { IsRunning self.old (S.seen rack.old) }
        requires heeded { IsHeeded (raid_by self.old) }
        ensures closes { spec.is_plan (raid_by self.old).state.plan ≡ true → spec.ClosesPlan (raid_by self.old) (raid_by self.new) (S.seen rack.old) (S.seen rack.new) }
        ensures contents { spec.is_plan (raid_by self.old).state.plan ≡ true → MakesTurn closed true AnyValues (raid_by self.old) (raid_by self.new) (S.seen rack.old) (S.seen rack.new) }
        ensures raises { RaisesBy 18 (raid_by self.old) (raid_by self.new) }
        ensures truths { KeepsTruths (raid_by self.old) (raid_by self.new) (S.seen rack.old) (S.seen rack.new) }
        ensures running { IsRunning self.new (S.seen rack.new) }
        ensures runs { S.runs rack.old rack.new }
    {
        self.log.clear();
        end_plan(&mut self.state);
        let on = current_places(&self.state);
        if on.is_empty() {
            return;
        }
        add_copies(&self.state, &on, &mut self.log);
        // A stop leaves a plan of which nothing but its end is left, or the state without it.
        let gone = self.log.commit(rack, &on);
        note_gone(self.all.as_mut_slice(), &gone);
        self.mend(rack);
    }
}

/// How many rows are done, unless their array can't do them any more.
pub(crate) fn answered(rows: Result<u64, Spent>, is_stuck: bool, array: u32) -> Result<u64, Stuck>
    ensures done { IfOk result (λ k. (rows ≡ Ok k) × (is_stuck ≡ false)) }
    ensures refused { IfErr result (λ e. (is_ok rows ≡ false) ⊎ (is_stuck ≡ true)) }
    ensures named { IfErr result (λ e. e.array ≡ array) }
{
    match rows {
        Ok(rows) if !is_stuck => Ok(rows),
        Ok(_) | Err(_) => Err(Stuck { array }),
    }
}

/// Whether a plan is one that has to end.
fn is_plan(plan: &Plan) -> bool
    ensures { result ≡ spec.is_plan plan.now }
{
    match *plan {
        Plan::Nothing => false,
        Plan::Add { .. } | Plan::Replace { .. } => true,
    }
}

/// Whether a member is being rebuilt.
fn is_rebuilding_seat(seat: Option<Seat>) -> bool
    ensures { result ≡ option_map_or spec.is_rebuilding_seat seat false }
{
    match seat {
        Some(Seat::Rebuilding { .. }) => true,
        Some(Seat::Whole) | Some(Seat::Missing) | None => false,
    }
}

/// Whether rows are left from the beginning of a row on, or none is.
fn is_whole_row(offset: u64) -> bool
    ensures { result ≡ spec.is_whole_row offset }
{
    offset == u64::MAX || offset % CHUNK_SECTORS == 0
}

impl<R: Rack> RaidRack<R> {
    ghost use Rattle.slice_rack.specs.SliceRack.{below_of};
    ghost use Rattle.raid_laws.specs.Runs.{RaidRuns};
    ghost use Rattle.raid_rack.specs.RaidRack.{IsFit, KeepsRack, SliceRuns, arrays_in, one_done, raid_in, raid_seen, slices_in, slices_seen, written_in};

    /// Resyncs the first rows of an array that are left, durably, and answers how many: as many as one commit takes, at least one and at
    /// most so many. No value moves. It is refused where the array has no row left, and then nothing changes; and exactly where the first
    /// row can't be resynced once the losses of this call are marked: a member of the array is missing or not rebuilt past the row, no
    /// drive is left, or numbers are used up.
    fn resync_rows(&mut self, array: u32, most: u64) -> Result<u64, Stuck>
        requires fit { IsFit (arrays_in self.old) (slices_seen R.seen self.old) }
        requires some { 0 < most }
        ensures idle { spec.has_row (raid_in self.old) array ≡ false → (is_ok result ≡ false) × (self.new ≡ self.old) }
        ensures resyncs { spec.has_row (raid_in self.old) array ≡ true
            → spec.Resyncs (raid_in self.old) (raid_in self.new) (slices_seen R.seen self.old) (slices_seen R.seen self.new) array most result }
        ensures contents { spec.has_row (raid_in self.old) array ≡ true
            → ResyncsNext array most (raid_in self.old) (raid_in self.new) (slices_seen R.seen self.old) (slices_seen R.seen self.new) result }
        ensures named { IfErr result (λ e. e.array ≡ array) }
        ensures keeps { KeepsRack (raid_seen R.seen self.old) (raid_seen R.seen self.new) }
        ensures raises { RaisesBy 18 (raid_in self.old) (raid_in self.new) }
        ensures written { (n : ℕ) → written_in self.new n ≡ written_in self.old n }
        ensures runs { SliceRuns R.seen R.runs (slices_in self.old) (slices_in self.new) }
        ensures book { RaidRuns (written_in self.old) (written_in self.new) (raid_in self.old) (raid_in self.new) (slices_seen R.seen self.old) (slices_seen R.seen self.new) }
    {
        if !self.arrays.has_row(array) {
            return Err(Stuck { array });
        }
        self.arrays.resync_array(&mut self.slices, array, most)
    }

    /// Rebuilds the next rows of a place's member of an array, durably, and answers how many: as many as one commit takes, at least one and
    /// at most so many. No value moves. It is refused where the array has no member there that is being rebuilt, and then nothing changes;
    /// and only where the first row can't be had once the losses of this call are marked: another member of the array is missing or not
    /// rebuilt past the row, the row is left to resync, no drive is left, or numbers are used up.
    fn rebuild_rows(&mut self, array: u32, place: u32, most: u64) -> Result<u64, Stuck>
        requires fit { IsFit (arrays_in self.old) (slices_seen R.seen self.old) }
        requires some { 0 < most }
        ensures idle { spec.is_rebuilding (raid_in self.old) array place ≡ false → (is_ok result ≡ false) × (self.new ≡ self.old) }
        ensures rebuilds { spec.is_rebuilding (raid_in self.old) array place ≡ true
            → spec.Rebuilds (raid_in self.old) (raid_in self.new) (slices_seen R.seen self.old) (slices_seen R.seen self.new) array place most result }
        ensures contents { spec.is_rebuilding (raid_in self.old) array place ≡ true
            → RebuildsNext array place most (raid_in self.old) (raid_in self.new) (slices_seen R.seen self.old) (slices_seen R.seen self.new) result }
        ensures named { IfErr result (λ e. e.array ≡ array) }
        ensures keeps { KeepsRack (raid_seen R.seen self.old) (raid_seen R.seen self.new) }
        ensures raises { RaisesBy 18 (raid_in self.old) (raid_in self.new) }
        ensures written { (n : ℕ) → written_in self.new n ≡ written_in self.old n }
        ensures runs { SliceRuns R.seen R.runs (slices_in self.old) (slices_in self.new) }
        ensures book { RaidRuns (written_in self.old) (written_in self.new) (raid_in self.old) (raid_in self.new) (slices_seen R.seen self.old) (slices_seen R.seen self.new) }
    {
        if !self.arrays.is_rebuilding(array, place) {
            return Err(Stuck { array });
        }
        self.arrays
            .rebuild_array(&mut self.slices, array, place, most)
    }

    /// Ends the pool's plan: its state says that none is left, durably where a drive is left. No value moves. It is refused exactly
    /// where the plan has ended already, and then nothing changes.
    pub fn close(&mut self) -> Result<(), Stuck>
        requires fit { IsFit (arrays_in self.old) (slices_seen R.seen self.old) }
        ensures idle { spec.is_plan (raid_in self.old).state.plan ≡ false → (is_ok result ≡ false) × (self.new ≡ self.old) }
        ensures closes { spec.is_plan (raid_in self.old).state.plan ≡ true
            → (is_ok result ≡ true) × spec.ClosesPlan (raid_in self.old) (raid_in self.new) (slices_seen R.seen self.old) (slices_seen R.seen self.new) }
        ensures contents { spec.is_plan (raid_in self.old).state.plan ≡ true
            → MakesTurn closed true AnyValues (raid_in self.old) (raid_in self.new) (slices_seen R.seen self.old) (slices_seen R.seen self.new) }
        ensures named { IfErr result (λ e. e.array ≡ 0) }
        ensures keeps { KeepsRack (raid_seen R.seen self.old) (raid_seen R.seen self.new) }
        ensures raises { RaisesBy 18 (raid_in self.old) (raid_in self.new) }
        ensures written { (n : ℕ) → written_in self.new n ≡ written_in self.old n }
        ensures runs { SliceRuns R.seen R.runs (slices_in self.old) (slices_in self.new) }
        ensures book { RaidRuns (written_in self.old) (written_in self.new) (raid_in self.old) (raid_in self.new) (slices_seen R.seen self.old) (slices_seen R.seen self.new) }
    {
        if !self.arrays.has_plan() {
            return Err(Stuck { array: 0 });
        }
        self.arrays.end_plan(&mut self.slices);
        Ok(())
    }

    /// Does a work of maintenance and those after it of its kind, on its array and place: resyncs or rebuilds rows of an array, as many as
    /// one commit takes, or ends the plan. It answers how many are done, at least one and at most so many. No value moves. It is refused
    /// where the work isn't due, and then nothing changes: its array has no such row left, or the plan has ended. Rows are refused too
    /// where the first of them can't be had once the losses of this call are marked. Works that make arrays, or change their level or the
    /// number of their members, aren't due yet, and the volume isn't extended here. A refusal names the work's array, and 0 where it has
    /// none.
    pub fn works(&mut self, work: &Work, most: u64) -> Result<u64, Stuck>
        requires fit { IsFit (arrays_in self.old) (slices_seen R.seen self.old) }
        requires some { 0 < most }
        ensures idle { spec.is_due (raid_in self.old) work.now ≡ false → (is_ok result ≡ false) × (self.new ≡ self.old) }
        ensures does { spec.is_due (raid_in self.old) work.now ≡ true
            → spec.Does work.now most (raid_in self.old) (raid_in self.new) (slices_seen R.seen self.old) (slices_seen R.seen self.new) result }
        ensures contents { spec.is_due (raid_in self.old) work.now ≡ true
            → MakesWorks work.now most (raid_in self.old) (raid_in self.new) (slices_seen R.seen self.old) (slices_seen R.seen self.new) result }
        ensures named { IfErr result (λ e. e.array ≡ spec.array_of work.now) }
        ensures keeps { KeepsRack (raid_seen R.seen self.old) (raid_seen R.seen self.new) }
        ensures raises { RaisesBy 18 (raid_in self.old) (raid_in self.new) }
        ensures written { (n : ℕ) → written_in self.new n ≡ written_in self.old n }
        ensures runs { SliceRuns R.seen R.runs (slices_in self.old) (slices_in self.new) }
        ensures book { RaidRuns (written_in self.old) (written_in self.new) (raid_in self.old) (raid_in self.new) (slices_seen R.seen self.old) (slices_seen R.seen self.new) }
    {
        match *work {
            Work::Resync { array } => self.resync_rows(array, most),
            Work::Rebuild { array, place } => self.rebuild_rows(array, place, most),
            Work::Close => {
                self.close()?;
                Ok(1)
            }
            Work::TakeOver { array }
            | Work::Begin { array, .. }
            | Work::Reshape { array }
            | Work::Finish { array }
            | Work::Make { array, .. }
            | Work::Zero { array }
            | Work::Ready { array } => Err(Stuck { array }),
            Work::Extend => Err(Stuck { array: 0 }),
        }
    }

    /// Does one work of maintenance, as `works` does.
    pub fn work(&mut self, work: &Work) -> Result<(), Stuck>
        requires fit { IsFit (arrays_in self.old) (slices_seen R.seen self.old) }
        ensures idle { spec.is_due (raid_in self.old) work.now ≡ false → (is_ok result ≡ false) × (self.new ≡ self.old) }
        ensures does { spec.is_due (raid_in self.old) work.now ≡ true
            → spec.Does work.now 1 (raid_in self.old) (raid_in self.new) (slices_seen R.seen self.old) (slices_seen R.seen self.new) (one_done result) }
        ensures contents { spec.is_due (raid_in self.old) work.now ≡ true
            → MakesWorks work.now 1 (raid_in self.old) (raid_in self.new) (slices_seen R.seen self.old) (slices_seen R.seen self.new) (one_done result) }
        ensures named { IfErr result (λ e. e.array ≡ spec.array_of work.now) }
        ensures keeps { KeepsRack (raid_seen R.seen self.old) (raid_seen R.seen self.new) }
        ensures raises { RaisesBy 18 (raid_in self.old) (raid_in self.new) }
        ensures written { (n : ℕ) → written_in self.new n ≡ written_in self.old n }
        ensures runs { SliceRuns R.seen R.runs (slices_in self.old) (slices_in self.new) }
        ensures book { RaidRuns (written_in self.old) (written_in self.new) (raid_in self.old) (raid_in self.new) (slices_seen R.seen self.old) (slices_seen R.seen self.new) }
    {
        self.works(work, 1)?;
        Ok(())
    }
}
