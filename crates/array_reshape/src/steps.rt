//! The steps of a reshape, each by one commit of the log.

ghost use Rattle.std.specs.Prelude.{◌≡◌, ◌⊎◌, ◌<◌, ◌-◌, ◌*◌, ◌^◌, ℕ, List, [], None, true, false, is_ok, OnOk, IfErr};
ghost use Rattle.array_image.specs.Supers.{is_reshaping};
ghost use Rattle.md_super.specs.Profile.{is_mirror, is_raid5};
ghost use Rattle.array_model.specs.View.{View, rows_of};
ghost use Rattle.array_model.specs.Members.{HasSlices};
ghost use Rattle.log_laws.specs.View.{committed, emptied};
ghost use Rattle.log_laws.specs.Phases.{AreLogs};
ghost use Rattle.array_core.specs.Pool.{Goes};
ghost use Rattle.array_core.specs.Seats.{seat_of};
ghost use Rattle.array_core.specs.Superblocks.{raised};
ghost use Rattle.array_core.specs.Writing.{KeepsElsewhere};
ghost use Rattle.reshape_laws.specs.Ahead.{ahead, finished, taken_over};
ghost use Rattle.reshape_laws.specs.Reshapes.{Reshapes, ReshapesRows, joined, lacks_joined, lacks_two};

use crate::changes;
use crate::members::{absent_in, answer, join, lacks_joined, lacks_two, next_row, rows_at_once};
use crate::new_rows::stage_rows;
use array_core::{Array, Spent};
use commit_log::Log;
use rack::{Places, Rack};
use shr_base::Id;

/// Makes RAID-5 of two members of a mirror, by one commit of superblocks. The members are synced first: a mirror of which one member
/// is left is written past the log, and as RAID-5 each sector of a member has to have one value.
pub fn take_over<R: Rack>(
    array: &mut Array,
    rack: &mut R,
    log: &mut Log,
    on: &Places,
) -> Result<(), Spent>
    requires slices { HasSlices array.old (R.seen rack.old) }
    requires disks { (R.seen rack.old).disks ≡ 272 }
    requires logs { AreLogs (R.seen rack.old).sectors on.now.items }
    requires empty { log.old.added ≡ [] }
    requires grown { array.old.young ≡ false }
    requires synced { array.old.resync ≡ rows_of array.old }
    requires clean { array.old.truth.resync_offset ≡ 2 ^ 64 - 1 }
    requires mirror { is_mirror array.old.truth ≡ true }
    ensures reshapes { Reshapes array.old (taken_over array.old (raised array.old.truth.events)) array.new log.old.number log.new.number on.now.items (R.seen rack.old) (R.seen rack.new) (is_ok result) }
    ensures elsewhere { KeepsElsewhere false array.old on.now.items (R.seen rack.old) (R.seen rack.new) }
    ensures goes { Goes (R.seen rack.old) (R.seen rack.new) }
    ensures log { (log.new ≡ emptied log.old) ⊎ (log.new ≡ committed log.old) }
    ensures runs { R.runs rack.old rack.new }
    ensures served { OnOk result (lacks_two array.new ≡ false) }
    ensures refused { IfErr result (λ e. (e.sector ≡ 0) × (lacks_two array.new ≡ true)) }
{
    array.rules();
    array.unsynced_rows();
    let change = changes::taken_over(array);
    array.stage(log, &change);
    array.sync(rack);
    if lacks_two(array) {
        log.clear();
        return answer(array, 0, ());
    }
    // A stop leaves a mirror, or RAID-5 of two members, whose parity is the data: each sector reads the same.
    let lost = log.commit(rack, on);
    array.note_all(&lost);
    array.rules();
    let answered = answer(array, 0, ());
    array.adopt(&change);
    answered
}

/// Begins a reshape to one member more, by one commit of superblocks. The member joins on a place that has none, at the last position,
/// with its id on this drive. Where its place isn't among those of the log's commits it is missing, and gets no superblock.
pub fn begin<R: Rack>(
    array: &mut Array,
    rack: &mut R,
    log: &mut Log,
    on: &Places,
    place: u32,
    drive: &Id,
) -> Result<(), Spent>
    requires slices { HasSlices (joined array.old on.now.items place drive.now) (R.seen rack.old) }
    requires disks { (R.seen rack.old).disks ≡ 272 }
    requires logs { AreLogs (R.seen rack.old).sectors on.now.items }
    requires empty { log.old.added ≡ [] }
    requires grown { array.old.young ≡ false }
    requires synced { array.old.resync ≡ rows_of array.old }
    requires clean { array.old.truth.resync_offset ≡ 2 ^ 64 - 1 }
    requires raid5 { is_raid5 array.old.truth ≡ true }
    requires still { is_reshaping array.old.truth ≡ false }
    requires place { place < 16 }
    requires joins { seat_of array.old place ≡ None }
    ensures reshapes { Reshapes array.old (joined array.old on.now.items place drive.now) array.new log.old.number log.new.number on.now.items (R.seen rack.old) (R.seen rack.new) (is_ok result) }
    ensures elsewhere { KeepsElsewhere false (joined array.old on.now.items place drive.now) on.now.items (R.seen rack.old) (R.seen rack.new) }
    ensures goes { Goes (R.seen rack.old) (R.seen rack.new) }
    ensures log { (log.new ≡ emptied log.old) ⊎ (log.new ≡ committed log.old) }
    ensures runs { R.runs rack.old rack.new }
    ensures served { OnOk result ((lacks_joined array.old on.now.items place ≡ false) × (lacks_two array.new ≡ false)) }
    ensures refused { IfErr result (λ e. (e.sector ≡ 0) × ((lacks_joined array.old on.now.items place ≡ true) ⊎ (lacks_two array.new ≡ true))) }
{
    array.rules();
    array.truth_rules();
    array.unsynced_rows();
    if lacks_joined(array, on, place) {
        log.clear();
        return Err(Spent { sector: 0 });
    }
    join(array, on, place, drive);
    array.stage_own(log);
    // A stop leaves the members that were, or one more and no row moved: all rows go by the old layout still.
    let lost = log.commit(rack, on);
    array.note_all(&lost);
    answer(array, 0, ())
}

/// Moves some of the next rows, at least one and at most so many: they hold what the array had there, and zeros past the array's old
/// end. All that they take is read before anything is written. One commit of the log has the rows on each member that counts there
/// when the call begins, and the superblocks with the position behind them; rows that lack a member are computed from the others. The
/// answer is how many rows were moved. It is refused exactly where two members are missing after the losses of this call.
pub fn rows<R: Rack>(
    array: &mut Array,
    rack: &mut R,
    log: &mut Log,
    on: &Places,
    most: u64,
) -> Result<u64, Spent>
    requires slices { HasSlices array.old (R.seen rack.old) }
    requires disks { (R.seen rack.old).disks ≡ 272 }
    requires logs { AreLogs (R.seen rack.old).sectors on.now.items }
    requires empty { log.old.added ≡ [] }
    requires grown { array.old.young ≡ false }
    requires synced { array.old.resync ≡ rows_of array.old }
    requires reshaping { is_reshaping array.old.truth ≡ true }
    requires left { array.old.truth.reshape_position < (array.old.truth.raid_disks - 1) * array.old.truth.size }
    requires some { 0 < most }
    ensures reshapes { ReshapesRows array.old array.new most log.old.number log.new.number on.now.items (R.seen rack.old) (R.seen rack.new) result }
    ensures elsewhere { KeepsElsewhere false array.old on.now.items (R.seen rack.old) (R.seen rack.new) }
    ensures goes { Goes (R.seen rack.old) (R.seen rack.new) }
    ensures log { (log.new ≡ emptied log.old) ⊎ (log.new ≡ committed log.old) }
    ensures runs { R.runs rack.old rack.new }
    ensures served { OnOk result (lacks_two array.new ≡ false) }
    ensures refused { IfErr result (λ e. (e.sector ≡ array.old.truth.reshape_position) × (lacks_two array.new ≡ true)) }
{
    array.rules();
    array.unsynced_rows();
    let position = array.truth().reshape_position;
    if lacks_two(array) {
        log.clear();
        return Err(Spent { sector: position });
    }
    let first = next_row(array);
    let absent = absent_in(array, first);
    let rows = rows_at_once(array, log, first, absent, most);
    let change = changes::moved(array, rows);
    array.stage(log, &change);
    if !stage_rows(array, rack, log, first, rows, absent) {
        log.clear();
        return Err(Spent { sector: position });
    }
    // The rows are written over sectors that they were read from. A stop amid them replays them; before that the
    // position is in front of them and the old sectors stand, after it the position is behind them.
    let lost = log.commit(rack, on);
    array.note_all(&lost);
    array.rules();
    let answered = answer(array, position, rows);
    array.adopt(&change);
    answered
}

/// Moves the next row, as `rows` does it.
pub fn row<R: Rack>(
    array: &mut Array,
    rack: &mut R,
    log: &mut Log,
    on: &Places,
) -> Result<(), Spent>
    requires slices { HasSlices array.old (R.seen rack.old) }
    requires disks { (R.seen rack.old).disks ≡ 272 }
    requires logs { AreLogs (R.seen rack.old).sectors on.now.items }
    requires empty { log.old.added ≡ [] }
    requires grown { array.old.young ≡ false }
    requires synced { array.old.resync ≡ rows_of array.old }
    requires reshaping { is_reshaping array.old.truth ≡ true }
    requires left { array.old.truth.reshape_position < (array.old.truth.raid_disks - 1) * array.old.truth.size }
    ensures reshapes { Reshapes array.old (ahead array.old (raised array.old.truth.events)) array.new log.old.number log.new.number on.now.items (R.seen rack.old) (R.seen rack.new) (is_ok result) }
    ensures elsewhere { KeepsElsewhere false array.old on.now.items (R.seen rack.old) (R.seen rack.new) }
    ensures goes { Goes (R.seen rack.old) (R.seen rack.new) }
    ensures log { (log.new ≡ emptied log.old) ⊎ (log.new ≡ committed log.old) }
    ensures runs { R.runs rack.old rack.new }
    ensures served { OnOk result (lacks_two array.new ≡ false) }
    ensures refused { IfErr result (λ e. (e.sector ≡ array.old.truth.reshape_position) × (lacks_two array.new ≡ true)) }
{
    match rows(array, rack, log, on, 1) {
        Ok(_) => Ok(()),
        Err(spent) => Err(spent),
    }
}

/// Ends a reshape that has no row left, by one commit of superblocks.
pub fn finish<R: Rack>(
    array: &mut Array,
    rack: &mut R,
    log: &mut Log,
    on: &Places,
) -> Result<(), Spent>
    requires slices { HasSlices array.old (R.seen rack.old) }
    requires disks { (R.seen rack.old).disks ≡ 272 }
    requires logs { AreLogs (R.seen rack.old).sectors on.now.items }
    requires empty { log.old.added ≡ [] }
    requires grown { array.old.young ≡ false }
    requires synced { array.old.resync ≡ rows_of array.old }
    requires reshaping { is_reshaping array.old.truth ≡ true }
    requires whole { array.old.truth.reshape_position ≡ (array.old.truth.raid_disks - 1) * array.old.truth.size }
    ensures reshapes { Reshapes array.old (finished array.old (raised array.old.truth.events)) array.new log.old.number log.new.number on.now.items (R.seen rack.old) (R.seen rack.new) (is_ok result) }
    ensures elsewhere { KeepsElsewhere false array.old on.now.items (R.seen rack.old) (R.seen rack.new) }
    ensures goes { Goes (R.seen rack.old) (R.seen rack.new) }
    ensures log { (log.new ≡ emptied log.old) ⊎ (log.new ≡ committed log.old) }
    ensures runs { R.runs rack.old rack.new }
    ensures served { OnOk result (lacks_two array.new ≡ false) }
    ensures refused { IfErr result (λ e. (e.sector ≡ 0) × (lacks_two array.new ≡ true)) }
{
    array.rules();
    array.unsynced_rows();
    if lacks_two(array) {
        log.clear();
        return answer(array, 0, ());
    }
    let change = changes::finished(array);
    array.stage(log, &change);
    // A stop leaves a reshape that has moved all rows, or the array without it: each sector reads the same.
    let lost = log.commit(rack, on);
    array.note_all(&lost);
    array.rules();
    let answered = answer(array, 0, ());
    array.adopt(&change);
    answered
}
