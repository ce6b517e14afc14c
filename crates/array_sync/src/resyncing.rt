//! Rows of an array that are left to resync.

ghost use Rattle.std.specs.Prelude.{◌≡◌, ◌⊎◌, ◌<◌, ◌≤◌, ◌+◌, ◌-◌, ◌*◌, ℕ, List, [], length, true, false, is_ok, not, OnOk, IfOk, IfErr};
ghost use Rattle.array_model.specs.View.{View, rows_of};
ghost use Rattle.array_model.specs.Members.{HasSlices, Notes, first_of_row, row_layout};
ghost use Rattle.rack.specs.Sequences.{OnlyReads};
ghost use Rattle.log_laws.specs.View.{committed, emptied, most_sectors};
ghost use Rattle.log_laws.specs.Phases.{AreLogs};
ghost use Rattle.array_core.specs.Pool.{Goes};
ghost use Rattle.array_core.specs.Writing.{KeepsElsewhere};
ghost use Rattle.sync_laws.specs.Rows.{AddsCopies, AreAlike, IsRowSum, OfRow, lacks_row};
ghost use Rattle.sync_laws.specs.Steps.{Steps, StepsRows, offset_after, resynced};

use crate::alike::count_alike;
use crate::rows::{lacks_row, rows_of_record, stage_rows};
use array_core::{Array, Spent};
use commit_log::Log;
use rack::{Places, Rack};
use raid_map::CHUNK_SECTORS;

/// How many rows one call compares at most: 4 GiB of each member.
const MOST_ALIKE: u64 = 65536;

/// The member sector from which rows are left to resync once so many aren't.
pub(crate) fn offset_after(array: &Array, rows: u64) -> u64
    requires { rows ≤ rows_of array.now }
    ensures { result ≡ offset_after array.now rows }
{
    array.rules();
    if rows < array.rows() {
        rows * CHUNK_SECTORS
    } else {
        u64::MAX
    }
}

/// The answer to so many rows of resync: they are refused where a member is missing from the first.
fn answer(array: &Array, row: u64, rows: u64) -> Result<u64, Spent>
    requires { row < rows_of array.now }
    ensures rows { IfOk result (λ k. k ≡ rows) }
    ensures served { OnOk result (lacks_row array.now row ≡ false) }
    ensures refused { IfErr result (λ e. (e.sector ≡ first_of_row (row_layout array.now (row * 128)) (row * 128)) × (lacks_row array.now row ≡ true)) }
{
    array.rules();
    if lacks_row(array, row) {
        Err(Spent {
            sector: array.first_in_row(row * CHUNK_SECTORS),
        })
    } else {
        Ok(rows)
    }
}

/// How many rows to resync by one commit: as many as a record of the log has, where each member counts in the last of them, and else
/// one.
fn rows_at_once(array: &Array, log: &Log, row: u64, most: u64) -> u64
    requires row { row < rows_of array.now }
    requires empty { log.now.added ≡ [] }
    requires some { 0 < most }
    ensures some { 0 < result }
    ensures few { result ≤ most }
    ensures left { row + result ≤ rows_of array.now }
    ensures room { array.now.truth.raid_disks + 128 * result ≤ most_sectors }
    ensures had { 1 < result → lacks_row array.now (row + (result - 1)) ≡ false }
{
    array.rules();
    let rows = rows_of_record(array, log, 1, array.rows() - row, most);
    if lacks_row(array, row + (rows - 1)) {
        1
    } else {
        rows
    }
}

/// Rows to resync by one commit, and whether their members agree already.
#[derive(Clone, Copy)]
struct Next {
    rows: u64,
    alike: bool,
}

/// The next rows to resync by one commit: those whose members agree, where the first row's do, and else as many as a record of the log
/// has. Many rows that were left by a stop agree, and cost no more than reading them.
fn next_rows<R: Rack>(array: &Array, rack: &mut R, log: &Log, row: u64, most: u64) -> Next
    requires slices { HasSlices array.now (R.seen rack.old) }
    requires row { row < rows_of array.now }
    requires empty { log.now.added ≡ [] }
    requires some { 0 < most }
    ensures reads { OnlyReads (R.seen rack.old) (R.seen rack.new) }
    ensures runs { R.runs rack.old rack.new }
    ensures some { 0 < result.rows }
    ensures few { result.rows ≤ most }
    ensures left { row + result.rows ≤ rows_of array.now }
    ensures room { result.alike ≡ false → array.now.truth.raid_disks + 128 * result.rows ≤ most_sectors }
    ensures had { 1 < result.rows → lacks_row array.now (row + (result.rows - 1)) ≡ false }
    ensures whole { result.alike ≡ true → lacks_row array.now (row + (result.rows - 1)) ≡ false }
    ensures alike { result.alike ≡ true → AreAlike array.now (R.seen rack.old) (row * 128) (128 * result.rows) }
{
    array.rules();
    let many = most.min(array.rows() - row).min(MOST_ALIKE);
    if !lacks_row(array, row + (many - 1)) {
        let rows = count_alike(array, rack, row, many);
        if rows > 0 {
            return Next { rows, alike: true };
        }
    }
    Next {
        rows: rows_at_once(array, log, row, most),
        alike: false,
    }
}

/// Adds to the log what a resync changes of the next rows, and nothing where their members agree. The answer is false where a member is
/// missing, or not rebuilt past the last row.
fn stage_next<R: Rack>(array: &mut Array, rack: &mut R, log: &mut Log, row: u64, next: Next) -> bool
    requires slices { HasSlices array.old (R.seen rack.old) }
    requires some { 0 < next.rows }
    requires row { row + next.rows ≤ rows_of array.old }
    requires left { array.old.resync ≤ row }
    requires room { next.alike ≡ false → length log.old.added + 128 * next.rows ≤ most_sectors }
    requires whole { next.alike ≡ true → lacks_row array.old (row + (next.rows - 1)) ≡ false }
    ensures reads { OnlyReads (R.seen rack.old) (R.seen rack.new) }
    ensures notes { Notes array.old array.new (R.seen rack.old) (R.seen rack.new) }
    ensures runs { R.runs rack.old rack.new }
    ensures added { result ≡ true → next.alike ≡ false → AddsCopies array.old (OfRow array.old (row * 128) (128 * next.rows)) (IsRowSum array.old (R.seen rack.old)) (128 * next.rows) log.old.added log.new.added }
    ensures idle { next.alike ≡ true → log.new.added ≡ log.old.added }
    ensures answer { result ≡ not (lacks_row array.new (row + (next.rows - 1))) }
    ensures log { log.new ≡ record log.old { added = log.new.added } }
{
    next.alike || stage_rows(array, rack, log, row, next.rows)
}

/// Resyncs the next rows that are left, at least one and at most so many: a mirror's other members get the chunk of its first one, and of RAID-5 the parity is
/// computed from the data. One commit of the log has the sectors of each member that is changed, where the members don't agree already,
/// and the superblocks that leave the rows after them; those after the last row say that none is left. It is durable when the call returns, which answers how many rows
/// it did, and no value of the array has changed.
/// It is refused exactly where a member is missing after the losses of this call, or isn't rebuilt past the first of the rows.
pub fn resync_rows<R: Rack>(
    array: &mut Array,
    rack: &mut R,
    log: &mut Log,
    on: &Places,
    most: u64,
) -> Result<u64, Spent>
    requires slices { HasSlices array.old (R.seen rack.old) }
    requires disks { (R.seen rack.old).disks ≡ 272 }
    requires logs { AreLogs (R.seen rack.old).sectors on.now.items }
    requires empty { log.old.added ≡ [] }
    requires grown { array.old.young ≡ false }
    requires row { array.old.resync < rows_of array.old }
    requires some { 0 < most }
    ensures steps { StepsRows array.old array.new (resynced array.old) (rows_of array.old - array.old.resync) most log.old.number log.new.number on.now.items (R.seen rack.old) (R.seen rack.new) result }
    ensures elsewhere { KeepsElsewhere false array.old on.now.items (R.seen rack.old) (R.seen rack.new) }
    ensures goes { Goes (R.seen rack.old) (R.seen rack.new) }
    ensures log { (log.new ≡ emptied log.old) ⊎ (log.new ≡ committed log.old) }
    ensures runs { R.runs rack.old rack.new }
    ensures served { OnOk result (lacks_row array.new array.old.resync ≡ false) }
    ensures refused { IfErr result (λ e. (e.sector ≡ first_of_row (row_layout array.old (array.old.resync * 128)) (array.old.resync * 128))
        × (lacks_row array.new array.old.resync ≡ true)) }
{
    array.rules();
    array.unsynced_rows();
    let row = array.resync_from();
    let next = next_rows(array, rack, log, row, most);
    let change = array.resynced_to(offset_after(array, row + next.rows));
    array.stage(log, &change);
    if !stage_next(array, rack, log, row, next) {
        log.clear();
        return answer(array, row, next.rows);
    }
    // A stop leaves the rows to resync as they were, or their members agreeing and the next row the first that is left.
    let lost = log.commit(rack, on);
    array.note_all(&lost);
    array.rules();
    let answered = answer(array, row, next.rows);
    array.adopt(&change);
    answered
}

/// Resyncs the first row that is left, as `resync_rows` does it.
pub fn resync_row<R: Rack>(
    array: &mut Array,
    rack: &mut R,
    log: &mut Log,
    on: &Places,
) -> Result<(), Spent>
    requires slices { HasSlices array.old (R.seen rack.old) }
    requires disks { (R.seen rack.old).disks ≡ 272 }
    requires logs { AreLogs (R.seen rack.old).sectors on.now.items }
    requires empty { log.old.added ≡ [] }
    requires grown { array.old.young ≡ false }
    requires row { array.old.resync < rows_of array.old }
    ensures steps { Steps array.old (resynced array.old 1) array.new log.old.number log.new.number on.now.items (R.seen rack.old) (R.seen rack.new) (is_ok result) }
    ensures elsewhere { KeepsElsewhere false array.old on.now.items (R.seen rack.old) (R.seen rack.new) }
    ensures goes { Goes (R.seen rack.old) (R.seen rack.new) }
    ensures log { (log.new ≡ emptied log.old) ⊎ (log.new ≡ committed log.old) }
    ensures runs { R.runs rack.old rack.new }
    ensures served { OnOk result (lacks_row array.new array.old.resync ≡ false) }
    ensures refused { IfErr result (λ e. (e.sector ≡ first_of_row (row_layout array.old (array.old.resync * 128)) (array.old.resync * 128))
        × (lacks_row array.new array.old.resync ≡ true)) }
{
    match resync_rows(array, rack, log, on, 1) {
        Ok(_) => Ok(()),
        Err(spent) => Err(spent),
    }
}
