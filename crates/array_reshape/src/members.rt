//! Which members a step finds missing, the member that joins, and the next rows.

ghost use Rattle.std.specs.Prelude.{◌≡◌, ◌<◌, ◌≤◌, ◌-◌, ◌*◌, ◌+◌, ℕ, Option, None, [], nat_lt, true, false, IfOk, OnOk, IfErr};
ghost use Rattle.array_image.specs.Supers.{is_reshaping};
ghost use Rattle.md_super.specs.Profile.{is_raid5};
ghost use Rattle.array_model.specs.View.{member_on, rows_of};
ghost use Rattle.log_laws.specs.View.{most_sectors};
ghost use Rattle.array_core.specs.Seats.{seat_of};
ghost use Rattle.reshape_laws.specs.Ahead.{next_row};
ghost use Rattle.reshape_laws.specs.Reshapes.{joined, lacks_joined, lacks_two};
ghost use Rattle.reshape_laws.specs.Rows.{IsAbsent, counts_in};

use crate::changes;
use array_core::{Array, Seat, Spent};
use commit_log::Log;
use rack::Places;
use raid_map::CHUNK_SECTORS;
use shr_base::Id;

/// Whether two members are missing, or not rebuilt to the end.
pub(crate) fn lacks_two(array: &Array) -> bool
    ensures { result ≡ lacks_two array.now }
{
    array.rules();
    array.wanting(array.truth().size.saturating_sub(1)) > 1
}

/// Whether two are so with a joining place that isn't among the places of the log's commits.
pub(crate) fn lacks_joined(array: &Array, on: &Places, place: u32) -> bool
    ensures { result ≡ lacks_joined array.now on.now.items place }
{
    array.rules();
    let wanting = array.wanting(array.truth().size.saturating_sub(1));
    if on.contains(&place) {
        wanting > 1
    } else {
        wanting > 0
    }
}

/// The answer to a step, which says what it has done: it is refused where two members are missing.
pub(crate) fn answer<T: Copy>(array: &Array, sector: u64, done: T) -> Result<T, Spent>
    ensures done { IfOk result (λ told. told ≡ done) }
    ensures served { OnOk result (lacks_two array.now ≡ false) }
    ensures refused { IfErr result (λ e. (e.sector ≡ sector) × (lacks_two array.now ≡ true)) }
{
    if lacks_two(array) {
        Err(Spent { sector })
    } else {
        Ok(done)
    }
}

/// A member joins on a place, at the last position. It is missing where its place isn't among those of the log's commits.
pub(crate) fn join(array: &mut Array, on: &Places, place: u32, drive: &Id)
    requires raid5 { is_raid5 array.old.truth ≡ true }
    requires still { is_reshaping array.old.truth ≡ false }
    requires place { place < 16 }
    requires joins { seat_of array.old place ≡ None }
    ensures { array.new ≡ joined array.old on.now.items place drive.now }
{
    array.rules();
    array.truth_rules();
    let change = changes::begun(array, place, drive);
    array.adopt(&change);
    if !on.contains(&place) {
        array.lose(place);
    }
}

/// The row of the members' data that is moved next.
pub(crate) fn next_row(array: &Array) -> u64
    requires reshaping { is_reshaping array.now.truth ≡ true }
    requires left { array.now.truth.reshape_position < (array.now.truth.raid_disks - 1) * array.now.truth.size }
    ensures row { result ≡ next_row array.now }
    ensures inside { result < rows_of array.now }
{
    array.rules();
    let truth = array.truth();
    truth.reshape_position / (CHUNK_SECTORS * (u64::from(truth.raid_disks) - 1))
}

/// Whether a member counts in a row.
fn counts_in(array: &Array, row: u64, position: u32) -> bool
    requires row { row < rows_of array.now }
    requires position { position < array.now.truth.raid_disks }
    ensures { result ≡ counts_in array.now row position }
{
    array.rules();
    let last = row * CHUNK_SECTORS + (CHUNK_SECTORS - 1);
    match array.seat_on(position) {
        Seat::Whole => last < array.truth().size,
        Seat::Missing => false,
        Seat::Rebuilding { to } => last < to,
    }
}

/// The member that doesn't count in a row, of an array that lacks one at most.
pub(crate) fn absent_in(array: &Array, row: u64) -> Option<u32>
    requires row { row < rows_of array.now }
    requires few { lacks_two array.now ≡ false }
    ensures { IsAbsent array.now row row result }
{
    array.rules();
    for position in 0..array.truth().raid_disks {
        if !counts_in(array, row, position) {
            return Some(position);
        }
    }
    None
}

/// How many of the next rows one commit of the log moves, at most so many: those that its record holds beside a superblock of each
/// member. Where a member counts in the first of them and not in the last it is the first alone.
pub(crate) fn rows_at_once(
    array: &Array,
    log: &Log,
    first: u64,
    absent: Option<u32>,
    most: u64,
) -> u64
    requires first { first < rows_of array.now }
    requires few { lacks_two array.now ≡ false }
    requires absent { IsAbsent array.now first first absent }
    requires empty { log.now.added ≡ [] }
    requires some { 0 < most }
    ensures some { 0 < result }
    ensures few { result ≤ most }
    ensures left { first + result ≤ rows_of array.now }
    ensures room { result * 128 * array.now.truth.raid_disks + array.now.truth.raid_disks ≤ most_sectors }
    ensures absent { IsAbsent array.now first (first + result - 1) absent }
{
    array.rules();
    let members = u64::from(array.truth().raid_disks);
    let held = (u64::from(log.room()) - members) / (CHUNK_SECTORS * members);
    let rows = most.min(held).min(array.rows() - first);
    if absent_in(array, first + rows - 1) == absent {
        rows
    } else {
        1
    }
}
