//! Sectors of zeros for a row of all members.

ghost use Rattle.std.specs.Prelude.{◌≡◌, ◌<◌, ◌≤◌, ◌+◌, ◌*◌, ℕ, List, length, true, false, nat_lt};
ghost use Rattle.parity.specs.Xor.{zeros};
ghost use Rattle.array_image.specs.Spent.{wanting};
ghost use Rattle.array_model.specs.View.{View, rows_of};
ghost use Rattle.array_model.specs.Members.{members_of};
ghost use Rattle.log_laws.specs.View.{most_sectors};
ghost use Rattle.sync_laws.specs.Rows.{AddsCopies, AreZeros, OfMember, OfCounting, counts_in, lacks_two};

use crate::rows::DATA_SECTOR;
use array_core::{Array, Seat};
use commit_log::{Log, Target};
use raid_map::CHUNK_SECTORS;

/// Whether two members are missing, or not rebuilt past a row.
pub(crate) fn lacks_two(array: &Array, row: u64) -> bool
    requires { row < rows_of array.now }
    ensures { result ≡ lacks_two array.now row }
{
    array.rules();
    array.wanting(row * CHUNK_SECTORS + (CHUNK_SECTORS - 1)) > 1
}

/// Whether a member counts in a row.
fn counts_in(array: &Array, row: u64, position: u32) -> bool
    requires row { row < rows_of array.now }
    requires position { position < array.now.truth.raid_disks }
    ensures { result ≡ counts_in array.now row position }
{
    array.rules();
    let last = row * CHUNK_SECTORS + (CHUNK_SECTORS - 1);
    match array.seat_on(position) {
        Seat::Whole => last < array.truth().size,
        Seat::Missing => false,
        Seat::Rebuilding { to } => last < to,
    }
}

/// A sector of zeros.
pub(crate) fn zero_sector() -> [u8; 512]
    ensures { result ≡ zeros 512 }
{
    [0; 512]
}

/// Adds zeros for a member's row to the log.
fn stage_member(array: &Array, log: &mut Log, position: u32, row: u64)
    requires row { row < rows_of array.now }
    requires position { position < array.now.truth.raid_disks }
    requires room { length log.old.added + 128 ≤ most_sectors }
    ensures added { AddsCopies array.now (OfMember position (row * 128) 128) AreZeros 128 log.old.added log.new.added }
    ensures log { log.new ≡ record log.old { added = log.new.added } }
{
    array.rules();
    let blank = zero_sector();
    for sector in row * CHUNK_SECTORS..row * CHUNK_SECTORS + CHUNK_SECTORS {
        let at = Target {
            disk: array.slice_at(position),
            sector: DATA_SECTOR + sector,
        };
        log.add(at, &blank);
    }
}

/// Adds zeros for a member's row to the log, if it counts in it.
fn stage_if_counts(array: &Array, log: &mut Log, position: u32, row: u64)
    requires row { row < rows_of array.now }
    requires position { position < array.now.truth.raid_disks }
    requires room { length log.old.added + 128 ≤ most_sectors }
    ensures added { AddsCopies array.now (λ t j. OfMember position (row * 128) 128 t j × (counts_in array.now row j ≡ true)) AreZeros 128 log.old.added log.new.added }
    ensures log { log.new ≡ record log.old { added = log.new.added } }
{
    if counts_in(array, row, position) {
        stage_member(array, log, position, row);
    }
}

/// Adds zeros for a row of each member that counts in it to the log.
fn stage_row(array: &Array, log: &mut Log, row: u64)
    requires row { row < rows_of array.now }
    requires room { length log.old.added + array.now.truth.raid_disks * 128 ≤ most_sectors }
    ensures added { AddsCopies array.now (OfCounting array.now (row * 128) 128 array.now.truth.raid_disks) AreZeros (array.now.truth.raid_disks * 128) log.old.added log.new.added }
    ensures log { log.new ≡ record log.old { added = log.new.added } }
{
    array.rules();
    for position in 0..array.truth().raid_disks {
        stage_if_counts(array, log, position, row);
    }
}

/// Adds zeros for so many rows of each member that counts in them to the log.
pub(crate) fn stage_zeros(array: &Array, log: &mut Log, first: u64, rows: u64)
    requires rows { first + rows ≤ rows_of array.now }
    requires room { length log.old.added + array.now.truth.raid_disks * 128 * rows ≤ most_sectors }
    ensures added { AddsCopies array.now (OfCounting array.now (first * 128) (128 * rows) array.now.truth.raid_disks) AreZeros (array.now.truth.raid_disks * 128 * rows) log.old.added log.new.added }
    ensures log { log.new ≡ record log.old { added = log.new.added } }
{
    array.rules();
    for row in first..first + rows {
        stage_row(array, log, row);
    }
}
