//! The sectors of a member's row that the others of the row give.

ghost use Rattle.std.specs.Prelude.{◌≡◌, ◌<◌, ◌≤◌, ◌+◌, ◌-◌, ◌*◌, ℕ, List, length, true, false, not, nat_lt};
ghost use Rattle.rack.specs.Sequences.{OnlyReads};
ghost use Rattle.raid_map.specs.LeftSymmetric.{row_at};
ghost use Rattle.array_image.specs.Stripes.{width};
ghost use Rattle.array_image.specs.Spent.{wanting, spent_with};
ghost use Rattle.array_model.specs.View.{View, member_on, rows_of};
ghost use Rattle.array_model.specs.Members.{HasSlices, Notes, members_of, row_layout};
ghost use Rattle.log_laws.specs.View.{most_sectors};
ghost use Rattle.sync_laws.specs.Rows.{AddsCopies, IsGiven, OfMember, row_spent};

use crate::rows::DATA_SECTOR;
use array_core::Array;
use commit_log::{Log, Target};
use rack::Rack;
use raid_map::CHUNK_SECTORS;

/// Whether a row can't be had: two members don't count in it, or one where it is left to resync.
pub(crate) fn is_row_spent(array: &Array, row: u64) -> bool
    requires { row < rows_of array.now }
    ensures { result ≡ row_spent array.now row }
{
    array.rules();
    let wanting = array.wanting(row * CHUNK_SECTORS + (CHUNK_SECTORS - 1));
    wanting > 1 || (wanting > 0 && !(row < array.resync_from()))
}

/// Reads what the others of its row give at a sector of a member that doesn't count there. A row that doesn't have this member, in
/// an array that is being reshaped, leaves the bytes as they are. The answer is false where the sector can't be had.
fn restore<R: Rack>(
    array: &mut Array,
    rack: &mut R,
    position: u32,
    sector: u64,
    into: &mut [u8; 512],
) -> bool
    requires slices { HasSlices array.old (R.seen rack.old) }
    requires sector { sector < array.old.truth.size }
    requires position { position < array.old.truth.raid_disks }
    requires lacking { nat_lt sector (member_on array.old position).reach ≡ false }
    ensures reads { OnlyReads (R.seen rack.old) (R.seen rack.new) }
    ensures notes { Notes array.old array.new (R.seen rack.old) (R.seen rack.new) }
    ensures runs { R.runs rack.old rack.new }
    ensures given { result ≡ true → IsGiven array.old (R.seen rack.old) position sector into.new }
    ensures counts { result ≡ true → position < width (row_layout array.old sector) → wanting sector (members_of array.new) ≤ 1 }
    ensures lost { result ≡ false → spent_with (wanting sector (members_of array.new)) (nat_lt (row_at sector) array.new.resync) ≡ true }
{
    array.rules();
    if position >= array.row_members(sector) {
        return true;
    }
    match array.member(rack, position, sector, into) {
        Ok(()) => true,
        Err(_) => false,
    }
}

/// Adds a member's sector to the log, as the others of its row give it. The answer is false where it can't be had.
fn stage_sector<R: Rack>(
    array: &mut Array,
    rack: &mut R,
    log: &mut Log,
    position: u32,
    sector: u64,
) -> bool
    requires slices { HasSlices array.old (R.seen rack.old) }
    requires sector { sector < array.old.truth.size }
    requires position { position < array.old.truth.raid_disks }
    requires lacking { nat_lt sector (member_on array.old position).reach ≡ false }
    requires room { length log.old.added < most_sectors }
    ensures reads { OnlyReads (R.seen rack.old) (R.seen rack.new) }
    ensures notes { Notes array.old array.new (R.seen rack.old) (R.seen rack.new) }
    ensures runs { R.runs rack.old rack.new }
    ensures added { result ≡ true → AddsCopies array.old (OfMember position sector 1) (IsGiven array.old (R.seen rack.old) position) 1 log.old.added log.new.added }
    ensures counts { result ≡ true → position < width (row_layout array.old sector) → wanting sector (members_of array.new) ≤ 1 }
    ensures lost { result ≡ false → spent_with (wanting sector (members_of array.new)) (nat_lt (row_at sector) array.new.resync) ≡ true }
    ensures log { log.new ≡ record log.old { added = log.new.added } }
{
    let mut piece = [0; 512];
    if !restore(array, rack, position, sector, &mut piece) {
        return false;
    }
    array.rules();
    let at = Target {
        disk: array.slice_at(position),
        sector: DATA_SECTOR + sector,
    };
    log.add(at, &piece);
    true
}

/// Adds the sectors of so many of a member's rows to the log, as the others give them. The answer is false where one can't be had.
fn stage_sectors<R: Rack>(
    array: &mut Array,
    rack: &mut R,
    log: &mut Log,
    position: u32,
    row: u64,
    rows: u64,
) -> bool
    requires slices { HasSlices array.old (R.seen rack.old) }
    requires some { 0 < rows }
    requires row { row + rows ≤ rows_of array.old }
    requires position { position < array.old.truth.raid_disks }
    requires lacking { (member_on array.old position).reach ≤ row * 128 }
    requires room { length log.old.added + 128 * rows ≤ most_sectors }
    ensures reads { OnlyReads (R.seen rack.old) (R.seen rack.new) }
    ensures notes { Notes array.old array.new (R.seen rack.old) (R.seen rack.new) }
    ensures runs { R.runs rack.old rack.new }
    ensures added { result ≡ true → AddsCopies array.old (OfMember position (row * 128) (128 * rows)) (IsGiven array.old (R.seen rack.old) position) (128 * rows) log.old.added log.new.added }
    ensures lost { result ≡ false → row_spent array.new (row + (rows - 1)) ≡ true }
    ensures log { log.new ≡ record log.old { added = log.new.added } }
{
    array.rules();
    for sector in row * CHUNK_SECTORS..(row + rows) * CHUNK_SECTORS {
        if !stage_sector(array, rack, log, position, sector) {
            return false;
        }
    }
    true
}

/// Adds so many of a member's rows to the log, as the others give them. The answer is false where the last can't be had.
pub(crate) fn stage_member<R: Rack>(
    array: &mut Array,
    rack: &mut R,
    log: &mut Log,
    position: u32,
    row: u64,
    rows: u64,
) -> bool
    requires slices { HasSlices array.old (R.seen rack.old) }
    requires some { 0 < rows }
    requires row { row + rows ≤ rows_of array.old }
    requires position { position < array.old.truth.raid_disks }
    requires lacking { (member_on array.old position).reach ≤ row * 128 }
    requires room { length log.old.added + 128 * rows ≤ most_sectors }
    ensures reads { OnlyReads (R.seen rack.old) (R.seen rack.new) }
    ensures notes { Notes array.old array.new (R.seen rack.old) (R.seen rack.new) }
    ensures runs { R.runs rack.old rack.new }
    ensures added { result ≡ true → AddsCopies array.old (OfMember position (row * 128) (128 * rows)) (IsGiven array.old (R.seen rack.old) position) (128 * rows) log.old.added log.new.added }
    ensures answer { result ≡ not (row_spent array.new (row + (rows - 1))) }
    ensures log { log.new ≡ record log.old { added = log.new.added } }
{
    array.rules();
    if !stage_sectors(array, rack, log, position, row, rows) {
        return false;
    }
    !is_row_spent(array, row + (rows - 1))
}
