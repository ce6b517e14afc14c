//! The sectors of a row that are made of the others.

ghost use Rattle.std.specs.Prelude.{◌≡◌, ◌<◌, ◌≤◌, ◌+◌, ◌-◌, ◌*◌, ℕ, List, [], length, true, false, not, nat_lt};
ghost use Rattle.rack.specs.Sequences.{OnlyReads};
ghost use Rattle.raid_map.specs.LeftSymmetric.{row_at};
ghost use Rattle.array_image.specs.Stripes.{width};
ghost use Rattle.array_image.specs.Held.{current_in};
ghost use Rattle.array_image.specs.Spent.{wanting};
ghost use Rattle.array_model.specs.View.{View, member_on, rows_of, shape_of};
ghost use Rattle.array_model.specs.Says.{IsOpen};
ghost use Rattle.array_model.specs.Members.{HasSlices, Notes, members_of, row_layout, slice_on};
ghost use Rattle.log_laws.specs.View.{most_sectors};
ghost use Rattle.parity.specs.Xor.{xor};
ghost use Rattle.sync_laws.specs.Rows.{AddsCopies, IsRowSum, OfRow, OfSector, SourcesCount, is_source, lacks_row, row_sum, source_sector};

use array_core::Array;
use commit_log::{Log, Target};
use parity::xor_into;
use rack::Rack;
use raid_map::{CHUNK_SECTORS, unplace};

/// Where a member's data begins in its slice.
pub(crate) const DATA_SECTOR: u64 = 2048;

/// Whether a member is missing, or not rebuilt past a row.
pub fn lacks_row(array: &Array, row: u64) -> bool
    requires { row < rows_of array.now }
    ensures { result ≡ lacks_row array.now row }
{
    array.rules();
    array.wanting(row * CHUNK_SECTORS + (CHUNK_SECTORS - 1)) > 0
}

/// How many rows one commit can do: at least one, and at most as many as are left and as the caller says. A record of the log has so
/// many members' rows beside the superblocks.
pub(crate) fn rows_of_record(array: &Array, log: &Log, members: u32, left: u64, most: u64) -> u64
    requires empty { log.now.added ≡ [] }
    requires least { 0 < members }
    requires members { members ≤ 16 }
    requires left { 0 < left }
    requires some { 0 < most }
    ensures some { 0 < result }
    ensures few { result ≤ most }
    ensures left { result ≤ left }
    ensures room { array.now.truth.raid_disks + members * 128 * result ≤ most_sectors }
{
    array.rules();
    let room = u64::from(log.room() - array.truth().raid_disks);
    let rows = room / (u64::from(members) * CHUNK_SECTORS);
    rows.min(left).min(most)
}

/// Whether a member's sector is one of those that make the others of its row.
fn is_source(array: &Array, sector: u64, members: u32, position: u32) -> bool
    requires sector { sector < array.now.truth.size }
    requires members { members ≡ width (row_layout array.now sector) }
    requires position { position < members }
    ensures { result ≡ is_source array.now sector position }
{
    array.rules();
    if array.truth().level == 1 {
        position == 0
    } else {
        unplace(members, position, sector).is_some()
    }
}

/// Adds a member's sector to a sum. The answer is false where it can't be had.
fn add_source<R: Rack>(
    array: &mut Array,
    rack: &mut R,
    sector: u64,
    position: u32,
    sum: &mut [u8; 512],
) -> bool
    requires slices { HasSlices array.old (R.seen rack.old) }
    requires sector { sector < array.old.truth.size }
    requires left { array.old.resync ≤ row_at sector }
    requires position { position < width (row_layout array.old sector) }
    ensures reads { OnlyReads (R.seen rack.old) (R.seen rack.new) }
    ensures notes { Notes array.old array.new (R.seen rack.old) (R.seen rack.new) }
    ensures runs { R.runs rack.old rack.new }
    ensures counts { result ≡ true → sector < (member_on array.old position).reach }
    ensures sum { result ≡ true → IsOpen (shape_of array.old) array.old.number (R.seen rack.old)
        → sum.new ≡ xor sum.old (current_in (R.seen rack.old).held (slice_on array.old position) (2048 + sector)) }
    ensures lost { result ≡ false → 0 < wanting sector (members_of array.new) }
{
    array.rules();
    let mut piece = [0; 512];
    match array.member(rack, position, sector, &mut piece) {
        Ok(()) => {
            xor_into(sum, &piece);
            true
        }
        Err(_) => false,
    }
}

/// Adds a member's sector to a sum if it is one of those that make the others.
fn add_if<R: Rack>(
    array: &mut Array,
    rack: &mut R,
    sector: u64,
    members: u32,
    position: u32,
    sum: &mut [u8; 512],
) -> bool
    requires slices { HasSlices array.old (R.seen rack.old) }
    requires sector { sector < array.old.truth.size }
    requires left { array.old.resync ≤ row_at sector }
    requires members { members ≡ width (row_layout array.old sector) }
    requires position { position < members }
    ensures reads { OnlyReads (R.seen rack.old) (R.seen rack.new) }
    ensures notes { Notes array.old array.new (R.seen rack.old) (R.seen rack.new) }
    ensures runs { R.runs rack.old rack.new }
    ensures counts { result ≡ true → is_source array.old sector position ≡ true → sector < (member_on array.old position).reach }
    ensures sum { result ≡ true → IsOpen (shape_of array.old) array.old.number (R.seen rack.old)
        → sum.new ≡ xor sum.old (source_sector array.old (current_in (R.seen rack.old).held) sector position) }
    ensures lost { result ≡ false → 0 < wanting sector (members_of array.new) }
{
    if !is_source(array, sector, members, position) {
        return true;
    }
    add_source(array, rack, sector, position, sum)
}

/// A sector of zeros.
fn zero_sector(array: &Array, sector: u64) -> [u8; 512]
    ensures { (c : ℕ → ℕ → List ℕ) → result ≡ row_sum array.now c sector 0 }
{
    [0; 512]
}

/// What the members that make the others give at a sector. The answer is false where one can't be had.
fn sum_sources<R: Rack>(
    array: &mut Array,
    rack: &mut R,
    sector: u64,
    members: u32,
    into: &mut [u8; 512],
) -> bool
    requires slices { HasSlices array.old (R.seen rack.old) }
    requires sector { sector < array.old.truth.size }
    requires left { array.old.resync ≤ row_at sector }
    requires members { members ≡ width (row_layout array.old sector) }
    ensures reads { OnlyReads (R.seen rack.old) (R.seen rack.new) }
    ensures notes { Notes array.old array.new (R.seen rack.old) (R.seen rack.new) }
    ensures runs { R.runs rack.old rack.new }
    ensures counts { result ≡ true → SourcesCount array.old sector members }
    ensures sum { result ≡ true → IsRowSum array.old (R.seen rack.old) sector into.new }
    ensures lost { result ≡ false → 0 < wanting sector (members_of array.new) }
{
    array.rules();
    let mut sum = zero_sector(array, sector);
    for position in 0..members {
        if !add_if(array, rack, sector, members, position, &mut sum) {
            return false;
        }
    }
    *into = sum;
    true
}

/// The member whose sector is made of the others: one of each row is.
fn made_at(array: &Array, sector: u64, members: u32) -> u32
    requires sector { sector < array.now.truth.size }
    requires members { members ≡ width (row_layout array.now sector) }
    ensures low { result < members }
    ensures made { is_source array.now sector result ≡ false }
    ensures only { (j : ℕ) → j < members → is_source array.now sector j ≡ false → j ≡ result }
{
    array.rules();
    let mut made = 0;
    for position in 0..members {
        if !is_source(array, sector, members, position) {
            made = position;
        }
    }
    made
}

/// Adds the member's sector that is made of others to the log.
fn stage_made(array: &Array, log: &mut Log, sector: u64, members: u32, from: &[u8; 512])
    requires sector { sector < array.now.truth.size }
    requires members { members ≡ width (row_layout array.now sector) }
    requires room { length log.old.added < most_sectors }
    ensures added { AddsCopies array.now (OfSector array.now sector members) (λ t u. u ≡ from.now) 1 log.old.added log.new.added }
    ensures log { log.new ≡ record log.old { added = log.new.added } }
{
    array.rules();
    let at = Target {
        disk: array.slice_at(made_at(array, sector, members)),
        sector: DATA_SECTOR + sector,
    };
    log.add(at, from);
}

/// Adds to the log what a resync changes of one sector of a row. The answer is false where a member can't be had.
fn stage_sector<R: Rack>(array: &mut Array, rack: &mut R, log: &mut Log, sector: u64) -> bool
    requires slices { HasSlices array.old (R.seen rack.old) }
    requires sector { sector < array.old.truth.size }
    requires left { array.old.resync ≤ row_at sector }
    requires room { length log.old.added < most_sectors }
    ensures reads { OnlyReads (R.seen rack.old) (R.seen rack.new) }
    ensures notes { Notes array.old array.new (R.seen rack.old) (R.seen rack.new) }
    ensures runs { R.runs rack.old rack.new }
    ensures added { result ≡ true → AddsCopies array.old (OfSector array.old sector (width (row_layout array.old sector))) (IsRowSum array.old (R.seen rack.old)) 1 log.old.added log.new.added }
    ensures counts { result ≡ true → SourcesCount array.old sector (width (row_layout array.old sector)) }
    ensures lost { result ≡ false → 0 < wanting sector (members_of array.new) }
    ensures log { log.new ≡ record log.old { added = log.new.added } }
{
    let members = array.row_members(sector);
    let mut sum = [0; 512];
    if !sum_sources(array, rack, sector, members, &mut sum) {
        return false;
    }
    stage_made(array, log, sector, members, &sum);
    true
}

/// Adds to the log what a resync changes of the sectors of so many rows. The answer is false where a member can't be had.
fn stage_sectors<R: Rack>(
    array: &mut Array,
    rack: &mut R,
    log: &mut Log,
    row: u64,
    rows: u64,
) -> bool
    requires slices { HasSlices array.old (R.seen rack.old) }
    requires some { 0 < rows }
    requires row { row + rows ≤ rows_of array.old }
    requires left { array.old.resync ≤ row }
    requires room { length log.old.added + 128 * rows ≤ most_sectors }
    ensures reads { OnlyReads (R.seen rack.old) (R.seen rack.new) }
    ensures notes { Notes array.old array.new (R.seen rack.old) (R.seen rack.new) }
    ensures runs { R.runs rack.old rack.new }
    ensures added { result ≡ true → AddsCopies array.old (OfRow array.old (row * 128) (128 * rows)) (IsRowSum array.old (R.seen rack.old)) (128 * rows) log.old.added log.new.added }
    ensures lost { result ≡ false → lacks_row array.new (row + (rows - 1)) ≡ true }
    ensures log { log.new ≡ record log.old { added = log.new.added } }
{
    array.rules();
    for sector in row * CHUNK_SECTORS..(row + rows) * CHUNK_SECTORS {
        if !stage_sector(array, rack, log, sector) {
            return false;
        }
    }
    true
}

/// Adds to the log what a resync changes of so many rows. The answer is false where a member is missing, or not rebuilt past the last.
pub(crate) fn stage_rows<R: Rack>(
    array: &mut Array,
    rack: &mut R,
    log: &mut Log,
    row: u64,
    rows: u64,
) -> bool
    requires slices { HasSlices array.old (R.seen rack.old) }
    requires some { 0 < rows }
    requires row { row + rows ≤ rows_of array.old }
    requires left { array.old.resync ≤ row }
    requires room { length log.old.added + 128 * rows ≤ most_sectors }
    ensures reads { OnlyReads (R.seen rack.old) (R.seen rack.new) }
    ensures notes { Notes array.old array.new (R.seen rack.old) (R.seen rack.new) }
    ensures runs { R.runs rack.old rack.new }
    ensures added { result ≡ true → AddsCopies array.old (OfRow array.old (row * 128) (128 * rows)) (IsRowSum array.old (R.seen rack.old)) (128 * rows) log.old.added log.new.added }
    ensures answer { result ≡ not (lacks_row array.new (row + (rows - 1))) }
    ensures log { log.new ≡ record log.old { added = log.new.added } }
{
    array.rules();
    if !stage_sectors(array, rack, log, row, rows) {
        return false;
    }
    !lacks_row(array, row + (rows - 1))
}
