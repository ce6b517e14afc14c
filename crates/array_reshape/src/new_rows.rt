//! What is added to the log for new rows.

ghost use Rattle.std.specs.Prelude.{◌≡◌, ◌<◌, ◌≤◌, ◌+◌, ◌-◌, ◌*◌, ◌^◌, ℕ, Option, List, length, true, false, not};
ghost use Rattle.rack.specs.Sequences.{OnlyReads};
ghost use Rattle.raid_map.specs.LeftSymmetric.{IsMemberCount, parity_at};
ghost use Rattle.array_image.specs.Supers.{is_reshaping};
ghost use Rattle.array_model.specs.View.{View, rows_of};
ghost use Rattle.array_model.specs.Members.{HasSlices, Notes};
ghost use Rattle.log_laws.specs.View.{most_sectors};
ghost use Rattle.array_core.specs.Stands.{blank};
ghost use Rattle.reshape_laws.specs.Ahead.{next_row};
ghost use Rattle.reshape_laws.specs.Reshapes.{lacks_two};
ghost use Rattle.reshape_laws.specs.Rows.{AddsPiece, AddsPieces, IsNewBytes, IsOld, OfOne, OfSector, OfSectors, is_absent};

use crate::members::lacks_two;
use array_core::Array;
use commit_log::{Log, Target};
use parity::xor_into;
use rack::Rack;
use raid_map::{CHUNK_SECTORS, place, unplace};

/// Where a member's data begins in its slice.
const DATA_SECTOR: u64 = 2048;

/// A sector of zeros.
fn zero_sector() -> [u8; 512]
    ensures { result ≡ blank }
{
    [0; 512]
}

/// Whether a position is the absent one.
fn is_absent(absent: Option<u32>, position: u32) -> bool
    ensures { result ≡ is_absent absent position }
{
    match absent {
        Some(other) => other == position,
        None => false,
    }
}

/// Adds a sector of a member's data to the log, unless the member is absent.
fn stage_if(
    array: &Array,
    log: &mut Log,
    position: u32,
    sector: u64,
    absent: Option<u32>,
    from: &[u8; 512],
)
    requires position { position < array.now.truth.raid_disks }
    requires sector { sector < array.now.truth.size }
    requires room { length log.old.added < most_sectors }
    ensures added { AddsPieces array.now (OfOne sector position absent) (λ t j u. u ≡ from.now) 1 log.old.added log.new.added }
    ensures log { log.new ≡ record log.old { added = log.new.added } }
{
    array.rules();
    if is_absent(absent, position) {
        return;
    }
    let at = Target {
        disk: array.slice_at(position),
        sector: DATA_SECTOR + sector,
    };
    log.add(at, from);
}

/// Reads a sector of the array, or zeros past its end. The answer is false where it is spent.
fn old_sector<R: Rack>(array: &mut Array, rack: &mut R, x: u64, into: &mut [u8; 512]) -> bool
    requires slices { HasSlices array.old (R.seen rack.old) }
    requires synced { array.old.resync ≡ rows_of array.old }
    requires left { array.old.truth.reshape_position ≤ x }
    ensures reads { OnlyReads (R.seen rack.old) (R.seen rack.new) }
    ensures notes { Notes array.old array.new (R.seen rack.old) (R.seen rack.new) }
    ensures runs { R.runs rack.old rack.new }
    ensures old { result ≡ true → IsOld array.old (R.seen rack.old) x into.new }
    ensures lost { result ≡ false → lacks_two array.new ≡ true }
{
    array.rules();
    if x >= array.sectors() {
        *into = zero_sector();
        return true;
    }
    match array.read(rack, x, into) {
        Ok(()) => true,
        Err(_) => {
            array.rules();
            false
        }
    }
}

/// Adds a member's sector of the next rows to the log and to a sum, unless it is the parity. The answer is false where it can't be had.
fn stage_piece<R: Rack>(
    array: &mut Array,
    rack: &mut R,
    log: &mut Log,
    position: u32,
    sector: u64,
    absent: Option<u32>,
    sum: &mut [u8; 512],
) -> bool
    requires slices { HasSlices array.old (R.seen rack.old) }
    requires reshaping { is_reshaping array.old.truth ≡ true }
    requires synced { array.old.resync ≡ rows_of array.old }
    requires position { position < array.old.truth.raid_disks }
    requires sector { sector < array.old.truth.size }
    requires row { next_row array.old * 128 ≤ sector }
    requires room { length log.old.added < most_sectors }
    ensures reads { OnlyReads (R.seen rack.old) (R.seen rack.new) }
    ensures notes { Notes array.old array.new (R.seen rack.old) (R.seen rack.new) }
    ensures runs { R.runs rack.old rack.new }
    ensures added { result ≡ true → AddsPiece array.old (R.seen rack.old) sector position absent sum.old sum.new log.old.added log.new.added }
    ensures lost { result ≡ false → lacks_two array.new ≡ true }
    ensures log { log.new ≡ record log.old { added = log.new.added } }
{
    array.rules();
    let Some(x) = unplace(array.truth().raid_disks, position, sector) else {
        return true;
    };
    let mut piece = zero_sector();
    if !old_sector(array, rack, x, &mut piece) {
        return false;
    }
    xor_into(sum, &piece);
    stage_if(array, log, position, sector, absent, &piece);
    true
}

/// Adds one sector of each member to the log, but of the absent one: data by position, then the parity. The answer is false where
/// one can't be had.
fn stage_sector<R: Rack>(
    array: &mut Array,
    rack: &mut R,
    log: &mut Log,
    sector: u64,
    absent: Option<u32>,
) -> bool
    requires slices { HasSlices array.old (R.seen rack.old) }
    requires reshaping { is_reshaping array.old.truth ≡ true }
    requires synced { array.old.resync ≡ rows_of array.old }
    requires sector { sector < array.old.truth.size }
    requires row { next_row array.old * 128 ≤ sector }
    requires room { length log.old.added + array.old.truth.raid_disks ≤ most_sectors }
    ensures reads { OnlyReads (R.seen rack.old) (R.seen rack.new) }
    ensures notes { Notes array.old array.new (R.seen rack.old) (R.seen rack.new) }
    ensures runs { R.runs rack.old rack.new }
    ensures added { result ≡ true → AddsPieces array.old (OfSector sector array.old.truth.raid_disks absent) (IsNewBytes array.old (R.seen rack.old)) array.old.truth.raid_disks log.old.added log.new.added }
    ensures lost { result ≡ false → lacks_two array.new ≡ true }
    ensures log { log.new ≡ record log.old { added = log.new.added } }
{
    array.rules();
    let members = array.truth().raid_disks;
    let mut sum = zero_sector();
    for position in 0..members {
        if !stage_piece(array, rack, log, position, sector, absent, &mut sum) {
            return false;
        }
    }
    stage_if(array, log, parity_on(members, sector), sector, absent, &sum);
    true
}

/// The position that has the parity at a sector of the members' data.
fn parity_on(members: u32, sector: u64) -> u32
    requires members { IsMemberCount members }
    requires sector { sector < 2 ^ 48 }
    ensures parity { result ≡ parity_at members sector }
    ensures member { result < members }
{
    let first = sector / CHUNK_SECTORS * (CHUNK_SECTORS * (u64::from(members) - 1));
    place(members, first).parity
}

/// Adds the sectors of so many new rows to the log. The answer is false where one can't be had.
fn stage_sectors<R: Rack>(
    array: &mut Array,
    rack: &mut R,
    log: &mut Log,
    first: u64,
    rows: u64,
    absent: Option<u32>,
) -> bool
    requires slices { HasSlices array.old (R.seen rack.old) }
    requires reshaping { is_reshaping array.old.truth ≡ true }
    requires synced { array.old.resync ≡ rows_of array.old }
    requires rows { (first ≡ next_row array.old) × (first + rows ≤ rows_of array.old) }
    requires room { length log.old.added + rows * 128 * array.old.truth.raid_disks ≤ most_sectors }
    ensures reads { OnlyReads (R.seen rack.old) (R.seen rack.new) }
    ensures notes { Notes array.old array.new (R.seen rack.old) (R.seen rack.new) }
    ensures runs { R.runs rack.old rack.new }
    ensures added { result ≡ true → AddsPieces array.old (OfSectors array.old.truth.raid_disks (first * 128) (rows * 128) absent) (IsNewBytes array.old (R.seen rack.old)) (rows * 128 * array.old.truth.raid_disks) log.old.added log.new.added }
    ensures lost { result ≡ false → lacks_two array.new ≡ true }
    ensures log { log.new ≡ record log.old { added = log.new.added } }
{
    array.rules();
    for sector in first * CHUNK_SECTORS..(first + rows) * CHUNK_SECTORS {
        if !stage_sector(array, rack, log, sector, absent) {
            return false;
        }
    }
    true
}

/// Adds so many new rows to the log. The answer is false where two members are missing.
pub(crate) fn stage_rows<R: Rack>(
    array: &mut Array,
    rack: &mut R,
    log: &mut Log,
    first: u64,
    rows: u64,
    absent: Option<u32>,
) -> bool
    requires slices { HasSlices array.old (R.seen rack.old) }
    requires reshaping { is_reshaping array.old.truth ≡ true }
    requires synced { array.old.resync ≡ rows_of array.old }
    requires rows { (first ≡ next_row array.old) × (first + rows ≤ rows_of array.old) }
    requires room { length log.old.added + rows * 128 * array.old.truth.raid_disks ≤ most_sectors }
    ensures reads { OnlyReads (R.seen rack.old) (R.seen rack.new) }
    ensures notes { Notes array.old array.new (R.seen rack.old) (R.seen rack.new) }
    ensures runs { R.runs rack.old rack.new }
    ensures added { result ≡ true → AddsPieces array.old (OfSectors array.old.truth.raid_disks (first * 128) (rows * 128) absent) (IsNewBytes array.old (R.seen rack.old)) (rows * 128 * array.old.truth.raid_disks) log.old.added log.new.added }
    ensures answer { result ≡ not (lacks_two array.new) }
    ensures log { log.new ≡ record log.old { added = log.new.added } }
{
    if !stage_sectors(array, rack, log, first, rows, absent) {
        return false;
    }
    !lacks_two(array)
}
