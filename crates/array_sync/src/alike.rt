//! Rows that needn't be written, since their members agree.

ghost use Rattle.std.specs.Prelude.{◌≡◌, ◌<◌, ◌≤◌, ◌+◌, ◌-◌, ◌*◌, ℕ, true, false};
ghost use Rattle.rack.specs.Sequences.{OnlyReads};
ghost use Rattle.raid_map.specs.LeftSymmetric.{row_at};
ghost use Rattle.array_model.specs.View.{View, rows_of};
ghost use Rattle.array_model.specs.Members.{HasSlices};
ghost use Rattle.sync_laws.specs.Rows.{AreAlike, IsAlike, lacks_row};

use crate::rows::DATA_SECTOR;
use crate::zeros::zero_sector;
use array_core::Array;
use parity::xor_into;
use rack::Rack;
use raid_map::CHUNK_SECTORS;

/// Whether the members of a row agree in a sector: the XOR of all is zeros, of a mirror's two as of RAID-5. The answer is false where
/// one can't be read.
fn agree<R: Rack>(array: &Array, rack: &mut R, sector: u64) -> bool
    requires slices { HasSlices array.now (R.seen rack.old) }
    requires sector { sector < array.now.truth.size }
    requires whole { lacks_row array.now (row_at sector) ≡ false }
    ensures reads { OnlyReads (R.seen rack.old) (R.seen rack.new) }
    ensures runs { R.runs rack.old rack.new }
    ensures agree { result ≡ true → IsAlike array.now (R.seen rack.old) sector }
{
    array.rules();
    let mut sum = zero_sector();
    for position in 0..array.row_members(sector) {
        let mut piece = [0; 512];
        let slice = array.slice_at(position);
        match rack.read(slice, DATA_SECTOR + sector, &mut piece) {
            Ok(()) => xor_into(&mut sum, &piece),
            Err(_) => return false,
        }
    }
    sum == [0; 512]
}

/// How many of the next rows, of so many, have members that agree. A row counts as one that doesn't where a member can't be read.
pub(crate) fn count_alike<R: Rack>(array: &Array, rack: &mut R, row: u64, many: u64) -> u64
    requires slices { HasSlices array.now (R.seen rack.old) }
    requires some { 0 < many }
    requires rows { row + many ≤ rows_of array.now }
    requires whole { lacks_row array.now (row + (many - 1)) ≡ false }
    ensures reads { OnlyReads (R.seen rack.old) (R.seen rack.new) }
    ensures runs { R.runs rack.old rack.new }
    ensures few { result ≤ many }
    ensures alike { AreAlike array.now (R.seen rack.old) (row * 128) (128 * result) }
{
    array.rules();
    for sector in row * CHUNK_SECTORS..(row + many) * CHUNK_SECTORS {
        if !agree(array, rack, sector) {
            return sector / CHUNK_SECTORS - row;
        }
    }
    many
}
