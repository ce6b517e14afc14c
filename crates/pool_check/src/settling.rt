//! Making the two copies of each drive's partition table agree.

ghost use Rattle.std.specs.Prelude.{◌≡◌, ◌<◌, ℕ, Some};
ghost use Rattle.rack.specs.Sequences.{WritesOnly};
ghost use Rattle.pool_check.specs.Drives.{Loses, flag_by, seats_by};
ghost use Rattle.pool_check.specs.Settling.{AreDistinct, IsSettled, IsTableSector, IsTrueOf, KeepsTable, SettlesPlace};

use crate::checking::put_seat;
use crate::superblocks::seat_at;
use crate::{Flags, Seats};
use gpt_table::{TableFault, settle_table};
use rack::Rack;

/// The flag of a place.
fn flag_at(flags: &Flags, place: u32) -> bool
    requires { place < 16 }
    ensures { result ≡ flag_by flags.now place }
{
    flags[place as usize]
}

/// Makes both copies of the table of a place's disk agree, if it has one and they don't. The place loses its disk where that refuses.
fn settle_place<R: Rack>(rack: &mut R, seats: &mut Seats, place: u32, agree: bool)
    requires fit { (R.seen rack.old).fit }
    requires place { place < 16 }
    requires inside { (d : ℕ) → seats_by seats.old place ≡ Some d → d < (R.seen rack.old).disks }
    ensures settles { SettlesPlace (R.seen rack.old) (R.seen rack.new) (seats_by seats.old) (seats_by seats.new) place agree }
    ensures runs { R.runs rack.old rack.new }
{
    if agree {
        return;
    }
    let Some(disk) = seat_at(seats, place) else {
        return;
    };
    match settle_table(rack, disk) {
        Ok(()) => {}
        Err(TableFault::NoTable) => {}
        Err(TableFault::Gone) => put_seat(seats, place, None),
    }
}

/// Makes both copies of the table of each seated disk agree: the first valid one is written over the other one where they differ. The
/// flags say where they agree, as a check has found: nothing is called on these disks. A place whose disk refuses loses it.
///
/// At each moment the table of each disk is the one from before, where each sector of its copies had one value. Where a disk shows no
/// table, its place keeps it.
pub fn settle_tables<R: Rack>(rack: &mut R, seats: &mut Seats, agreed: &Flags)
    requires fit { (R.seen rack.old).fit }
    requires inside { (place d : ℕ) → seats_by seats.old place ≡ Some d → d < (R.seen rack.old).disks }
    requires distinct { AreDistinct (seats_by seats.old) }
    // Of the disks that had a place, only sectors of tables are written.
    ensures only { WritesOnly (R.seen rack.old) (R.seen rack.new) (IsTableSector (R.seen rack.old) (R.seen rack.new) (seats_by seats.old) 16) }
    // Each place that has lost its disk has its cause.
    ensures seats { Loses (R.seen rack.old) (R.seen rack.new) (seats_by seats.old) (seats_by seats.new) }
    ensures tables { (d : ℕ) → KeepsTable (R.seen rack.old) (R.seen rack.new) d }
    // Whether a flag is true of a disk is for the caller to know.
    ensures settled { (place d : ℕ) → place < 16 → seats_by seats.new place ≡ Some d → IsTrueOf (R.seen rack.old) d (flag_by agreed.now place)
        → IsSettled (R.seen rack.old) (R.seen rack.new) d }
    ensures runs { R.runs rack.old rack.new }
{
    for place in 0..16 {
        settle_place(rack, seats, place, flag_at(agreed, place));
    }
}
