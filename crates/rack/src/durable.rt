//! Sectors that are written and made durable at once.

ghost use Rattle.std.specs.Prelude.{◌<◌};
ghost use Rattle.rack.specs.Sequences.{WritesDurably};

use crate::{Gone, Rack};

/// Writes a sector and syncs its disk: at `Ok` the sector holds this value alone, whatever stops.
pub fn write_durably<R: Rack>(
    rack: &mut R,
    disk: u32,
    sector: u64,
    from: &[u8; 512],
) -> Result<(), Gone>
    requires fit { (R.seen rack.old).fit }
    requires disk { disk < (R.seen rack.old).disks }
    requires sector { sector < (R.seen rack.old).sectors disk }
    ensures writes { WritesDurably (R.seen rack.old) (R.seen rack.new) disk sector from.now result }
    ensures runs { R.runs rack.old rack.new }
{
    match rack.write(disk, sector, from) {
        Ok(()) => rack.sync(disk),
        Err(gone) => Err(gone),
    }
}
