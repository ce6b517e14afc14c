//! Making all arrays of a volume durable.

ghost use Rattle.std.specs.Prelude.{◌≤◌};
ghost use Rattle.rack.specs.Several.{Several};
ghost use Rattle.lvm_group.specs.Sequences.{SyncsAll};

use rack::{Gone, Rack};

/// Syncs the first disks of a rack, so many, and stops at the first that refuses.
pub(crate) fn sync_first<R: Rack>(rack: &mut R, count: u32) -> Result<(), Gone>
    requires fit { (R.seen rack.old).fit }
    requires disks { count ≤ (R.seen rack.old).disks }
    ensures syncs { SyncsAll (R.seen rack.old) (R.seen rack.new) count result }
    ensures runs { R.runs rack.old rack.new }
    ensures several { Several R.once count rack.old rack.new }
{
    for disk in 0..count {
        if let Err(gone) = rack.sync(disk) {
            return Err(gone);
        }
    }
    Ok(())
}
