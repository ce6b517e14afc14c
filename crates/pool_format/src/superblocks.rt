//! The superblocks of a new pool's members.

ghost use Rattle.std.specs.Prelude.{◌≡◌, ◌<◌};
ghost use Rattle.pool_format.specs.Parts as spec;

use crate::Birth;
use crate::planning::NewArray;
use crate::states::new_drive_id;
use md_super::Super;
use shr_base::Id;

/// The superblock of a place's member of an array.
pub(crate) fn new_super(birth: &Birth, array: &NewArray, number: u32, place: u32) -> Super
    requires { number < 16 }
    ensures { result ≡ spec.new_super birth.now array.now number place }
{
    new_array::new_super(
        &Id(birth.pool),
        &new_drive_id(birth, place),
        array.members.as_slice(),
        number,
        place,
        array.size,
        u64::MAX,
        birth.seconds,
    )
}
