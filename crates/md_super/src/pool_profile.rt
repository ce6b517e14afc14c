ghost use Rattle.std.specs.Prelude.{◌≡◌, ◌<◌, ◌==◌, ◌&&◌, if◌then◌else◌, Ok, Err};
ghost use Rattle.md_super.specs.Profile.{profiled, is_mirror, is_raid5, has_disks, is_height_of};

use crate::superblock::{Field, Super, Unsupported};

/// The feature bits of a pool: a member that is rebuilding, and an array that is being reshaped.
const FEATURES: u32 = 2 | 4;

/// The sectors in front of the extents of an array.
const HEAD_SECTORS: u64 = 2048;

/// Whether an array of this superblock is one of a pool of extents of `extent` sectors, or the first
/// field that shows otherwise.
pub fn profile(seen: &Super, extent: u32) -> Result<(), Unsupported>
    requires { 0 < extent }
    ensures { result ≡ profiled seen.now extent }
{
    let mirror = mirrors(seen);
    needs(seen.feature_map & !FEATURES == 0, Field::FeatureMap)?;
    needs(mirror || stripes_with_parity(seen), Field::Level)?;
    needs(seen.layout == if mirror { 0 } else { 2 }, Field::Layout)?;
    needs(seen.chunk == if mirror { 0 } else { 128 }, Field::Chunk)?;
    needs(has_its_disks(seen), Field::RaidDisks)?;
    needs(has_its_size(seen, extent), Field::Size)?;
    needs(seen.data_offset == 2048, Field::DataOffset)?;
    needs(seen.super_offset == 8, Field::SuperOffset)?;
    needs(seen.dev_number < 16, Field::DevNumber)?;
    needs(seen.roles.len() == 128, Field::MaxDev)
}

fn mirrors(seen: &Super) -> bool
    ensures { result ≡ is_mirror seen.now }
{
    seen.level == 1
}

fn stripes_with_parity(seen: &Super) -> bool
    ensures { result ≡ is_raid5 seen.now }
{
    seen.level == 5
}

fn has_its_disks(seen: &Super) -> bool
    ensures { result ≡ has_disks seen.now }
{
    let most = if mirrors(seen) { 2 } else { 16 };
    2 <= seen.raid_disks && seen.raid_disks <= most
}

fn has_its_size(seen: &Super, extent: u32) -> bool
    requires { 0 < extent }
    ensures { result ≡ (is_height_of extent seen.now.size && (seen.now.size == seen.now.data_size)) }
{
    is_height(seen.size, extent) && seen.size == seen.data_size
}

/// Whether a member's size is that of one extent or more behind the head.
fn is_height(size: u64, extent: u32) -> bool
    requires { 0 < extent }
    ensures { result ≡ is_height_of extent size }
{
    size > HEAD_SECTORS && (size - HEAD_SECTORS) % u64::from(extent) == 0
}

fn needs(holds: bool, field: Field) -> Result<(), Unsupported>
    ensures { result ≡ (if holds then Ok tt else Err (record { field = field })) }
{
    if holds {
        Ok(())
    } else {
        Err(Unsupported { field })
    }
}
