ghost use Rattle.std.specs.Prelude.{◌≡◌, ◌<◌};
ghost use Rattle.shr_base.specs.Units.{units_of};

/// Sectors of a drive that hold no unit: 10240 before the first layer, 4096 in front of each of 16
/// layers, and 2048 at the end.
pub const RESERVED_SECTORS: u64 = 77824;

/// The units of a drive of `sectors` sectors: the whole extents of `extent` sectors that fit past
/// the reserve, 0 where the drive is smaller than the reserve.
pub fn units(sectors: u64, extent: u32) -> u64
    requires { 0 < extent }
    ensures { result ≡ units_of sectors extent }
{
    sectors.saturating_sub(RESERVED_SECTORS) / u64::from(extent)
}
