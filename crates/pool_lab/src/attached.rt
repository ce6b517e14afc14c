//! A drive that a bay has attached.

ghost use Rattle.std.specs.Prelude.{◌<◌, ◌^◌};

use rack::Name;

/// A drive that is attached.
#[derive(Drop)]
pub struct Attached {
    /// The name that it was attached by.
    pub name: Name,
    /// Its number on the shelf.
    pub number: u32,
    /// Its sectors of 512 bytes.
    pub sectors: u64,
    /// How many calls it has refused; the count stands still at its last value.
    pub faults: u64,
    ghost bounded: { sectors < 2 ^ 48 },
    ghost counted: { faults < 2 ^ 64 },
}
