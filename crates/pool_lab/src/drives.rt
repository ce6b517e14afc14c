//! The drives of a case, and what they hold between runs.

ghost use Rattle.std.specs.Prelude.{◌≡◌, ◌<◌, ◌^◌, ⊤};

use rack::Name;
use std::alloc::{AllocError, Global};
use std::collections::HashMap;
use std::collections::hash_map::Iter;

/// A drive on the shelf of a case.
#[derive(Drop)]
pub struct Drive {
    /// The name by which runs attach it.
    pub name: Name,
    /// Its sectors.
    pub sectors: u64,
    ghost bounded: { sectors < 2 ^ 48 },
}

/// A sector of a drive, by the drive's number on the shelf.
#[derive(Clone, Copy, PartialEq, Eq, Hash)]
pub struct Place {
    /// The drive's number on the shelf.
    pub drive: u32,
    /// The number of the sector.
    pub sector: u64,
}

/// The bytes of a sector.
#[derive(Copy, PartialEq, Eq)]
pub struct Sector {
    /// All of them.
    pub bytes: [u8; 512],
}

impl Clone for Sector {
    ghost is_clone = { λ x y. y ≡ x };

    ghost is_infallible = { λ _. ⊤ };

    // Without this each byte would be cloned by itself.
    fn clone(&self) -> Result<Sector, AllocError> {
        Ok(*self)
    }
}

/// A sector of zeros.
pub const ZEROS: Sector = Sector { bytes: [0; 512] };

/// What all drives of a case hold.
#[derive(Drop)]
pub struct Contents {
    // Those sectors that aren't zeros.
    sectors: HashMap<Place, Sector>,
}

impl Contents {
    /// Drives of zeros.
    pub fn zeros(alloc: Global) -> Contents {
        Contents {
            sectors: HashMap::new(alloc),
        }
    }

    /// A sector's bytes.
    pub fn get(&self, place: Place) -> Sector {
        self.sectors.get(&place).copied().unwrap_or(ZEROS)
    }

    /// Gives a sector its bytes.
    pub fn set(&mut self, place: Place, sector: Sector) -> Result<(), AllocError> {
        if sector == ZEROS {
            let _ = self.sectors.remove(&place);
            return Ok(());
        }
        let _ = self.sectors.insert(place, sector)?;
        Ok(())
    }

    /// The sectors that aren't zeros.
    pub fn sectors(&self) -> Iter<'_, Place, Sector> {
        self.sectors.iter()
    }

    /// How many they are.
    pub fn count(&self) -> u64 {
        self.sectors.len() as u64
    }

    /// The same contents once more.
    pub fn copy(&self) -> Result<Contents, AllocError> {
        let sectors = self.sectors.clone()?;
        Ok(Contents { sectors })
    }

    /// Makes a drive's sectors from one on zeros.
    pub fn clear_from(&mut self, drive: u32, sector: u64) {
        self.sectors
            .retain(|place, _| place.drive != drive || place.sector < sector);
    }

    /// The same sectors for another drive as one has.
    pub fn copy_drive(&mut self, alloc: Global, from: u32, to: u32) -> Result<(), AllocError> {
        self.clear_from(to, 0);
        let mut sectors = Vec::new(alloc);
        for (place, sector) in self.sectors.iter() {
            if place.drive == from {
                sectors.push((place.sector, *sector))?;
            }
        }
        for (sector, value) in sectors.iter() {
            let place = Place {
                drive: to,
                sector: *sector,
            };
            self.set(place, *value)?;
        }
        Ok(())
    }
}
