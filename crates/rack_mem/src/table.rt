//! A table of values by disk and sector, in room that is taken beforehand.

ghost use Rattle.std.specs.Prelude.{◌≡◌, ◌≤◌, ◌<◌, ◌+◌, ◌==◌, ◌&&◌, if◌then◌else◌, ℕ, None, Some, IfOk, IsOk, OnOk};

use rack::NoMemory;
use std::alloc::Global;
use std::collections::HashMap;

// A sector of a disk.
#[derive(Clone, Copy, PartialEq, Eq, Hash)]
struct Place {
    disk: u32,
    sector: u64,
}

/// The bytes of a sector.
#[derive(Clone, Copy)]
pub struct Sector {
    pub bytes: [u8; 512],
}

/// At most one value for each sector of each disk. A look-up takes constant time on average.
#[derive(Drop)]
pub struct SectorTable<V> {
    entries: HashMap<Place, V>,
}

impl<V: Copy> SectorTable<V> {
    ghost use Rattle.rack_mem.specs.Table.{value_at, room_left};

    /// An empty table with room for `room` values.
    pub fn with_room(alloc: Global, room: usize) -> Result<SectorTable<V>, NoMemory>
        ensures empty { IfOk result (λ table. (disk sector : ℕ) → value_at table disk sector ≡ None) }
        ensures spare { IfOk result (λ table. room ≤ room_left table) }
    {
        match HashMap::with_capacity(alloc, room) {
            Ok(entries) => Ok(SectorTable { entries }),
            Err(_) => Err(NoMemory),
        }
    }

    /// The value of a sector.
    pub fn get(&self, disk: u32, sector: u64) -> Option<V>
        ensures { result ≡ value_at self.now disk sector }
    {
        self.entries.get(&Place { disk, sector }).copied()
    }

    /// Gives a sector a value, for which there is room.
    pub fn set(&mut self, disk: u32, sector: u64, value: V)
        requires { 0 < room_left self.old }
        ensures set { (d s : ℕ) → value_at self.new d s
            ≡ (if (d == disk) && (s == sector) then Some value else value_at self.old d s) }
        ensures room { room_left self.old ≤ room_left self.new + 1 }
    {
        let put: Result<_, _> = self.entries.insert(Place { disk, sector }, value);
        put.unwrap();
    }
}

impl SectorTable<Sector> {
    ghost use Rattle.rack_mem.specs.Table.{value_at, room_left};

    /// A copy with room for `more` values beside its own.
    pub fn copy(&self, more: usize) -> Result<SectorTable<Sector>, NoMemory>
        ensures same { IfOk result (λ table. (disk sector : ℕ) →
            value_at table disk sector ≡ value_at self.now disk sector) }
        ensures room { IfOk result (λ table. more ≤ room_left table) }
    {
        let Ok(mut entries) = self.entries.clone() else {
            return Err(NoMemory);
        };
        if entries.reserve(more).is_err() {
            return Err(NoMemory);
        }
        Ok(SectorTable { entries })
    }
}
