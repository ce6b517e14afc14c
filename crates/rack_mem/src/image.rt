//! Images: what a stop at a moment leaves.

ghost use Rattle.std.specs.Prelude.{◌≡◌, ◌≤◌, ◌<◌, ◌+◌, ◌-◌, ◌^◌, ℕ, length, min, IfOk, slice_get, Some};
ghost use Rattle.rack.specs.Values.{all_of};
ghost use Rattle.rack_mem.specs.Memory.{values_of, number_of};
ghost use Rattle.rack_mem.specs.History.{after_effect};
ghost use Rattle.rack_mem.specs.Picked.{from_last, Takes, KeepsOthers, picked, picked_number, IsImage};

use crate::calls::{Call, Effect};
use crate::memory::MemBay;
use crate::table::{Sector, SectorTable};
use crate::{DiskSpec, Pick};
use rack::{Name, NoMemory};
use std::alloc::Global;

impl Pick {
    // The number of the value that is taken of a sector's, where `older` come before the last one.
    fn number(self, disk: u32, sector: u64, older: usize) -> usize
        requires { older < 2 ^ 64 - 1 }
        ensures number { result ≡ picked_number self disk sector older }
        ensures within { result ≤ older }
    {
        match self {
            Pick::Oldest => 0,
            Pick::Newest => older,
            Pick::Seeded { seed } => {
                let sum = seed.wrapping_add(31 * disk as u64).wrapping_add(sector);
                (sum % (older as u64 + 1)) as usize
            }
        }
    }
}

impl MemBay {
    ghost use Rattle.rack_mem.specs.MemBay.{memory};
    ghost use Rattle.rack_mem.specs.Table.{stored};

    // What a kept call did to the values of a sector.
    fn effect_at(&self, number: usize, disk: u32, sector: u64) -> Effect
        requires { number < length (memory self.now).calls }
        ensures { values_of (memory self.now) disk sector (number + 1)
            ≡ after_effect result (values_of (memory self.now) disk sector number) }
    {
        self.call(number).effect(disk, sector)
    }

    // How many values of a sector come before the current one after the first calls.
    fn older_count(&self, disk: u32, sector: u64, moment: usize) -> usize
        requires { moment ≤ length (memory self.now).calls }
        ensures count { result ≡ length (values_of (memory self.now) disk sector moment).older }
        ensures bounded { result ≤ moment }
    {
        let mut count = 0;
        let mut at = moment;
        while at > 0 {
            at -= 1;
            match self.effect_at(at, disk, sector) {
                Effect::Stay => {}
                Effect::Append { .. } => count += 1,
                Effect::Settle => return count,
            }
        }
        count
    }

    /// How many values a stop now may leave in a sector: those written since its disk's last sync, and the one before them. `u32::MAX`
    /// stands for that many or more.
    pub fn held_at(&self, disk: u32, sector: u64) -> u32
        ensures { result ≡ min (length (values_of (memory self.now) disk sector (length (memory self.now).calls)).older + 1) (2 ^ 32 - 1) }
    {
        let older = self.older_count(disk, sector, self.calls() as usize);
        (older as u64 + 1).min(u64::from(u32::MAX)) as u32
    }

    // The value of a sector after the first calls that comes so many before the current one.
    fn value_back(&self, disk: u32, sector: u64, moment: usize, back: usize) -> [u8; 512]
        requires moment { moment ≤ length (memory self.now).calls }
        requires back { back ≤ length (values_of (memory self.now) disk sector moment).older }
        ensures { from_last (values_of (memory self.now) disk sector moment) back ≡ Some result }
    {
        let mut back = back;
        let mut at = moment;
        while at > 0 {
            at -= 1;
            if let Effect::Append { value } = self.effect_at(at, disk, sector) {
                if back == 0 {
                    return value;
                }
                back -= 1;
            }
        }
        self.base_value(self.number(disk), sector)
    }

    // The value of a sector that a stop after the first calls leaves.
    fn picked_value(&self, disk: u32, sector: u64, moment: usize, pick: Pick) -> [u8; 512]
        requires { moment ≤ length (memory self.now).calls }
        ensures { result ≡ picked pick disk sector (values_of (memory self.now) disk sector moment) }
    {
        let older = self.older_count(disk, sector, moment);
        let back = older - pick.number(disk, sector, older);
        self.value_back(disk, sector, moment, back)
    }

    // The contents that a stop after the first calls leaves, by the number on the shelf.
    fn picked_base(&self, moment: usize, pick: Pick) -> Result<SectorTable<Sector>, NoMemory>
        requires { moment ≤ length (memory self.now).calls }
        ensures taken { IfOk result (λ image.
            Takes (memory self.now) moment pick (stored image)) }
        ensures others { IfOk result (λ image.
            KeepsOthers (memory self.now) (stored image)) }
    {
        let mut image = self.base().copy(moment)?;
        for number in 0..moment {
            if let Call::Write { disk, sector, .. } = self.call(number) {
                let bytes = self.picked_value(disk, sector, moment, pick);
                image.set(self.number(disk), sector, Sector { bytes });
            }
        }
        Ok(image)
    }

    /// A bay over the contents that a stop at this moment leaves, if each sector then takes the value
    /// that `pick` says. It has the same shelf and room, nothing is attached, and no call is to fail.
    pub fn image_at(&self, alloc: Global, moment: u64, pick: Pick) -> Result<MemBay, NoMemory>
        requires { moment ≤ length (memory self.now).calls }
        ensures { IfOk result (λ image.
            IsImage (memory self.now) moment pick (memory image)) }
    {
        let shelf = copy_shelf(alloc, self.shelf())?;
        let base = self.picked_base(moment as usize, pick)?;
        let mut image = MemBay::new(alloc, shelf, Vec::new(alloc), self.room())?;
        image.put_base(base);
        Ok(image)
    }
}

// A copy of a shelf.
fn copy_shelf(alloc: Global, shelf: &[DiskSpec]) -> Result<Vec<DiskSpec>, NoMemory>
    ensures { IfOk result (λ copy. copy.items ≡ shelf.now) }
{
    let mut copy = Vec::new(alloc);
    for disk in shelf {
        let name = Name::of(alloc, disk.name.bytes())?;
        let disk = DiskSpec {
            name,
            sectors: disk.sectors,
        };
        if copy.push(disk).is_err() {
            return Err(NoMemory);
        }
    }
    Ok(copy)
}
