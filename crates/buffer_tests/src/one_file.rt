//! One file in memory.

ghost use Rattle.std.specs.Prelude.{◌≡◌, ◌⊎◌, ◌<◌, ◌≤◌, ◌+◌, ◌^◌, ℕ, List, Option, None, length, true, IfOk};
ghost use Rattle.rack.specs.Seen.{Rose};
ghost use Rattle.buffer_tests.specs.OneFile.{at, Copies};

use buffered_bay::{FileStore, PLACES};
use rack::{AttachFault, Gone, Name, NoMemory};
use std::alloc::{AllocError, Global};

type Sectors = Vec<[u8; 512]>;

/// At most one file, which takes any name. Of its calls that load, store, sync or read the one of a number fails.
#[derive(Drop)]
pub(crate) struct OneFile {
    alloc: Global,
    name: Option<Name>,
    sectors: u64,
    // What it had at its last sync.
    durable: Sectors,
    // What it has.
    stored: Sectors,
    // What was put last for each sector.
    current: Sectors,
    buffer: Sectors,
    faults: u64,
    calls: u64,
    failing: u64,
    ghost bounded: { sectors < 2 ^ 48 },
    ghost counted: { faults < 2 ^ 64 },
    ghost durable_sized: { length durable.items ≡ sectors },
    ghost stored_sized: { length stored.items ≡ sectors },
    ghost current_sized: { length current.items ≡ sectors },
    ghost places: { length buffer.items ≡ 128 },
}

// So many sectors of zeros.
fn zeros(alloc: Global, count: usize) -> Result<Sectors, AllocError>
    ensures { IfOk result (λ sectors. length sectors.items ≡ count) }
{
    vec![in alloc; [0; 512]; count]
}

// Copies sectors in a row.
fn copy(from: &[[u8; 512]], first: u64, into: &mut [[u8; 512]], place: u64, count: u64)
    requires source { first + count ≤ length from.now }
    requires target { place + count ≤ length into.old }
    ensures { Copies from.now first into.old into.new place count }
{
    for step in 0..count {
        into[(place + step) as usize] = from[(first + step) as usize];
    }
}

impl OneFile {
    /// A file of so many zeros that isn't attached, and the number of the call that fails.
    pub(crate) fn new(alloc: Global, sectors: u32, failing: u64) -> Result<OneFile, AllocError>
        ensures { IfOk result (λ file. file.name ≡ None) }
    {
        Ok(OneFile {
            alloc,
            name: None,
            sectors: u64::from(sectors),
            durable: zeros(alloc, sectors as usize)?,
            stored: zeros(alloc, sectors as usize)?,
            current: zeros(alloc, sectors as usize)?,
            buffer: zeros(alloc, PLACES as usize)?,
            faults: 0,
            calls: 0,
            failing,
        })
    }

    /// How many calls were made that load, store, sync or read.
    pub(crate) fn calls(&self) -> u64 {
        self.calls
    }

    /// How many of them were refused.
    pub(crate) fn faults(&self) -> u64 {
        self.faults
    }

    /// What a sector had at the last sync.
    pub(crate) fn durable(&self, sector: u64) -> Option<[u8; 512]> {
        self.durable.as_slice().get(sector as usize).copied()
    }

    // Counts a call, and its fault where it is the one that fails.
    fn is_refused(&mut self) -> bool
        ensures name { self.new.name ≡ self.old.name }
        ensures sectors { self.new.sectors ≡ self.old.sectors }
        ensures durable { self.new.durable.items ≡ self.old.durable.items }
        ensures stored { self.new.stored.items ≡ self.old.stored.items }
        ensures current { self.new.current.items ≡ self.old.current.items }
        ensures buffer { self.new.buffer.items ≡ self.old.buffer.items }
        ensures grows { self.old.faults ≤ self.new.faults }
        ensures rose { result ≡ true → Rose self.old.faults self.new.faults }
    {
        let number = self.calls;
        self.calls = number.saturating_add(1);
        if number != self.failing {
            return false;
        }
        self.faults = self.faults.saturating_add(1);
        true
    }
}

impl FileStore for OneFile {
    ghost use Rattle.buffer_tests.specs.OneFile.{view_of, shelf_of};
    ghost use Rattle.buffer_tests.specs.OneFileLaws.{is_plain, left_stored};
    ghost use Rattle.std.specs.Prelude.{refl};

    ghost view = { λ f. view_of f.name f.sectors (record { durable = f.durable.items; stored = f.stored.items; current = f.current.items }) f.buffer.items f.faults };

    ghost shelf = { λ f. shelf_of f.name };

    ghost tells = { Unit {0} };

    fn disks(&self) -> u32 {
        if self.name.is_some() { 1 } else { 0 }
    }

    fn sectors(&self, _disk: u32) -> u64 {
        self.sectors
    }

    fn named(&self, name: &str) -> Option<u32> {
        match &self.name {
            Some(own) => {
                if own.bytes() == name.as_bytes() {
                    Some(0)
                } else {
                    None
                }
            }
            None => None,
        }
    }

    fn attach(&mut self, name: &str) -> Result<u32, AttachFault> {
        if self.name.is_some() {
            return Err(AttachFault::Memory);
        }
        let Ok(name) = Name::of(self.alloc, name.as_bytes()) else {
            return Err(AttachFault::Memory);
        };
        self.name = Some(name);
        // It has refused no call yet, and nothing was put into it.
        self.faults = 0;
        self.durable.as_mut_slice().copy_from_slice(&self.stored);
        self.current.as_mut_slice().copy_from_slice(&self.stored);
        Ok(0)
    }

    fn get(&self, _disk: u32, place: u64, into: &mut [u8; 512]) {
        *into = self.buffer[place as usize];
    }

    fn put(&mut self, _disk: u32, sector: u64, place: u64, from: &[u8; 512]) -> Result<(), Gone> {
        self.buffer[place as usize] = *from;
        self.current[sector as usize] = *from;
        Ok(())
    }

    fn read(&mut self, disk: u32, sector: u64, into: &mut [u8; 512]) -> Result<(), Gone> {
        if self.is_refused() {
            return Err(Gone { disk });
        }
        *into = self.stored[sector as usize];
        Ok(())
    }

    fn load(&mut self, disk: u32, sector: u64, count: u64) -> Result<(), Gone> {
        if self.is_refused() {
            return Err(Gone { disk });
        }
        copy(&self.stored, sector, &mut self.buffer, 0, count);
        Ok(())
    }

    fn store(&mut self, disk: u32, sector: u64, place: u64, count: u64) -> Result<(), Gone> {
        if self.is_refused() {
            // The first half got there.
            copy(&self.buffer, place, &mut self.stored, sector, count / 2);
            return Err(Gone { disk });
        }
        copy(&self.buffer, place, &mut self.stored, sector, count);
        Ok(())
    }

    fn sync(&mut self, disk: u32) -> Result<(), Gone> {
        if self.is_refused() {
            return Err(Gone { disk });
        }
        self.durable.as_mut_slice().copy_from_slice(&self.stored);
        Ok(())
    }

    ghost plain = { λ f. is_plain f.name f.sectors _ f.faults f.bounded };

    ghost sound = { λ f traced. absurd traced };

    ghost left = { λ f d s live. left_stored _ s };

    ghost numbered = { λ f. refl };
}
