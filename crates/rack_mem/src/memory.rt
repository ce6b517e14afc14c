//! The bay.

ghost use Rattle.std.specs.Prelude.{◌≡◌, ◌⊎◌, ◌≤◌, ◌<◌, ◌+◌, ◌^◌, ◌↔◌, ℕ, [], ◌∷◌, ◌++◌, length, vec_len, vec_capacity, IsTrue, slice_get, refl, Contains, IfOk, OnOk, OnErr, IsErr, All, position};
ghost use Rattle.std.specs.Str.{bytes_eq};
ghost use Rattle.std.proofs.lemmas.List.{length-map};
ghost use Rattle.rack.specs.Seen.{Rose};
ghost use Rattle.rack.specs.Calls.{Reads, Writes, Syncs};
ghost use Rattle.rack_mem.specs.Table.{value_at, room_left, stored};
ghost use Rattle.rack_mem.specs.History.{IsIndex, IsOn, AreOn, value_of};
ghost use Rattle.rack_mem.specs.Zeros.{zeros};
ghost use Rattle.rack_mem.specs.Memory.{seen_of, shelf_of, sectors_of, name_of, number_of, first_named, names_of, AllDiffer, IsNew, IsTold, Fails, has_failed, values_of, IsRefused, Records, Faults, Refuses};

use crate::DiskSpec;
use crate::calls::Call;
use crate::table::{Sector, SectorTable};
use rack::{AttachFault, Bay, Gone, NoMemory, Rack};
use std::alloc::Global;

// An attached disk.
#[derive(Clone, Copy)]
struct Attached {
    // Its number on the shelf.
    number: u32,
    faults: u64,
    // Every later call on it fails.
    failed: bool,
}

/// A bay whose disks are in memory. It keeps its calls, so that it tells what a stop may leave.
#[derive(Drop)]
pub struct MemBay {
    shelf: Vec<DiskSpec>,
    // The contents before the first call that aren't zeros, by the number on the shelf.
    base: SectorTable<Sector>,
    attached: Vec<Attached>,
    calls: Vec<Call>,
    // The number of the last write of each sector, by the number of the attached disk.
    written: SectorTable<usize>,
    failing: Vec<u64>,
    room: usize,
    faults: u64,
    ghost few: { length attached.items < 2 ^ 32 },
    ghost few_on_shelf: { length shelf.items < 2 ^ 32 },
    ghost counted: { faults < 2 ^ 64 },
    ghost names_differ: { AllDiffer (names_of shelf.items attached.items) },
    ghost small: { (n : ℕ) → sectors_of shelf.items n < 2 ^ 48 },
    ghost room_for_calls: { (vec_len calls ≤ room) × (room ≤ vec_capacity calls) },
    ghost room_for_writes: { room ≤ room_left written + vec_len calls },
    ghost indexed: { IsIndex calls.items (value_at written) },
    ghost attached_first: { AreOn calls.items (length attached.items) },
}

impl MemBay {
    ghost use Rattle.rack_mem.specs.MemBay.{memory};

    /// A bay of these disks, all zeros and none attached, that keeps `room` calls. The calls whose
    /// numbers are in `failing` fail. Of two disks of one name the first can be attached.
    pub fn new(
        alloc: Global,
        shelf: Vec<DiskSpec>,
        failing: Vec<u64>,
        room: u64,
    ) -> Result<MemBay, NoMemory>
        requires disks { length shelf.items < 2 ^ 32 }
        requires sectors { All (λ disk. disk.sectors < 2 ^ 48) shelf.items }
        ensures new { IfOk result (λ bay. IsNew (memory bay) shelf.items failing.items room) }
        ensures told { IfOk result (λ bay. IsTold (memory bay)) }
    {
        let room = room as usize;
        let Ok(calls) = Vec::with_capacity(alloc, room) else {
            return Err(NoMemory);
        };
        Ok(MemBay {
            shelf,
            base: SectorTable::with_room(alloc, 0)?,
            attached: Vec::new(alloc),
            calls,
            written: SectorTable::with_room(alloc, room)?,
            failing,
            room,
            faults: 0,
        })
    }

    /// Makes every later call on an attached disk fail.
    pub fn fail_disk(&mut self, disk: u32)
        requires { disk < length (memory self.old).attached }
        ensures { Fails (memory self.old) (memory self.new) disk }
    {
        let attached = &mut self.attached[disk as usize];
        attached.failed = true;
    }

    /// The number of kept calls.
    pub fn calls(&self) -> u64
        ensures { result ≡ length (memory self.now).calls }
    {
        self.calls.len() as u64
    }

    // An attached disk.
    fn disk(&self, disk: u32) -> Option<Attached>
        ensures { result ≡ slice_get (memory self.now).attached disk }
    {
        self.attached.as_slice().get(disk as usize).copied()
    }

    // The number on the shelf of an attached disk.
    pub(crate) fn number(&self, disk: u32) -> u32
        ensures { result ≡ number_of (memory self.now).attached disk }
    {
        self.disk(disk).map_or(0, |attached| attached.number)
    }

    // Whether every call on a disk fails.
    fn has_failed(&self, disk: u32) -> bool
        ensures { result ≡ has_failed (memory self.now).attached disk }
    {
        self.disk(disk).map_or(false, |attached| attached.failed)
    }

    // Whether the next call is one of those that are to fail.
    fn is_to_fail(&self) -> bool
        ensures { IsTrue result ↔ Contains (memory self.now).failing (length (memory self.now).calls) }
    {
        is_listed(&self.failing, self.calls())
    }

    // Whether a call on this disk is refused.
    fn is_refused(&self, disk: u32) -> bool
        ensures { IsTrue result ↔ IsRefused (memory self.now) disk }
    {
        let is_full = self.calls.len() >= self.room;
        is_full || self.is_to_fail() || self.has_failed(disk)
    }

    // Keeps a call that writes nothing, for which there is room.
    fn keep(&mut self, call: Call)
        requires room { length (memory self.old).calls < (memory self.old).room }
        requires disk { IsOn call (length (memory self.old).attached) }
        requires quiet { value_of call ≡ None }
        ensures { Records (memory self.old) (memory self.new) call }
    {
        push_within(&mut self.calls, call);
    }

    // Keeps a write, for which there is room.
    fn keep_write(&mut self, disk: u32, sector: u64, value: [u8; 512])
        requires room { length (memory self.old).calls < (memory self.old).room }
        requires disk { disk < length (memory self.old).attached }
        ensures { Records (memory self.old) (memory self.new) (Call.Write disk sector value) }
    {
        let number = self.calls.len();
        self.written.set(disk, sector, number);
        let call = Call::Write {
            disk,
            sector,
            value,
        };
        push_within(&mut self.calls, call);
    }

    // Counts a fault of a disk.
    fn count_fault(&mut self, disk: u32)
        requires { disk < length (memory self.old).attached }
        ensures faulted { Faults (memory self.old) (memory self.new) disk }
        ensures calls { (memory self.new).calls ≡ (memory self.old).calls }
    {
        let attached = &mut self.attached[disk as usize];
        attached.faults = one_more(attached.faults);
    }

    // The attached disk of this name.
    fn disk_named(&self, name: &[u8]) -> Option<usize>
        ensures { result ≡ position
            (λ disk. bytes_eq (name_of (memory self.now).shelf disk.number) name.now)
            (memory self.now).attached }
    {
        let shelf = self.shelf.as_slice();
        self.attached
            .iter()
            .position(|disk| is_named(shelf, disk.number, name))
    }

    // Refuses a call, which is kept where there is room.
    fn refuse(&mut self, disk: u32) -> Gone
        requires { disk < length (memory self.old).attached }
        ensures gone { result.disk ≡ disk }
        ensures refused { Refuses (memory self.old) (memory self.new) disk }
    {
        if self.calls.len() < self.room {
            self.keep(Call::Quiet);
        }
        self.count_fault(disk);
        Gone { disk }
    }

    // The disks of the shelf.
    pub(crate) fn shelf(&self) -> &[DiskSpec]
        ensures shelf { result.now ≡ (memory self.now).shelf }
        ensures few { length result.now < 2 ^ 32 }
        ensures small { (n : ℕ) → sectors_of result.now n < 2 ^ 48 }
    {
        self.shelf.as_slice()
    }

    // The contents before the first call.
    pub(crate) fn base(&self) -> &SectorTable<Sector>
        ensures { stored result.now ≡ (memory self.now).contents }
    {
        &self.base
    }

    // Puts other contents under the first call.
    pub(crate) fn put_base(&mut self, base: SectorTable<Sector>)
        ensures { memory self.new ≡ record (memory self.old) { contents = stored base } }
    {
        self.base = base;
    }

    // How many calls are kept.
    pub(crate) fn room(&self) -> u64
        ensures { result ≡ (memory self.now).room }
    {
        self.room as u64
    }

    // A kept call.
    pub(crate) fn call(&self, number: usize) -> Call
        requires { number < length (memory self.now).calls }
        ensures { slice_get (memory self.now).calls number ≡ Some result }
    {
        self.calls[number]
    }

    /// The current value of a sector.
    pub fn sector_now(&self, disk: u32, sector: u64) -> [u8; 512]
        ensures { result ≡ (values_of (memory self.now) disk sector (length (memory self.now).calls)).current }
    {
        let number = self.written.get(disk, sector);
        let written = number.and_then(|number| self.calls.as_slice().get(number).copied());
        match written.and_then(Call::value) {
            Some(value) => value,
            None => self.base_value(self.number(disk), sector),
        }
    }

    // What a disk of the shelf held before the first call.
    pub(crate) fn base_value(&self, number: u32, sector: u64) -> [u8; 512]
        ensures { result ≡ (memory self.now).contents number sector }
    {
        match self.base.get(number, sector) {
            Some(value) => value.bytes,
            None => zero_sector(),
        }
    }
}

impl Rack for MemBay {
    ghost use Rattle.rack_mem.specs.MemBay.{memory};
    ghost use Rattle.rack_mem.specs.Laws.{is_sound};
    ghost use Rattle.rack.specs.Shelf.{KeepsShelf, keeps_shelf_same, keeps_shelf_then};

    ghost seen = { λ bay. seen_of (memory bay) };

    ghost runs = { λ old new. KeepsShelf (shelf_of (memory old)) (shelf_of (memory new)) };

    ghost once = { λ old new. Unit {0} };

    ghost unwritten = { λ old new. Unit {0} };

    fn disks(&self) -> u32 {
        self.attached.len() as u32
    }

    fn sectors(&self, disk: u32) -> u64 {
        sectors_on(&self.shelf, self.number(disk))
    }

    fn read(&mut self, disk: u32, sector: u64, into: &mut [u8; 512]) -> Result<(), Gone>
        requires { disk < length (memory self.old).attached }
        ensures call { Reads (seen_of (memory self.old)) (seen_of (memory self.new)) disk sector into.new result }
        ensures names { KeepsShelf (shelf_of (memory self.old)) (shelf_of (memory self.new)) }

        // Refused exactly where the room is full, the call is to fail or the disk has failed.
        ensures refused { IsErr result ↔ IsRefused (memory self.old) disk }
        ensures kept { OnOk result (Records (memory self.old) (memory self.new) Call.Quiet) }
        ensures gone { OnErr result (Refuses (memory self.old) (memory self.new) disk) }
    {
        if self.is_refused(disk) {
            return Err(self.refuse(disk));
        }
        *into = self.sector_now(disk, sector);
        self.keep(Call::Quiet);
        Ok(())
    }

    fn write(&mut self, disk: u32, sector: u64, from: &[u8; 512]) -> Result<(), Gone>
        requires { disk < length (memory self.old).attached }
        ensures call { Writes (seen_of (memory self.old)) (seen_of (memory self.new)) disk sector from.now result }
        ensures names { KeepsShelf (shelf_of (memory self.old)) (shelf_of (memory self.new)) }

        // Refused exactly where the room is full, the call is to fail or the disk has failed.
        ensures refused { IsErr result ↔ IsRefused (memory self.old) disk }
        ensures kept { OnOk result (Records (memory self.old) (memory self.new) (Call.Write disk sector from.now)) }
        ensures gone { OnErr result (Refuses (memory self.old) (memory self.new) disk) }
    {
        if self.is_refused(disk) {
            return Err(self.refuse(disk));
        }
        self.keep_write(disk, sector, *from);
        Ok(())
    }

    fn sync(&mut self, disk: u32) -> Result<(), Gone>
        requires { disk < length (memory self.old).attached }
        ensures call { Syncs (seen_of (memory self.old)) (seen_of (memory self.new)) disk result }
        ensures names { KeepsShelf (shelf_of (memory self.old)) (shelf_of (memory self.new)) }

        // Refused exactly where the room is full, the call is to fail or the disk has failed.
        ensures refused { IsErr result ↔ IsRefused (memory self.old) disk }
        ensures kept { OnOk result (Records (memory self.old) (memory self.new) (Call.Sync disk)) }
        ensures gone { OnErr result (Refuses (memory self.old) (memory self.new) disk) }
    {
        if self.is_refused(disk) {
            return Err(self.refuse(disk));
        }
        self.keep(Call::Sync { disk });
        Ok(())
    }

    ghost sound = { λ bay fit traced. is_sound (memory bay) };

    ghost runs_same = { λ bay. keeps_shelf_same (shelf_of (memory bay)) };

    ghost runs_then = { λ x y z. keeps_shelf_then (shelf_of (memory x)) (shelf_of (memory y)) (shelf_of (memory z)) };

    ghost unwritten_same = { λ x. tt };

    ghost unwritten_then = { λ x y z one two. tt };
}

impl Bay for MemBay {
    ghost use Rattle.rack_mem.specs.MemBay.{memory};

    ghost shelf = { λ bay. shelf_of (memory bay) };

    fn attach(&mut self, name: &str) -> Result<u32, AttachFault> {
        let name = name.as_bytes();
        if let Some(disk) = self.disk_named(name) {
            return Err(AttachFault::Twice { disk: disk as u32 });
        }
        let Some(number) = first_named(&self.shelf, name) else {
            self.faults = one_more(self.faults);
            return Err(AttachFault::Failed);
        };
        let disk = self.attached.len() as u32;
        if disk == u32::MAX {
            return Err(AttachFault::Memory);
        }
        if self.attached.reserve(1).is_err() {
            return Err(AttachFault::Memory);
        }
        let attached = Attached {
            number: number as u32,
            faults: 0,
            failed: false,
        };
        push_within(&mut self.attached, attached);
        Ok(disk)
    }

    ghost always_fit = { λ bay. tt };

    ghost unspent = { λ bay d s. refl };

    ghost lasting = { λ bay. tt };

    ghost bounded = { λ bay d below. bay.small (number_of bay.attached.items d) };

    ghost frame = { λ old new. Unit {0} };

    ghost runs_shelf = { λ x y runs. runs };

    ghost runs_frame = { λ x y runs. tt };

    ghost frame_same = { λ x. tt };

    ghost frame_then = { λ x y z one two. tt };

    ghost numbered = { λ bay. length-map bay.attached.items (λ disk. name_of bay.shelf.items disk.number) };
}

// A sector that was never written.
fn zero_sector() -> [u8; 512]
    ensures { result ≡ zeros }
{
    [0; 512]
}

// One fault more; the count stands still at its last value.
fn one_more(faults: u64) -> u64
    ensures later { faults ≤ result }
    ensures rose { Rose faults result }
{
    faults.saturating_add(1)
}

// Whether a number is one of a list.
fn is_listed(numbers: &[u64], number: u64) -> bool
    ensures { IsTrue result ↔ Contains numbers.now number }
{
    numbers.contains(&number)
}

// Adds an item, for which there is room.
fn push_within<T: Copy>(items: &mut Vec<T>, item: T)
    requires { vec_len items.old < vec_capacity items.old }
    ensures items { items.new.items ≡ items.old.items ++ item ∷ [] }
    ensures capacity { vec_capacity items.old ≤ vec_capacity items.new }
{
    items.push(item).unwrap();
}

// The sectors of a disk on the shelf.
fn sectors_on(shelf: &[DiskSpec], number: u32) -> u64
    ensures { result ≡ sectors_of shelf.now number }
{
    shelf.get(number as usize).map_or(0, |disk| disk.sectors)
}

// Whether a disk on the shelf has this name.
fn is_named(shelf: &[DiskSpec], number: u32, name: &[u8]) -> bool
    ensures { result ≡ bytes_eq (name_of shelf.now number) name.now }
{
    match shelf.get(number as usize) {
        Some(disk) => disk.name.bytes() == name,
        None => name.is_empty(),
    }
}

// The first disk on the shelf that has this name.
fn first_named(shelf: &[DiskSpec], name: &[u8]) -> Option<usize>
    ensures { result ≡ first_named shelf.now name.now }
{
    shelf.iter().position(|disk| disk.name.bytes() == name)
}
