//! The window of a disk.

ghost use Rattle.std.specs.Prelude.{◌≡◌, ◌⊎◌, ◌↔◌, ◌<◌, ◌≤◌, ◌+◌, ◌^◌, IsTrue, true, false, Some, None};

use crate::PLACES;

/// Which sectors a buffer has, from its first place on, and which of them the file may not have yet.
#[derive(Clone, Copy)]
pub struct Window {
    /// The sector in the first place.
    pub first: u64,
    /// How many sectors in a row the buffer has.
    pub count: u64,
    /// The first dirty place.
    pub dirty_from: u64,
    /// The place behind the last dirty one.
    pub dirty_to: u64,
    /// The sector behind the one that was read last. A write in between doesn't end a run of reads: so a sector that is read and written
    /// goes on to the next one.
    pub next: Option<u64>,
    /// The disk needs a sync: it was written since the last one, or was never synced.
    pub unsynced: bool,
    ghost ordered: { dirty_from ≤ dirty_to },
    ghost within: { dirty_to ≤ count },
    ghost few: { count ≤ 128 },
}

impl Window {
    ghost use Rattle.buffered_bay.specs.Buffered.{Takes, Marks};

    /// A window without sectors, of a disk that was never synced.
    pub fn new() -> Window
        ensures first { result.first ≡ 0 }
        ensures count { result.count ≡ 0 }
        ensures unsynced { result.unsynced ≡ true }
    {
        Window {
            first: 0,
            count: 0,
            dirty_from: 0,
            dirty_to: 0,
            next: None,
            unsynced: true,
        }
    }

    /// Whether the buffer has a sector.
    pub fn shows(&self, sector: u64) -> bool
        ensures shown { result ≡ true → (self.now.first ≤ sector) × (sector < self.now.first + self.now.count) }
        ensures other { result ≡ false → (sector < self.now.first) ⊎ (self.now.first + self.now.count ≤ sector) }
    {
        self.first <= sector && sector - self.first < self.count
    }

    /// Whether a sector's new value can go into the buffer, so that the dirty places stay in a row.
    pub fn takes(&self, sector: u64) -> bool
        ensures { result ≡ true → Takes self.now sector }
    {
        if sector < self.first {
            return false;
        }
        let place = sector - self.first;
        if place > self.count || place >= PLACES {
            return false;
        }
        self.dirty_from == self.dirty_to || (self.dirty_from <= place && place <= self.dirty_to)
    }

    /// Nothing is dirty any more.
    pub fn clean(&mut self)
        ensures first { self.new.first ≡ self.old.first }
        ensures count { self.new.count ≡ self.old.count }
        ensures clean { self.new.dirty_from ≡ self.new.dirty_to }
        ensures unsynced { self.new.unsynced ≡ self.old.unsynced }
    {
        self.dirty_from = 0;
        self.dirty_to = 0;
    }

    /// Begins anew at a sector, with no sectors yet.
    pub fn restart(&mut self, sector: u64)
        ensures first { self.new.first ≡ sector }
        ensures count { self.new.count ≡ 0 }
        ensures unsynced { self.new.unsynced ≡ self.old.unsynced }
    {
        self.first = sector;
        self.dirty_from = 0;
        self.dirty_to = 0;
        self.count = 0;
    }

    /// The buffer has so many sectors in a row, and no file lacks them.
    pub fn fill(&mut self, count: u64)
        requires empty { self.old.count ≡ 0 }
        requires few { count ≤ 128 }
        ensures first { self.new.first ≡ self.old.first }
        ensures count { self.new.count ≡ count }
        ensures clean { self.new.dirty_from ≡ self.new.dirty_to }
        ensures unsynced { self.new.unsynced ≡ self.old.unsynced }
    {
        self.count = count;
    }

    /// A place has a value that the file may not have.
    pub fn mark(&mut self, place: u64)
        requires behind { place ≤ self.old.count }
        requires place { place < 128 }
        requires joins { (self.old.dirty_from ≡ self.old.dirty_to) ⊎ ((self.old.dirty_from ≤ place) × (place ≤ self.old.dirty_to)) }
        ensures { Marks self.old self.new place }
    {
        self.count = self.count.max(place + 1);
        if self.dirty_from == self.dirty_to {
            self.dirty_from = place;
            self.dirty_to = place + 1;
        } else {
            self.dirty_to = self.dirty_to.max(place + 1);
        }
        self.unsynced = true;
    }
}
