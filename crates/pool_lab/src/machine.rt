//! The drives during a run: what they hold now, the calls that changed them, and the calls that they refuse.

use crate::drives::{Contents, Drive, Place, Sector};
use std::cell::Cell;

/// What a call changed.
#[derive(Clone, Copy)]
pub enum Change {
    /// It gave a sector a value.
    Write {
        /// The number of the sector.
        sector: u64,
        /// The value.
        value: Sector,
    },
    /// It made the drive's values durable.
    Sync,
}

/// A call that changed something.
#[derive(Clone, Copy)]
pub struct Entry {
    /// The number of the call in its run, counted from 0.
    pub call: u64,
    /// The drive's number on the shelf.
    pub drive: u32,
    /// What it changed.
    pub change: Change,
}

/// From a call on, a drive answers no more.
#[derive(Clone, Copy)]
pub struct Death {
    /// The number of the first call that it doesn't answer.
    pub call: u64,
    /// The drive's number on the shelf.
    pub drive: u32,
}

/// The calls of a run that are refused.
#[derive(Drop)]
pub struct Refusals {
    /// The numbers of those that are refused once.
    pub once: Vec<u64>,
    /// The drives that die.
    pub deaths: Vec<Death>,
    /// A drive that refuses a call once refuses all that follow.
    pub lasting: bool,
}

impl Refusals {
    // Whether a call on a drive is refused.
    fn has(&self, call: u64, drive: u32) -> bool {
        self.once.contains(&call)
            || self
                .deaths
                .iter()
                .any(|death| death.drive == drive && death.call <= call)
    }
}

/// Drives in a run.
#[derive(Drop)]
pub struct Machine<'a> {
    /// The shelf.
    pub drives: &'a [Drive],
    /// What the drives hold now.
    pub contents: Contents,
    /// The calls that are refused.
    pub refusals: &'a Refusals,
    /// How many calls have been made.
    pub calls: &'a Cell<u64>,
    /// The calls that changed something.
    pub log: Vec<Entry>,
    /// The drives that have refused a call, where that lasts.
    pub dead: Vec<u32>,
}

impl<'a> Machine<'a> {
    // Counts a call on a drive, and gives its number unless it is refused.
    fn count(&mut self, drive: u32) -> Option<u64> {
        let call = self.calls.get();
        self.calls.set(call.saturating_add(1));
        if self.dead.contains(&drive) {
            return None;
        }
        if !self.refusals.has(call, drive) {
            return Some(call);
        }
        if self.refusals.lasting {
            let _ = self.dead.push(drive);
        }
        None
    }

    /// Reads a sector; none where the call is refused.
    pub fn read(&mut self, place: Place) -> Option<Sector> {
        self.count(place.drive)?;
        Some(self.contents.get(place))
    }

    /// Writes a sector; none where the call is refused.
    pub fn write(&mut self, place: Place, value: Sector) -> Option<()> {
        let call = self.count(place.drive)?;
        let entry = Entry {
            call,
            drive: place.drive,
            change: Change::Write {
                sector: place.sector,
                value,
            },
        };
        self.log.push(entry).ok()?;
        self.contents.set(place, value).ok()
    }

    /// Makes a drive's values durable; none where the call is refused.
    pub fn sync(&mut self, drive: u32) -> Option<()> {
        let call = self.count(drive)?;
        let entry = Entry {
            call,
            drive,
            change: Change::Sync,
        };
        self.log.push(entry).ok()
    }

    /// The number on the shelf of the drive of a name.
    pub fn find(&self, name: &[u8]) -> Option<u32> {
        find(self.drives, name)
    }
}

/// The number on the shelf of the drive of a name.
pub fn find(drives: &[Drive], name: &[u8]) -> Option<u32> {
    let number = drives.iter().position(|drive| drive.name.bytes() == name)?;
    u32::try_from(number).ok()
}
