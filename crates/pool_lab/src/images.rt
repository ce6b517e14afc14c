//! What a stop at a moment of a run leaves.
//!
//! Each sector has the values that were written to it since its drive's last sync, beside the one that it had then. A stop
//! leaves any of them, each sector by itself.

use crate::drives::{Contents, Place, Sector};
use crate::machine::{Change, Entry};
use rack_mem::Pick;
use std::alloc::{AllocError, Global};
use std::collections::HashMap;

// A value that isn't durable yet.
#[derive(Clone, Copy)]
struct Held {
    place: Place,
    value: Sector,
}

// How many values of a sector aren't durable, and how many of them have been passed.
#[derive(Clone, Copy)]
struct Tally {
    count: u64,
    passed: u64,
}

/// A run's drives at a moment.
#[derive(Drop)]
pub struct Moment<'a> {
    log: &'a [Entry],
    durable: Contents,
    // Oldest first.
    held: Vec<Held>,
}

impl<'a> Moment<'a> {
    /// The drives before the first call of a run.
    pub fn first(
        alloc: Global,
        before: &Contents,
        log: &'a [Entry],
    ) -> Result<Moment<'a>, AllocError> {
        Ok(Moment {
            log,
            durable: before.copy()?,
            held: Vec::new(alloc),
        })
    }

    /// Goes on to the moment after so many calls.
    pub fn advance(&mut self, calls: u64) -> Result<(), AllocError> {
        let log = self.log;
        let mut passed = 0usize;
        for entry in log.iter() {
            if entry.call >= calls {
                break;
            }
            passed = passed.saturating_add(1);
            match entry.change {
                Change::Write { sector, value } => {
                    let place = Place {
                        drive: entry.drive,
                        sector,
                    };
                    self.held.push(Held { place, value })?;
                }
                Change::Sync => self.settle(entry.drive)?,
            }
        }
        self.log = log.get(passed..).unwrap_or(&[]);
        Ok(())
    }

    // Makes the values of a drive durable.
    fn settle(&mut self, drive: u32) -> Result<(), AllocError> {
        for held in self.held.iter() {
            if held.place.drive == drive {
                self.durable.set(held.place, held.value)?;
            }
        }
        self.held.retain(|held| held.place.drive != drive);
        Ok(())
    }

    /// What a stop at this moment leaves under a pick.
    pub fn image(&self, alloc: Global, pick: Pick) -> Result<Contents, AllocError> {
        let mut image = self.durable.copy()?;
        match pick {
            Pick::Oldest => {}
            Pick::Newest => {
                for held in self.held.iter() {
                    image.set(held.place, held.value)?;
                }
            }
            Pick::Seeded { seed } => self.pick_each(alloc, seed, &mut image)?,
        }
        Ok(image)
    }

    // Gives each sector the value that a seed picks.
    fn pick_each(&self, alloc: Global, seed: u64, image: &mut Contents) -> Result<(), AllocError> {
        let mut tallies = self.tallies(alloc)?;
        for held in self.held.iter() {
            if let Some(tally) = tallies.get_mut(&held.place) {
                tally.passed = tally.passed.saturating_add(1);
                if tally.passed == picked(seed, held.place, tally.count) {
                    image.set(held.place, held.value)?;
                }
            }
        }
        Ok(())
    }

    // How many values of each sector aren't durable.
    fn tallies(&self, alloc: Global) -> Result<HashMap<Place, Tally>, AllocError> {
        let mut tallies = HashMap::new(alloc);
        for held in self.held.iter() {
            let none = Tally {
                count: 0,
                passed: 0,
            };
            let tally: &mut Tally = tallies.entry(held.place)?.or_insert(none);
            tally.count = tally.count.saturating_add(1);
        }
        Ok(tallies)
    }
}

// The number of the value that a seed picks of a sector's, where so many come after the durable one, which has number 0.
fn picked(seed: u64, place: Place, later: u64) -> u64 {
    let sum = seed
        .wrapping_add(u64::from(place.drive).wrapping_mul(31))
        .wrapping_add(place.sector);
    match later.checked_add(1) {
        Some(count) => sum % count,
        None => 0,
    }
}
