//! Sets of slices.

ghost use Rattle.std.specs.Prelude.{◌≡◌, ◌<◌, ◌==◌, ◌||◌, ℕ, false};
ghost use Rattle.commit_log.specs.Slices.{is_in};

/// Slices of all places.
pub(crate) const DISKS: u32 = 272;

/// A set of slices.
#[derive(Clone, Copy)]
pub(crate) struct Slices {
    flags: [bool; DISKS as usize],
}

impl Slices {
    /// The empty set.
    pub(crate) fn none() -> Slices
        ensures { (d : ℕ) → is_in result.flags d ≡ false }
    {
        Slices {
            flags: [false; DISKS as usize],
        }
    }

    /// Whether a slice is in the set.
    pub(crate) fn has(&self, slice: u32) -> bool
        requires { slice < 272 }
        ensures { result ≡ is_in self.now.flags slice }
    {
        self.flags[slice as usize]
    }

    /// Adds a slice, where there is one of this number.
    pub(crate) fn add(&mut self, slice: u32)
        ensures { (d : ℕ) → d < 272 → is_in self.new.flags d ≡ (is_in self.old.flags d || (slice == d)) }
    {
        if slice < DISKS {
            self.flags[slice as usize] = true;
        }
    }
}
