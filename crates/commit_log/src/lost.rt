//! The places that have answered `Gone`.

ghost use Rattle.std.specs.Prelude.{◌≡◌, ◌<◌, ◌≤◌, ◌==◌, ◌||◌, ℕ, true, false, filter, find, IsTrue, ◌↔◌};
ghost use Rattle.std.specs.List.{range_with_len};
ghost use Rattle.log_laws.specs.Phases.{went};

use rack::Places;

/// The places whose disk has answered `Gone` in the call at work: they are called no more.
#[derive(Clone, Copy)]
pub(crate) struct Lost {
    places: [bool; 16],
}

impl Lost {
    /// No place has gone.
    pub(crate) fn none() -> Lost
        ensures { (p : ℕ) → went result.places p ≡ false }
    {
        Lost {
            places: [false; 16],
        }
    }

    /// Whether a place has gone.
    pub(crate) fn has(&self, place: u32) -> bool
        requires { place < 16 }
        ensures { result ≡ went self.now.places place }
    {
        self.places[place as usize]
    }

    /// A place has gone.
    pub(crate) fn mark(&mut self, place: u32)
        requires { place < 16 }
        ensures { (p : ℕ) → went self.new.places p ≡ ((p == place) || went self.old.places p) }
    {
        self.places[place as usize] = true;
    }

    /// Whether no place has gone.
    pub(crate) fn is_none(&self) -> bool
        ensures none { result ≡ true → (p : ℕ) → went self.now.places p ≡ false }
        ensures some { result ≡ false → (p : ℕ) × (went self.now.places p ≡ true) }
    {
        !self.places.contains(&true)
    }

    /// The lowest of them.
    pub(crate) fn first(&self) -> Option<u32>
        ensures { result ≡ find (went self.now.places) (range_with_len 0 16) }
    {
        let mut first = None;
        for place in (0..16u32).rev() {
            if self.has(place) {
                first = Some(place);
            }
        }
        first
    }

    /// The places that have gone, the lowest first.
    pub(crate) fn list(&self) -> Places
        ensures listed { result.items ≡ filter (went self.now.places) (range_with_len 0 16) }
        ensures beyond { (p : ℕ) → 16 ≤ p → went self.now.places p ≡ false }
    {
        let mut list = Places::new();
        for place in 0..16 {
            if self.has(place) {
                list.push(place);
            }
        }
        list
    }
}
