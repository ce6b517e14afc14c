//! Slices of disks, as disks.
//!
//! A pool's drive has a place, and its sectors are cut into slices: slice 0 holds the log, slice
//! `i + 1` belongs to layer `i`. A [`SliceRack`] is the rack of all slices of sixteen places with
//! seventeen slices each: its disk `17 * place + slice` is that slice, and has no sectors where there
//! is none.
//!
//! **The model.** The tables say which disk each place has and which of its sectors each slice is
//! (specs/Slices.antt). They are orderly: a disk has one place at most, and slices of a place share
//! no sector. What the rack shows is a function of the tables and of what the rack below shows
//! (specs/Sliced.antt): sector `s` of a slice is the sector `first + s` of its disk, with its values,
//! its faults and what a stop leaves in it.
//!
//! **The contract.** It meets `Rack` over any rack, by that rack's contract alone. It is fit where the
//! slices lie inside their disks.
#![tactic(auto)]

ghost use Rattle.std.specs.Prelude.{◌≡◌, ◌≢◌, ◌<◌, ◌^◌, ◌==◌, if◌then◌else◌, ℕ, ◌+◌, ◌*◌, true, false, slice_get, IfSome, IfNone, OnOk, OnErr};
ghost use Rattle.std.specs.Option.{option_map_or};
ghost use Rattle.rack.specs.Calls.{Reads, Writes, Syncs};
ghost use Rattle.slice_rack.specs.Slices.{IsOrderly, seat_of, place_of, first_of, sectors_of, disk_of};
ghost use Rattle.slice_rack.specs.Sliced.{slices_of};
ghost use Rattle.slice_rack.specs.Changes.{IsEmpty, Seats, Adds, IsPast, IsWithin, Overlaps, IsFree};
ghost use Rattle.slice_rack.specs.Laws.{is_sound};
ghost use Rattle.slice_rack.specs.Runs.{Runs, runs_none, runs_join};

use rack::{Gone, Rack};

/// Why a slice can't be made. They are looked for in this order.
#[derive(Clone, Copy, Debug, PartialEq, Eq)]
pub enum SliceFault {
    /// The place has no disk.
    Unseated,
    /// The slice ends past the disk.
    Outside,
    /// It overlaps another slice of the place.
    Overlap,
}

/// A part of a disk, in sectors.
#[derive(Clone, Copy, Debug, PartialEq, Eq)]
struct Slice {
    first: u64,
    sectors: u64,
}

// Sixteen places without disks.
fn no_seats() -> [Option<u32>; 16]
    ensures { (place : ℕ) → option_map_or (λ seat. seat) (slice_get result place) None ≡ None }
{
    [None; 16]
}

// The slices of places without any.
fn no_slices() -> [Slice; 272]
    ensures { (d : ℕ) → option_map_or (λ slice. slice.sectors) (slice_get result d) 0 ≡ 0 }
{
    [Slice {
        first: 0,
        sectors: 0,
    }; 272]
}

// Gives a place a disk or none.
fn put_seat(seats: &mut [Option<u32>; 16], place: u32, seat: Option<u32>)
    requires { place < 16 }
    ensures { (p : ℕ) → option_map_or (λ seat. seat) (slice_get seats.new p) None
        ≡ (if p == place then seat else option_map_or (λ seat. seat) (slice_get seats.old p) None) }
{
    seats[place as usize] = seat;
}

// Puts a slice in.
fn put_slice(slices: &mut [Slice; 272], at: u32, slice: Slice)
    requires { at < 272 }
    ensures here { slice_get slices.new at ≡ Some slice }
    ensures others { (d : ℕ) → d ≢ at → slice_get slices.new d ≡ slice_get slices.old d }
{
    slices[at as usize] = slice;
}

// Whether sectors share one with a slice.
fn shares(slice: Slice, first: u64, sectors: u64) -> bool
    ensures shared { result ≡ true → (s : ℕ) × ((u : ℕ)
        × (s < sectors) × (u < slice.sectors) × (first + s ≡ slice.first + u)) }
    ensures apart { result ≡ false → (s u : ℕ)
        → s < sectors → u < slice.sectors → first + s ≡ slice.first + u → ⊥ }
{
    if first <= slice.first {
        slice.sectors > 0 && slice.first - first < sectors
    } else {
        sectors > 0 && first - slice.first < slice.sectors
    }
}

// Takes the slices of a place away.
fn clear_place(slices: &mut [Slice; 272], place: u32)
    requires { place < 16 }
    ensures cleared { (d : ℕ) → place_of d ≡ place
        → option_map_or (λ slice. slice.sectors) (slice_get slices.new d) 0 ≡ 0 }
    ensures others { (d : ℕ) → place_of d ≢ place → slice_get slices.new d ≡ slice_get slices.old d }
{
    for d in 0..272 {
        if d / 17 == place as usize {
            slices[d] = Slice {
                first: 0,
                sectors: 0,
            };
        }
    }
}

/// A rack of the slices of another rack's disks.
#[derive(Drop)]
pub struct SliceRack<R> {
    rack: R,
    seats: [Option<u32>; 16],
    slices: [Slice; 272],
    ghost orderly: { IsOrderly (record { seats = seats; slices = slices }) },
}

impl<R: Rack> Rack for SliceRack<R> {
    ghost use Rattle.slice_rack.specs.SliceRack.{tables};

    ghost seen = { λ rack. slices_of (tables rack) (R.seen rack.rack) };

    ghost runs = { λ old new. Runs (tables old) (tables new) (R.seen old.rack) (R.seen new.rack) (R.runs old.rack new.rack) };

    ghost once = { λ old new. Unit {0} };

    ghost unwritten = { λ old new. Unit {0} };

    fn disks(&self) -> u32 {
        272
    }

    fn sectors(&self, disk: u32) -> u64 {
        self.slice(disk).sectors
    }

    fn read(&mut self, disk: u32, sector: u64, into: &mut [u8; 512]) -> Result<(), Gone> {
        let below = self.disk_below(disk);
        let first = self.slice(disk).first;
        match self.rack.read(below, first + sector, into) {
            Ok(()) => Ok(()),
            Err(_) => Err(Gone { disk }),
        }
    }

    fn write(&mut self, disk: u32, sector: u64, from: &[u8; 512]) -> Result<(), Gone> {
        let below = self.disk_below(disk);
        let first = self.slice(disk).first;
        match self.rack.write(below, first + sector, from) {
            Ok(()) => Ok(()),
            Err(_) => Err(Gone { disk }),
        }
    }

    fn sync(&mut self, disk: u32) -> Result<(), Gone> {
        if self.slice(disk).sectors == 0 {
            return Ok(());
        }
        let below = self.disk_below(disk);
        match self.rack.sync(below) {
            Ok(()) => Ok(()),
            Err(_) => Err(Gone { disk }),
        }
    }

    ghost sound = { λ rack fit traced. is_sound (tables rack) (R.seen rack.rack) rack.orderly fit.1 (R.sound rack.rack fit.0 traced) };

    ghost runs_same = { λ rack. runs_none (tables rack) (R.seen rack.rack) (R.runs rack.rack rack.rack) (R.runs_same rack.rack) };

    ghost runs_then = { λ x y z one two. runs_join (tables x) (tables y) (tables z) (R.seen x.rack) (R.seen y.rack) (R.seen z.rack)
        (R.runs x.rack y.rack) (R.runs y.rack z.rack) (R.runs x.rack z.rack) one two (R.runs_then x.rack y.rack z.rack one.below two.below) };

    ghost unwritten_same = { λ x. tt };

    ghost unwritten_then = { λ x y z one two. tt };
}

impl<R: Rack> SliceRack<R> {
    ghost use Rattle.std.specs.Borrow.{sem, Lends};
    ghost use Rattle.slice_rack.specs.contracts.SliceRack.{the_row};
    ghost use Rattle.slice_rack.specs.SliceRack.{tables, below_of};

    /// The rack of no slices yet. The disks of `rack` have fewer than 2^48 sectors.
    pub fn new(rack: R) -> SliceRack<R>
        requires fit { (R.seen rack).fit }
        requires small { (d : ℕ) → d < (R.seen rack).disks → (R.seen rack).sectors d < 2 ^ 48 }
        ensures below { below_of result ≡ rack }
        ensures empty { IsEmpty (tables result) }
        ensures fit { (slices_of (tables result) (R.seen (below_of result))).fit }
    {
        SliceRack {
            rack,
            seats: no_seats(),
            slices: no_slices(),
        }
    }

    /// Gives a place a disk of the rack below, which has no other place, and takes its slices away.
    pub fn seat(&mut self, place: u32, disk: u32)
        requires place { place < 16 }
        requires disk { disk < (R.seen (below_of self.old)).disks }
        requires free { (p : ℕ) → seat_of (tables self.old) p ≡ Some disk → p ≡ place }
        ensures seated { Seats (tables self.old) (tables self.new) place (Some disk) }
        ensures below { below_of self.new ≡ below_of self.old }
        ensures fit { (slices_of (tables self.old) (R.seen (below_of self.old))).fit
            → (slices_of (tables self.new) (R.seen (below_of self.new))).fit }
    {
        clear_place(&mut self.slices, place);
        put_seat(&mut self.seats, place, Some(disk));
    }

    /// Takes a place's disk and slices away.
    pub fn unseat(&mut self, place: u32)
        requires place { place < 16 }
        ensures seated { Seats (tables self.old) (tables self.new) place None }
        ensures below { below_of self.new ≡ below_of self.old }
        ensures fit { (slices_of (tables self.old) (R.seen (below_of self.old))).fit
            → (slices_of (tables self.new) (R.seen (below_of self.new))).fit }
    {
        clear_place(&mut self.slices, place);
        put_seat(&mut self.seats, place, None);
    }

    /// Makes a slice of a place's disk, in place of what it was. The slice is disk
    /// `17 * place + slice`, and has the `sectors` sectors from `first` on.
    ///
    /// Refused where the place has no disk, else where the slice ends past the disk, else where it
    /// overlaps another slice of the place. A refusal changes nothing.
    pub fn add_slice(
        &mut self,
        place: u32,
        slice: u32,
        first: u64,
        sectors: u64,
    ) -> Result<(), SliceFault>
        requires place { place < 16 }
        requires slice { slice < 17 }
        requires fit { (slices_of (tables self.old) (R.seen (below_of self.old))).fit }

        // Each refusal has its cause, and an answer has none.
        ensures unseated { result ≡ Err SliceFault.Unseated → seat_of (tables self.old) place ≡ None }
        ensures outside { result ≡ Err SliceFault.Outside
            → IsPast (tables self.old) (R.seen (below_of self.old)) place first sectors }
        ensures overlap { result ≡ Err SliceFault.Overlap
            → IsWithin (tables self.old) (R.seen (below_of self.old)) place first sectors
            × Overlaps (tables self.old) (17 * place + slice) first sectors }
        ensures within { OnOk result
            (IsWithin (tables self.old) (R.seen (below_of self.old)) place first sectors) }
        ensures free { OnOk result (IsFree (tables self.old) (17 * place + slice) first sectors) }

        ensures added { OnOk result
            (Adds (tables self.old) (tables self.new) (17 * place + slice) first sectors) }
        ensures err { OnErr result (tables self.new ≡ tables self.old) }
        ensures below { below_of self.new ≡ below_of self.old }
        ensures fit { (slices_of (tables self.new) (R.seen (below_of self.new))).fit }
    {
        let Some(disk) = self.seat_at(place) else {
            return Err(SliceFault::Unseated);
        };
        let total = self.rack.sectors(disk);
        if sectors > total || first > total - sectors {
            return Err(SliceFault::Outside);
        }
        if self.overlaps(place, slice, first, sectors) {
            return Err(SliceFault::Overlap);
        }
        put_slice(
            &mut self.slices,
            17 * place + slice,
            Slice { first, sectors },
        );
        Ok(())
    }

    // The disk of a place.
    fn seat_at(&self, place: u32) -> Option<u32>
        requires { place < 16 }
        ensures { result ≡ seat_of (tables self.now) place }
    {
        self.seats[place as usize]
    }

    // Whether sectors of a place overlap another slice of it.
    fn overlaps(&self, place: u32, slice: u32, first: u64, sectors: u64) -> bool
        requires place { place < 16 }
        requires slice { slice < 17 }
        ensures found { result ≡ true → Overlaps (tables self.now) (17 * place + slice) first sectors }
        ensures free { result ≡ false → IsFree (tables self.now) (17 * place + slice) first sectors }
    {
        for other in 0..17 {
            if other != slice && shares(self.slice(17 * place + other), first, sectors) {
                return true;
            }
        }
        false
    }

    /// The place of a disk of the rack below.
    pub fn seated(&self, disk: u32) -> Option<u32>
        ensures found { IfSome result (λ place. seat_of (tables self.now) place ≡ Some disk) }
        ensures none { IfNone result ((place : ℕ) → seat_of (tables self.now) place ≢ Some disk) }
    {
        for place in 0..16 {
            if self.seats[place as usize] == Some(disk) {
                return Some(place);
            }
        }
        None
    }

    /// The rack below, lent. The tables stay as they are.
    pub fn inner(&mut self) -> &mut R
        ensures* writes_back { sem 𝓛 (
            Lends (the_row R.row) R.row self.entry result (λ w. record self.old { rack = w })) }
        ensures value { result.now ≡ below_of self.old }
    {
        &mut self.rack
    }

    /// The rack below, for reading alone.
    pub fn below(&self) -> &R
        ensures { result.now ≡ below_of self.now }
    {
        &self.rack
    }

    /// The rack below, as it is.
    pub fn into_inner(self) -> R
        ensures { result ≡ below_of self }
    {
        self.rack
    }

    // A slice; one without sectors isn't there.
    fn slice(&self, disk: u32) -> Slice
        requires { disk < 272 }
        ensures first { result.first ≡ first_of (tables self.now) disk }
        ensures sectors { result.sectors ≡ sectors_of (tables self.now) disk }
    {
        self.slices[disk as usize]
    }

    // The disk that a slice is on.
    fn disk_below(&self, disk: u32) -> u32
        requires { disk < 272 }
        ensures { result ≡ disk_of (tables self.now) disk }
    {
        self.seats[disk as usize / 17].unwrap_or(0)
    }
}
