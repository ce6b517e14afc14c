//! A young array: it is made, its rows are zeroed, and it gets ready for the volume.

ghost use Rattle.std.specs.Prelude.{◌≡◌, ◌≢◌, ◌⊎◌, ◌<◌, ◌≤◌, false, ◌+◌, ◌*◌, ◌^◌, ◌||◌, not, nat_le, count_by, ℕ, All, true, is_ok, length, IfErr};
ghost use Rattle.array_image.specs.SoundArray.{first_unsynced};
ghost use Rattle.array_core.specs.Seats.{names};
ghost use Rattle.array_image.specs.Places.{member_slice};
ghost use Rattle.array_image.specs.States.{is_current};
ghost use Rattle.pool_state.specs.Valid.{is_extent};
ghost use Rattle.array_model.specs.View.{IsArray, View, rows_of};
ghost use Rattle.sync_laws.specs.Rows.{lacks_two};
ghost use Rattle.pool_state.specs.declared.contents.Work.TheVariants.{Zero, Ready, Make};
ghost use Rattle.raid_laws.specs.Moves.{IsHeeded, RaisesBy};
ghost use Rattle.growth_laws.specs.Growing as spec;
ghost use Rattle.growth_laws.specs.Growing.{AnyValues, Grows, GrowsBy, Lacks, MakesTurn, ZeroesNext};
ghost use Rattle.transition_laws.specs.Changes.{makes, readied};
ghost use Rattle.transition_laws.specs.Making.{FitsMake};
ghost use Rattle.transition_laws.specs.Readying.{FitsReady};
ghost use Rattle.growth_laws.specs.NewArrays as new;
ghost use Rattle.raid_laws.specs.NewDrive.{first_in};
ghost use Rattle.raid_rack.specs.RaidRack.{IsRunning, raid_by};

use crate::arrays::{Arrays, RaidRack};
use crate::disks::note_written;
use crate::growing::{MOST_SECTORS, drive_id};
use crate::losses::{add_copies, note_gone};
use crate::marks::{current_places, push_unless, raised};
use crate::new_drive::{BACKUP_SECTORS, DATA_SECTOR, RAID_KIND, entry_of, first_in};
use crate::works::{CHUNK_SECTORS, Stuck, answered};
use array_core::{Array, Found};
use array_sync::zero_rows;
use arrayvec::ArrayVec;
use gpt_table::{TableFault, change_entry, read_table};
use new_array::new_super;
use pool_state::{Drive, State};
use rack::{Places, Rack};

/// Whether two members lack a row: they are missing, or not rebuilt past it.
fn lacks_two_in(array: &Array, row: u64) -> bool
    requires { row < rows_of array.now }
    ensures { result ≡ lacks_two array.now row }
{
    array.rules();
    array.wanting(row * CHUNK_SECTORS + (CHUNK_SECTORS - 1)) > 1
}

/// The first row of a young array that is left to zero, and the number of rows where none is.
fn first_unzeroed(array: &Array) -> u64
    ensures { result ≡ first_unsynced array.now.truth }
{
    let truth = array.truth();
    if truth.resync_offset < truth.size {
        truth.resync_offset / CHUNK_SECTORS
    } else {
        truth.size / CHUNK_SECTORS
    }
}

/// The height of an array's layer, in extents.
fn height_of(array: &Array, extent: u32) -> u64
    requires { 0 < extent }
    ensures { result ≡ new.height_of extent array.now }
{
    array.truth().size.saturating_sub(DATA_SECTOR) / u64::from(extent)
}

/// Whether a drive is as large as a layer of so many extents above a level, whether it is missing or not.
fn reaches(drive: &Drive, level: u64, height: u64) -> bool
    ensures { result ≡ nat_le (level + height) drive.now.units }
{
    height <= drive.units && level <= drive.units - height
}

/// Whether the drive of a place isn't missing.
fn is_current(state: &State, place: u32) -> bool
    ensures { result ≡ is_current state.now place }
{
    match state.drives.get(place as usize) {
        Some(drive) => !drive.missing,
        None => false,
    }
}

/// How many of these places are missing.
fn missing_among(state: &State, places: &Places) -> usize
    ensures { result ≡ count_by (λ place. not (is_current state.now place)) places.now.items }
{
    places
        .iter()
        .filter(|place| !is_current(state, **place))
        .count()
}

/// What is found of a new array on a place: its superblock, unless the place is missing.
fn found_on(state: &State, members: &Places, place: u32, size: u64, seconds: u64) -> Found
    requires listed { place < length state.now.drives.items }
    requires made { state.now.made < 16 }
    ensures { result ≡ new.found_on state.now members.now.items size seconds place }
{
    let drive = &state.drives[place as usize];
    let seen = if drive.missing {
        None
    } else {
        Some(new_super(
            &state.pool,
            &drive.id,
            members.as_slice(),
            state.made,
            place,
            size,
            0,
            seconds,
        ))
    };
    Found { place, seen }
}

/// What is found of it on all places of its members.
fn found_for(state: &State, members: &Places, size: u64, seconds: u64) -> ArrayVec<Found, 16>
    requires listed { All (λ (p : ℕ). p < length state.now.drives.items) members.now.items }
    requires made { state.now.made < 16 }
    ensures { result.items ≡ new.found_for state.now members.now.items size seconds }
{
    let mut found = ArrayVec::new();
    for place in members.as_slice() {
        found.push(found_on(state, members, *place, size, seconds));
    }
    found
}

impl Arrays {
    /// Whether a young array has a row left to zero.
    fn may_zero(&self, number: u32) -> bool
        requires count { length self.now.all.items ≡ self.now.state.made }
        ensures { result ≡ spec.is_due (raid_by self.now) (Zero number) }
    {
        if number >= self.state.made {
            return false;
        }
        let array = &self.all[number as usize];
        array.is_young() && first_unzeroed(array) < array.rows()
    }

    /// Whether the young array is zeroed, and may become the volume's.
    fn may_get_ready(&self, number: u32) -> bool
        requires count { length self.now.all.items ≡ self.now.state.made }
        ensures { result ≡ spec.is_due (raid_by self.now) (Ready number) }
    {
        let made = self.state.made;
        if number >= made || number != self.state.joined || number + 1 != made {
            return false;
        }
        let array = &self.all[number as usize];
        array.is_young() && first_unzeroed(array) >= array.rows()
    }

    /// Whether rows of a young array can't be zeroed from this one on: nobody is left, numbers are used up, or two members lack it.
    fn lacks_from(&self, number: u32, row: u64) -> bool
        requires count { length self.now.all.items ≡ self.now.state.made }
        requires few { length self.now.state.drives.items ≤ 16 }
        requires heeded { IsHeeded (raid_by self.now) }
        requires number { number < self.now.state.made }
        requires row { row < rows_of ((raid_by self.now).arrays number) }
        ensures { result ≡ (spec.is_ended (raid_by self.now) || lacks_two ((raid_by self.now).arrays number) row) }
    {
        self.is_ended() || lacks_two_in(&self.all[number as usize], row)
    }

    /// Zeroes the next rows of a young array, by one commit, and answers how many: at most so many, and at least one. Whoever goes is marked. It
    /// is refused exactly where two members lack the first of them after that, nobody is left or numbers are used up.
    fn zero_array<S: Rack>(&mut self, rack: &mut S, number: u32, most: u64) -> Result<u64, Stuck>
        requires running { IsRunning self.old (S.seen rack.old) }
        requires heeded { IsHeeded (raid_by self.old) }
        requires due { spec.is_due (raid_by self.old) (Zero number) ≡ true }
        requires some { 0 < most }
        ensures grows { ZeroesNext number most (raid_by self.old) (raid_by self.new) (S.seen rack.old) (S.seen rack.new) result }
        ensures named { IfErr result (λ e. e.array ≡ number) }
        ensures raises { RaisesBy 18 (raid_by self.old) (raid_by self.new) }
        ensures running { IsRunning self.new (S.seen rack.new) }
        ensures runs { S.runs rack.old rack.new }
    {
        let on = current_places(&self.state);
        let unzeroed = first_unzeroed(&self.all[number as usize]);
        self.log.clear();
        let array = &mut self.all[number as usize];
        let zeroed = zero_rows(array, rack, &mut self.log, &on, most);
        let _places = array.went();
        self.mend(rack);
        answered(zeroed, self.lacks_from(number, unzeroed), number)
    }

    /// Gives a young array that is zeroed to the volume, by one commit of the state. Whoever goes is marked. Its zeros are durable: each was
    /// written by a commit.
    fn ready_array<S: Rack>(&mut self, rack: &mut S, number: u32)
        requires running { IsRunning self.old (S.seen rack.old) }
        requires heeded { IsHeeded (raid_by self.old) }
        requires due { spec.is_due (raid_by self.old) (Ready number) ≡ true }
        requires some { spec.lacks (raid_by self.old) number ≡ false }
        ensures grows { Grows (Ready number) (Lacks (Ready number)) (raid_by self.old) (raid_by self.new) (S.seen rack.old) (S.seen rack.new) true }
        ensures contents { FitsReady (raid_by self.old) number (S.seen rack.old) → MakesTurn readied true AnyValues (raid_by self.old) (raid_by self.new) (S.seen rack.old) (S.seen rack.new) }
        ensures raises { RaisesBy 18 (raid_by self.old) (raid_by self.new) }
        ensures running { IsRunning self.new (S.seen rack.new) }
        ensures runs { S.runs rack.old rack.new }
    {
        self.all[number as usize].ready();
        self.state.joined += 1;
        self.state.epoch = raised(self.state.epoch);
        self.log.clear();
        self.commit_state(rack);
        self.mend(rack);
    }
}

impl Arrays {
    ghost use Rattle.rack.specs.Seen.{SameRack};
    ghost use Rattle.rack.specs.Targets.{Target};
    ghost use Rattle.array_image.specs.Record.{are_apart};
    ghost use Rattle.array_model.specs.Stages.{AmongTargets};
    ghost use Rattle.log_laws.specs.View.{most_sectors};
    ghost use Rattle.raid_laws.specs.Moves.{AreCaused};
    ghost use Rattle.raid_laws.specs.Settling.{IsSuperOf};
    ghost use Rattle.growth_laws.specs.Losses.{LosesBook};
    ghost use Rattle.growth_laws.specs.Stating.{CommitsState};

    /// Where the layers of all arrays end, in extents of a drive.
    fn top(&self) -> u64
        requires count { length self.now.all.items ≡ self.now.state.made }
        requires few { self.now.state.made ≤ 16 }
        requires extent { 0 < self.now.state.extent }
        requires arrays { (n : ℕ) → n < self.now.state.made → IsArray ((raid_by self.now).arrays n) }
        ensures { result ≡ new.top_of (raid_by self.now) }
    {
        let mut top = 0;
        for number in 0..self.all.len() {
            top += height_of(&self.all[number], self.state.extent);
        }
        top
    }

    /// The places that reach a layer of so many extents above all arrays, missing ones too, in their order.
    fn reaching(&self, height: u64) -> Places
        requires count { length self.now.all.items ≡ self.now.state.made }
        requires few { self.now.state.made ≤ 16 }
        requires extent { 0 < self.now.state.extent }
        requires arrays { (n : ℕ) → n < self.now.state.made → IsArray ((raid_by self.now).arrays n) }
        ensures { result.items ≡ new.reaching (raid_by self.now) height }
    {
        let top = self.top();
        let mut places = Places::new();
        for place in 0..self.state.drives.len() {
            let drive = &self.state.drives[place];
            push_unless(&mut places, place as u32, !reaches(drive, top, height));
        }
        places
    }

    /// Whether the slices of a new array's members end on a drive.
    fn has_room_for(&self, height: u64) -> bool
        requires count { length self.now.all.items ≡ self.now.state.made }
        requires few { self.now.state.made ≤ 16 }
        requires extent { is_extent self.now.state.extent ≡ true }
        requires arrays { (n : ℕ) → n < self.now.state.made → IsArray ((raid_by self.now).arrays n) }
        ensures { result ≡ nat_le (first_in (new.views_of (raid_by self.now)) self.now.state.made + new.new_size (raid_by self.now) height + 2048 + 33) (2 ^ 48) }
    {
        let extent = u64::from(self.state.extent);
        if height > MOST_SECTORS / extent {
            return false;
        }
        let first = first_in(self.all.as_slice(), self.all.len());
        first + height * extent + 2 * DATA_SECTOR + BACKUP_SECTORS <= MOST_SECTORS
    }

    /// Whether an array of this number and height may be made.
    fn may_make(&self, number: u32, height: u64) -> bool
        requires count { length self.now.all.items ≡ self.now.state.made }
        requires few { self.now.state.made ≤ 16 }
        // Of a state that lists no drive nothing is known.
        requires extent { 0 < length self.now.state.drives.items → is_extent self.now.state.extent ≡ true }
        requires arrays { (n : ℕ) → n < self.now.state.made → IsArray ((raid_by self.now).arrays n) }
        ensures { result ≡ spec.is_due (raid_by self.now) (Make number height) }
    {
        let made = self.state.made;
        number == made
            && self.state.joined == made
            && made < 16
            && height > 0
            && !self.state.drives.is_empty()
            && self.reaching(height).len() >= 2
            && self.has_room_for(height)
    }

    /// Whether an array of these members can't be made: nobody is left, numbers are used up, or two of them are missing.
    fn lacks_places(&self, members: &Places) -> bool
        requires count { length self.now.all.items ≡ self.now.state.made }
        requires few { length self.now.state.drives.items ≤ 16 }
        requires heeded { IsHeeded (raid_by self.now) }
        ensures { result ≡ (spec.is_ended (raid_by self.now) || spec.lacks_places (raid_by self.now) members.now.items) }
    {
        self.is_ended() || missing_among(&self.state, members) > 1
    }

    /// The young array of these members, by its superblocks: one of them is missing at most.
    fn young_array(&self, members: &Places, height: u64, seconds: u64) -> Array
        requires few { length self.now.state.drives.items ≤ 16 }
        requires extent { is_extent self.now.state.extent ≡ true }
        requires due { spec.is_due (raid_by self.now) (Make self.now.state.made height) ≡ true }
        requires some { spec.lacks_places (raid_by self.now) (new.reaching (raid_by self.now) height) ≡ false }
        requires places { members.now.items ≡ new.reaching (raid_by self.now) height }
        ensures made { result ≡ new.new_view seconds (raid_by self.now) height }
        ensures is_array { IsArray result }
    {
        let size = height * u64::from(self.state.extent) + DATA_SECTOR;
        let found = found_for(&self.state, members, size, seconds);
        match Array::open(self.state.made, found.as_slice(), true) {
            Ok(array) => {
                array.rules();
                array
            }
            Err(_) => unreachable!(),
        }
    }

    /// Commits the state, with the superblocks that the log has, on all places that the state has as current. Whoever goes in it is noted.
    fn commit_state<S: Rack>(&mut self, rack: &mut S)
        requires running { IsRunning self.old (S.seen rack.old) }
        requires heeded { IsHeeded (raid_by self.old) }
        requires some { (place : ℕ) × (is_current self.old.state place ≡ true) }
        requires supers { (x : Target) → AmongTargets x self.old.log.added → IsSuperOf (raid_by self.old) self.old.state.made x }
        requires apart { are_apart self.old.log.added ≡ true }
        requires room { length self.old.log.added + 16 ≤ most_sectors }
        ensures state { self.new.state ≡ self.old.state }
        ensures loses { LosesBook (raid_by self.old) (raid_by self.new) }
        ensures caused { AreCaused (raid_by self.old) (raid_by self.new) (S.seen rack.old) (S.seen rack.new) }
        ensures commits { CommitsState (raid_by self.old) (raid_by self.new) self.old.log.added (S.seen rack.old) (S.seen rack.new) }
        ensures stays { SameRack (S.seen rack.old) (S.seen rack.new) }
        ensures raises { RaisesBy 1 (raid_by self.old) (raid_by self.new) }
        ensures running { IsRunning self.new (S.seen rack.new) }
        ensures runs { S.runs rack.old rack.new }
    {
        let on = current_places(&self.state);
        add_copies(&self.state, &on, &mut self.log);
        let gone = self.log.commit(rack, &on);
        note_gone(self.all.as_mut_slice(), &gone);
    }

    /// Makes an array of these members, whose slices are there, by one commit of its superblocks and the state. Whoever goes is marked.
    fn make_array<S: Rack>(&mut self, rack: &mut S, height: u64, seconds: u64) -> bool
        requires running { IsRunning self.old (S.seen rack.old) }
        requires heeded { IsHeeded (raid_by self.old) }
        requires due { spec.is_due (raid_by self.old) (Make self.old.state.made height) ≡ true }
        requires some { (spec.is_ended (raid_by self.old) || spec.lacks_places (raid_by self.old) (new.reaching (raid_by self.old) height)) ≡ false }
        // Each member that isn't missing has its slice.
        requires slices { (p : ℕ) → names (new.reaching (raid_by self.old) height) p ≡ true → is_current self.old.state p ≡ true
            → 2048 + new.new_size (raid_by self.old) height ≤ (S.seen rack.old).sectors (member_slice p self.old.state.made) }
        ensures grows { GrowsBy (λ mid. makes (new.new_view seconds mid height)) (Lacks (Make self.old.state.made height))
            (raid_by self.old) (raid_by self.new) (S.seen rack.old) (S.seen rack.new) result }
        ensures contents { FitsMake self.old.state self.old.state.made (new.new_view seconds (raid_by self.old) height) (S.seen rack.old)
            → MakesTurn (makes (new.new_view seconds (raid_by self.old) height)) true AnyValues (raid_by self.old) (raid_by self.new) (S.seen rack.old) (S.seen rack.new) }
        ensures raises { RaisesBy 18 (raid_by self.old) (raid_by self.new) }
        ensures running { IsRunning self.new (S.seen rack.new) }
        ensures runs { S.runs rack.old rack.new }
    {
        let members = self.reaching(height);
        let array = self.young_array(&members, height, seconds);
        self.log.clear();
        array.stage_own(&mut self.log);
        self.all.push(array);
        self.state.made += 1;
        self.state.epoch = raised(self.state.epoch);
        // Its entries are durable: a stop leaves entries that are no array's, or a young array on all its members.
        self.commit_state(rack);
        self.mend(rack);
        !self.lacks_places(&members)
    }
}

impl<R: Rack> RaidRack<R> {
    ghost use Rattle.array_core.specs.Pool.{Goes};
    ghost use Rattle.slice_rack.specs.SliceRack.{below_of, tables};
    ghost use Rattle.slice_rack.specs.Slices.{seat_of as disk_at, sectors_of};
    ghost use Rattle.array_model.specs.View.{HasFault};
    ghost use Rattle.raid_laws.specs.Moves.{AreCaused};
    ghost use Rattle.growth_laws.specs.Losses.{LosesBook};
    ghost use Rattle.transition_laws.specs.Growth.{AreReady, GrowsByZeros, KeepsOldSectors};
    ghost use Rattle.raid_rack.specs.RaidRack.{IsFit, SliceRuns, arrays_in, raid_in, raid_seen, refused_in, slices_in, slices_seen, written_in};
    ghost use Rattle.raid_rack.specs.Growing.{CannotAdd, CannotEnter, CannotMake, KeepsOtherSlices};

    /// Zeroes the next rows of a young array, durably, and answers how many: as many as one commit takes, at least one and at most so many. It
    /// is refused where the array isn't young or has no such row, and then nothing changes; else exactly where nobody is left, numbers are used
    /// up or two members lack the first of the rows once the losses of this call are marked.
    pub fn zero_rows(&mut self, array: u32, most: u64) -> Result<u64, Stuck>
        requires fit { IsFit (arrays_in self.old) (slices_seen R.seen self.old) }
        requires some { 0 < most }
        ensures idle { spec.is_due (raid_in self.old) (Zero array) ≡ false → (is_ok result ≡ false) × (self.new ≡ self.old) }
        ensures grows { spec.is_due (raid_in self.old) (Zero array) ≡ true
            → ZeroesNext array most (raid_in self.old) (raid_in self.new) (slices_seen R.seen self.old) (slices_seen R.seen self.new) result }
        ensures named { IfErr result (λ e. e.array ≡ array) }
        ensures fit { IsFit (arrays_in self.new) (slices_seen R.seen self.new) }
        ensures raises { RaisesBy 18 (raid_in self.old) (raid_in self.new) }
        ensures refused { (n : ℕ) → refused_in self.new n ≡ refused_in self.old n }
        ensures written { (n : ℕ) → (n ≡ array → ⊥) → written_in self.new n ≡ written_in self.old n }
        ensures runs { SliceRuns R.seen R.runs (slices_in self.old) (slices_in self.new) }
    {
        if !self.arrays.may_zero(array) {
            return Err(Stuck { array });
        }
        note_written(&mut self.written, array);
        self.arrays.zero_array(&mut self.slices, array, most)
    }

    /// Zeroes the next row of a young array, as `zero_rows` does.
    pub fn zero(&mut self, array: u32) -> Result<(), Stuck>
        requires fit { IsFit (arrays_in self.old) (slices_seen R.seen self.old) }
        ensures idle { spec.is_due (raid_in self.old) (Zero array) ≡ false → (is_ok result ≡ false) × (self.new ≡ self.old) }
        ensures grows { spec.is_due (raid_in self.old) (Zero array) ≡ true
            → Grows (Zero array) (Lacks (Zero array)) (raid_in self.old) (raid_in self.new) (slices_seen R.seen self.old) (slices_seen R.seen self.new) (is_ok result) }
        ensures named { IfErr result (λ e. e.array ≡ array) }
        ensures fit { IsFit (arrays_in self.new) (slices_seen R.seen self.new) }
        ensures raises { RaisesBy 18 (raid_in self.old) (raid_in self.new) }
        ensures refused { (n : ℕ) → refused_in self.new n ≡ refused_in self.old n }
        ensures written { (n : ℕ) → (n ≡ array → ⊥) → written_in self.new n ≡ written_in self.old n }
        ensures runs { SliceRuns R.seen R.runs (slices_in self.old) (slices_in self.new) }
    {
        match self.zero_rows(array, 1) {
            Ok(_) => Ok(()),
            Err(stuck) => Err(stuck),
        }
    }

    /// Gives a young array that is zeroed to the volume, durably. It is refused where it isn't the youngest one or has rows left to zero, or
    /// lacks two members, and then nothing changes.
    pub fn ready(&mut self, array: u32) -> Result<(), Stuck>
        requires fit { IsFit (arrays_in self.old) (slices_seen R.seen self.old) }
        ensures idle { spec.is_due (raid_in self.old) (Ready array) ≡ false → (is_ok result ≡ false) × (self.new ≡ self.old) }
        ensures stuck { (spec.is_due (raid_in self.old) (Ready array) ≡ true) × (is_ok result ≡ false) → (self.new ≡ self.old) × (spec.lacks (raid_in self.old) array ≡ true) }
        ensures grows { is_ok result ≡ true
            → Grows (Ready array) (Lacks (Ready array)) (raid_in self.old) (raid_in self.new) (slices_seen R.seen self.old) (slices_seen R.seen self.new) true }
        ensures contents { is_ok result ≡ true
            → FitsReady (raid_in self.old) array (slices_seen R.seen self.old)
            → MakesTurn readied true AnyValues (raid_in self.old) (raid_in self.new) (slices_seen R.seen self.old) (slices_seen R.seen self.new) }
        ensures old { FitsReady (raid_in self.old) array (slices_seen R.seen self.old) → AreReady (raid_in self.old)
            → KeepsOldSectors (raid_in self.old).state.joined (raid_seen R.seen self.old) (raid_seen R.seen self.new) }
        ensures zeros { FitsReady (raid_in self.old) array (slices_seen R.seen self.old) → AreReady (raid_in self.old)
            → GrowsByZeros (raid_in self.old).state.joined (raid_in self.old) (raid_in self.new) (slices_seen R.seen self.old) (slices_seen R.seen self.new) }
        ensures named { IfErr result (λ e. e.array ≡ array) }
        ensures fit { IsFit (arrays_in self.new) (slices_seen R.seen self.new) }
        ensures raises { RaisesBy 18 (raid_in self.old) (raid_in self.new) }
        ensures refused { (n : ℕ) → refused_in self.new n ≡ refused_in self.old n }
        ensures written { (n : ℕ) → written_in self.new n ≡ written_in self.old n }
        ensures runs { SliceRuns R.seen R.runs (slices_in self.old) (slices_in self.new) }
    {
        if !self.arrays.may_get_ready(array) || self.arrays.lacks(array) {
            return Err(Stuck { array });
        }
        self.arrays.ready_array(&mut self.slices, array);
        Ok(())
    }

    /// The disk of a place.
    fn disk_of(&self, place: u32) -> Option<u32>
        requires fit { (slices_seen R.seen self.now).fit }
        requires place { place < 16 }
        ensures { result ≡ disk_at (tables (slices_in self.now)) place }
    {
        for disk in 0..self.slices.below().disks() {
            if self.slices.seated(disk) == Some(place) {
                return Some(disk);
            }
        }
        None
    }

    /// Puts the entry of a new array's member into the table of a place's disk, durably. It has room there.
    fn add_entry(
        &mut self,
        place: u32,
        number: u32,
        first: u64,
        sectors: u64,
    ) -> Result<(), TableFault>
        requires fit { (slices_seen R.seen self.old).fit }
        requires number { number < 16 }
        requires place { place < 16 }
        requires listed { place < length (raid_in self.old).state.drives.items }
        requires some { 0 < sectors }
        requires low { first + sectors < 2 ^ 60 }
        requires past { 34 ≤ first }
        ensures gone { result ≡ Err TableFault.Gone → HasFault (slices_seen R.seen self.old) (slices_seen R.seen self.new) place }
        ensures cannot { result ≡ Err TableFault.NoTable
            → CannotEnter R.seen R.runs (tables (slices_in self.old)) (below_of (slices_in self.old)) place first sectors }
        ensures arrays { arrays_in self.new ≡ arrays_in self.old }
        ensures refused { (n : ℕ) → refused_in self.new n ≡ refused_in self.old n }
        ensures written { (n : ℕ) → written_in self.new n ≡ written_in self.old n }
        ensures seconds { self.new.seconds ≡ self.old.seconds }
        ensures tables { tables (slices_in self.new) ≡ tables (slices_in self.old) }
        ensures goes { Goes (R.seen (below_of (slices_in self.old))) (R.seen (below_of (slices_in self.new))) }
        ensures runs { R.runs (below_of (slices_in self.old)) (below_of (slices_in self.new)) }
    {
        let Some(disk) = self.disk_of(place) else {
            return Err(TableFault::NoTable);
        };
        if first + sectors + BACKUP_SECTORS > self.slices.below().sectors(disk) {
            return Err(TableFault::NoTable);
        }
        let drive = drive_id(&self.arrays.state, place);
        let entry = entry_of(&drive, number + 1, RAID_KIND, first, sectors);
        let rack = self.slices.inner();
        let mut found = read_table(rack, disk)?;
        match change_entry(rack, disk, &mut found.table, &entry) {
            Ok(()) => Ok(()),
            Err(_) => Err(TableFault::Gone),
        }
    }

    /// Puts the entries of a new array's members into the tables of the places that aren't missing, each durable before the next. A drive
    /// that goes is marked before the next entry. The answer is false where a disk has no valid table, or no room for the slice.
    fn add_entries(&mut self, members: &Places, number: u32, first: u64, sectors: u64) -> bool
        requires fit { IsFit (arrays_in self.old) (slices_seen R.seen self.old) }
        requires number { number < 16 }
        requires places { All (λ (p : ℕ). p < length (raid_in self.old).state.drives.items) members.now.items }
        requires some { 0 < sectors }
        requires low { first + sectors < 2 ^ 60 }
        requires past { 34 ≤ first }
        ensures cannot { result ≡ false → (place : ℕ) × (names members.now.items place ≡ true) × (is_current (raid_in self.new).state place ≡ true)
            × CannotEnter R.seen R.runs (tables (slices_in self.old)) (below_of (slices_in self.old)) place first sectors }
        ensures loses { LosesBook (raid_in self.old) (raid_in self.new) }
        ensures caused { AreCaused (raid_in self.old) (raid_in self.new) (slices_seen R.seen self.old) (slices_seen R.seen self.new) }
        ensures fit { IsFit (arrays_in self.new) (slices_seen R.seen self.new) }
        ensures raises { RaisesBy 272 (raid_in self.old) (raid_in self.new) }
        ensures refused { (n : ℕ) → refused_in self.new n ≡ refused_in self.old n }
        ensures written { (n : ℕ) → written_in self.new n ≡ written_in self.old n }
        ensures seconds { self.new.seconds ≡ self.old.seconds }
        ensures tables { tables (slices_in self.new) ≡ tables (slices_in self.old) }
        ensures goes { Goes (R.seen (below_of (slices_in self.old))) (R.seen (below_of (slices_in self.new))) }
        ensures runs { R.runs (below_of (slices_in self.old)) (below_of (slices_in self.new)) }
    {
        for place in members.as_slice() {
            if !is_current(&self.arrays.state, *place) {
                continue;
            }
            match self.add_entry(*place, number, first, sectors) {
                Ok(()) => {}
                Err(TableFault::NoTable) => return false,
                Err(TableFault::Gone) => self.arrays.lose_place(&mut self.slices, *place),
            }
        }
        true
    }

    /// Lays the slices of a new array's members, in memory. The answer is false where one can't be laid.
    fn lay_members(&mut self, members: &Places, number: u32, first: u64, sectors: u64) -> bool
        requires fit { (slices_seen R.seen self.old).fit }
        requires number { number < 16 }
        requires places { All (λ (p : ℕ). p < 16) members.now.items }
        ensures laid { result ≡ true → (p : ℕ) → names members.now.items p ≡ true → is_current (raid_in self.old).state p ≡ true
            → sectors_of (tables (slices_in self.new)) (member_slice p number) ≡ sectors }
        ensures cannot { result ≡ false → (p : ℕ) × (names members.now.items p ≡ true) × (is_current (raid_in self.old).state p ≡ true)
            × CannotAdd (tables (slices_in self.old)) (R.seen (below_of (slices_in self.old))) p number first sectors }
        ensures others { KeepsOtherSlices (number + 1) (tables (slices_in self.old)) (tables (slices_in self.new)) }
        ensures below { below_of (slices_in self.new) ≡ below_of (slices_in self.old) }
        ensures arrays { arrays_in self.new ≡ arrays_in self.old }
        ensures refused { (n : ℕ) → refused_in self.new n ≡ refused_in self.old n }
        ensures written { (n : ℕ) → written_in self.new n ≡ written_in self.old n }
        ensures seconds { self.new.seconds ≡ self.old.seconds }
        ensures seats { (p : ℕ) → disk_at (tables (slices_in self.new)) p ≡ disk_at (tables (slices_in self.old)) p }
        ensures fit { (slices_seen R.seen self.new).fit }
    {
        for place in members.as_slice() {
            let current = is_current(&self.arrays.state, *place);
            if current
                && self
                    .slices
                    .add_slice(*place, number + 1, first, sectors)
                    .is_err()
            {
                return false;
            }
        }
        true
    }

    /// Takes the slices of an array's members away, which wasn't made.
    fn drop_members(&mut self, members: &Places, number: u32)
        requires fit { (slices_seen R.seen self.old).fit }
        requires number { number < 16 }
        requires places { All (λ (p : ℕ). p < 16) members.now.items }
        ensures others { KeepsOtherSlices (number + 1) (tables (slices_in self.old)) (tables (slices_in self.new)) }
        ensures below { below_of (slices_in self.new) ≡ below_of (slices_in self.old) }
        ensures arrays { arrays_in self.new ≡ arrays_in self.old }
        ensures refused { (n : ℕ) → refused_in self.new n ≡ refused_in self.old n }
        ensures written { (n : ℕ) → written_in self.new n ≡ written_in self.old n }
        ensures seconds { self.new.seconds ≡ self.old.seconds }
        ensures seats { (p : ℕ) → disk_at (tables (slices_in self.new)) p ≡ disk_at (tables (slices_in self.old)) p }
        ensures fit { (slices_seen R.seen self.new).fit }
    {
        for place in members.as_slice() {
            let _ = self.slices.add_slice(*place, number + 1, 0, 0);
        }
    }

    /// Makes a young array of the places that reach a layer of so many extents above all arrays, durably. First the tables of its members get
    /// its entry, each durable before the next, and a drive that goes meanwhile is marked; then one commit has its superblocks and the state.
    /// It is refused where the array isn't due, and then nothing changes; else where, once the losses of this call are marked, nobody is left,
    /// numbers are used up or two of its members are missing, or where a member's disk has no valid table or no room for its slice.
    pub fn make(&mut self, number: u32, height: u64) -> Result<(), Stuck>
        requires fit { IsFit (arrays_in self.old) (slices_seen R.seen self.old) }
        ensures idle { spec.is_due (raid_in self.old) (Make number height) ≡ false → (is_ok result ≡ false) × (self.new ≡ self.old) }
        ensures grows { spec.is_due (raid_in self.old) (Make number height) ≡ true
            → GrowsBy (λ mid. makes (new.new_view self.old.seconds mid height)) (λ mid w. Lacks (Make number height) mid w ⊎ CannotMake R.seen R.runs (tables (slices_in self.old)) (below_of (slices_in self.old)) mid height)
            (raid_in self.old) (raid_in self.new) (slices_seen R.seen self.old) (slices_seen R.seen self.new) (is_ok result) }
        ensures named { IfErr result (λ e. e.array ≡ number) }
        ensures fit { IsFit (arrays_in self.new) (slices_seen R.seen self.new) }
        ensures raises { RaisesBy 330 (raid_in self.old) (raid_in self.new) }
        ensures refused { (n : ℕ) → refused_in self.new n ≡ refused_in self.old n }
        ensures written { (n : ℕ) → (n ≡ number → ⊥) → written_in self.new n ≡ written_in self.old n }
        ensures seats { (p : ℕ) → disk_at (tables (slices_in self.new)) p ≡ disk_at (tables (slices_in self.old)) p }
        ensures goes { Goes (R.seen (below_of (slices_in self.old))) (R.seen (below_of (slices_in self.new))) }
        ensures runs { R.runs (below_of (slices_in self.old)) (below_of (slices_in self.new)) }
    {
        if !self.arrays.may_make(number, height) {
            return Err(Stuck { array: number });
        }
        note_written(&mut self.written, number);
        let members = self.arrays.reaching(height);
        let size = height * u64::from(self.arrays.state.extent) + DATA_SECTOR;
        let first = first_in(self.arrays.all.as_slice(), number as usize);
        let sectors = size + DATA_SECTOR;
        if !self.add_entries(&members, number, first, sectors)
            || self.arrays.lacks_places(&members)
        {
            return Err(Stuck { array: number });
        }
        if !self.lay_members(&members, number, first, sectors) {
            self.drop_members(&members, number);
            return Err(Stuck { array: number });
        }
        if self
            .arrays
            .make_array(&mut self.slices, height, self.seconds)
        {
            Ok(())
        } else {
            Err(Stuck { array: number })
        }
    }
}
