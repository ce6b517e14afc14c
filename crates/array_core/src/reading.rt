//! What is read of an array over a rack of slices, and made durable on it.

ghost use Rattle.std.specs.Prelude.{◌≡◌, ◌<◌, ◌≤◌, ◌^◌, ◌==◌, ℕ, Bool, Some, nat_lt, true, false, OnOk, IfErr};
ghost use Rattle.std.specs.List.{list_all};
ghost use Rattle.rack.specs.Values.{Values};
ghost use Rattle.rack.specs.Sequences.{OnlyReads};
ghost use Rattle.pool_state.specs.declared.contents.State.{State};
ghost use Rattle.raid_map.specs.LeftSymmetric.{row_at};
ghost use Rattle.array_image.specs.Stripes.{width};
ghost use Rattle.array_image.specs.Arrays.{Shape, column};
ghost use Rattle.array_image.specs.Held.{current_in};
ghost use Rattle.array_image.specs.Spent.{wanting, spent_with};
ghost use Rattle.array_model.specs.View.{LosesPlaces, member_on, shape_of, sectors_of, spent_in};
ghost use Rattle.array_model.specs.Says.{IsOpen};
ghost use Rattle.array_model.specs.ArrayCalls.{IncludesSpent, Keeping, ReadsArray, SyncsArray};
ghost use Rattle.array_model.specs.Members.{row_layout, row_of, restored, member_spent, first_of_row, HasSlices, IsSameButSeats, Notes, IsSingleOn, members_of, added, gathered};
ghost use Rattle.array_model.proofs.Firsts.{firsts};
ghost use Rattle.array_core.specs.Seats.{names};
ghost use Rattle.array_core.specs.Stands.{IsStand, layout_of, given_at, blank};

use crate::members::{Spread, Stand};
use crate::{Array, Spent};
use parity::xor_into;
use rack::{Places, Rack};
use raid_map::CHUNK_SECTORS;

/// Where a member's data begins in its slice.
pub(crate) const DATA_SECTOR: u64 = 2048;

/// A sector of zeros.
fn zero_sector() -> [u8; 512]
    ensures { result ≡ blank }
{
    [0; 512]
}

/// How many members a row is spread over.
fn width(spread: Spread) -> u32
    ensures { result ≡ width (layout_of spread) }
{
    match spread {
        Spread::Mirror { members } => members,
        Spread::Parity { members } => members,
    }
}

/// The first sector that the array has in a row of its members' data.
fn first_of_row(spread: Spread, sector: u64) -> u64
    requires width { (2 ≤ width (layout_of spread)) × (width (layout_of spread) ≤ 16) }
    requires sector { sector < 2 ^ 48 }
    ensures { result ≡ first_of_row (layout_of spread) sector }
{
    let row = sector / CHUNK_SECTORS;
    match spread {
        Spread::Mirror { .. } => row * CHUNK_SECTORS,
        Spread::Parity { members } => row * ((u64::from(members) - 1) * CHUNK_SECTORS),
    }
}

impl Array {
    /// Notes places that answered `Gone`: their members are missing from then on.
    pub fn note_all(&mut self, places: &Places)
        requires { list_all (λ p. nat_lt p 16) places.now.items ≡ true }
        ensures same { IsSameButSeats self.old self.new }
        ensures loses { LosesPlaces self.old self.new (names places.now.items) }
    {
        let _number = self.number;
        self.gone(places);
    }

    /// Notes a place that answered `Gone`: its member is missing from then on.
    pub(crate) fn note(&mut self, place: u32)
        requires { place < 16 }
        ensures same { IsSameButSeats self.old self.new }
        ensures loses { LosesPlaces self.old self.new (λ p. p == place) }
    {
        let _number = self.number;
        let mut places = Places::new();
        places.push(place);
        self.gone(&places);
    }

    /// Reads a sector of a member's data that counts. The answer is false where the member has gone.
    fn fetch<R: Rack>(
        &mut self,
        rack: &mut R,
        position: usize,
        sector: u64,
        into: &mut [u8; 512],
    ) -> bool
        requires slices { HasSlices self.old (R.seen rack.old) }
        requires position { position < self.old.truth.raid_disks }
        requires counts { sector < (member_on self.old position).reach }
        requires sector { sector < self.old.truth.size }
        ensures reads { OnlyReads (R.seen rack.old) (R.seen rack.new) }
        ensures notes { Notes self.old self.new (R.seen rack.old) (R.seen rack.new) }
        ensures runs { R.runs rack.old rack.new }
        ensures served { result ≡ true → (self.new ≡ self.old)
            × (IsOpen (shape_of self.old) self.old.number (R.seen rack.old)
            → column (current_in (R.seen rack.old).held) self.old.number sector (member_on self.old position) ≡ Some into.new) }
        ensures lost { result ≡ false → wanting sector (members_of self.old) < wanting sector (members_of self.new) }
        ensures gone { result ≡ false → (member_on self.new position).reach ≡ 0 }
    {
        self.rules();
        let slice = self.slice(position);
        match rack.read(slice, DATA_SECTOR + sector, into) {
            Ok(()) => true,
            Err(_) => {
                let place = self.place_on(position);
                self.note(place);
                false
            }
        }
    }

    /// Adds a member's sector to a sum, where it counts there. The answer is false where the member has gone.
    fn add<R: Rack>(
        &mut self,
        rack: &mut R,
        position: usize,
        sector: u64,
        sum: &mut [u8; 512],
    ) -> bool
        requires slices { HasSlices self.old (R.seen rack.old) }
        requires position { position < self.old.truth.raid_disks }
        requires sector { sector < self.old.truth.size }
        ensures reads { OnlyReads (R.seen rack.old) (R.seen rack.new) }
        ensures notes { Notes self.old self.new (R.seen rack.old) (R.seen rack.new) }
        ensures runs { R.runs rack.old rack.new }
        ensures served { result ≡ true → (self.new ≡ self.old)
            × (IsOpen (shape_of self.old) self.old.number (R.seen rack.old)
            → sum.new ≡ added (column (current_in (R.seen rack.old).held) self.old.number sector (member_on self.old position)) sum.old) }
        ensures lost { result ≡ false → wanting sector (members_of self.old) < wanting sector (members_of self.new) }
    {
        if !self.counts(position, sector) {
            return true;
        }
        let mut piece = [0; 512];
        if !self.fetch(rack, position, sector, &mut piece) {
            return false;
        }
        xor_into(sum, &piece);
        true
    }

    /// The XOR of the members of a row that count at a sector. It stops where one goes.
    fn gather<R: Rack>(
        &mut self,
        rack: &mut R,
        members: u32,
        sector: u64,
        into: &mut [u8; 512],
    ) -> bool
        requires slices { HasSlices self.old (R.seen rack.old) }
        requires members { members ≤ self.old.truth.raid_disks }
        requires sector { sector < self.old.truth.size }
        ensures reads { OnlyReads (R.seen rack.old) (R.seen rack.new) }
        ensures notes { Notes self.old self.new (R.seen rack.old) (R.seen rack.new) }
        ensures runs { R.runs rack.old rack.new }
        ensures served { result ≡ true → (self.new ≡ self.old)
            × (IsOpen (shape_of self.old) self.old.number (R.seen rack.old)
            → into.new ≡ gathered (current_in (R.seen rack.old).held) self.old.number sector (firsts self.old members)) }
        ensures lost { result ≡ false → wanting sector (members_of self.old) < wanting sector (members_of self.new) }
    {
        let mut sum = zero_sector();
        for position in 0..members as usize {
            if !self.add(rack, position, sector, &mut sum) {
                return false;
            }
        }
        *into = sum;
        true
    }

    /// Reads a row's sector from its member, or from the others where that doesn't count. It stops where one goes.
    fn attempt<R: Rack>(&mut self, rack: &mut R, at: &Stand, into: &mut [u8; 512]) -> bool
        requires slices { HasSlices self.old (R.seen rack.old) }
        requires stand { IsStand self.old at.now }
        ensures reads { OnlyReads (R.seen rack.old) (R.seen rack.new) }
        ensures notes { Notes self.old self.new (R.seen rack.old) (R.seen rack.new) }
        ensures runs { R.runs rack.old rack.new }
        ensures served { result ≡ true → (self.new ≡ self.old)
            × (IsOpen (shape_of self.old) self.old.number (R.seen rack.old) → into.new ≡ given_at self.old at.now (current_in (R.seen rack.old).held)) }
        ensures lost { result ≡ false → wanting at.now.sector (members_of self.old) < wanting at.now.sector (members_of self.new) }
    {
        match self.source(at) {
            Some(position) => self.fetch(rack, position, at.sector, into),
            None => self.gather(rack, width(at.spread), at.sector, into),
        }
    }

    /// Reads a row's sector from its member or from the others. The answer is false where too many have gone.
    pub(crate) fn find<R: Rack>(&mut self, rack: &mut R, at: &Stand, into: &mut [u8; 512]) -> bool
        requires slices { HasSlices self.old (R.seen rack.old) }
        requires stand { IsStand self.old at.now }
        ensures reads { OnlyReads (R.seen rack.old) (R.seen rack.new) }
        ensures notes { Notes self.old self.new (R.seen rack.old) (R.seen rack.new) }
        ensures runs { R.runs rack.old rack.new }
        ensures served { result ≡ true → (spent_with (wanting at.now.sector (members_of self.new)) (nat_lt (row_at at.now.sector) self.new.resync) ≡ false)
            × (IsOpen (shape_of self.old) self.old.number (R.seen rack.old) → into.new ≡ given_at self.new at.now (current_in (R.seen rack.old).held)) }
        ensures refused { result ≡ false → spent_with (wanting at.now.sector (members_of self.new)) (nat_lt (row_at at.now.sector) self.new.resync) ≡ true }
    {
        if self.is_spent_at(at.sector) {
            return false;
        }
        if self.attempt(rack, at, into) {
            return true;
        }
        if self.is_spent_at(at.sector) {
            return false;
        }
        self.attempt(rack, at, into)
    }

    /// Reads a sector of the array. A member that is called and answers `Gone` is missing from then on, and the others give its
    /// sectors. It is refused exactly where the sector is spent after that.
    pub fn read<R: Rack>(
        &mut self,
        rack: &mut R,
        sector: u64,
        into: &mut [u8; 512],
    ) -> Result<(), Spent>
        requires slices { HasSlices self.old (R.seen rack.old) }
        requires sector { sector < sectors_of self.old }
        ensures reads { (s : State) (durable : Shape) (vals : ℕ → Values) (spent : ℕ → Bool) → IncludesSpent self.new spent
            → ReadsArray s self.old self.new spent (R.seen rack.old) (R.seen rack.new) durable vals sector into.new }
        ensures notes { Notes self.old self.new (R.seen rack.old) (R.seen rack.new) }
        ensures runs { R.runs rack.old rack.new }
        ensures served { OnOk result (spent_in self.new sector ≡ false) }
        ensures refused { IfErr result (λ e. (e.sector ≡ sector) × (spent_in self.new sector ≡ true)) }
    {
        self.rules();
        let at = self.stand(sector);
        if self.find(rack, &at, into) {
            Ok(())
        } else {
            Err(Spent { sector })
        }
    }

    /// Syncs a member, unless it is missing. One that refuses has gone.
    fn sync_member<R: Rack>(&mut self, rack: &mut R, position: usize)
        requires slices { HasSlices self.old (R.seen rack.old) }
        requires position { position < self.old.truth.raid_disks }
        ensures reads { OnlyReads (R.seen rack.old) (R.seen rack.new) }
        ensures notes { Notes self.old self.new (R.seen rack.old) (R.seen rack.new) }
        ensures runs { R.runs rack.old rack.new }
        ensures single { IsOpen (shape_of self.old) self.old.number (R.seen rack.old) → IsSingleOn self.new (R.seen rack.new) position }
    {
        self.rules();
        if self.is_missing(position) {
            return;
        }
        let slice = self.slice(position);
        match rack.sync(slice) {
            Ok(()) => {}
            Err(_) => {
                let place = self.place_on(position);
                self.note(place);
            }
        }
    }

    /// Syncs the members. Whoever is left has one value in each sector.
    pub fn sync<R: Rack>(&mut self, rack: &mut R)
        requires { HasSlices self.old (R.seen rack.old) }
        ensures syncs { (s : State) (durable : Shape) (vals : ℕ → Values) (spent : ℕ → Bool) → IncludesSpent self.new spent
            → SyncsArray s self.old self.new spent (R.seen rack.old) (R.seen rack.new) durable vals }
        ensures reads { OnlyReads (R.seen rack.old) (R.seen rack.new) }
        ensures notes { Notes self.old self.new (R.seen rack.old) (R.seen rack.new) }
        ensures runs { R.runs rack.old rack.new }
    {
        self.rules();
        for position in 0..self.members() {
            self.sync_member(rack, position);
        }
    }

    /// Reads what the member at a position has to hold at a sector of its data: its own sector, or what the others of its row give
    /// where it is missing or not rebuilt so far. During a reshape a row that has moved has all members, and any other row one
    /// less. It is refused exactly where that member doesn't count, and another one neither or the row is left to resync; the
    /// sector of the answer is the first one that the array has in the row.
    pub fn member<R: Rack>(
        &mut self,
        rack: &mut R,
        position: u32,
        sector: u64,
        into: &mut [u8; 512],
    ) -> Result<(), Spent>
        requires slices { HasSlices self.old (R.seen rack.old) }
        requires position { position < width (row_layout self.old sector) }
        requires sector { sector < self.old.truth.size }
        ensures keeps { (s : State) (durable : Shape) (vals : ℕ → Values) (spent : ℕ → Bool) → IncludesSpent self.new spent
            → Keeping s self.old self.new spent (R.seen rack.old) (R.seen rack.new) durable vals }
        ensures reads { OnlyReads (R.seen rack.old) (R.seen rack.new) }
        ensures notes { Notes self.old self.new (R.seen rack.old) (R.seen rack.new) }
        ensures runs { R.runs rack.old rack.new }
        ensures value { OnOk result (IsOpen (shape_of self.old) self.old.number (R.seen rack.old)
            → into.new ≡ restored (row_layout self.new sector) (row_of self.new (current_in (R.seen rack.old).held) sector) position) }
        ensures served { OnOk result (member_spent self.new position sector ≡ false) }
        ensures refused { IfErr result (λ e. (e.sector ≡ first_of_row (row_layout self.new sector) sector) × (member_spent self.new position sector ≡ true)) }
    {
        self.rules();
        let at = self.in_row(position, sector);
        if self.own(rack, &at, into) {
            return Ok(());
        }
        if self.find(rack, &at, into) {
            Ok(())
        } else {
            Err(Spent {
                sector: first_of_row(at.spread, sector),
            })
        }
    }

    /// How many members a row of their data is spread over.
    pub fn row_members(&self, sector: u64) -> u32
        requires { sector < self.now.truth.size }
        ensures { result ≡ width (row_layout self.now sector) }
    {
        width(self.row_spread(sector))
    }

    /// The first sector that the array has in a row of its members' data.
    pub fn first_in_row(&self, sector: u64) -> u64
        requires { sector < self.now.truth.size }
        ensures { result ≡ first_of_row (row_layout self.now sector) sector }
    {
        self.rules();
        let at = self.in_row(0, sector);
        first_of_row(at.spread, sector)
    }

    /// Reads a member's own sector, if it counts there.
    pub(crate) fn own<R: Rack>(&mut self, rack: &mut R, at: &Stand, into: &mut [u8; 512]) -> bool
        requires slices { HasSlices self.old (R.seen rack.old) }
        requires stand { IsStand self.old at.now }
        ensures reads { OnlyReads (R.seen rack.old) (R.seen rack.new) }
        ensures notes { Notes self.old self.new (R.seen rack.old) (R.seen rack.new) }
        ensures runs { R.runs rack.old rack.new }
        ensures served { result ≡ true → (self.new ≡ self.old) × (nat_lt at.now.sector (member_on self.old at.now.position).reach ≡ true)
            × (IsOpen (shape_of self.old) self.old.number (R.seen rack.old)
            → column (current_in (R.seen rack.old).held) self.old.number at.now.sector (member_on self.old at.now.position) ≡ Some into.new) }
        ensures lost { result ≡ false → nat_lt at.now.sector (member_on self.new at.now.position).reach ≡ false }
    {
        if !self.counts(at.position, at.sector) {
            return false;
        }
        self.fetch(rack, at.position, at.sector, into)
    }
}
