//! Writes to an array over a rack of slices.

ghost use Rattle.std.specs.Prelude.{◌≡◌, ◌≢◌, ◌⊎◌, ◌<◌, ◌≤◌, ◌+◌, ℕ, Bool, List, [], ◌∷◌, Some, None, nat_lt, true, false, OnOk, IfErr};
ghost use Rattle.rack.specs.Values.{Values};
ghost use Rattle.rack.specs.Targets.{target};
ghost use Rattle.rack.specs.Sequences.{OnlyReads};
ghost use Rattle.pool_state.specs.declared.contents.State.{State};
ghost use Rattle.raid_map.specs.LeftSymmetric.{member_of, parity_at, row_at, sector_of};
ghost use Rattle.array_image.specs.Places.{data_sector};
ghost use Rattle.array_image.specs.Stripes.{mirror, parity};
ghost use Rattle.array_image.specs.Arrays.{final_layout};
ghost use Rattle.array_image.specs.Spent.{wanting, spent_with};
ghost use Rattle.array_model.specs.View.{has_gone, is_alone, is_whole_array, member_on, place_at, sectors_of, shape_of, spent_in};
ghost use Rattle.array_model.specs.ArrayCalls.{IncludesSpent, WritesArray};
ghost use Rattle.array_model.specs.Says.{ArrayInvariant};
ghost use Rattle.array_model.specs.Members.{HasSlices, IsKept, Notes, Works, members_of, slice_on};
ghost use Rattle.array_model.specs.Rows.{Wrote, copies};
ghost use Rattle.array_model.proofs.Moves.{KeepsOthers};
ghost use Rattle.log_laws.specs.View.{committed};
ghost use Rattle.log_laws.specs.Kept.{LogInvariant};
ghost use Rattle.log_laws.specs.Phases.{AreLogs};
ghost use Rattle.array_core.specs.Pool.{Goes, MayCommit};
ghost use Rattle.array_core.specs.Stands.{IsStand};
ghost use Rattle.array_core.specs.Writing.{KeepsElsewhere, WritesView};
ghost use Rattle.array_core.specs.Parities.{FoundParity};
ghost use Rattle.array_core.specs.Settling.{Marks, Readies};
ghost use Rattle.array_core.specs.TruthHeld.{HoldTruth, KeepsSupers};
ghost use Rattle.array_core.specs.TruthLeft.{LeavesSupers, LeavesTruth};

use crate::members::{Spread, Stand};
use crate::reading::DATA_SECTOR;
use crate::{Array, Spent};
use commit_log::Log;
use parity::xor_into;
use rack::{Places, Rack};
use raid_map::place;

impl Array {
    /// Writes a sector of a member's data that counts. One that refuses has gone.
    fn send<R: Rack>(&mut self, rack: &mut R, position: usize, sector: u64, from: &[u8; 512])
        requires slices { HasSlices self.old (R.seen rack.old) }
        requires position { position < self.old.truth.raid_disks }
        requires counts { sector < (member_on self.old position).reach }
        requires sector { sector < self.old.truth.size }
        ensures works { Works self.old self.new (R.seen rack.old) (R.seen rack.new) (target (slice_on self.old position) (data_sector + sector) from.now ∷ []) }
        ensures runs { R.runs rack.old rack.new }
    {
        self.rules();
        let slice = self.slice(position);
        match rack.write(slice, DATA_SECTOR + sector, from) {
            Ok(()) => {}
            Err(_) => {
                let place = self.place_on(position);
                self.note(place);
            }
        }
    }

    /// Writes a sector of a member's data, unless it has gone in this call.
    fn put<R: Rack>(&mut self, rack: &mut R, position: usize, sector: u64, from: &[u8; 512])
        requires slices { HasSlices self.old (R.seen rack.old) }
        requires position { position < self.old.truth.raid_disks }
        requires kept { IsKept self.old position }
        requires sector { sector < self.old.truth.size }
        ensures works { Works self.old self.new (R.seen rack.old) (R.seen rack.new) (target (slice_on self.old position) (data_sector + sector) from.now ∷ []) }
        ensures idle { has_gone self.old (place_at self.old position) ≡ true → (x : List ℕ)
            → Works self.old self.new (R.seen rack.old) (R.seen rack.new) (target (slice_on self.old position) (data_sector + sector) x ∷ []) }
        ensures runs { R.runs rack.old rack.new }
    {
        self.rules();
        if !self.counts(position, sector) {
            return;
        }
        self.send(rack, position, sector, from);
    }

    /// Writes a sector on all members of a whole mirror.
    fn copy_all<R: Rack>(&mut self, rack: &mut R, sector: u64, from: &[u8; 512])
        requires slices { HasSlices self.old (R.seen rack.old) }
        requires whole { is_whole_array self.old ≡ true }
        requires fresh { self.old.went ≡ [] }
        requires sector { sector < self.old.truth.size }
        ensures works { Works self.old self.new (R.seen rack.old) (R.seen rack.new) (copies (shape_of self.old) self.old.number sector from.now) }
        ensures runs { R.runs rack.old rack.new }
    {
        self.rules();
        for position in 0..self.members() {
            self.put(rack, position, sector, from);
        }
    }

    /// The parity that a row needs once a sector of it has a new value, by the old value and the old parity. The answer is false
    /// where the sector is spent. A parity whose member has gone isn't wanted.
    fn next_parity<R: Rack>(
        &mut self,
        rack: &mut R,
        at: &Stand,
        side: &Stand,
        from: &[u8; 512],
        into: &mut [u8; 512],
    ) -> bool
        requires slices { HasSlices self.old (R.seen rack.old) }
        requires at { IsStand self.old at.now }
        requires side { IsStand self.old side.now }
        ensures reads { OnlyReads (R.seen rack.old) (R.seen rack.new) }
        ensures notes { Notes self.old self.new (R.seen rack.old) (R.seen rack.new) }
        ensures runs { R.runs rack.old rack.new }
        ensures found { result ≡ true → FoundParity self.old self.new (R.seen rack.old) at.now side.now from.now into.new }
        ensures refused { result ≡ false → spent_with (wanting at.now.sector (members_of self.new)) (nat_lt (row_at at.now.sector) self.new.resync) ≡ true }
    {
        let mut old = [0; 512];
        if !self.find(rack, at, &mut old) {
            return false;
        }
        self.own(rack, side, into);
        xor_into(into, &old);
        xor_into(into, from);
        true
    }

    /// Writes a sector of a whole RAID-5 array, and the parity of its row.
    fn change<R: Rack>(&mut self, rack: &mut R, x: u64, from: &[u8; 512])
        requires slices { HasSlices self.old (R.seen rack.old) }
        requires whole { is_whole_array self.old ≡ true }
        requires fresh { self.old.went ≡ [] }
        requires layout { final_layout self.old.truth ≡ parity self.old.truth.raid_disks }
        requires sector { x < sectors_of self.old }
        ensures wrote { Wrote self.old self.new (R.seen rack.old) (R.seen rack.new) x from.now }
        ensures runs { R.runs rack.old rack.new }
    {
        self.rules();
        let at = self.stand(x);
        let side = self.parity_stand(x);
        let mut parity = [0; 512];
        if !self.next_parity(rack, &at, &side, from, &mut parity) {
            return;
        }
        // A stop between the two leaves a wrong parity, in a row that the mark leaves to resync; no member is missing.
        self.put(rack, at.position, at.sector, from);
        self.put(rack, side.position, at.sector, &parity);
    }

    /// Writes the row of a sector of a whole array past the log.
    fn write_row<R: Rack>(&mut self, rack: &mut R, sector: u64, from: &[u8; 512])
        requires slices { HasSlices self.old (R.seen rack.old) }
        requires whole { is_whole_array self.old ≡ true }
        requires fresh { self.old.went ≡ [] }
        requires sector { sector < sectors_of self.old }
        ensures wrote { Wrote self.old self.new (R.seen rack.old) (R.seen rack.new) sector from.now }
        ensures runs { R.runs rack.old rack.new }
    {
        self.rules();
        if self.mirrors() {
            self.copy_all(rack, sector, from);
        } else {
            self.change(rack, sector, from);
        }
    }

    /// Writes a sector of a whole array whose mark is durable, past the log. A member that answers `Gone` is missing from then on,
    /// and the others have the whole row. The sector is refused exactly where it is spent after that.
    pub(crate) fn write_marked<R: Rack>(
        &mut self,
        rack: &mut R,
        sector: u64,
        from: &[u8; 512],
    ) -> Result<(), Spent>
        requires slices { HasSlices self.old (R.seen rack.old) }
        requires whole { is_whole_array self.old ≡ true }
        requires marked { self.old.marked ≡ true }
        requires fresh { self.old.went ≡ [] }
        requires sector { sector < sectors_of self.old }
        ensures writes { (s : State) (vals : ℕ → Values) (spent : ℕ → Bool) → IncludesSpent self.new spent
            → WritesArray s self.old self.new spent (R.seen rack.old) (R.seen rack.new) (shape_of self.old) vals sector from.now }
        ensures notes { Notes self.old self.new (R.seen rack.old) (R.seen rack.new) }
        ensures others { KeepsOthers self.old.number (R.seen rack.old) (R.seen rack.new) }
        ensures elsewhere { (on : List ℕ) → KeepsElsewhere false self.old on (R.seen rack.old) (R.seen rack.new) }
        ensures supers { KeepsSupers (R.seen rack.old) (R.seen rack.new) }
        ensures goes { Goes (R.seen rack.old) (R.seen rack.new) }
        ensures runs { R.runs rack.old rack.new }
        ensures served { OnOk result (spent_in self.new sector ≡ false) }
        ensures refused { IfErr result (λ e. (e.sector ≡ sector) × (spent_in self.new sector ≡ true)) }
    {
        self.rules();
        self.write_row(rack, sector, from);
        self.answer(sector)
    }

    /// Writes a sector on the first member of a mirror that counts there, if one does.
    fn write_first<R: Rack>(&mut self, rack: &mut R, sector: u64, from: &[u8; 512])
        requires slices { HasSlices self.old (R.seen rack.old) }
        requires sector { sector < self.old.truth.size }
        requires alone { is_alone self.old ≡ true }
        ensures wrote { Wrote self.old self.new (R.seen rack.old) (R.seen rack.new) sector from.now }
        ensures elsewhere { (on : List ℕ) → KeepsElsewhere false self.old on (R.seen rack.old) (R.seen rack.new) }
        ensures runs { R.runs rack.old rack.new }
    {
        self.rules();
        let members = self.truth.raid_disks;
        match self.first(members, sector) {
            Some(position) => self.send(rack, position, sector, from),
            None => {}
        }
    }

    /// Writes a sector of a mirror of which one member at most is left, past the log: it is one sector. The sector is refused
    /// exactly where it is spent after that.
    fn write_alone<R: Rack>(
        &mut self,
        rack: &mut R,
        sector: u64,
        from: &[u8; 512],
    ) -> Result<(), Spent>
        requires slices { HasSlices self.old (R.seen rack.old) }
        requires sector { sector < sectors_of self.old }
        requires alone { is_alone self.old ≡ true }
        ensures writes { (s : State) (vals : ℕ → Values) (spent : ℕ → Bool) → IncludesSpent self.new spent → self.old.went ≡ []
            → WritesArray s self.old self.new spent (R.seen rack.old) (R.seen rack.new) (shape_of self.old) vals sector from.now }
        ensures notes { Notes self.old self.new (R.seen rack.old) (R.seen rack.new) }
        ensures others { KeepsOthers self.old.number (R.seen rack.old) (R.seen rack.new) }
        ensures elsewhere { (on : List ℕ) → KeepsElsewhere false self.old on (R.seen rack.old) (R.seen rack.new) }
        ensures supers { KeepsSupers (R.seen rack.old) (R.seen rack.new) }
        ensures leaves { LeavesSupers self.old.number (R.seen rack.old) (R.seen rack.new) }
        ensures goes { Goes (R.seen rack.old) (R.seen rack.new) }
        ensures runs { R.runs rack.old rack.new }
        ensures served { OnOk result (spent_in self.new sector ≡ false) }
        ensures refused { IfErr result (λ e. (e.sector ≡ sector) × (spent_in self.new sector ≡ true)) }
    {
        self.rules();
        self.write_first(rack, sector, from);
        self.answer(sector)
    }

    /// Makes it durable on all members that each row is left to resync, with one more event, so that rows may be written past the
    /// log. The array is marked where nobody went.
    fn mark<R: Rack>(&mut self, rack: &mut R)
        requires slices { HasSlices self.old (R.seen rack.old) }
        ensures marks { Marks self.old self.new (R.seen rack.old) (R.seen rack.new) }
        ensures runs { R.runs rack.old rack.new }
    {
        self.unsync_truth();
        // A stop amid the superblocks leaves all rows to resync by the first of them, or none: the members agree still.
        // It is durable on all members before a row is written: a stop amid such a write finds it.
        self.renew_supers(rack);
        self.mark_if_all();
    }

    /// Whether rows may be written past the log: the array is whole, nobody has gone, and it is marked, if need be now.
    fn is_ready<R: Rack>(&mut self, rack: &mut R) -> bool
        requires slices { HasSlices self.old (R.seen rack.old) }
        ensures ready { Readies self.old self.new (R.seen rack.old) (R.seen rack.new) result }
        ensures runs { R.runs rack.old rack.new }
    {
        if !self.is_whole() || self.has_lost() {
            return false;
        }
        if self.is_marked() {
            return true;
        }
        self.mark(rack);
        self.is_marked()
    }

    /// Writes a sector. A whole array is marked first, once in a run: it is durable on all members that each row is left to resync.
    /// Then its row is written past the log; a mirror with one member writes that member alone; and any other row is changed by
    /// one commit of the log, on the places that aren't marked missing. Whoever answers `Gone` is missing from then on, and the
    /// others have the whole row. The sector is refused exactly where it is spent after that, and no other sector has changed.
    pub fn write<R: Rack>(
        &mut self,
        rack: &mut R,
        log: &mut Log,
        on: &Places,
        sector: u64,
        from: &[u8; 512],
    ) -> Result<(), Spent>
        requires slices { HasSlices self.old (R.seen rack.old) }
        requires disks { (R.seen rack.old).disks ≡ 272 }
        requires logs { AreLogs (R.seen rack.old).sectors on.now.items }
        requires empty { log.old.added ≡ [] }
        requires sector { sector < sectors_of self.old }
        ensures writes { (s : State) (vals : ℕ → Values) (spent : ℕ → Bool) → IncludesSpent self.new spent
            → MayCommit s self.old self.new log.old.number on.now.items (R.seen rack.old)
            → WritesArray s self.old self.new spent (R.seen rack.old) (R.seen rack.new) (shape_of self.old) vals sector from.now }
        ensures kept { (s : State) → MayCommit s self.old self.new log.old.number on.now.items (R.seen rack.old)
            → LogInvariant s log.new.number (has_gone self.new) (R.seen rack.new) }
        ensures view { WritesView self.old self.new (R.seen rack.old) (R.seen rack.new) }
        ensures elsewhere { KeepsElsewhere false self.old on.now.items (R.seen rack.old) (R.seen rack.new) }

        // Superblocks that said the array's truth do so after it.
        ensures truth { HoldTruth self.old (R.seen rack.old) → HoldTruth self.new (R.seen rack.new) }

        // Where the array isn't whole, its truth stays in whatever a stop leaves.
        ensures leaves { (s : State) (vals : ℕ → Values) (spent : ℕ → Bool) → IncludesSpent self.new spent
            → MayCommit s self.old self.new log.old.number on.now.items (R.seen rack.old) → is_whole_array self.old ≡ false
            → LeavesTruth s self.old.number (λ t. ⊥) (ArrayInvariant s (shape_of self.old) self.old vals spent (R.seen rack.old)) (R.seen rack.old) (R.seen rack.new) }
        ensures goes { Goes (R.seen rack.old) (R.seen rack.new) }
        ensures log { (log.new ≡ log.old) ⊎ (log.new ≡ committed log.old) }
        ensures runs { R.runs rack.old rack.new }
        ensures served { OnOk result (spent_in self.new sector ≡ false) }
        ensures refused { IfErr result (λ e. (e.sector ≡ sector) × (spent_in self.new sector ≡ true)) }
    {
        self.rules();
        if self.is_alone() {
            return self.write_alone(rack, sector, from);
        }
        let whole = self.is_whole();
        self.truth_rules();
        let ready = self.is_ready(rack);
        self.rules();
        if ready {
            return self.write_marked(rack, sector, from);
        }
        // After a stop no resync would mend this row, as where a member is missing: one commit has all of it.
        self.write_logged(rack, log, on, whole, sector, from)
    }
}
