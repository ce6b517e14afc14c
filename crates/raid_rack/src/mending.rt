//! Losses that calls met are marked: all arrays are settled, and one commit writes the marks.

ghost use Rattle.std.specs.Prelude.{◌≡◌, ◌⊎◌, ◌<◌, ◌==◌, ℕ, Bool, true, [], ◌∷◌, length};
ghost use Rattle.array_image.specs.States.{is_current};
ghost use Rattle.raid_laws.specs.Moves.{AreMarked, Mends, ChangesNoData, IsHeeded, RaisesBy, ReadsValue, SyncsOne, WritesOne, noted_at};
ghost use Rattle.array_model.specs.View.{sectors_of};
ghost use Rattle.raid_laws.specs.Settling.{SettlesTo};
ghost use Rattle.raid_laws.specs.Agreeing.{MakesAgree};
ghost use Rattle.raid_rack.specs.AllRuns.{Spares};
ghost use Rattle.raid_laws.specs.Cleaning.{Cleans, CleansAll, IsIdle};
ghost use Rattle.raid_rack.specs.RaidRack.{EndsTurn, IsRunning, raid_by};
ghost use Rattle.raid_laws.specs.Truths.{KeepsTruths, MakesTruths};
ghost use Rattle.raid_laws.specs.Unlost.{KeepsUnlost};
ghost use Rattle.raid_laws.specs.Losses as spec;
ghost use Rattle.raid_laws.specs.Raid.{Raid};
ghost use Rattle.transition_laws.specs.Losses.{IsRunOf, MakesLosses, SettlesBook};
ghost use Rattle.growth_laws.specs.Growing.{MakesClean};
ghost use Rattle.growth_laws.specs.Reads.{LosesAlone};

use crate::arrays::Arrays;
use crate::losses::{add_copies, heed_all, newly_gone, note_gone};
use crate::marks::{current_places, mark_missing};
use rack::{Places, Rack};

/// Each of 16 places goes once, and the last turn finds nobody.
const MOST_TURNS: u32 = 17;

impl Arrays {
    /// Settles all arrays: their members are synced, and their superblocks added to the log.
    pub(crate) fn settle_all<S: Rack>(&mut self, rack: &mut S)
        requires running { IsRunning self.old (S.seen rack.old) }
        requires empty { self.old.log.added ≡ [] }
        ensures settles { SettlesTo (raid_by self.old) (raid_by self.new) (S.seen rack.old) (S.seen rack.new) self.old.state.made self.new.log.added }
        ensures book { SettlesBook (raid_by self.old) (raid_by self.new) self.old.state.made (S.seen rack.old) (S.seen rack.new) }
        ensures log { self.new.log ≡ record self.old.log { added = self.new.log.added } }
        ensures same { self.new ≡ record self.old { all = self.new.all; log = self.new.log } }
        ensures running { IsRunning self.new (S.seen rack.new) }
        ensures runs { S.runs rack.old rack.new }
    {
        for n in 0..self.all.len() {
            self.all[n].settle(rack, &mut self.log);
        }
    }

    /// Marks these places, which went and aren't marked. All arrays are settled without them, and one commit on the places that
    /// are left has the marks and the superblocks. Where somebody else goes meanwhile, nothing is committed or he isn't marked yet.
    /// Where nobody is left, the marks are in this run alone.
    fn mark<S: Rack>(&mut self, rack: &mut S, lost: &Places)
        requires running { IsRunning self.old (S.seen rack.old) }
        requires lost { lost.now.items ≡ spec.newly_gone self.old.state self.old.all.items }
        requires some { 0 < length lost.now.items }
        ensures ends { EndsTurn self.old self.new (S.seen rack.old) (S.seen rack.new) }
        ensures runs { S.runs rack.old rack.new }
    {
        note_gone(self.all.as_mut_slice(), lost);
        self.log.clear();
        // A stop after the commit finds no torn row beside a missing drive: what the run wrote is durable before it.
        self.settle_all(rack);
        let gone = newly_gone(&self.state, self.all.as_slice());
        if gone.as_slice() != lost.as_slice() {
            return;
        }
        mark_missing(&mut self.state, lost);
        let on = current_places(&self.state);
        if on.is_empty() {
            return;
        }
        add_copies(&self.state, &on, &mut self.log);
        // A stop leaves no mark, or the mark on all that are left with superblocks to match: so a drive that comes back
        // is never read beside what was written without it.
        let gone = self.log.commit(rack, &on);
        note_gone(self.all.as_mut_slice(), &gone);
    }

    /// Marks whoever went, and whoever goes meanwhile: each turn but one finds another place gone.
    fn mark_all<S: Rack>(&mut self, rack: &mut S)
        requires running { IsRunning self.old (S.seen rack.old) }
        ensures moves { ChangesNoData (raid_by self.old) (raid_by self.new) (S.seen rack.old) (S.seen rack.new) }
        ensures marked { AreMarked (raid_by self.new) }
        ensures raises { RaisesBy 17 (raid_by self.old) (raid_by self.new) }
        ensures idle { AreMarked (raid_by self.old) → (self.new ≡ self.old) × (rack.new ≡ rack.old) }
        ensures supers { (AreMarked (raid_by self.old) → ⊥) → MakesAgree (raid_by self.old) (raid_by self.new) (S.seen rack.old) (S.seen rack.new) }
        ensures truths { ((self.new ≡ self.old) × (rack.new ≡ rack.old)) ⊎ MakesTruths (raid_by self.old) (raid_by self.new) (S.seen rack.old) (S.seen rack.new) }
        ensures unlost { KeepsUnlost self.old.state self.new.state (S.seen rack.old) (S.seen rack.new) }
        ensures losses { (d : Raid) → IsRunOf d (raid_by self.old) → MakesLosses d (raid_by self.old) (raid_by self.new) (S.seen rack.old) (S.seen rack.new) }
        ensures running { IsRunning self.new (S.seen rack.new) }
        ensures runs { S.runs rack.old rack.new }
    {
        for _turn in 0..MOST_TURNS {
            let lost = newly_gone(&self.state, self.all.as_slice());
            if lost.is_empty() {
                return;
            }
            self.mark(rack, &lost);
        }
    }

    /// Mends the losses that calls of the arrays met: whoever went is marked, in the images too where a drive is left, and nobody
    /// went from then on.
    pub(crate) fn mend<S: Rack>(&mut self, rack: &mut S)
        requires running { IsRunning self.old (S.seen rack.old) }
        ensures mends { Mends (raid_by self.old) (raid_by self.new) (S.seen rack.old) (S.seen rack.new) }
        ensures idle { AreMarked (raid_by self.old) → IsIdle (raid_by self.old) (raid_by self.new) × (rack.new ≡ rack.old) }
        ensures supers { (AreMarked (raid_by self.old) → ⊥) → MakesAgree (raid_by self.old) (raid_by self.new) (S.seen rack.old) (S.seen rack.new) }
        ensures raises { RaisesBy 17 (raid_by self.old) (raid_by self.new) }
        ensures truths { KeepsTruths (raid_by self.old) (raid_by self.new) (S.seen rack.old) (S.seen rack.new) }
        ensures makes { (AreMarked (raid_by self.old) → ⊥) → MakesTruths (raid_by self.old) (raid_by self.new) (S.seen rack.old) (S.seen rack.new) }
        ensures unlost { KeepsUnlost self.old.state self.new.state (S.seen rack.old) (S.seen rack.new) }
        ensures losses { (d : Raid) → IsRunOf d (raid_by self.old) → MakesLosses d (raid_by self.old) (raid_by self.new) (S.seen rack.old) (S.seen rack.new) }
        ensures running { IsRunning self.new (S.seen rack.new) }
        ensures runs { S.runs rack.old rack.new }
    {
        self.mark_all(rack);
        heed_all(self.all.as_mut_slice());
    }

    /// Writes the superblocks of all arrays anew, by one commit with the state of the next epoch: all say their array's truth then, with
    /// one more event. Whoever goes is marked; where somebody goes before the commit, the one that marks him has the superblocks.
    pub(crate) fn restate<S: Rack>(&mut self, rack: &mut S)
        requires running { IsRunning self.old (S.seen rack.old) }
        requires heeded { IsHeeded (raid_by self.old) }
        ensures mends { Mends (raid_by self.old) (raid_by self.new) (S.seen rack.old) (S.seen rack.new) }
        ensures supers { MakesAgree (raid_by self.old) (raid_by self.new) (S.seen rack.old) (S.seen rack.new) }
        ensures raises { RaisesBy 18 (raid_by self.old) (raid_by self.new) }
        ensures truths { MakesTruths (raid_by self.old) (raid_by self.new) (S.seen rack.old) (S.seen rack.new) }
        ensures running { IsRunning self.new (S.seen rack.new) }
        ensures runs { S.runs rack.old rack.new }
    {
        self.log.clear();
        self.settle_all(rack);
        let lost = newly_gone(&self.state, self.all.as_slice());
        if !lost.is_empty() {
            self.mend(rack);
            return;
        }
        heed_all(self.all.as_mut_slice());
        mark_missing(&mut self.state, &lost);
        let on = current_places(&self.state);
        if on.is_empty() {
            return;
        }
        add_copies(&self.state, &on, &mut self.log);
        // A stop leaves the superblocks that differed, which the next opening writes over, or none that differs.
        let went = self.log.commit(rack, &on);
        note_gone(self.all.as_mut_slice(), &went);
        self.mend(rack);
    }

    /// Syncs an array. Whoever goes is marked, and whoever is left has one value in each sector.
    pub(crate) fn sync_array<S: Rack>(&mut self, rack: &mut S, number: u32)
        requires running { IsRunning self.old (S.seen rack.old) }
        requires heeded { IsHeeded (raid_by self.old) }
        requires number { number < self.old.state.made }
        ensures spares { (written : ℕ → Bool) → Spares written (S.seen rack.old) (S.seen rack.new) }
        ensures syncs { SyncsOne (raid_by self.old) (raid_by self.new) (S.seen rack.old) (S.seen rack.new) number }
        ensures contents { LosesAlone (raid_by self.old) (raid_by self.new) (S.seen rack.old) (S.seen rack.new) }
        ensures raises { RaisesBy 17 (raid_by self.old) (raid_by self.new) }
        ensures truths { KeepsTruths (raid_by self.old) (raid_by self.new) (S.seen rack.old) (S.seen rack.new) }
        ensures running { IsRunning self.new (S.seen rack.new) }
        ensures runs { S.runs rack.old rack.new }
    {
        self.all[number as usize].sync(rack);
        self.mend(rack);
    }

    /// Reads a sector of an array. Whoever goes is marked. Whether the sector is spent is known after that, so no answer is given.
    pub(crate) fn read_array<S: Rack>(
        &mut self,
        rack: &mut S,
        number: u32,
        sector: u64,
        into: &mut [u8; 512],
    )
        requires running { IsRunning self.old (S.seen rack.old) }
        requires heeded { IsHeeded (raid_by self.old) }
        requires number { number < self.old.state.made }
        requires sector { sector < sectors_of ((raid_by self.old).arrays number) }
        ensures spares { (written : ℕ → Bool) → Spares written (S.seen rack.old) (S.seen rack.new) }
        ensures reads { ReadsValue (raid_by self.old) (raid_by self.new) (S.seen rack.old) (S.seen rack.new) number sector into.new }
        ensures contents { LosesAlone (raid_by self.old) (raid_by self.new) (S.seen rack.old) (S.seen rack.new) }
        ensures raises { RaisesBy 17 (raid_by self.old) (raid_by self.new) }
        ensures truths { KeepsTruths (raid_by self.old) (raid_by self.new) (S.seen rack.old) (S.seen rack.new) }
        ensures running { IsRunning self.new (S.seen rack.new) }
        ensures runs { S.runs rack.old rack.new }
    {
        let _ = self.all[number as usize].read(rack, sector, into);
        self.mend(rack);
    }

    /// Writes a sector of an array. Whoever goes is marked. Whether the sector is spent is known after that, so no answer is given.
    pub(crate) fn write_array<S: Rack>(
        &mut self,
        rack: &mut S,
        number: u32,
        sector: u64,
        from: &[u8; 512],
    )
        requires running { IsRunning self.old (S.seen rack.old) }
        requires heeded { IsHeeded (raid_by self.old) }
        requires number { number < self.old.state.made }
        requires sector { sector < sectors_of ((raid_by self.old).arrays number) }
        ensures spares { (written : ℕ → Bool) → written number ≡ true → Spares written (S.seen rack.old) (S.seen rack.new) }
        ensures writes { WritesOne (raid_by self.old) (raid_by self.new) (S.seen rack.old) (S.seen rack.new) number sector from.now }
        ensures raises { RaisesBy 18 (raid_by self.old) (raid_by self.new) }
        ensures truths { KeepsTruths (raid_by self.old) (raid_by self.new) (S.seen rack.old) (S.seen rack.new) }
        ensures running { IsRunning self.new (S.seen rack.new) }
        ensures runs { S.runs rack.old rack.new }
    {
        let on = current_places(&self.state);
        self.log.clear();
        let array = &mut self.all[number as usize];
        let _ = array.write(rack, &mut self.log, &on, sector, from);
        let _places = array.went();
        self.mend(rack);
    }

    /// Cleans an array. Whoever goes is marked, and whoever is left has one value in each sector. Where no drive refuses a call, its
    /// superblocks leave no rows to resync but those that are left in it.
    pub(crate) fn clean_array<S: Rack>(&mut self, rack: &mut S, number: usize)
        requires running { IsRunning self.old (S.seen rack.old) }
        requires heeded { IsHeeded (raid_by self.old) }
        requires number { number < self.old.state.made }
        ensures cleans { Cleans (λ n. n == number) (raid_by self.old) (raid_by self.new) (S.seen rack.old) (S.seen rack.new) }
        ensures contents { MakesClean number (raid_by self.old) (raid_by self.new) (S.seen rack.old) (S.seen rack.new) }
        ensures unlost { KeepsUnlost self.old.state self.new.state (S.seen rack.old) (S.seen rack.new) }
        ensures raises { RaisesBy 18 (raid_by self.old) (raid_by self.new) }
        ensures truths { KeepsTruths (raid_by self.old) (raid_by self.new) (S.seen rack.old) (S.seen rack.new) }
        ensures running { IsRunning self.new (S.seen rack.new) }
        ensures runs { S.runs rack.old rack.new }
    {
        self.all[number].clean(rack);
        self.mend(rack);
    }

    /// Cleans all arrays, one after the other.
    pub(crate) fn clean_all<S: Rack>(&mut self, rack: &mut S)
        requires running { IsRunning self.old (S.seen rack.old) }
        requires heeded { IsHeeded (raid_by self.old) }
        ensures cleans { CleansAll (raid_by self.old) (raid_by self.new) (S.seen rack.old) (S.seen rack.new) }
        ensures unlost { KeepsUnlost self.old.state self.new.state (S.seen rack.old) (S.seen rack.new) }
        ensures raises { RaisesBy 288 (raid_by self.old) (raid_by self.new) }
        ensures truths { KeepsTruths (raid_by self.old) (raid_by self.new) (S.seen rack.old) (S.seen rack.new) }
        ensures running { IsRunning self.new (S.seen rack.new) }
        ensures runs { S.runs rack.old rack.new }
    {
        for number in 0..self.all.len() {
            self.clean_array(rack, number);
        }
    }

    /// Loses the drive of a place, whose member is missing in each array from then on, and marks it.
    pub(crate) fn lose_place<S: Rack>(&mut self, rack: &mut S, place: u32)
        requires running { IsRunning self.old (S.seen rack.old) }
        requires place { is_current self.old.state place ≡ true }
        ensures mends { Mends (noted_at (place ∷ []) (raid_by self.old)) (raid_by self.new) (S.seen rack.old) (S.seen rack.new) }
        ensures raises { RaisesBy 17 (raid_by self.old) (raid_by self.new) }
        ensures truths { KeepsTruths (raid_by self.old) (raid_by self.new) (S.seen rack.old) (S.seen rack.new) }
        ensures running { IsRunning self.new (S.seen rack.new) }
        ensures runs { S.runs rack.old rack.new }
    {
        note_gone(self.all.as_mut_slice(), &one_place(place));
        self.mend(rack);
    }
}

/// A list of one place.
fn one_place(place: u32) -> Places
    ensures { result.items ≡ place ∷ [] }
{
    let mut places = Places::new();
    places.push(place);
    places
}
