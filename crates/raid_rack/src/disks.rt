//! The arrays as disks of a rack.

ghost use Rattle.std.specs.Prelude.{◌≡◌, ℕ, ◌<◌, ◌≤◌, true, false, OnOk, IfErr, refl};
ghost use Rattle.std.proofs.Common.{◌∙◌};
ghost use Rattle.rack.specs.Seen.{Rose};
ghost use Rattle.rack.specs.Calls.{Reads, Syncs, Writes};
ghost use Rattle.raid_rack.specs.AllRuns.{AreRuns, IsOneCall, serves_same, serves_then, spares_same, spares_then};
ghost use Rattle.slice_rack.specs.SliceRack.{below_of, tables};
ghost use Rattle.slice_rack.specs.Laws.{is_sound};
ghost use Rattle.slice_rack.specs.Runs.{runs_join, runs_none};
ghost use Rattle.raid_laws.specs.Laws.{raid_sound, stops_inside};
ghost use Rattle.raid_laws.specs.Raid.{spent_of};
ghost use Rattle.raid_laws.specs.Runs.{RaidRuns, raid_runs_same, raid_runs_then};
ghost use Rattle.growth_laws.specs.Reads.{LosesAlone};
ghost use Rattle.raid_rack.specs.RaidRack.{IsFit, is_written, SliceRuns, arrays_in, raid_in, raid_seen, refused_in, slices_in, slices_seen, written_in};

use crate::arrays::RaidRack;
use rack::{Gone, Rack};

/// Disk `n` is array `n`. A drive that goes in a call is marked missing before the call returns. A sector is refused exactly where
/// it is spent after that.
impl<R: Rack> Rack for RaidRack<R> {
    ghost seen = { λ rack. raid_seen R.seen rack };

    ghost runs = { λ old new. AreRuns R.seen R.runs old new };

    ghost once = { λ old new. IsOneCall (raid_in old) (raid_in new) };

    ghost unwritten = { λ old new. (n : ℕ) → written_in new n ≡ written_in old n };

    fn disks(&self) -> u32 {
        self.arrays.state.made
    }

    fn sectors(&self, disk: u32) -> u64 {
        self.arrays.all[disk as usize].sectors()
    }

    fn read(&mut self, disk: u32, sector: u64, into: &mut [u8; 512]) -> Result<(), Gone>
        requires fit { (raid_seen R.seen self.old).fit }
        requires disk { disk < (raid_seen R.seen self.old).disks }
        requires sector { sector < (raid_seen R.seen self.old).sectors disk }
        ensures reads { Reads (raid_seen R.seen self.old) (raid_seen R.seen self.new) disk sector into.new result }
        ensures contents { LosesAlone (raid_in self.old) (raid_in self.new) (slices_seen R.seen self.old) (slices_seen R.seen self.new) }
        ensures runs { AreRuns R.seen R.runs self.old self.new }
        ensures once { IsOneCall (raid_in self.old) (raid_in self.new) }
        ensures unwritten { (n : ℕ) → written_in self.new n ≡ written_in self.old n }
    {
        self.arrays.read_array(&mut self.slices, disk, sector, into);
        self.answer(disk, sector)
    }

    fn write(&mut self, disk: u32, sector: u64, from: &[u8; 512]) -> Result<(), Gone>
        requires fit { (raid_seen R.seen self.old).fit }
        requires disk { disk < (raid_seen R.seen self.old).disks }
        requires sector { sector < (raid_seen R.seen self.old).sectors disk }
        ensures writes { Writes (raid_seen R.seen self.old) (raid_seen R.seen self.new) disk sector from.now result }
        ensures runs { AreRuns R.seen R.runs self.old self.new }
        ensures once { IsOneCall (raid_in self.old) (raid_in self.new) }
        ensures written { (n : ℕ) → (n ≡ disk → ⊥) → written_in self.new n ≡ written_in self.old n }
    {
        note_written(&mut self.written, disk);
        self.arrays
            .write_array(&mut self.slices, disk, sector, from);
        self.answer(disk, sector)
    }

    fn sync(&mut self, disk: u32) -> Result<(), Gone>
        requires fit { (raid_seen R.seen self.old).fit }
        requires disk { disk < (raid_seen R.seen self.old).disks }
        ensures syncs { Syncs (raid_seen R.seen self.old) (raid_seen R.seen self.new) disk result }
        ensures contents { LosesAlone (raid_in self.old) (raid_in self.new) (slices_seen R.seen self.old) (slices_seen R.seen self.new) }
        ensures runs { AreRuns R.seen R.runs self.old self.new }
        ensures once { IsOneCall (raid_in self.old) (raid_in self.new) }
        ensures written { (n : ℕ) → written_in self.new n ≡ written_in self.old n }
    {
        self.arrays.sync_array(&mut self.slices, disk);
        Ok(())
    }

    ghost sound = { λ rack fit traced. raid_sound (raid_in rack) (slices_seen R.seen rack) (stops_inside (tables (slices_in rack)) (R.seen (below_of (slices_in rack))))
        (is_sound (tables (slices_in rack)) (R.seen (below_of (slices_in rack))) (slices_in rack).orderly fit.running.set.fit.1
        (R.sound (below_of (slices_in rack)) fit.running.set.fit.0 traced)) };

    ghost runs_same = { λ rack. (
      runs_none (tables (slices_in rack)) (R.seen (below_of (slices_in rack))) (R.runs (below_of (slices_in rack)) (below_of (slices_in rack)))
          (R.runs_same (below_of (slices_in rack))),
      raid_runs_same (written_in rack) (raid_in rack) (slices_seen R.seen rack),
      serves_same (raid_in rack) (refused_in rack),
      spares_same (written_in rack) (slices_seen R.seen rack),
    ) };

    ghost runs_then = { λ x y z one two. (
      runs_join (tables (slices_in x)) (tables (slices_in y)) (tables (slices_in z))
          (R.seen (below_of (slices_in x))) (R.seen (below_of (slices_in y))) (R.seen (below_of (slices_in z)))
          (R.runs (below_of (slices_in x)) (below_of (slices_in y))) (R.runs (below_of (slices_in y)) (below_of (slices_in z)))
          (R.runs (below_of (slices_in x)) (below_of (slices_in z))) one.0 two.0
          (R.runs_then (below_of (slices_in x)) (below_of (slices_in y)) (below_of (slices_in z)) one.0.below two.0.below),
      raid_runs_then (written_in x) (written_in y) (written_in z) (raid_in x) (raid_in y) (raid_in z) (slices_seen R.seen x) (slices_seen R.seen y) (slices_seen R.seen z) one.1 two.1,
      serves_then (raid_in x) (raid_in y) (raid_in z) (refused_in x) (refused_in y) (refused_in z) one.1.book.same.made one.2 two.2,
      spares_then (written_in x) (written_in y) (written_in z) (raid_in x) (raid_in y) (raid_in z) (slices_seen R.seen x) (slices_seen R.seen y) (slices_seen R.seen z)
          one.1 two.1 one.3 two.3,
    ) };

    ghost unwritten_same = { λ rack n. refl };

    ghost unwritten_then = { λ x y z one two n. two n ∙ one n };
}

impl<R: Rack> RaidRack<R> {
    /// The answer of a call to a sector: it is refused, and counted, exactly where the sector is spent.
    fn answer(&mut self, disk: u32, sector: u64) -> Result<(), Gone>
        requires fit { IsFit (arrays_in self.old) (slices_seen R.seen self.old) }
        requires disk { disk < (raid_seen R.seen self.old).disks }
        requires sector { sector < (raid_seen R.seen self.old).sectors disk }
        ensures same { self.new ≡ record self.old { refused = self.new.refused } }
        ensures served { OnOk result (spent_of (raid_in self.old) disk sector ≡ false) }
        ensures refused { IfErr result (λ e. (e.disk ≡ disk) × (spent_of (raid_in self.old) disk sector ≡ true)
            × Rose (refused_in self.old disk) (refused_in self.new disk)) }
        ensures more { (n : ℕ) → refused_in self.old n ≤ refused_in self.new n }
        ensures uncounted { (n : ℕ) → (n ≡ disk → spent_of (raid_in self.old) disk sector ≡ false) → refused_in self.new n ≡ refused_in self.old n }
    {
        if !self.arrays.is_spent(disk, sector) {
            return Ok(());
        }
        self.note_refusal(disk);
        Err(Gone { disk })
    }

    /// Counts a spent answer of an array. The count stands still at its last value.
    fn note_refusal(&mut self, disk: u32)
        requires { disk < 16 }
        ensures same { self.new ≡ record self.old { refused = self.new.refused } }
        ensures rose { Rose (refused_in self.old disk) (refused_in self.new disk) }
        ensures more { (n : ℕ) → refused_in self.old n ≤ refused_in self.new n }
        ensures others { (n : ℕ) → (n ≡ disk → ⊥) → refused_in self.new n ≡ refused_in self.old n }
    {
        let count = self.refused[disk as usize];
        self.refused[disk as usize] = count.saturating_add(1);
    }
}

/// Notes that this run has written an array.
pub(crate) fn note_written(written: &mut [bool; 16], disk: u32)
    requires { disk < 16 }
    ensures noted { is_written written.new disk ≡ true }
    ensures others { (n : ℕ) → (n ≡ disk → ⊥) → is_written written.new n ≡ is_written written.old n }
{
    written[disk as usize] = true;
}
