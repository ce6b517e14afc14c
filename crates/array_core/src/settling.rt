//! Superblocks that say how the array stands once its members are synced.

ghost use Rattle.std.specs.Prelude.{◌≡◌, ◌≤◌, ◌+◌, ◌<◌, ℕ, Bool, List, false, length};
ghost use Rattle.rack.specs.Values.{Values};
ghost use Rattle.rack.specs.Sequences.{OnlyReads};
ghost use Rattle.pool_state.specs.declared.contents.State.{State};
ghost use Rattle.array_image.specs.Arrays.{Shape};
ghost use Rattle.array_image.specs.Held.{IsSynced};
ghost use Rattle.array_image.specs.SoundArray.{array_fields};
ghost use Rattle.log_laws.specs.Kept.{LogInvariant};
ghost use Rattle.array_model.specs.View.{IsNoted, shape_of};
ghost use Rattle.array_model.specs.ArrayCalls.{IncludesSpent, Keeping, SyncsArray};
ghost use Rattle.array_model.specs.Members.{HasSlices};
ghost use Rattle.array_model.specs.Says.{ArrayInvariant};
ghost use Rattle.log_laws.specs.View.{most_sectors};
ghost use Rattle.array_core.specs.Settling.{Cleans, IsOwnSector, KeepsOthers, Settles, WritesSuper, WritesSupers};
ghost use Rattle.array_core.specs.Pool.{Goes, MayRenew};
ghost use Rattle.array_core.specs.Staging.{AddsSupersOf};
ghost use Rattle.array_core.specs.Superblocks.{settled};
ghost use Rattle.array_core.specs.TruthHeld.{HoldTruth};
ghost use Rattle.array_core.specs.TruthLeft.{LeavesTruth};
ghost use Rattle.array_core.specs.Writing.{KeepsElsewhere};

use crate::Array;
use crate::staging::SUPER_SECTOR;
use crate::superblocks::member_sector;
use commit_log::Log;
use rack::{Rack, write_durably};

impl Array {
    /// Syncs the members and adds their superblocks to the log, with one more event. They leave the rows to resync that are left
    /// in this run, or in a young array to zero, and no others; a mark that this run made is taken back. It stands in the images
    /// once the log is committed.
    pub fn settle<R: Rack>(&mut self, rack: &mut R, log: &mut Log)
        requires slices { HasSlices self.old (R.seen rack.old) }
        requires room { length log.old.added + 16 ≤ most_sectors }
        ensures settles { (s : State) (durable : Shape) (vals : ℕ → Values) (spent : ℕ → Bool) → IncludesSpent self.new spent
            → SyncsArray s self.old self.new spent (R.seen rack.old) (R.seen rack.new) durable vals }
        ensures reads { OnlyReads (R.seen rack.old) (R.seen rack.new) }
        ensures view { Settles self.old self.new (R.seen rack.old) (R.seen rack.new) }
        ensures added { AddsSupersOf self.new log.old.added log.new.added }
        ensures log { log.new ≡ record log.old { added = log.new.added } }
        ensures runs { R.runs rack.old rack.new }
    {
        // A stop after the commit that takes the mark back finds rows that agree: they are durable before it.
        self.sync(rack);
        self.settle_truth();
        self.stage_own(log);
    }

    /// Syncs the members and writes their superblocks directly, one after the other, with one more event and the rows to resync
    /// that are left in this run. Where a place has gone by then no superblock is written, nor where the truth says already what
    /// they would. No value changes, and a mark that this run made is taken back.
    pub fn clean<R: Rack>(&mut self, rack: &mut R)
        requires slices { HasSlices self.old (R.seen rack.old) }
        ensures cleans { (s : State) (vals : ℕ → Values) (spent : ℕ → Bool) → IncludesSpent self.new spent → MayRenew s self.old (R.seen rack.old)
            → Keeping s self.old self.new spent (R.seen rack.old) (R.seen rack.new) (shape_of self.old) vals }
        ensures view { Cleans self.old self.new (R.seen rack.old) (R.seen rack.new) }
        ensures noted { IsNoted self.old self.new (R.seen rack.old) (R.seen rack.new) }
        ensures goes { Goes (R.seen rack.old) (R.seen rack.new) }
        ensures elsewhere { (on : List ℕ) → KeepsElsewhere false self.old on (R.seen rack.old) (R.seen rack.new) }

        // Superblocks that said the array's truth do so after it.
        ensures truth { HoldTruth self.old (R.seen rack.old) → HoldTruth self.new (R.seen rack.new) }

        // What stops leave has the truth that it had, or the one that leaves the rows to resync that are left in this run.
        ensures leaves { (s : State) (vals : ℕ → Values) (spent : ℕ → Bool) → IncludesSpent self.new spent → MayRenew s self.old (R.seen rack.old)
            → LeavesTruth s self.old.number (λ t. array_fields t ≡ array_fields (settled self.old).truth)
            (ArrayInvariant s (shape_of self.old) self.old vals spent (R.seen rack.old)) (R.seen rack.old) (R.seen rack.new) }

        // No other sectors than those of superblocks are written, and whoever is left has one value in each sector.
        ensures others { KeepsOthers (R.seen rack.old) (R.seen rack.new) }
        ensures settled { (s : State) (durable : Shape) (vals : ℕ → Values) (spent : ℕ → Bool) → IncludesSpent self.new spent
            → ArrayInvariant s durable self.old vals spent (R.seen rack.old) → IsSynced (shape_of self.new) self.new.number (R.seen rack.new).held }
        ensures kept { (s : State) (number : ℕ) → LogInvariant s number (λ place. false) (R.seen rack.old) → LogInvariant s number (λ place. false) (R.seen rack.new) }
        ensures runs { R.runs rack.old rack.new }
    {
        self.rules();
        self.truth_rules();
        // A stop amid the superblocks below may go by one that leaves no row to resync: the rows are durable before.
        self.sync(rack);
        self.rules();
        if self.has_lost() || self.is_settled() {
            return;
        }
        self.settle_truth();
        self.unsynced_rows();
        self.rules();
        self.renew_supers(rack);
    }

    /// The sector of a member's superblock.
    fn own_sector(&self, position: usize) -> [u8; 512]
        requires { position < self.now.truth.raid_disks }
        ensures { IsOwnSector self.now position result }
    {
        let slot = self.slot(position);
        member_sector(&self.truth, &slot)
    }

    /// Writes the superblock of a member and syncs it, unless it is missing. One that refuses has gone.
    fn renew_super<R: Rack>(&mut self, rack: &mut R, position: usize)
        requires slices { HasSlices self.old (R.seen rack.old) }
        requires position { position < self.old.truth.raid_disks }
        ensures writes { WritesSuper self.old self.new (R.seen rack.old) (R.seen rack.new) position }
        ensures runs { R.runs rack.old rack.new }
    {
        self.rules();
        if self.is_missing(position) {
            return;
        }
        let slice = self.slice(position);
        let sector = self.own_sector(position);
        match write_durably(rack, slice, SUPER_SECTOR, &sector) {
            Ok(()) => {}
            Err(_) => {
                let place = self.place_on(position);
                self.note(place);
            }
        }
    }

    /// Writes the superblocks of the members and syncs them, one after the other.
    pub(crate) fn renew_supers<R: Rack>(&mut self, rack: &mut R)
        requires slices { HasSlices self.old (R.seen rack.old) }
        ensures writes { WritesSupers self.old self.new (R.seen rack.old) (R.seen rack.new) self.old.truth.raid_disks }
        ensures runs { R.runs rack.old rack.new }
    {
        self.rules();
        for position in 0..self.members() {
            self.renew_super(rack, position);
        }
    }
}
