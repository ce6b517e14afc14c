//! Superblocks that are added to a log, so that its next commit writes them.

ghost use Rattle.std.specs.Prelude.{◌≡◌, ◌<◌, ◌≤◌, ◌+◌, ◌∷◌, [], ℕ, length, slice_get, true, Some};
ghost use Rattle.log_laws.specs.View.{most_sectors};
ghost use Rattle.array_image.specs.SoundArray.{first_unsynced};
ghost use Rattle.array_core.specs.declared.slots.Slot.{Slot};
ghost use Rattle.array_core.specs.Model.{is_truth};
ghost use Rattle.array_core.specs.Superblocks.{adopted};
ghost use Rattle.array_core.specs.Staging as spec;

use crate::slots::Slot;
use crate::superblocks::{adopted_slots, member_sector};
use crate::{Array, Change};
use array_model::Seat;
use commit_log::{Log, Target};
use md_super::Super;

/// The sector of a member's slice that its superblock is in.
pub(crate) const SUPER_SECTOR: u64 = 8;

impl Array {
    /// Adds the superblock of each member of a change that isn't missing to the log, by position. No rack is called, and the
    /// array stays as it is: `adopt` makes it that of the change.
    pub fn stage(&self, log: &mut Log, change: &Change)
        requires truth { is_truth change.now.truth ≡ true }
        requires room { length log.old.added + 16 ≤ most_sectors }
        ensures added { spec.AddsSupersOf (adopted change.now self.now) log.old.added log.new.added }
        ensures log { log.new ≡ record log.old { added = log.new.added } }

        // Each row that they leave to resync is left in the array of the change.
        ensures unsynced { first_unsynced change.now.truth ≤ (adopted change.now self.now).resync }
    {
        let slots = adopted_slots(self.slots.as_slice(), change);
        stage_slots(self.number, &change.truth, slots.as_slice(), log);
    }

    /// Adds those of the array as it is: the superblock of each member that isn't missing, by position.
    pub fn stage_own(&self, log: &mut Log)
        requires { length log.old.added + 16 ≤ most_sectors }
        ensures added { spec.AddsSupersOf self.now log.old.added log.new.added }
        ensures log { log.new ≡ record log.old { added = log.new.added } }
        ensures unsynced { first_unsynced self.now.truth ≤ self.now.resync }
    {
        stage_slots(self.number, &self.truth, self.slots.as_slice(), log);
    }
}

/// Adds the superblocks of these members that aren't missing.
fn stage_slots(number: u32, truth: &Super, slots: &[Slot], log: &mut Log)
    requires number { number < 16 }
    requires roles { length truth.now.roles.items ≡ 128 }
    requires places { (n : ℕ) (s : Slot) → slice_get slots.now n ≡ Some s → s.place < 16 }
    requires few { length slots.now ≤ 16 }
    requires room { length log.old.added + 16 ≤ most_sectors }
    ensures added { spec.AddsSupers number truth.now slots.now log.old.added log.new.added }
    ensures log { log.new ≡ record log.old { added = log.new.added } }
{
    for slot in slots {
        stage_slot(number, truth, slot, log);
    }
}

/// Adds the superblock of a member, if it isn't missing.
fn stage_slot(number: u32, truth: &Super, slot: &Slot, log: &mut Log)
    requires number { number < 16 }
    requires roles { length truth.now.roles.items ≡ 128 }
    requires place { slot.now.place < 16 }
    requires room { length log.old.added < most_sectors }
    ensures added { spec.AddsSupers number truth.now (slot.now ∷ []) log.old.added log.new.added }
    ensures few { length log.new.added ≤ length log.old.added + 1 }
    ensures log { log.new ≡ record log.old { added = log.new.added } }
{
    if slot.seat == Seat::Missing {
        return;
    }
    let at = Target {
        disk: 17 * slot.place + number + 1,
        sector: SUPER_SECTOR,
    };
    log.add(at, &member_sector(truth, slot));
}
