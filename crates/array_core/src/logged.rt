//! Rows that are changed by one commit of the log.

ghost use Rattle.std.specs.Prelude.{◌≡◌, ◌⊎◌, ◌<◌, ◌≤◌, ◌+◌, ◌++◌, ◌||◌, ℕ, Bool, List, [], ◌∷◌, length, nat_lt, true, false, OnOk, IfErr};
ghost use Rattle.rack.specs.Values.{Values};
ghost use Rattle.pool_state.specs.declared.contents.State.{State};
ghost use Rattle.rack.specs.Sequences.{OnlyReads};
ghost use Rattle.array_image.specs.Stripes.{mirror, parity, sector_in, position_in};
ghost use Rattle.array_image.specs.Arrays.{layout_at};
ghost use Rattle.raid_map.specs.LeftSymmetric.{parity_at, row_at};
ghost use Rattle.array_image.specs.Spent.{wanting, spent_with};
ghost use Rattle.array_model.specs.View.{View, has_gone, member_on, place_at, sectors_of, shape_of, spent_in};
ghost use Rattle.array_model.specs.Says.{ArrayInvariant, ImageShowsArray};
ghost use Rattle.array_model.specs.ArrayCalls.{IncludesSpent, appended_at};
ghost use Rattle.array_model.proofs.Moves.{CallRefines};
ghost use Rattle.array_model.specs.Members.{HasSlices, Notes, members_of};
ghost use Rattle.log_laws.specs.View.{committed, most_sectors};
ghost use Rattle.log_laws.specs.Kept.{LogInvariant};
ghost use Rattle.log_laws.specs.Phases.{AreLogs};
ghost use Rattle.array_core.specs.Stands.{IsStand, layout_of};
ghost use Rattle.array_core.specs.Pool.{Goes, MayLog};
ghost use Rattle.array_core.specs.Writing.{Base, KeepsElsewhere};
ghost use Rattle.array_core.specs.TruthHeld.{KeepsSupers};
ghost use Rattle.array_core.specs.TruthLeft.{LeavesSupers};
ghost use Rattle.array_core.specs.Logging.{HasAll, MakesParity, Stages, StagesChange, due_copies, is_due, one_if, sector_target};

use crate::members::{Spread, Stand};
use crate::reading::DATA_SECTOR;
use crate::{Array, Spent};
use commit_log::{Log, Target};
use parity::xor_into;
use rack::{Places, Rack};
use raid_map::place;

impl Array {
    /// Whether a member's sector is due: it counts there, or all members did when the call began.
    fn is_due(&self, all: bool, position: usize, sector: u64) -> bool
        requires { position < self.now.truth.raid_disks }
        ensures { result ≡ is_due all self.now position sector }
    {
        all || self.counts(position, sector)
    }

    /// Adds a sector of a member's data to the log, if it is due.
    fn stage_if(&self, log: &mut Log, due: bool, position: usize, sector: u64, from: &[u8; 512])
        requires position { position < self.now.truth.raid_disks }
        requires sector { sector < self.now.truth.size }
        requires room { length log.old.added < most_sectors }
        ensures { log.new ≡ record log.old { added = log.old.added ++ one_if due (sector_target self.now position sector from.now) } }
    {
        self.rules();
        if !due {
            return;
        }
        let at = Target {
            disk: self.slice(position),
            sector: DATA_SECTOR + sector,
        };
        log.add(at, from);
    }

    /// Adds a sector of a mirror to the log, for the first members that are due.
    fn stage_copies(&self, log: &mut Log, all: bool, members: u32, sector: u64, from: &[u8; 512])
        requires members { members ≤ self.now.truth.raid_disks }
        requires sector { sector < self.now.truth.size }
        requires empty { log.old.added ≡ [] }
        ensures { log.new ≡ record log.old { added = due_copies all self.now sector from.now members } }
    {
        self.rules();
        for position in 0..members as usize {
            let due = self.is_due(all, position, sector);
            self.stage_if(log, due, position, sector, from);
        }
    }

    /// The parity that a row needs for a new value of a sector, by the old value and the old parity, each from its member or from
    /// the others. The answer is false where the row is spent.
    fn row_parity<R: Rack>(
        &mut self,
        rack: &mut R,
        at: &Stand,
        side: &Stand,
        from: &[u8; 512],
        into: &mut [u8; 512],
    ) -> bool
        requires slices { HasSlices self.old (R.seen rack.old) }
        requires at { IsStand self.old at.now }
        requires side { IsStand self.old side.now }
        ensures reads { OnlyReads (R.seen rack.old) (R.seen rack.new) }
        ensures notes { Notes self.old self.new (R.seen rack.old) (R.seen rack.new) }
        ensures runs { R.runs rack.old rack.new }
        ensures found { result ≡ true → MakesParity self.old self.new (R.seen rack.old) at.now side.now from.now into.new }
        ensures refused { result ≡ false → side.now.sector ≡ at.now.sector → spent_with (wanting at.now.sector (members_of self.new)) (nat_lt (row_at at.now.sector) self.new.resync) ≡ true }
    {
        let mut old = [0; 512];
        if !self.find(rack, at, &mut old) {
            return false;
        }
        if !self.find(rack, side, into) {
            return false;
        }
        xor_into(into, &old);
        xor_into(into, from);
        true
    }

    /// Where the parity of a row stands.
    fn side_stand(&self, x: u64, members: u32) -> Stand
        requires sector { x < sectors_of self.now }
        requires layout { layout_at (shape_of self.now) x ≡ parity members }
        ensures spread { layout_of result.spread ≡ parity members }
        ensures position { result.position ≡ parity_at members result.sector }
        ensures sector { result.sector ≡ sector_in (layout_at (shape_of self.now) x) x }
        ensures stand { IsStand self.now result }
    {
        self.rules();
        let spot = place(members, x);
        Stand {
            spread: Spread::Parity { members },
            position: spot.parity as usize,
            sector: spot.sector,
        }
    }

    /// Adds a sector of RAID-5 and the parity of its row to the log, each if it is due. The answer is false where the row is spent.
    fn stage_change<R: Rack>(
        &mut self,
        rack: &mut R,
        log: &mut Log,
        all: bool,
        at: &Stand,
        side: &Stand,
        from: &[u8; 512],
    ) -> bool
        requires slices { HasSlices self.old (R.seen rack.old) }
        requires at { IsStand self.old at.now }
        requires side { IsStand self.old side.now }
        requires same { side.now.sector ≡ at.now.sector }
        requires empty { log.old.added ≡ [] }
        ensures staged { StagesChange all self.old self.new (R.seen rack.old) (R.seen rack.new) at.now side.now from.now result log.new.added }
        ensures log { log.new ≡ record log.old { added = log.new.added } }
        ensures runs { R.runs rack.old rack.new }
    {
        let own = self.is_due(all, at.position, at.sector);
        if !self.is_due(all, side.position, at.sector) {
            self.stage_if(log, own, at.position, at.sector, from);
            return true;
        }
        let mut parity = [0; 512];
        if !self.row_parity(rack, at, side, from, &mut parity) {
            return false;
        }
        self.stage_if(log, own, at.position, at.sector, from);
        self.stage_if(log, true, side.position, at.sector, &parity);
        true
    }

    /// Adds what a write of a sector changes in its row to the log: copies, or the sector and its parity, on the members where they
    /// are due. The answer is false where the sector is spent.
    fn stage_row<R: Rack>(
        &mut self,
        rack: &mut R,
        log: &mut Log,
        all: bool,
        x: u64,
        from: &[u8; 512],
    ) -> bool
        requires slices { HasSlices self.old (R.seen rack.old) }
        requires sector { x < sectors_of self.old }
        requires empty { log.old.added ≡ [] }
        ensures staged { Stages all self.old self.new (R.seen rack.old) (R.seen rack.new) x from.now result log.new.added }
        ensures log { log.new ≡ record log.old { added = log.new.added } }
        ensures runs { R.runs rack.old rack.new }
    {
        self.rules();
        let at = self.stand(x);
        match at.spread {
            Spread::Mirror { members } => {
                self.stage_copies(log, all, members, x, from);
                true
            }
            Spread::Parity { members } => {
                let side = self.side_stand(x, members);
                self.stage_change(rack, log, all, &at, &side, from)
            }
        }
    }

    /// Adds what a write of a sector changes in its row to the log, unless the sector is spent before or by then.
    fn stage_unspent<R: Rack>(
        &mut self,
        rack: &mut R,
        log: &mut Log,
        all: bool,
        x: u64,
        from: &[u8; 512],
    ) -> bool
        requires slices { HasSlices self.old (R.seen rack.old) }
        requires sector { x < sectors_of self.old }
        requires empty { log.old.added ≡ [] }
        ensures staged { Stages all self.old self.new (R.seen rack.old) (R.seen rack.new) x from.now result log.new.added }
        ensures unspent { result ≡ true → spent_in self.old x ≡ false }
        ensures log { log.new ≡ record log.old { added = log.new.added } }
        ensures runs { R.runs rack.old rack.new }
    {
        if self.is_spent(x) {
            return false;
        }
        self.stage_row(rack, log, all, x, from)
    }

    /// The answer to a write: a sector is refused where it is spent.
    pub(crate) fn answer(&self, sector: u64) -> Result<(), Spent>
        requires { sector < sectors_of self.now }
        ensures served { OnOk result (spent_in self.now sector ≡ false) }
        ensures refused { IfErr result (λ e. (e.sector ≡ sector) × (spent_in self.now sector ≡ true)) }
    {
        if self.is_spent(sector) {
            Err(Spent { sector })
        } else {
            Ok(())
        }
    }

    /// Writes a sector by one commit of the log. The row is changed on the members that are due: those that count there, or all
    /// of them, as each counted when the call began. Whoever goes is missing from then on. The sector is refused exactly where it
    /// is spent after that.
    pub(crate) fn write_logged<R: Rack>(
        &mut self,
        rack: &mut R,
        log: &mut Log,
        on: &Places,
        all: bool,
        x: u64,
        from: &[u8; 512],
    ) -> Result<(), Spent>
        requires slices { HasSlices self.old (R.seen rack.old) }
        requires all { all ≡ true → HasAll self.old (R.seen rack.old) }
        requires disks { (R.seen rack.old).disks ≡ 272 }
        requires logs { AreLogs (R.seen rack.old).sectors on.now.items }
        requires sector { x < sectors_of self.old }
        requires empty { log.old.added ≡ [] }
        ensures logged { (s : State) (v : View) (vals : ℕ → Values) (spent : ℕ → Bool) → IncludesSpent self.new spent
            → Base all v self.old → MayLog s v self.new log.old.number on.now.items (R.seen rack.old)
            → CallRefines v.number (R.seen rack.old) (R.seen rack.new) (ArrayInvariant s (shape_of v) v vals spent (R.seen rack.old))
            (ImageShowsArray s v.number (shape_of v) (appended_at x from.now vals) spent)
            (ArrayInvariant s (shape_of v) self.new (appended_at x from.now vals) spent (R.seen rack.new)) }
        ensures kept { (s : State) (v : View) → Base all v self.old → MayLog s v self.new log.old.number on.now.items (R.seen rack.old)
            → LogInvariant s log.new.number (has_gone self.new) (R.seen rack.new) }
        ensures notes { Notes self.old self.new (R.seen rack.old) (R.seen rack.new) }
        ensures elsewhere { KeepsElsewhere all self.old on.now.items (R.seen rack.old) (R.seen rack.new) }
        ensures supers { KeepsSupers (R.seen rack.old) (R.seen rack.new) }
        ensures leaves { (s : State) (v : View) → Base all v self.old → MayLog s v self.new log.old.number on.now.items (R.seen rack.old)
            → LeavesSupers v.number (R.seen rack.old) (R.seen rack.new) }
        ensures goes { Goes (R.seen rack.old) (R.seen rack.new) }
        ensures log { (log.new ≡ log.old) ⊎ (log.new ≡ committed log.old) }
        ensures runs { R.runs rack.old rack.new }
        ensures served { OnOk result (spent_in self.new x ≡ false) }
        ensures refused { IfErr result (λ e. (e.sector ≡ x) × (spent_in self.new x ≡ true)) }
    {
        self.rules();
        if !self.stage_unspent(rack, log, all, x, from) {
            return Err(Spent { sector: x });
        }
        // A stop leaves the old value with the old parity or the new one with the new: what a missing member had stays.
        let lost = log.commit(rack, on);
        self.note_all(&lost);
        self.answer(x)
    }
}
