//! The rack of a pool's arrays, made of the slices of its drives.

ghost use Rattle.std.specs.Prelude.{◌≡◌, ◌⊎◌, ◌<◌, ◌^◌, ℕ, [], slice_get, true, false, Some, None};
ghost use Rattle.std.specs.List.{list_any};
ghost use Rattle.slice_rack.specs.SliceRack.{tables, below_of};
ghost use Rattle.slice_rack.specs.Sliced.{slices_of};
ghost use Rattle.slice_rack.specs.Slices.{seat_of, sectors_of as slice_sectors};
ghost use Rattle.array_image.specs.States.{current_places};
ghost use Rattle.log_laws.specs.View.{names};
ghost use Rattle.log_laws.specs.Phases.{AreLogs};
ghost use Rattle.array_model.specs.View.{View, IsArray, IsSameArray, sectors_of};
ghost use Rattle.lvm_group.specs.Shown.{total};
ghost use Rattle.raid_laws.specs.Agreeing.{MakesAgree};
ghost use Rattle.raid_laws.specs.Truths.{KeepsTruths, MakesTruths};
ghost use Rattle.raid_laws.specs.Book.{OnlyMarksSince};
ghost use Rattle.raid_laws.specs.Moves.{AreMarked, Mends, RaisesBy};
ghost use Rattle.raid_rack.specs.RaidRack.{IsFit, IsRunning, SliceRuns, arrays_in, raid_in, raid_seen, refused_in, slices_in, slices_seen, written_in};
ghost use Rattle.log_laws.specs.Opening.{ReplayCall};
ghost use Rattle.pool_image.specs.Drives.{Found};
ghost use Rattle.pool_scan.specs.Scanning.{IsUnfaulted};
ghost use Rattle.pool_check.specs.Checking.{IsChecked};
ghost use Rattle.pool_check.specs.Drives.{flag_by, seats_by};
ghost use Rattle.pool_check.specs.Settling.{IsSettled, IsTrueOf, KeepsTable};
ghost use Rattle.pool_check.specs.Refusing.{is_well};
ghost use Rattle.assembler_laws.specs.Holding.{HoldPool, HoldsArrays};
ghost use Rattle.assembler_laws.specs.Marking.{AreMarkedFor};
ghost use Rattle.assembler_laws.specs.Members.{AreMembers};
ghost use Rattle.assembler_laws.specs.Raising.{RaisesOver};
ghost use Rattle.assembler.specs.Rested.{HoldRested};
ghost use Rattle.assembler.specs.Volume.{AllLive, MarksAbsent};
ghost use Rattle.assembler_laws.specs.Writing.{IsSlicedOrTable};
ghost use Rattle.pool_model.specs.Left.{NoStraySuperblock};
ghost use Rattle.pool_model.specs.Openings.{RecoversInOpening};
ghost use Rattle.rack.specs.Moments.{Leaves};
ghost use Rattle.rack.specs.Sequences.{WritesOnly};

use crate::checks::Members;
use crate::mending::mend_tables;
use array_core::Array;
use commit_log::Log;
use pool_state::State;
use rack::{Places, Rack};
use raid_rack::{RaidRack, current_places, note_gone, restart_rebuilds};
use slice_rack::SliceRack;

/// What holds of each array.
fn rules(arrays: &[Array])
    ensures { (n : ℕ) (v : View) → slice_get arrays.now n ≡ Some v → IsArray v }
{
    for number in 0..arrays.len() {
        arrays[number].rules();
    }
}

/// Closes the gates that are open where no current place is absent; else the next commit takes their place, so that a drive that
/// comes back doesn't pass for one that has what was written meanwhile. Answers the places that are absent, or that went.
fn close_gates<R: Rack>(
    slices: &mut SliceRack<R>,
    log: &mut Log,
    state: &State,
    absent: Places,
) -> Places
    requires fit { (slices_of (tables slices.old) (R.seen (below_of slices.old))).fit }
    requires logs { absent.items ≡ [] → AreLogs (slice_sectors (tables slices.old)) (current_places state.now) }
    ensures runs { SliceRuns R.seen R.runs slices.old slices.new }
    ensures more { (p : ℕ) → names absent.items p ≡ true → names result.items p ≡ true }
    ensures number { log.new.number ≡ log.old.number }
    ensures closes { absent.items ≡ [] → ReplayCall log.old (current_places state.now) result.items (slices_of (tables slices.old) (R.seen (below_of slices.old))) (slices_of (tables slices.new) (R.seen (below_of slices.new))) }
    // Where a place is absent nothing is called.
    ensures still { (absent.items ≡ [] → ⊥) → slices.new ≡ slices.old }
    ensures same { (absent.items ≡ [] → ⊥) → result.items ≡ absent.items }
{
    if !absent.is_empty() {
        return absent;
    }
    log.replay(slices, &current_places(state))
}

/// Whether an array has a superblock that is stale.
fn has_stale(stale: &[bool]) -> bool
    ensures { result ≡ list_any (λ flag. flag) stale.now }
{
    stale.iter().any(|flag| *flag)
}

/// Marks the places that are noted as gone in the arrays, and makes the superblocks of each array agree where one is stale. The commit of
/// a mark has all superblocks, so they agree after it too.
fn mark_gone<R: Rack>(raid: &mut RaidRack<R>, is_stale: bool)
    requires running { IsRunning (arrays_in raid.old) (slices_seen R.seen raid.old) }
    ensures mends { Mends (raid_in raid.old) (raid_in raid.new) (slices_seen R.seen raid.old) (slices_seen R.seen raid.new) }
    ensures supers { (is_stale ≡ true) ⊎ (AreMarked (raid_in raid.old) → ⊥)
        → MakesAgree (raid_in raid.old) (raid_in raid.new) (slices_seen R.seen raid.old) (slices_seen R.seen raid.new) }
    ensures makes { (is_stale ≡ true) ⊎ (AreMarked (raid_in raid.old) → ⊥)
        → MakesTruths (raid_in raid.old) (raid_in raid.new) (slices_seen R.seen raid.old) (slices_seen R.seen raid.new) }
    ensures truths { is_stale ≡ false → KeepsTruths (raid_in raid.old) (raid_in raid.new) (slices_seen R.seen raid.old) (slices_seen R.seen raid.new) }
    ensures raises { RaisesBy 35 (raid_in raid.old) (raid_in raid.new) }
    ensures idle { is_stale ≡ false → AreMarked (raid_in raid.old)
        → (slices_in raid.new ≡ slices_in raid.old) × ((raid_in raid.new).state ≡ (raid_in raid.old).state) }
    ensures fit { IsFit (arrays_in raid.new) (slices_seen R.seen raid.new) }
    ensures refused { (n : ℕ) → refused_in raid.new n ≡ refused_in raid.old n }
    ensures written { (n : ℕ) → written_in raid.new n ≡ written_in raid.old n }
    ensures runs { SliceRuns R.seen R.runs (slices_in raid.old) (slices_in raid.new) }
{
    raid.mark_gone();
    if is_stale {
        raid.restate();
    }
}

/// The rack of a pool's arrays. Gates are closed first, then the copies of partition tables are made to agree. Places that are absent are
/// marked missing, and so are those whose drive goes meanwhile: their marks are durable when this returns, where a drive is left to write
/// them on. Where a superblock is stale, all are written anew then.
pub(crate) fn make_rack<R: Rack>(members: Members<R>, seconds: u64) -> RaidRack<R>
    requires seats { (p : ℕ) → seats_by members.seats p ≡ seat_of (tables members.slices) p }
    requires members { AreMembers members.state (tables members.slices) (R.seen (below_of members.slices)) members.checked members.absent.items }
    ensures fit { IsFit (arrays_in result) (slices_seen R.seen result) }
    ensures tables { tables (slices_in result) ≡ tables members.slices }
    ensures runs { R.runs (below_of members.slices) (below_of (slices_in result)) }
    // Only slices and partition tables are written.
    ensures only { WritesOnly (R.seen (below_of members.slices)) (R.seen (below_of (slices_in result)))
        (IsSlicedOrTable (R.seen (below_of members.slices)) (R.seen (below_of (slices_in result))) (tables members.slices)) }
    ensures fresh { (n : ℕ) → refused_in result n ≡ 0 }
    ensures unwritten { (n : ℕ) → written_in result n ≡ false }
    ensures made { (raid_in result).state.made ≡ members.state.made }
    ensures joined { (raid_in result).state.joined ≡ members.state.joined }
    ensures extent { (raid_in result).state.extent ≡ members.state.extent }
    ensures book { OnlyMarksSince members.state (raid_in result).state }
    // Its numbers rise by a bounded number: marks are one commit, and one more for each drive that goes meanwhile, and a last one is for stale superblocks.
    ensures raises { RaisesOver 35 members.state members.log.number members.checked.arrays.items (raid_in result) }
    // The arrays are those that were opened, whomever they have lost.
    ensures arrays { (n : ℕ) (v : View) → slice_get members.checked.arrays.items n ≡ Some v → IsSameArray v ((raid_in result).arrays n) }
    ensures small { total (λ n. sectors_of ((raid_in result).arrays n)) members.state.made < 2 ^ 52 }
    // Where no disk refuses a call, the absent places are marked missing, and no others, and no sector is spent unless numbers are used up.
    ensures marks { IsUnfaulted (R.seen (below_of members.slices)) (R.seen (below_of (slices_in result)))
        → MarksAbsent members.state members.absent.items (raid_in result) }
    // Whoever goes, a drive is marked missing only where it had no disk or that refused a call.
    ensures caused { AreMarkedFor (R.seen (below_of members.slices)) (R.seen (below_of (slices_in result))) (seat_of (tables members.slices)) members.state (raid_in result).state }
    // Whatever goes, each drive has its table at every moment. Where no disk refuses a call both copies of it agree in the end, durably, if the
    // check has said so of those only that agreed.
    ensures keeps { (p d : ℕ) → seat_of (tables members.slices) p ≡ Some d → KeepsTable (R.seen (below_of members.slices)) (R.seen (below_of (slices_in result))) d }
    ensures mended { IsUnfaulted (R.seen (below_of members.slices)) (R.seen (below_of (slices_in result)))
        → (p d : ℕ) → seat_of (tables members.slices) p ≡ Some d → IsTrueOf (R.seen (below_of members.slices)) d (flag_by members.checked.agreed p)
        → IsSettled (R.seen (below_of members.slices)) (R.seen (below_of (slices_in result))) d }
    // And where the disks are told and hold a sound pool at rest, in which the check found no fault, the arrays hold what the pool's
    // contents give.
    ensures holds { (f : Found) → HoldPool members.state (tables members.slices) (R.seen (below_of members.slices)) members.log f
        → IsChecked (is_well None) f members.checked
        → IsUnfaulted (R.seen (below_of members.slices)) (R.seen (below_of (slices_in result)))
        → HoldsArrays f (raid_in result) (slices_of (tables members.slices) (R.seen (below_of members.slices))) (slices_seen R.seen result) }
    // And what a stop leaves meanwhile holds the pool still, where no sector of the arrays is spent in the end.
    ensures moments { (f e : Found) → HoldPool members.state (tables members.slices) (R.seen (below_of members.slices)) members.log f
        → IsChecked (is_well None) f members.checked
        → HoldRested (R.seen (below_of members.slices)) f e
        → IsUnfaulted (R.seen (below_of members.slices)) (R.seen (below_of (slices_in result)))
        → AllLive (raid_in result)
        → (R.seen (below_of members.slices)).traced
        → Leaves (R.seen (below_of members.slices)) (R.seen (below_of (slices_in result))) (RecoversInOpening e 0) }
{
    let Members {
        slices,
        state,
        checked,
        log,
        seats,
        absent,
    } = members;
    let (mut slices, mut log, mut arrays) = (slices, log, checked.arrays);
    rules(arrays.as_slice());
    restart_rebuilds(arrays.as_mut_slice());
    // A stop amid the gates needs no replay: whatever was pending is written by now.
    let gone = close_gates(&mut slices, &mut log, &state, absent);
    // A stop in it leaves each disk the table that it had, in one valid copy at least.
    let left_out = mend_tables(&mut slices, &state, seats, &checked.agreed, &gone);
    note_gone(arrays.as_mut_slice(), &left_out);
    let mut raid = RaidRack::new(slices, state, arrays, log, seconds);
    // By commits: a stop leaves a pool that the next opening finds with the same drives absent, or with them marked.
    mark_gone(&mut raid, has_stale(checked.stale.as_slice()));
    raid
}
