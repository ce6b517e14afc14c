//! From the disks of a rack to a volume.

ghost use Rattle.std.specs.Prelude.{◌≡◌, ◌≢◌, ◌⊎◌, if◌then◌else◌, ◌&&◌, is_some, ◌<◌, ◌≤◌, ◌^◌, ℕ, true, false, IfOk, IfErr};
ghost use Rattle.rack.specs.Sequences.{OnlyReads};
ghost use Rattle.pool_rest.specs.Resting.{WritesDrives};
ghost use Rattle.assembler.specs.Causes.{HasRefusalCause};
ghost use Rattle.assembler_laws.specs.Marking.{MarksDrives};
ghost use Rattle.assembler.specs.Refusing.{by_volume, is_early};
ghost use Rattle.assembler.specs.declared.refusal.Refusal.TheVariants.{BadVolume, Memory};
ghost use Rattle.raid_laws.specs.Raid.{is_used_up};
ghost use Rattle.slice_rack.specs.SliceRack.{below_of, tables};
ghost use Rattle.slice_rack.specs.Slices.{seat_of};
ghost use Rattle.lvm_group.specs.Runs.{data_start};
ghost use Rattle.lvm_group.specs.Shown.{total, volume_of};
ghost use Rattle.lvm_group.specs.Volume.{below_of as rack_in, linear, seqno_of};
ghost use Rattle.assembler.specs.Sound.{HaveAgreed, HoldSound, IsMeantBy, IsMeantRefusal, KeepsPool, SayTruths, StopsHold};
ghost use Rattle.assembler.specs.Volume.{Agrees, OpensVolume, RefusesVolume};
ghost use Rattle.array_image.specs.States.{is_current};
ghost use Rattle.assembler.specs.Wanting.{HasUsedUp, LeavesPool};
ghost use Rattle.assembler_laws.specs.Writing.{WritesPool};
ghost use Rattle.pool_check.specs.Settling.{IsSettled, KeepsTable};
ghost use Rattle.pool_image.specs.Alike.{MeansTheSame};
ghost use Rattle.pool_image.specs.Disks.{disks_of};
ghost use Rattle.pool_image.specs.Drives.{Found};
ghost use Rattle.pool_scan.specs.Scanning.{IsUnfaulted, now_in};
ghost use Rattle.raid_rack.specs.RaidRack.{IsFit, arrays_in, raid_in, raid_seen, slices_in, slices_seen};
ghost use Rattle.array_model.specs.View.{sectors_of};

use crate::checks::check;
use crate::raid::make_rack;
use crate::refusal::{Refusal, by_finding, by_volume};
use lvm_group::{Volume, VolumeFault};
use pool_rest::bring_to_rest;
use rack::{Back, Rack};
use raid_rack::RaidRack;
use std::alloc::Global;

/// Makes the superblocks of each array agree where one was written: a write to an array marks its superblocks one after the other.
fn agree<R: Rack>(raid: &mut RaidRack<R>)
    requires fit { IsFit (arrays_in raid.old) (slices_seen R.seen raid.old) }
    ensures agrees { Agrees R.seen R.runs raid.old raid.new }
{
    if raid.has_written() {
        raid.restate();
    }
}

/// Makes the superblocks below a volume agree where its texts were brought up, and keeps it unless its pool's numbers are used up: then
/// each of its sectors would be refused.
fn keep_volume<R: Rack>(
    volume: Volume<RaidRack<R>>,
) -> Result<Volume<RaidRack<R>>, Back<RaidRack<R>, Refusal>>
    requires fit { (volume_of (linear volume) (raid_seen R.seen (rack_in volume))).fit }
    ensures fit { IfOk result (λ v. (volume_of (linear v) (raid_seen R.seen (rack_in v))).fit) }
    ensures same { IfOk result (λ v. (linear v ≡ linear volume) × (seqno_of v ≡ seqno_of volume)) }
    ensures agrees { IfOk result (λ v. Agrees R.seen R.runs (rack_in volume) (rack_in v)) }
    ensures unused { IfOk result (λ v. is_used_up (raid_in (rack_in v)) ≡ false) }
    ensures back { IfErr result (λ back. Agrees R.seen R.runs (rack_in volume) back.rack) }
    ensures refused { IfErr result (λ back. (back.why ≡ Memory) × (is_used_up (raid_in back.rack) ≡ true)) }
{
    let mut volume = volume;
    agree(volume.inner());
    if volume.below().is_used_up() {
        return Err(Back {
            rack: volume.into_inner(),
            why: Refusal::Memory,
        });
    }
    Ok(volume)
}

/// Why no volume was opened on these arrays: a bad one counts only where all their sectors could be read.
fn unopened<R: Rack>(raid: &RaidRack<R>, fault: VolumeFault) -> Refusal
    requires fit { IsFit (arrays_in raid.now) (slices_seen R.seen raid.now) }
    ensures why { result ≡ (if is_used_up (raid_in raid.now) then Memory else by_volume fault) }
    ensures late { is_early result ≡ false }
{
    if raid.is_used_up() {
        Refusal::Memory
    } else {
        by_volume(fault)
    }
}

/// Opens the volume on the arrays of a pool, whose superblocks agree after it where they did before. A refusal gives the disks back.
fn open_volume<R: Rack>(
    alloc: Global,
    raid: RaidRack<R>,
) -> Result<Volume<RaidRack<R>>, Back<R, Refusal>>
    requires fit { IsFit (arrays_in raid) (slices_seen R.seen raid) }
    requires small { total (λ n. sectors_of ((raid_in raid).arrays n)) (raid_in raid).state.made < 2 ^ 52 }
    requires sized { 0 < (raid_in raid).state.extent }
    requires some { 0 < (raid_in raid).state.joined }
    requires ready { (raid_in raid).state.joined ≤ (raid_in raid).state.made }
    ensures fit { IfOk result (λ volume. (volume_of (linear volume) (raid_seen R.seen (rack_in volume))).fit) }
    ensures opens { IfOk result (λ volume. OpensVolume R.seen R.runs raid (rack_in volume) (linear volume) (seqno_of volume)) }
    ensures refused { IfErr result (λ back. RefusesVolume R.seen R.runs raid back.rack back.why) }
    ensures late { IfErr result (λ back. is_early back.why ≡ false) }
    ensures returned { IfErr result (λ back. R.runs (below_of (slices_in raid)) back.rack) }
{
    let state = raid.state();
    let (pool, extent, joined) = (state.pool, state.extent, state.joined);
    match Volume::open(alloc, raid, &pool, extent, joined) {
        Ok(volume) => match keep_volume(volume) {
            Ok(volume) => Ok(volume),
            Err(back) => Err(give_back(back.rack, back.why)),
        },
        Err(back) => {
            let why = unopened(&back.rack, back.why);
            Err(give_back(back.rack, why))
        }
    }
}

/// The disks below a rack of arrays.
fn give_back<R: Rack>(raid: RaidRack<R>, why: Refusal) -> Back<R, Refusal>
    ensures rack { result.rack ≡ below_of (slices_in raid) }
    ensures why { result.why ≡ why }
{
    Back {
        rack: raid.into_inner().into_inner(),
        why,
    }
}

/// Opens the pool on the disks of a rack, in whatever order they are, and makes its volume; or answers the first refusal that
/// applies. Disks have fewer than 2^48 sectors. `seconds` since 1970 are the times in superblocks of arrays that are made in this run.
///
/// [`Refusal::Memory`] is answered where no memory could be had, and where epochs, events or numbers of commits are used up. The latter never comes on
/// a pool of which fewer than 2^62 changes were made.
///
/// Of the pool's disks only drives are written: the pending record before the checks, and after these gates that are open, copies of
/// partition tables that differ from their disk's table, the marks of an absent drive, superblocks with them or where one is stale, and the
/// volume's texts where an array lacks the newest one, with superblocks again after these.
pub fn assemble<R: Rack>(
    alloc: Global,
    rack: R,
    seconds: u64,
) -> Result<Volume<RaidRack<R>>, Back<R, Refusal>>
    requires fit { (R.seen rack).fit }
    requires lasting { (R.seen rack).lasting }
    requires small { (d : ℕ) → d < (R.seen rack).disks → (R.seen rack).sectors d < 2 ^ 48 }
    ensures fit { IfOk result (λ volume. (volume_of (linear volume) (raid_seen R.seen (rack_in volume))).fit) }
    ensures runs { IfOk result (λ volume. R.runs rack (below_of (slices_in (rack_in volume)))) }
    // Until the drives have passed their checks nothing is written but the pending record, on drives of the pool.
    ensures early { IfErr result (λ back. is_early back.why ≡ true → OnlyReads (R.seen rack) (R.seen back.rack) ⊎ WritesDrives (R.seen rack) (R.seen back.rack)) }
    // In all, only drives are written: sectors of their log slices, of the arrays' part, and of their partition tables.
    ensures drives { IfOk result (λ volume. WritesPool R.seen R.runs rack (below_of (slices_in (rack_in volume)))) }
    ensures written { IfErr result (λ back. OnlyReads (R.seen rack) (R.seen back.rack) ⊎ (WritesDrives (R.seen rack) (R.seen back.rack) ⊎ WritesPool R.seen R.runs rack back.rack)) }
    // Where the disks hold a sound pool and none refuses a call, the volume is the one that they mean, and no sector of the arrays is spent;
    // and no refusal but the meaning's is answered, want of memory apart.
    ensures meant { IfOk result (λ volume. (f : Found) → HoldSound (R.seen rack) f → IsUnfaulted (R.seen rack) (R.seen (below_of (slices_in (rack_in volume))))
        → IsMeantBy R.seen (R.seen rack) f (rack_in volume) (linear volume)) }
    // Then those drives alone are marked missing that the pool had marked, or that have no disk.
    ensures marks { IfOk result (λ volume. (f : Found) → HoldSound (R.seen rack) f → IsUnfaulted (R.seen rack) (R.seen (below_of (slices_in (rack_in volume))))
        → (p : ℕ) → is_current (raid_in (rack_in volume)).state p ≡ (is_current f.state p && is_some (f.seats p))) }
    // Whoever goes, drives are marked missing only where they had no disk, or that refused a call.
    ensures caused { IfOk result (λ volume. MarksDrives R.seen R.runs rack (below_of (slices_in (rack_in volume))) (raid_in (rack_in volume)).state) }
    // Whatever goes, each drive that the volume lies on has its partition table at every moment; where no disk refuses a call both copies are that
    // table in the end, durably.
    ensures keeps { IfOk result (λ volume. (p d : ℕ) → seat_of (tables (slices_in (rack_in volume))) p ≡ Some d
        → KeepsTable (R.seen rack) (R.seen (below_of (slices_in (rack_in volume)))) d) }
    ensures mended { IfOk result (λ volume. (f : Found) → HoldSound (R.seen rack) f → IsUnfaulted (R.seen rack) (R.seen (below_of (slices_in (rack_in volume))))
        → (p d : ℕ) → f.seats p ≡ Some d → IsSettled (R.seen rack) (R.seen (below_of (slices_in (rack_in volume)))) d) }
    // Then too the superblocks of each array agree, durably.
    ensures agreed { IfOk result (λ volume. (f : Found) → HoldSound (R.seen rack) f → IsUnfaulted (R.seen rack) (R.seen (below_of (slices_in (rack_in volume))))
        → HaveAgreed f (raid_in (rack_in volume)).state (slices_seen R.seen (rack_in volume))) }
    ensures truths { IfOk result (λ volume. (f : Found) → HoldSound (R.seen rack) f → IsUnfaulted (R.seen rack) (R.seen (below_of (slices_in (rack_in volume))))
        → SayTruths f (raid_in (rack_in volume)) (slices_seen R.seen (rack_in volume))) }
    ensures exact { IfErr result (λ back. (f : Found) → HoldSound (R.seen rack) f → IsUnfaulted (R.seen rack) (R.seen back.rack)
        → back.why ≢ Memory → IsMeantRefusal (R.seen rack) back.why) }
    // What a stop inside the opening leaves holds the pool still, so that it may be opened again: its arrays from their first extents on, and in whole where no
    // volume was opened, unless numbers are used up.
    ensures stops { IfOk result (λ volume. (f : Found) → HoldSound (R.seen rack) f → IsUnfaulted (R.seen rack) (R.seen (below_of (slices_in (rack_in volume))))
        → StopsHold (R.seen rack) (R.seen (below_of (slices_in (rack_in volume)))) f data_start) }
    ensures stopped { IfErr result (λ back. (f : Found) → HoldSound (R.seen rack) f → IsUnfaulted (R.seen rack) (R.seen back.rack)
        → StopsHold (R.seen rack) (R.seen back.rack) f 0 ⊎ HasUsedUp R.seen R.runs rack back.rack) }
    // Whatever the disks tell and whoever goes, a refusal has its cause in what was read of them.
    ensures cause { IfErr result (λ back. HasRefusalCause R.seen R.runs rack back.rack back.why) }
    // Sound disks that refuse no call mean what they meant, where they are refused before the arrays are made.
    ensures unmoved { IfErr result (λ back. (f : Found) → HoldSound (R.seen rack) f → IsUnfaulted (R.seen rack) (R.seen back.rack)
        → is_early back.why ≡ true → MeansTheSame (disks_of (R.seen rack)) (now_in (R.seen rack)) (now_in (R.seen back.rack))) }
    // And where an array's part of the volume is bad, what a stop leaves holds the arrays that the pool had, each drive has its table, and in the
    // end the disks hold a sound pool again, with the same group, bad arrays and volumes, which is refused as they were.
    ensures still { IfErr result (λ back. (f : Found) → HoldSound (R.seen rack) f → IsUnfaulted (R.seen rack) (R.seen back.rack)
        → (array : ℕ) → back.why ≡ BadVolume array → KeepsPool (R.seen rack) (R.seen back.rack) f) }
    // Where memory is wanting they mean what they meant, or hold the arrays that the pool had, unless numbers are used up.
    ensures wanting { IfErr result (λ back. (f : Found) → HoldSound (R.seen rack) f → IsUnfaulted (R.seen rack) (R.seen back.rack)
        → back.why ≡ Memory → LeavesPool R.seen R.runs rack back.rack f) }
    ensures returned { IfErr result (λ back. R.runs rack back.rack) }
{
    // A stop in it leaves the record pending still, or written; nothing else is written before the checks are passed.
    let rest = match bring_to_rest(alloc, rack) {
        Ok(rest) => rest,
        Err(back) => {
            return Err(Back {
                rack: back.rack,
                why: by_finding(back.why),
            });
        }
    };
    let members = match check(rest) {
        Ok(members) => members,
        Err(back) => return Err(back),
    };
    match open_volume(alloc, make_rack(members, seconds)) {
        Ok(volume) => Ok(volume),
        Err(back) => Err(back),
    }
}
